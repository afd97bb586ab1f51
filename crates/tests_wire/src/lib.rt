//! Tests of `norm_base` and `norm_text`, of plans, the field and the code, and of the messages. There is a module for each crate that is tested.
#![tactic(auto)]

#[cfg(test)]
mod fec_plan_tests;
#[cfg(test)]
mod gf_field_tests;
#[cfg(test)]
mod norm_base_tests;
#[cfg(test)]
mod norm_codec_tests;
#[cfg(test)]
mod norm_objmsg_tests;
#[cfg(test)]
mod norm_text_tests;
#[cfg(test)]
mod rs_block_tests;
