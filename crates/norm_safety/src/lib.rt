//! Safety of a sender and its receivers together (RFC 5740 section 5), as definitions over the rules of both: what a run of events is,
//! which runs are lawful, what was handed up, and when a run is safe. It has no code of its own. [`laws`] is what is proved; norm_journal,
//! norm_world, norm_relay and crates above them use the definitions.
#![tactic(auto)]

pub mod laws;
