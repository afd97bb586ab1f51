//! Tests of networks over sockets: members in one process and apart, hubs and groups. The ports of a test follow from the process's id and the
//! test, so that tests may run at the same time. There is no other code here. Run them with `rt test`.
#![tactic(auto)]

#[cfg(test)]
mod broken;
#[cfg(test)]
mod causes;
#[cfg(test)]
mod failures;
#[cfg(test)]
mod groups;
#[cfg(test)]
mod hosted;
#[cfg(test)]
mod listening;
#[cfg(test)]
mod networks;
#[cfg(test)]
mod passed_over;
#[cfg(test)]
mod sixteen;
#[cfg(test)]
mod sockets;
#[cfg(test)]
mod waits;
