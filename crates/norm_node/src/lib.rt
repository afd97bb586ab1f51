//! One node of a session in a process of its own (RFC 5740 section 5): a receiver, or the hub between the nodes. `norm_program` calls
//! [`run_receiver`] and [`run_hub`].
//!
//! [`run_receiver`] does all turns of a [`ReceiverRun`]. Each turn (`turning`) takes datagrams (`taking`), prints what is handed up
//! (`handing`, with the name of a file from `naming`), and sends what the receiver answers (`answering`). [`run_hub`] passes on each
//! datagram that it takes.
#![tactic(auto)]

mod answering;
mod handing;
mod hub;
mod naming;
mod receiving;
mod run;
mod taking;
mod turning;

pub use crate::hub::run_hub;
pub use crate::receiving::run_receiver;
pub use crate::run::ReceiverRun;
