//! The network of a profile with `fabric = "udp"`: UDP sockets on this machine, or in a group at a broadcast address. `norm_host` makes a
//! [`UdpFabric`], gives it a [`SendingThread`] if one is to send, and has it join a group.
//! Inside, `sockets` opens, sends and receives: `hub` does so for the hub, `alone` for a member that offers to it, `joined` in a group. `poll` waits on
//! the sockets of a node. `lane` and `way` are what a sending thread works on. `udp_rules` decides where each member is, who listens, what is taken, and how long to wait.
#![tactic(auto)]

mod alone;
mod cause;
mod fabric;
mod hub;
mod joined;
mod lane;
pub mod laws;
mod member;
mod open_fault;
mod poll;
mod refusals;
mod sending_thread;
mod socket;
mod sockets;
mod way;

pub use crate::cause::SocketCause;
pub use crate::fabric::UdpFabric;
pub use crate::sending_thread::SendingThread;
