//! The outside of a process, as the traits of `norm_base`: streams ([`StdSource`], [`StdSink`]), files ([`FolderFiles`]), a clock
//! ([`HostClock`]), and the network that a profile names ([`HostFabric`]). [`InstanceFile`] keeps, from send to send, the instance above
//! which the next one that is drawn lies.
#![tactic(auto)]

mod folder;
mod folder_cause;
mod host_clock;
// Sockets are in norm_udp, so that after a change of a file's or a stream's adapter nothing of them is proved again. They are not published
// again here: the program meets them through `HostFabric`.
mod host_fabric;
mod instance_fault;
mod instance_file;
mod instances;
pub mod laws;
mod std_sink;
mod std_source;

pub use crate::folder::FolderFiles;
pub use crate::folder_cause::FolderCause;
pub use crate::host_clock::HostClock;
pub use crate::host_fabric::HostFabric;
pub use crate::instance_fault::InstanceFault;
pub use crate::instance_file::{InstanceFile, state_folder};
pub use crate::instances::{minute_at, next_instance};
pub use crate::std_sink::StdSink;
pub use crate::std_source::StdSource;
