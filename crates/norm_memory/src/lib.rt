//! The outside of a node in memory, by the traits of `norm_base`: sources, sinks, files, clocks and networks. `norm_host` runs sessions in one
//! process over [`DirectFabric`] and [`ChanceFabric`]. Tests use the other networks, and the sources, sinks, files and clocks.
#![tactic(auto)]

mod calls;
mod chance_fabric;
mod copy;
mod direct_fabric;
mod fate;
mod feed_fabric;
mod list_fabric;
mod mem_clock;
mod mem_files;
mod mem_sink;
mod mem_source;
mod network;
mod offers;
mod rule;
mod waiting;

pub use crate::chance_fabric::ChanceFabric;
pub use crate::copy::WaitingCopy;
pub use crate::direct_fabric::DirectFabric;
pub use crate::fate::Fate;
pub use crate::feed_fabric::FeedFabric;
pub use crate::list_fabric::ListFabric;
pub use crate::mem_clock::MemClock;
pub use crate::mem_files::MemFiles;
pub use crate::mem_sink::MemSink;
pub use crate::mem_source::MemSource;
pub use crate::rule::Rule;
