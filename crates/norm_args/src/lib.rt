//! What the words of the command line ask the program to do. [`task_of`] reads those of `session`, `show`, `generate` and `mirror`, and [`node_task_of`]
//! those of `send`, `recv` and `hub`, which run one node of a session over a network, and of `gather` and `relay`. Each first word has a simple
//! command of `clap`. The program (`norm_program`) calls both and does what the [`Task`] or [`NodeTask`] says. `normd` calls `node_task_of` before,
//! to number a send, and [`group_asked`], which finds the group that a node of its own is to join.
#![tactic(auto)]

mod forms;
mod group;
mod groups;
mod node_tasks;
mod tasks;

pub use crate::group::GroupAddress;
pub use crate::groups::group_asked;
pub use crate::node_tasks::{NodeTask, Pairs, node_task_of};
pub use crate::tasks::{Options, Task, task_of};
