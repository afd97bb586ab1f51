//! Tests of what surrounds the program, but for its sockets: the process's streams, files and clock, the numbers of instances, lines of a
//! journal, and what a node tells its user. There is no other code here. Run them with `rt test`.
#![tactic(auto)]

#[cfg(test)]
mod calls;
#[cfg(test)]
mod folder;
#[cfg(test)]
mod host;
#[cfg(test)]
mod instances;
#[cfg(test)]
mod journal;
#[cfg(test)]
mod watch;
#[cfg(test)]
mod watch_rows;
