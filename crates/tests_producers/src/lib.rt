//! Tests of what the threads of a session share: the ring of the producers, and the board of outcomes. There is no other code here.
#![tactic(auto)]

#[cfg(test)]
mod alone;
#[cfg(test)]
mod lines;
#[cfg(test)]
mod sessions;
#[cfg(test)]
mod threads;
