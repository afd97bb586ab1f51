//! Tests of a folder that is sent in memory, where the rows of a command cannot say what is found. There is no other code here.
#![tactic(auto)]

#[cfg(test)]
mod changes;
