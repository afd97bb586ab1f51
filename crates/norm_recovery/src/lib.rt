//! Laws of bounded recovery, over the rules of a sender and a receiver, the world of norm_safety and the laws of norm_laws: what holds along
//! every tail, whoever asks for what. And laws of sessions over a direct network, over the judge of norm_journal. It has no code of its own,
//! and no other crate depends on it. The laws are in [`laws`].
#![tactic(auto)]

pub mod laws;
