//! What a NORM receiver holds of the sender's objects (data, files and streams) until it hands them up (RFC 5740 section 5.2).
//!
//! Callers meet [`Hold`]. It wraps a `Front`, which has a ring of 256 slots for the objects from the hand-up point on. Each object is an
//! `Entry`, of `rx_object` or `rx_stream`, in its `Seat`. `fitting` takes objects up, `handing_up` hands up what comes next, and `losing`
//! does what a squelch says.
#![tactic(auto)]

mod entry;
mod fitting;
mod front;
mod handing_up;
mod hold;
mod losing;
mod needs;
mod ring;

pub use crate::hold::Hold;
