//! What a sender has to send again, which it keeps until it is sent or dropped, or another instance begins. What it sends for the first
//! time has the same type.

use fec_plan::Position;

/// An object's info, or one of its encoded symbols.
#[derive(Clone, Copy, Debug, PartialEq, Eq)]
pub enum Want {
    Info { index: u32 },
    Symbol { at: Position },
}
