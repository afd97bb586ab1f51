//! What a receiver's hold answers. If several answers apply, the first in the order of these lists is given.

/// Whether an object's transmission information is taken.
#[derive(Clone, Copy, Debug, PartialEq, Eq)]
pub enum Fit {
    /// The plan is known already, or the object was handed up or lost.
    Known,
    /// The object is too far ahead, or it is new and there is no room for it.
    Away,
    /// The plan is faulty, or differs from the known one or from the profile.
    Unfit,
    /// The object is new, and its plan is kept.
    Taken,
}

/// Whether a symbol or an info is kept.
#[derive(Clone, Copy, Debug, PartialEq, Eq)]
pub enum Put {
    Kept,
    /// It is not needed: it is held already, its block has enough symbols, or its object was handed up or lost.
    Had,
    /// The object has no plan, or the stream's block is too far ahead.
    Away,
    /// It is not a symbol or an info of the object, or its length is wrong.
    Unfit,
}

/// What a block still needs.
#[derive(Clone, Copy, Debug, PartialEq, Eq)]
pub enum Missing {
    /// Unknown, because the object has no plan.
    Unseen,
    /// This many more symbols, with which it can be decoded.
    Short { wanted: u8 },
    /// Nothing: it has as many symbols as source symbols.
    Done,
}
