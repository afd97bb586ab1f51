//! What a receiver hands up to its user.

ghost use Rattle.std.specs.Prelude.{ℕ, ◌≡◌, ◌<◌, IfOk, slice_index, take};

use norm_base::{Kind, Memory, Octets};

/// One hand-up of a receiver. Hand-ups come in transport order.
#[derive(Debug, Drop)]
pub enum Up {
    /// A whole data object or file. The info of a file is its name.
    Object {
        index: u32,
        kind: Kind,
        info: Option<Octets>,
        bytes: Octets,
    },
    /// A stream begins.
    StreamOpen {
        index: u32,
    },
    /// The octets of one segment of a stream. `offset` is that of the first one.
    StreamBytes {
        index: u32,
        offset: u32,
        bytes: Octets,
    },
    /// A stream ended. It was handed up in full.
    StreamEnd {
        index: u32,
    },
    /// The sender dropped something of this object or stream that was not handed up. The rest of it is lost.
    Lost {
        index: u32,
    },
}

/// Returns the first `len` octets of these, in the same memory. Receivers cut off so what is not the user's: behind an object's octets the padding
/// of its last symbol, and behind a segment's its padding and the room that its header had.
pub fn first_octets(octets: Vec<u8>, len: usize) -> Octets
    ensures exact { result ≡ take len octets.items }
    ensures bytes { (i : ℕ) → slice_index octets.items i < 256 }
{
    let mut front = octets;
    front.truncate(len);
    Octets::of(front)
}

/// Returns a copy of the octets in a new buffer.
///
/// # Errors
///
/// `Memory` if memory runs out.
pub fn copy_of_octets(octets: &Octets) -> Result<Octets, Memory>
    ensures { IfOk result (λ copy. copy ≡ octets.now) }
{
    Ok(octets.clone()?)
}
