//! The buffer that a tick writes a datagram into, and that a network fills with one.

ghost use Rattle.std.specs.Prelude.{◌≡◌, ◌+◌, ◌-◌, ◌≤◌, ℕ, List, [], ◌++◌, length, take, drop, IfOk, vec_len, vec_capacity};
ghost use Rattle.norm_base.specs.Sizes.{datagram_room};

use crate::fault::Memory;
use std::alloc::Global;
use std::marker::Model;

/// The most octets of a datagram.
// Our own choice: more than the 1,440 octets of the longest DATA. A longer datagram that comes is passed over, and none is written.
pub const DATAGRAM_ROOM: usize = 1500;

/// The most octets of a coded symbol: 1,400 of the symbol, and before them the eight of a segment's header.
// It follows from `e` up to 1,400 (own) and a segment's header (RFC 5740 section 4.2.1). It is the length of arrays in which symbols are made.
pub const SYMBOL_ROOM: usize = 1408;

/// A datagram of at most 1,500 octets. Only [`new`](Datagram::new) takes memory: room for all 1,500.
// All memory is taken by `new`: a tick writes a datagram, and cannot report that memory ran out.
#[derive(Debug, Drop)]
pub struct Datagram {
    bytes: Vec<u8>,
}

impl Model for Datagram {
    ghost Value = { List ℕ };

    ghost view = { λ d. d.bytes.items };

    ghost invariant = { λ d. (vec_len d.bytes ≤ datagram_room) × (datagram_room ≤ vec_capacity d.bytes) };
}

impl Datagram {
    /// Returns an empty datagram. Fails with `Memory` if the room cannot be reserved.
    pub fn new(alloc: Global) -> Result<Datagram, Memory>
        ensures { IfOk result (λ d. d ≡ []) }
    {
        let bytes = Vec::with_capacity(alloc, DATAGRAM_ROOM)?;
        Ok(Datagram { bytes })
    }

    /// Removes all octets. The room stays reserved.
    pub fn clear(&mut self)
        ensures { self.new ≡ [] }
    {
        self.bytes.clear();
    }

    pub fn bytes(&self) -> &[u8]
        ensures octets { result.now ≡ self.now }
        ensures most { length result.now ≤ datagram_room }
    {
        self.bytes.as_slice()
    }

    /// Returns how many octets [`push`](Datagram::push) may still append before there are 1,500.
    pub fn room(&self) -> usize
        ensures room { result ≡ datagram_room - length self.now }
        ensures most { length self.now ≤ datagram_room }
    {
        DATAGRAM_ROOM - self.bytes.len()
    }

    /// Appends octets. At most [`room`](Datagram::room) of them may be pushed.
    pub fn push(&mut self, part: &[u8])
        requires { length part.now ≤ datagram_room - length self.old }
        ensures { self.new ≡ self.old ++ part.now }
    {
        // It does not fail: the clause asks for room, and the room was reserved.
        self.bytes.extend_from_slice(part).unwrap();
    }
    /// Overwrites the octets from offset `at` on, for instance with a length that is known only after what it counts.
    pub fn replace(&mut self, at: usize, part: &[u8])
        requires { at + length part.now ≤ length self.old }
        ensures { self.new ≡ take at self.old ++ part.now ++ drop (at + length part.now) self.old }
    {
        self.bytes[at..at + part.len()].copy_from_slice(part);
    }
}
