//! Pieces of octets, one after the other in one vector.

ghost use Rattle.std.specs.Prelude.{◌≡◌, ◌<◌, ◌++◌, ◌∷◌, [], length, slice_get, Some, sum_by, OnOk, OnErr};

use norm_base::Memory;
use std::alloc::Global;
use std::marker::Model;

/// A piece: the offset of its first octet, and its length in octets.
#[derive(Clone, Copy)]
pub(crate) struct Piece {
    from: usize,
    len: usize,
}

/// Pieces of octets. Contracts see the list of them. A piece may be empty.
// Each piece lies within the octets, and together they have as many: so the count of octets is that of what is kept.
#[derive(Drop)]
pub(crate) struct Row {
    octets: Vec<u8>,
    pieces: Vec<Piece>,
}

impl Model for Row {
    ghost use Rattle.std.specs.Prelude.{ℕ, List};

    ghost Value = { List (List ℕ) };

    ghost use Rattle.norm_record.specs.Pieces.{pieces_of, ArePieces};

    ghost view = { λ row. pieces_of row.octets.items row.pieces.items };

    ghost invariant = { λ row. ArePieces row.octets.items row.pieces.items };
}

impl Row {
    /// No pieces. It takes no memory.
    pub(crate) fn new(alloc: Global) -> Row
        ensures { result ≡ [] }
    {
        Row {
            octets: Vec::new(alloc),
            pieces: Vec::new(alloc),
        }
    }

    pub(crate) fn len(&self) -> usize
        ensures { result ≡ length self.now }
    {
        self.pieces.len()
    }

    pub(crate) fn octets(&self) -> usize
        ensures { result ≡ sum_by length self.now }
    {
        self.octets.len()
    }

    /// It takes constant time.
    pub(crate) fn piece(&self, at: usize) -> &[u8]
        requires { at < length self.now }
        ensures { slice_get self.now at ≡ Some result.now }
    {
        let Piece { from, len } = self.pieces[at];
        self.octets.as_slice().split_at(from).1.split_at(len).0
    }

    /// Copies one more piece to the end. If memory runs out, nothing changes.
    pub(crate) fn keep(&mut self, octets: &[u8]) -> Result<(), Memory>
        ensures kept { OnOk result (self.new ≡ self.old ++ octets.now ∷ []) }
        ensures refused { OnErr result (self.new ≡ self.old) }
    {
        self.pieces.reserve(1)?;
        let piece = Piece {
            from: self.octets.len(),
            len: octets.len(),
        };
        self.octets.extend_from_slice(octets)?;
        self.pieces.push_reserved(piece);
        Ok(())
    }
}
