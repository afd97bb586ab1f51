//! A ring of octets. An object lies in it in one piece, or in two if it goes past the end.

ghost use Rattle.std.specs.Prelude.{ℕ, List, ◌≡◌, ◌<◌, ◌≤◌, ◌+◌, ◌-◌, ◌++◌, IfOk, length, min, replicate, take, drop};
ghost use Rattle.tx_object.specs.Round.{round, IsClear, IsAround};

use norm_base::{Memory, SYMBOL_ROOM};
use std::alloc::Global;
use std::marker::Model;

/// Octets in a ring: the first one comes after the last one.
#[derive(Debug, Drop)]
pub struct Ring {
    octets: Vec<u8>,
}

impl Model for Ring {
    ghost use Rattle.std.specs.Prelude.{ℕ, List};

    ghost Value = { List ℕ };

    ghost view = { λ r. r.octets.items };
}

fn put(octets: &mut [u8], start: usize, piece: &[u8])
    requires { start + length piece.now ≤ length octets.old }
    ensures { octets.new ≡ take start octets.old ++ piece.now ++ drop (start + length piece.now) octets.old }
{
    octets[start..start + piece.len()].copy_from_slice(piece);
}

impl Ring {
    /// Returns a ring of `len` zeros. It takes no more memory later.
    ///
    /// # Errors
    ///
    /// `Memory` if memory runs out.
    pub fn new(alloc: Global, len: usize) -> Result<Ring, Memory>
        ensures { IfOk result (λ ring. ring ≡ replicate len 0) }
    {
        let octets = vec![in alloc; 0; len]?;
        Ok(Ring { octets })
    }

    pub fn len(&self) -> usize
        ensures { result ≡ length self.now }
    {
        self.octets.len()
    }

    /// The offset `count` octets after `at`, around the end if need be.
    pub fn behind(&self, at: usize, count: usize) -> usize
        requires at { at < length self.now }
        requires count { count ≤ length self.now }
        ensures { IsAround (length self.now) (at + count) result }
    {
        // Compared before anything is added, so that no sum exceeds the ring.
        let to_end = self.octets.len() - at;
        if count < to_end {
            at + count
        } else {
            count - to_end
        }
    }

    /// Returns `len` octets from offset `start` on: those up to the ring's end, and the rest from its beginning.
    // Proof: a ring is its octets twice, so two pieces of a ring are two pieces of two lists, and range_is serves both.
    pub fn pieces(&self, start: usize, len: usize) -> (&[u8], &[u8])
        requires start { start < length self.now }
        requires len { len ≤ length self.now }
        ensures octets { result.0.now ++ result.1.now ≡ round self.now start len }
        ensures front_len { length result.0.now ≡ min len (length self.now - start) }
    {
        let (_, behind) = self.octets.as_slice().split_at(start);
        let in_front = len.min(behind.len());
        (
            behind.split_at(in_front).0,
            self.octets.as_slice().split_at(len - in_front).0,
        )
    }

    /// Copies octets into the ring from offset `start` on, around the end if need be.
    pub fn write(&mut self, start: usize, piece: &[u8])
        requires start { start < length self.old }
        requires len { length piece.now ≤ length self.old }
        ensures size { length self.new ≡ length self.old }
        ensures written { round self.new start (length piece.now) ≡ piece.now }
        ensures others { (other len : ℕ) → IsClear (length self.old) start (length piece.now) other len
            → round self.new other len ≡ round self.old other len }
    {
        let in_front = piece.len().min(self.octets.len() - start);
        let (first, rest) = piece.split_at(in_front);
        put(&mut self.octets, start, first);
        put(&mut self.octets, 0, rest);
    }

    /// Puts `len` zeros into the ring from offset `start` on, around the end if need be: at most those of one symbol, 1,400.
    pub fn clear(&mut self, start: usize, len: usize)
        requires start { start < length self.old }
        requires len { len ≤ length self.old }
        requires most { len ≤ 1400 }
        ensures size { length self.new ≡ length self.old }
        ensures cleared { round self.new start len ≡ replicate len 0 }
        ensures others { (other count : ℕ) → IsClear (length self.old) start len other count
            → round self.new other count ≡ round self.old other count }
    {
        let zeros = [0; SYMBOL_ROOM];
        let (piece, _) = zeros.as_slice().split_at(len);
        self.write(start, piece);
    }
}
