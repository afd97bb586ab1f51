//! The ids of a block's symbols, as bits of four 64-bit words.

ghost use Rattle.std.specs.Prelude.{◌≡◌, [], nat_lt};
ghost use Rattle.norm_order.specs.Sets.{with_member, is_member};

use std::marker::Model;

/// How many 64-bit words have a bit for each id.
// An id is an octet (RFC 5510 section 5.1), so 256 bits have room for each.
const WORDS: usize = 4;

/// A set of symbol ids of one block. It has 32 octets and allocates nothing.
#[derive(Debug, Drop)]
pub struct IdMask {
    words: [u64; WORDS],
}

impl Model for IdMask {
    ghost use Rattle.std.specs.Prelude.{◌≡◌, ℕ, List, length};

    ghost Value = { List ℕ };

    ghost use Rattle.symbol_mask.specs.Words.{places_of};

    ghost view = { λ m. (places_of 256 m.words).members };

    ghost invariant = { λ m. length m.words ≡ 4 };
}

impl IdMask {
    pub fn new() -> IdMask
        ensures { result ≡ [] }
    {
        IdMask { words: [0; WORDS] }
    }

    pub fn contains(&self, id: u8) -> bool
        ensures { result ≡ is_member nat_lt id self.now }
    {
        self.words[usize::from(id) / 64] >> (id % 64) & 1 == 1
    }

    pub fn insert(&mut self, id: u8)
        ensures { self.new ≡ with_member nat_lt id self.old }
    {
        self.words[usize::from(id) / 64] |= 1 << (id % 64);
    }
}
