//! A symbol in a buffer of its own, for callers that keep each symbol of a block apart. `Solver::solve_rows` takes a slice of them.

ghost use Rattle.std.specs.Prelude.{◌≡◌, length};

use std::marker::Model;

/// The octets of one symbol, owned. Their number never changes.
#[derive(Debug, Drop)]
pub struct Row(Vec<u8>);

impl Model for Row {
    ghost use Rattle.std.specs.Prelude.{ℕ, List};

    ghost Value = { List ℕ };

    ghost view = { λ row. row.0.items };
}

impl Row {
    /// Returns the symbol with these octets. It keeps their buffer.
    pub fn of(octets: Vec<u8>) -> Row
        ensures { result ≡ octets.items }
    {
        Row(octets)
    }

    pub fn octets(&self) -> &[u8]
        ensures { result.now ≡ self.now }
    {
        self.0.as_slice()
    }

    /// Overwrites the octets in place with as many others. Takes no memory.
    pub fn copy(&mut self, octets: &[u8])
        requires { length octets.now ≡ length self.old }
        ensures { self.new ≡ octets.now }
    {
        self.0.copy_from_slice(octets);
    }

    /// Returns the octets in their buffer. Takes no memory.
    pub fn into_inner(self) -> Vec<u8>
        ensures { result.items ≡ self }
    {
        self.0
    }
}
