//! Owned octets and text. Contracts see both as a list of octets.

ghost use Rattle.std.specs.Prelude.{◌≡◌, ◌==◌, ℕ, List, string_bytes};
ghost use Rattle.std.specs.Cmp.Lexicographic.{pointwise};
ghost use Rattle.std.proofs.Common.{rules};
ghost use Rattle.std.specs.Cmp.Rules.{comparing};

use std::marker::Model;

/// A vector of octets. Contracts see a list.
// A type of its own, because clauses see it as a list: what a refusal gives back is then one equation.
#[derive(Clone, Debug, Drop)]
pub struct Octets(Vec<u8>);

impl Model for Octets {
    ghost Value = { List ℕ };

    ghost view = { λ octets. octets.0.items };
}

impl Octets {
    /// Wraps a vector. Takes no memory.
    pub fn of(inner: Vec<u8>) -> Octets
        ensures { result ≡ inner.items }
    {
        Octets(inner)
    }

    pub fn bytes(&self) -> &[u8]
        ensures { result.now ≡ self.now }
    {
        self.0.as_slice()
    }

    /// Returns the vector. Takes no memory.
    pub fn into_inner(self) -> Vec<u8>
        ensures { result.items ≡ self }
    {
        self.0
    }
}

impl PartialEq for Octets {
    ghost eq = { pointwise ◌==◌ };

    ghost laws = { Prim.search (comparing, rules) };

    fn eq(&self, other: &Octets) -> bool {
        self.0 == other.0
    }
}

impl Eq for Octets {
    ghost laws = { Prim.search (comparing, rules) };
}

/// A string. Contracts see its UTF-8 octets.
#[derive(Clone, Debug, Drop)]
pub struct Text(String);

impl Model for Text {
    ghost Value = { List ℕ };

    ghost view = { λ text. string_bytes text.0 };
}

impl Text {
    /// Wraps a string. Takes no memory.
    pub fn of(inner: String) -> Text
        ensures { result ≡ string_bytes inner }
    {
        Text(inner)
    }

    pub fn bytes(&self) -> &[u8]
        ensures { result.now ≡ self.now }
    {
        self.0.as_bytes()
    }

    /// Returns the string. Takes no memory.
    pub fn into_inner(self) -> String
        ensures { string_bytes result ≡ self }
    {
        self.0
    }
}

impl PartialEq for Text {
    ghost eq = { pointwise ◌==◌ };

    ghost laws = { Prim.search (comparing, rules) };

    fn eq(&self, other: &Text) -> bool {
        self.0 == other.0
    }
}

impl Eq for Text {
    ghost laws = { Prim.search (comparing, rules) };
}
