//! [`Asked`]: what the requests of one message ask for, before they are merged.

ghost use Rattle.std.specs.Prelude.{◌≡◌};
ghost use Rattle.norm_receive_rules.specs.Heard.{heard_nothing};

use crate::heard::{Count, Span};
use std::alloc::Global;
use std::marker::Model;

/// What requests ask for, in their order: symbols and infos as spans, and counts for blocks.
///
/// `named` is a buffer for the spans of a request that asks for them by several flags. The next such request overwrites it.
#[derive(Debug, Drop)]
pub struct Asked {
    alloc: Global,
    pub(crate) symbols: Vec<Span>,
    pub(crate) infos: Vec<Span>,
    pub(crate) counts: Vec<Count>,
    pub(crate) named: Vec<Span>,
}

impl Model for Asked {
    ghost use Rattle.norm_receive_rules.specs.Heard.{Heard as Meaning};

    ghost Value = { Meaning };

    ghost view = { λ a. record { symbols = a.symbols.items; infos = a.infos.items; counts = a.counts.items } };
}

impl Asked {
    /// Creates an empty one. It takes no memory.
    pub fn new(alloc: Global) -> Asked
        ensures { result ≡ heard_nothing }
    {
        Asked {
            alloc,
            symbols: Vec::new(alloc),
            infos: Vec::new(alloc),
            counts: Vec::new(alloc),
            named: Vec::new(alloc),
        }
    }

    /// Creates an empty one that takes its memory from the same allocator. It takes none yet.
    pub fn anew(&self) -> Asked
        ensures { result ≡ heard_nothing }
    {
        Asked::new(self.alloc)
    }

    /// Forgets what was read. It keeps its memory, and `named` as it is.
    pub(crate) fn clear(&mut self)
        ensures { self.new ≡ heard_nothing }
    {
        self.symbols.clear();
        self.infos.clear();
        self.counts.clear();
    }
}
