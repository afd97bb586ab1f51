//! What an object of either kind hands up: data and files whole, and a stream segment by segment.

ghost use Rattle.std.specs.Prelude.{◌≡◌, MatchOption, is_none, true};
ghost use Rattle.norm_receive_rules.specs.HandingUp.{next_segment};
ghost use Rattle.rx_stream.specs.StreamState.{alone};
ghost use Rattle.rx_hold.specs.Handing.{GoesOn, cut_by_entry, is_stream, is_whole_object, object_in, up_of};

use crate::entry::Entry;
use norm_order::Up;
use rx_stream::Stream;

/// Whether the next segment of a stream is missing. One that waits for the info is not.
fn lacks_next(stream: &Stream) -> bool
    ensures { result ≡ is_none (next_segment (alone stream.now) stream.now.plan) }
{
    stream.next().is_none()
}

impl Entry {
    pub fn is_stream(&self) -> bool
        ensures { result ≡ is_stream self.now }
    {
        match self {
            Entry::Object(_) => false,
            Entry::Stream(_) => true,
        }
    }

    /// Whether this is data or a file, all its blocks are done, and if it has an info, that is held.
    pub fn is_whole(&self) -> bool
        ensures { result ≡ is_whole_object self.now }
    {
        match self {
            Entry::Object(object) => object.is_whole(),
            Entry::Stream(_) => false,
        }
    }

    /// Returns the hand-up of a whole object of data or a file. It takes no memory, and copies no octets.
    pub fn into_up(self) -> Up
        requires { is_whole_object self ≡ true }
        ensures { MatchOption (object_in self) ⊥ (λ o. result ≡ up_of o) }
    {
        match self {
            Entry::Object(object) => object.into_up(),
            // Ruled out by the clause: the caller asked `is_whole`.
            Entry::Stream(_) => unreachable!(),
        }
    }

    /// Whether this is a stream whose next segment is missing and in a block before this one.
    pub fn is_cut_off(&self, block: u32) -> bool
        ensures { result ≡ cut_by_entry block self.now }
    {
        match self {
            Entry::Object(_) => false,
            Entry::Stream(stream) => stream.first_block() < block && lacks_next(stream),
        }
    }

    /// Hands up the next segment of a stream, or its end. `None` if that or the stream's info is missing, and for data and files.
    pub fn hand_on(&mut self) -> Option<Up>
        ensures { GoesOn self.old result self.new }
    {
        match self {
            Entry::Object(_) => None,
            Entry::Stream(stream) => stream.hand_up(),
        }
    }
}
