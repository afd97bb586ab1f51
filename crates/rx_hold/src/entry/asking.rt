//! What an object of either kind needs: its incomplete blocks, how far a stream was seen, and its end.

ghost use Rattle.std.specs.Prelude.{◌≡◌, ◌+◌, option_map};
ghost use Rattle.norm_base.specs.Settings.{Settings};
ghost use Rattle.fec_plan.specs.Payload.{Name};
ghost use Rattle.fec_plan.specs.Points.{position};
ghost use Rattle.norm_receive_rules.specs.Short.{IsShortFrom};
ghost use Rattle.rx_hold.specs.Asked.{IsShort, end_in, seen_in};
ghost use Rattle.rx_hold.specs.EntryState.{alone_in, entry_of};

use crate::entry::Entry;
use fec_plan::PayloadId;

impl Entry {
    /// Returns the first incomplete block from the hand-up point on. `None` if all are done. It takes constant time.
    pub fn first_short(&self) -> Option<u32>
        ensures { IsShortFrom (alone_in (entry_of self.now)) (entry_of self.now).plan (entry_of self.now).point.block result }
    {
        match self {
            Entry::Object(object) => object.first_short(),
            Entry::Stream(stream) => stream.first_short(),
        }
    }

    /// Returns the next incomplete block after this one, which is incomplete. `None` if all later ones are done. It takes constant time.
    pub fn next_short(&self, block: u32) -> Option<u32>
        requires { IsShort (entry_of self.now) block }
        ensures { IsShortFrom (alone_in (entry_of self.now)) (entry_of self.now).plan (block + 1) result }
    {
        match self {
            Entry::Object(object) => object.next_short(block),
            Entry::Stream(stream) => stream.next_short(block),
        }
    }

    /// Returns the greatest block that was seen of a stream, 0 if none was. `None` for data and files.
    pub fn seen(&self) -> Option<u32>
        ensures { result ≡ seen_in self.now }
    {
        match self {
            Entry::Object(_) => None,
            Entry::Stream(stream) => Some(stream.seen()),
        }
    }

    /// Returns a stream's end, if it is held or its block is done. `None` otherwise, and for data and files.
    pub fn end(&self) -> Option<PayloadId>
        ensures { (p : Settings) → p.e ≡ (entry_of self.now).plan.fti.e
            → option_map (λ (id : Name). position (entry_of self.now).plan.index id.block id.symbol) result ≡ end_in p self.now }
    {
        match self {
            Entry::Object(_) => None,
            Entry::Stream(stream) => stream.end(),
        }
    }
}
