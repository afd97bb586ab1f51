//! What a receiver may need (RFC 5740 section 5.3): an object's incomplete blocks, how far a stream was seen, and its end.

ghost use Rattle.std.specs.Prelude.{◌≡◌, ◌≤◌, ◌<◌, ◌+◌, IfSome, false, option_map};
ghost use Rattle.fec_plan.specs.Payload.{Name};
ghost use Rattle.fec_plan.specs.Points.{point as point_at, point_before, point_of, position};
ghost use Rattle.norm_receive_rules.specs.Holding.{Holding};
ghost use Rattle.norm_receive_rules.specs.Plans.{plan_of};
ghost use Rattle.rx_hold.specs.EntryHold.{StandsFor};
ghost use Rattle.rx_hold.specs.Told.{IsFirstShort, first_short_at};
ghost use Rattle.norm_receive_rules.specs.Short.{IsShortFrom};
ghost use Rattle.rx_hold.specs.Asked.{IsShortIn, end_at, seen_at};
ghost use Rattle.rx_hold.specs.FrontSound.{IsFront, front_view, point_of_front};

use crate::front::Front;
use crate::ring::entry_at;
use fec_plan::PayloadId;

impl Front {
    /// Does what [`Hold::first_short`](crate::Hold::first_short) does.
    pub fn first_short(&self, index: u32) -> Option<u32>
        requires front { IsFront self.now }
        requires reached { self.now.point ≤ index }
        ensures exact { (s : Holding) → StandsFor (front_view self.now) s → result ≡ first_short_at s index }
        ensures first { (s : Holding) → StandsFor (front_view self.now) s → IfSome (plan_of s index) (λ plan. IsFirstShort s plan result) }
        ensures ahead { IfSome result (λ block. point_before (point_at index block) (point_of (point_of_front self.now)) ≡ false) }
        ensures short { IfSome result (λ block. IsShortIn (front_view self.now) index block) }
    {
        match self.entry(index) {
            Some(entry) => entry.first_short(),
            None => None,
        }
    }

    /// Does what [`Hold::next_short`](crate::Hold::next_short) does.
    pub fn next_short(&self, index: u32, block: u32) -> Option<u32>
        requires front { IsFront self.now }
        requires reached { self.now.point ≤ index }
        requires short { IsShortIn (front_view self.now) index block }
        ensures next { (s : Holding) → StandsFor (front_view self.now) s → IfSome (plan_of s index) (λ plan. IsShortFrom s plan (block + 1) result) }
        ensures behind { IfSome result (λ next. block < next) }
        ensures ahead { IfSome result (λ next. point_before (point_at index next) (point_of (point_of_front self.now)) ≡ false) }
        ensures short { IfSome result (λ next. IsShortIn (front_view self.now) index next) }
    {
        match self.entry(index) {
            Some(entry) => entry.next_short(block),
            None => None,
        }
    }

    /// Does what [`Hold::seen`](crate::Hold::seen) does.
    pub fn seen(&self, index: u32) -> Option<u32>
        requires front { IsFront self.now }
        requires reached { self.now.point ≤ index }
        ensures { (s : Holding) → StandsFor (front_view self.now) s → result ≡ seen_at s index }
    {
        match entry_at(&self.ring, self.point, index) {
            Some(entry) => entry.seen(),
            None => None,
        }
    }

    /// Does what [`Hold::end`](crate::Hold::end) does.
    pub fn end(&self, index: u32) -> Option<PayloadId>
        requires front { IsFront self.now }
        requires reached { self.now.point ≤ index }
        ensures { (s : Holding) → StandsFor (front_view self.now) s
            → option_map (λ (id : Name). position index id.block id.symbol) result ≡ end_at self.now.profile s index }
    {
        match entry_at(&self.ring, self.point, index) {
            Some(entry) => entry.end(),
            None => None,
        }
    }
}
