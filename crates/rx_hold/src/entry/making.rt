//! Creating an object of either kind: its plan, the octets that it counts for, and its empty [`Entry`].

ghost use Rattle.std.specs.Prelude.{◌≡◌, ◌<◌, ◌≤◌, ◌^◌, false, IfOk, MatchResult, None, Some};
ghost use Rattle.fec_plan.specs.Partition.{first_fault};
ghost use Rattle.norm_receive_rules.specs.Fitting.{room_of};
ghost use Rattle.norm_receive_rules.specs.Holding.{new_plan};
ghost use Rattle.norm_receive_rules.specs.Plans.{cut_by, says_stream};
ghost use Rattle.rx_hold.specs.EntryState.{IsOfKind, entry_of};
ghost use Rattle.rx_hold.specs.Fits.{empty_entry};

use crate::entry::Entry;
use fec_plan::{Plan, PlanFault};
use norm_base::{Memory, Profile};
use norm_ext::Fti;
use norm_ext::flags::STREAM;
use norm_ext::items::has_flag;
use rx_object::Object;
use rx_stream::Stream;
use std::alloc::Global;

pub fn is_stream(flags: u8) -> bool
    ensures { result ≡ says_stream flags }
{
    has_flag(flags, STREAM)
}

/// Returns how many octets an object counts for: the length of data or a file, or `blocks` * `b` * `e` for a stream.
pub fn room_of(profile: &Profile, fti: &Fti, flags: u8) -> u64
    ensures exact { result ≡ room_of profile.now fti.now flags }
    ensures most { result < 2 ^ 48 }
{
    if is_stream(flags) {
        return u64::from(profile.blocks) * u64::from(profile.b) * u64::from(profile.e);
    }
    fti.l
}

/// Returns the plan of an object with this transmission information, or what is wrong with it. The length of a stream is not looked at.
pub fn plan_by(fti: &Fti, flags: u8) -> Result<Plan, PlanFault>
    ensures { MatchResult result (λ plan. (first_fault (cut_by fti.now flags) ≡ None) × (plan ≡ cut_by fti.now flags)) (λ fault. first_fault (cut_by fti.now flags) ≡ Some fault) }
{
    if is_stream(flags) {
        return Plan::stream(fti.e, fti.b, fti.max_n);
    }
    Plan::of(fti.l, fti.e, fti.b, fti.max_n)
}

impl Entry {
    /// Creates an object of which nothing is held. Data and files take all the memory that their symbols need. A stream takes more as
    /// symbols come.
    ///
    /// # Errors
    ///
    /// `Memory` if memory runs out.
    pub fn new(
        alloc: Global,
        index: u32,
        fti: &Fti,
        flags: u8,
        plan: &Plan,
        blocks: u16,
    ) -> Result<Entry, Memory>
        requires cut { plan.now ≡ cut_by fti.now flags }
        requires length { says_stream flags ≡ false → fti.now.l ≤ 16777216 }
        requires some { 1 ≤ blocks }
        ensures state { IfOk result (λ entry. entry_of entry ≡ empty_entry (new_plan index fti.now flags) blocks) }
        ensures kind { IfOk result (λ entry. IsOfKind entry) }
    {
        if is_stream(flags) {
            let stream = Stream::new(alloc, index, fti, flags, plan, blocks)?;
            return Ok(Entry::Stream(stream));
        }
        let object = Object::new(alloc, index, fti, flags, plan)?;
        Ok(Entry::Object(object))
    }
}
