//! Taking objects up if their transmission information fits (RFC 5740 section 4.1 on EXT_FTI).

ghost use Rattle.std.specs.Prelude.{ℕ, ◌≡◌, ◌==◌, ◌&&◌, ◌||◌, ◌<◌, ◌≤◌, ◌+◌, ◌^◌, false, if◌then◌else◌, IfErr, IfOk, OnErr, MatchResult, None, Some, nat_le, nat_lt};
ghost use Rattle.norm_ext.specs.declared.fti.Fti.{Fti as FtiValue};
ghost use Rattle.norm_receive_rules.specs.Fitting.{fit_of, fitted, most_ahead, room_of, with_plan};
ghost use Rattle.norm_receive_rules.specs.Holding.{Holding};
ghost use Rattle.norm_receive_rules.specs.Plans.{cut_by, plan_of};
ghost use Rattle.norm_receive_rules.specs.declared.words.Fit.TheVariants as fit_word;
ghost use Rattle.rx_hold.specs.EntryHold.{StandsFor};
ghost use Rattle.rx_hold.specs.Fits.{MayTake, are_same};
ghost use Rattle.rx_hold.specs.FrontSound.{IsFront, IsUnused, front_view};

use crate::entry::{Entry, is_stream, plan_by, room_of};
use crate::front::Front;
use crate::handing_up::{octets_of, waiting_of};
use crate::ring::{PLACES, Seat, take_at};
use fec_plan::Plan;
use norm_base::{Memory, Profile};
use norm_ext::Fti;
use norm_receive_rules::{Fit, is_over};
use std::alloc::Global;

/// How many hand-ups get room when an object is taken up: a stream's open and its loss. Data and files need one.
// Each other hand-up of a stream gets room with its symbol, also its end.
const FIRST_UPS: usize = 2;

/// Whether both mean the same plan. The length of a stream is not compared.
fn is_same(fti: &Fti, flags: u8, known: &Fti, known_flags: u8) -> bool
    ensures { result ≡ are_same fti.now flags known.now known_flags }
{
    fti.e == known.e
        && fti.b == known.b
        && fti.max_n == known.max_n
        && is_stream(flags) == is_stream(known_flags)
        && (is_stream(flags) || fti.l == known.l)
}

/// Returns `Known` if transmission information matches the known plan, and `Unfit` otherwise.
fn known_word(fti: &Fti, flags: u8, known: &Fti, known_flags: u8) -> Fit
    ensures word { result ≡ (if are_same fti.now flags known.now known_flags then fit_word.Known else fit_word.Unfit) }
    ensures other { result ≡ fit_word.Taken → ⊥ }
{
    if is_same(fti, flags, known, known_flags) {
        return Fit::Known;
    }
    Fit::Unfit
}

/// Whether symbols of `e` octets and the block sizes of transmission information are those of the profile.
fn is_of(profile: &Profile, e: u16, fti: &Fti) -> bool
    ensures { result ≡ (e == profile.now.e && fti.now.b == profile.now.b && fti.now.max_n == profile.now.max_n) }
{
    e == profile.e && fti.b == profile.b && fti.max_n == profile.max_n
}

impl Front {
    /// Whether a new object is too far ahead, or there is no room for its octets.
    fn is_away(&self, index: u32, fti: &Fti, flags: u8) -> bool
        requires front { IsFront self.now }
        requires reached { self.now.point ≤ index }
        ensures { result ≡ (nat_le (self.now.point + most_ahead) index || nat_lt self.now.profile.octets (self.now.taken + room_of self.now.profile fti.now flags)) }
    {
        let profile = self.profile;
        // Bounded by octets too: data and files take room for all symbols at once.
        (index - self.point) as usize >= PLACES
            || self.taken + room_of(&profile, fti, flags) > u64::from(profile.octets)
    }

    /// Returns the plan by which to take an object up, or what to return instead.
    fn plan_for(&self, index: u32, fti: &Fti, flags: u8) -> Result<Plan, Fit>
        requires { IsFront self.now }
        ensures word { (s : Holding) → StandsFor (front_view self.now) s → MatchResult result (λ _. fit_of self.now.profile s index fti.now flags ≡ fit_word.Taken)
            (λ word. word ≡ fit_of self.now.profile s index fti.now flags) }
        ensures other { IfErr result (λ word. word ≡ fit_word.Taken → ⊥) }
        ensures plan { IfOk result (λ plan. plan ≡ cut_by fti.now flags) }
        ensures may { IfOk result (λ plan. MayTake self.now index fti.now flags plan) }
        ensures fresh { IfOk result (λ _. (s : Holding) → StandsFor (front_view self.now) s → plan_of s index ≡ None) }
    {
        if is_over(index, self.point) {
            return Err(Fit::Known);
        }
        if let Some(entry) = self.entry(index) {
            return Err(known_word(fti, flags, &entry.fti(), entry.flags()));
        }
        if self.is_away(index, fti, flags) {
            return Err(Fit::Away);
        }
        let Ok(plan) = plan_by(fti, flags) else {
            return Err(Fit::Unfit);
        };
        // Our own choice: `e`, `b` and `max_n` have to be the profile's. The solvers have room for `b` symbols of `e` octets.
        if !is_of(&self.profile, plan.e(), fti) {
            return Err(Fit::Unfit);
        }
        Ok(plan)
    }

    /// Takes up an object with this plan, and reserves room for its first hand-ups. If memory runs out nothing changes.
    fn take_up(
        &mut self,
        alloc: Global,
        index: u32,
        fti: &Fti,
        flags: u8,
        plan: &Plan,
    ) -> Result<(), Memory>
        requires front { IsFront self.old }
        requires may { MayTake self.old index fti.now flags plan.now }
        requires cut { plan.now ≡ cut_by fti.now flags }
        requires last { index < 4294967295 }
        ensures sound { IsFront self.new }
        ensures profile { self.new.profile ≡ self.old.profile }
        ensures state { IfOk result (λ _. (s : Holding) → StandsFor (front_view self.old) s → fit_of self.old.profile s index fti.now flags ≡ fit_word.Taken
            → StandsFor (front_view self.new) (with_plan index fti.now flags s)) }
        ensures unused { IfOk result (λ _. IsUnused (front_view self.new) index) }
        ensures refused { OnErr result (front_view self.new ≡ front_view self.old) }
    {
        let profile = self.profile;
        // All memory before the first change.
        let entry = Entry::new(alloc, index, fti, flags, plan, profile.blocks)?;
        self.reserve(FIRST_UPS)?;
        let place = (index - self.point) as usize;
        let seat = Seat {
            entry,
            waiting: FIRST_UPS,
        };
        self.seat(place, seat, room_of(&profile, fti, flags));
        Ok(())
    }

    /// Does what [`Hold::fti`](crate::Hold::fti) does.
    ///
    /// # Errors
    ///
    /// `Memory` if memory runs out; then nothing changes.
    pub fn fti(&mut self, alloc: Global, index: u32, fti: &Fti, flags: u8) -> Result<Fit, Memory>
        requires front { IsFront self.old }
        requires last { index < 4294967295 }
        ensures sound { IsFront self.new }
        ensures profile { self.new.profile ≡ self.old.profile }
        ensures state { IfOk result (λ word. (s : Holding) → StandsFor (front_view self.old) s
            → (word ≡ fit_of self.old.profile s index fti.now flags) × StandsFor (front_view self.new) (fitted word index fti.now flags s)) }
        ensures unused { IfOk result (λ word. word ≡ fit_word.Taken → IsUnused (front_view self.new) index) }
        ensures fresh { IfOk result (λ word. word ≡ fit_word.Taken → (s : Holding) → StandsFor (front_view self.old) s → plan_of s index ≡ None) }
        ensures refused { OnErr result (front_view self.new ≡ front_view self.old) }
    {
        match self.plan_for(index, fti, flags) {
            Ok(plan) => {
                self.take_up(alloc, index, fti, flags, &plan)?;
                Ok(Fit::Taken)
            }
            Err(word) => Ok(word),
        }
    }

    /// Removes an object of which nothing is held, so that it has no plan again.
    pub fn untake(&mut self, index: u32)
        requires front { IsFront self.old }
        requires unused { IsUnused (front_view self.old) index }
        ensures sound { IsFront self.new }
        ensures profile { self.new.profile ≡ self.old.profile }
        ensures state { (s : Holding) (f : FtiValue) (flags : ℕ) → plan_of s index ≡ None → StandsFor (front_view self.old) (with_plan index f flags s)
            → StandsFor (front_view self.new) s }
    {
        let profile = self.profile;
        let place = (index - self.point) as usize;
        let seat = take_at(&mut self.ring, place);
        self.taken -= octets_of(&profile, &seat);
        self.waiting -= waiting_of(&seat);
    }
}
