//! [`Hold`]: what a receiver holds of the sender's objects.

ghost use Rattle.std.specs.Prelude.{ℕ, ◌≡◌, ◌<◌, ◌≤◌, ◌+◌, [], IfOk, IfNone, IfSome, MatchOption, OnErr, is_some, length, not, option_map, false, ⊤};
ghost use Rattle.fec_plan.specs.Partition.{blocks};
ghost use Rattle.fec_plan.specs.Payload.{Name};
ghost use Rattle.fec_plan.specs.Points.{point as point_at, point_of, point_before, position};
ghost use Rattle.norm_ext.specs.declared.fti.Fti.{Fti as FtiValue};
ghost use Rattle.norm_receive_rules.specs.Acknowledging.{lost_nothing};
ghost use Rattle.norm_receive_rules.specs.Fitting.{fit_of, fitted, with_plan};
ghost use Rattle.norm_receive_rules.specs.HandingUp.{handed_up};
ghost use Rattle.norm_receive_rules.specs.Holding.{Holding, holding_nothing};
ghost use Rattle.norm_receive_rules.specs.Losing.{squelched};
ghost use Rattle.norm_receive_rules.specs.Plans.{holds, info_of, plan_of};
ghost use Rattle.norm_receive_rules.specs.Putting.{put_info_of, put_of, with_info, with_symbol};
ghost use Rattle.norm_receive_rules.specs.Seeing.{sees_block};
ghost use Rattle.norm_receive_rules.specs.Taking.{up_taken};
ghost use Rattle.norm_receive_rules.specs.declared.words.Fit.TheVariants as fit_word;
ghost use Rattle.rx_hold.specs.EntryHold.{StandsFor};
ghost use Rattle.rx_hold.specs.Told.{IsFirstShort, first_short_at, flags_at, missing_at, plan_at};
ghost use Rattle.norm_receive_rules.specs.Short.{IsShortFrom};
ghost use Rattle.rx_hold.specs.Asked.{IsShortIn, end_at, seen_at};
ghost use Rattle.rx_hold.specs.FrontSound.{IsUnused, flags_in, plan_in};
ghost use Rattle.rx_hold.specs.Handing.{IsSettled};
ghost use Rattle.rx_hold.specs.HoldSound.{empty_hold};

use crate::front::Front;
use crate::ring::{PLACES, fill};
use fec_plan::{PayloadId, Plan, Point, Position};
use norm_base::{Memory, Profile};
use norm_ext::Fti;
use norm_order::Up;
use norm_receive_rules::{Fit, Missing, Place, Put};
use rs_block::Solver;
use std::alloc::Global;
use std::collections::VecDeque;
use std::marker::Model;

/// The octets of a segment's header, which precede its data.
// RFC 5740 section 4.2.1: a stream's symbol begins with the eight octets of payload_len, payload_msg_start and payload_offset.
const SEGMENT_PLACE: usize = 8;

/// What a receiver holds. For each INFO or DATA:
/// 1. [`fti`](Hold::fti) takes the object up, if the message has transmission information. If it returns `Away` or `Unfit`, only
///    [`see`](Hold::see) follows.
/// 2. [`put`](Hold::put) or [`put_info`](Hold::put_info), and [`see`](Hold::see). If memory runs out in the first, [`untake`](Hold::untake)
///    undoes an `fti` that returned `Taken`.
/// 3. [`advance`](Hold::advance).
///
/// For a squelch, [`lose_before`](Hold::lose_before). After each, [`next_up`](Hold::next_up) until it returns `None`.
#[derive(Debug, Drop)]
pub struct Hold {
    alloc: Global,
    front: Front,
    /// Solves blocks of data and files.
    solver: Solver,
    /// Solves blocks of streams.
    // Two solvers, because a segment is coded with its header and so has eight octets more than a symbol of data or a file.
    stream_solver: Solver,
}

impl Model for Hold {
    ghost use Rattle.rx_hold.specs.EntryHold.{EntryHold};

    ghost Value = { EntryHold };

    ghost use Rattle.rx_hold.specs.Handing.{IsSettled};
    ghost use Rattle.rx_hold.specs.HoldSound.{hold_view, IsSoundHold};

    ghost view = { hold_view };

    ghost invariant = { IsSoundHold };
}

impl Hold {
    /// Creates an empty hold. Objects take memory as they are taken up, and may take more as their info and symbols come.
    ///
    /// # Errors
    ///
    /// `Memory` if memory runs out.
    pub fn new(alloc: Global, profile: &Profile) -> Result<Hold, Memory>
        ensures empty { IfOk result (λ hold. hold ≡ empty_hold profile.now) }
        ensures begun { IfOk result (λ hold. StandsFor hold holding_nothing) }
        ensures settled { IfOk result (λ hold. IsSettled hold) }
    {
        let mut ring = VecDeque::with_capacity(alloc, PLACES)?;
        fill(&mut ring);
        let size = usize::from(profile.e);
        let solver = Solver::new(alloc, profile.b, size)?;
        let stream_solver = Solver::new(alloc, profile.b, size + SEGMENT_PLACE)?;
        Ok(Hold {
            alloc,
            front: Front {
                profile: *profile,
                point: 0,
                ring,
                taken: 0,
                waiting: 0,
                ups: VecDeque::new(alloc),
                lost: false,
            },
            solver,
            stream_solver,
        })
    }

    /// Creates an empty hold of the same profile, for a new instance.
    ///
    /// # Errors
    ///
    /// `Memory` if memory runs out.
    // Made before the old one goes: if memory runs out, all must stay as it was.
    pub fn anew(&self) -> Result<Hold, Memory>
        ensures empty { IfOk result (λ hold. hold ≡ empty_hold self.now.p) }
        ensures begun { IfOk result (λ hold. StandsFor hold holding_nothing) }
        ensures settled { IfOk result (λ hold. IsSettled hold) }
    {
        Hold::new(self.alloc, &self.front.profile)
    }

    /// Forgets everything that is held, for another instance. It takes no memory.
    // A receiver uses `anew` instead, to keep the old hold if memory runs out.
    pub fn clear(&mut self)
        ensures empty { self.new ≡ empty_hold self.old.p }
        ensures begun { StandsFor self.new holding_nothing }
        ensures settled { IsSettled self.new }
    {
        self.front.ring.clear();
        fill(&mut self.front.ring);
        self.front.ups.clear();
        self.front.point = 0;
        self.front.taken = 0;
        self.front.waiting = 0;
        self.front.lost = false;
    }

    /// Returns the hand-up point: the next source symbol to hand up.
    pub fn hand_up(&self) -> Place
        ensures exact { position result.index result.block result.symbol ≡ self.now.point }
        ensures state { (s : Holding) → StandsFor self.now s → position result.index result.block result.symbol ≡ s.point }
    {
        Place {
            index: self.front.point,
            block: self.front.first_block(),
            symbol: self.front.first_symbol(),
        }
    }

    /// Returns how an object is cut. `None` until [`fti`](Hold::fti) took it up.
    pub fn plan(&self, index: u32) -> Option<Plan>
        requires { self.now.point.index ≤ index }
        ensures exact { result ≡ plan_in self.now index }
        ensures state { (s : Holding) → StandsFor self.now s → result ≡ plan_at s index }
    {
        self.front.plan(index)
    }

    /// Returns the flags with which an object was taken up. `None` if it was not.
    pub fn flags(&self, index: u32) -> Option<u8>
        requires { self.now.point.index ≤ index }
        ensures exact { result ≡ flags_in self.now index }
        ensures state { (s : Holding) → StandsFor self.now s → result ≡ flags_at s index }
    {
        self.front.flags(index)
    }

    /// Whether the info of an object is held. `false` also if it was not taken up.
    pub fn has_info(&self, index: u32) -> bool
        requires { self.now.point.index ≤ index }
        ensures { (s : Holding) → StandsFor self.now s → result ≡ is_some (info_of s index) }
    {
        self.front.has_info(index)
    }

    /// Whether a symbol came and was kept. A symbol that was decoded did not come.
    pub fn holds(&self, at: Position) -> bool
        requires { point_before (point_of at) (point_of self.now.point) ≡ false }
        ensures { (s : Holding) → StandsFor self.now s → result ≡ holds s at }
    {
        self.front.holds(at.index, at.block, at.symbol)
    }

    /// Returns what a block lacks: `Unseen` if its object was not taken up.
    pub fn missing(&self, index: u32, block: u32) -> Missing
        requires reached { point_before (point_at index block) (point_of self.now.point) ≡ false }
        requires block { MatchOption (plan_in self.now index) ⊤ (λ cut. block < blocks cut) }
        ensures { (s : Holding) → StandsFor self.now s → result ≡ missing_at s index block }
    {
        self.front.missing(index, block)
    }

    /// Returns the first incomplete block of an object. `None` if it has no plan, or all its blocks are done. It takes constant time.
    pub fn first_short(&self, index: u32) -> Option<u32>
        requires { self.now.point.index ≤ index }
        ensures exact { (s : Holding) → StandsFor self.now s → result ≡ first_short_at s index }
        ensures first { (s : Holding) → StandsFor self.now s → IfSome (plan_of s index) (λ plan. IsFirstShort s plan result) }
        ensures ahead { IfSome result (λ block. point_before (point_at index block) (point_of self.now.point) ≡ false) }
        ensures short { IfSome result (λ block. IsShortIn self.now index block) }
    {
        self.front.first_short(index)
    }

    /// Returns the next incomplete block of an object after this one. `None` if all later blocks are done. It takes constant time.
    pub fn next_short(&self, index: u32, block: u32) -> Option<u32>
        requires reached { self.now.point.index ≤ index }
        requires short { IsShortIn self.now index block }
        ensures next { (s : Holding) → StandsFor self.now s → IfSome (plan_of s index) (λ plan. IsShortFrom s plan (block + 1) result) }
        ensures behind { IfSome result (λ next. block < next) }
        ensures ahead { IfSome result (λ next. point_before (point_at index next) (point_of self.now.point) ≡ false) }
        ensures short { IfSome result (λ next. IsShortIn self.now index next) }
    {
        self.front.next_short(index, block)
    }

    /// Returns the greatest block that was seen of a stream, 0 if none was. `None` if this index has no stream.
    pub fn seen(&self, index: u32) -> Option<u32>
        requires { self.now.point.index ≤ index }
        ensures { (s : Holding) → StandsFor self.now s → result ≡ seen_at s index }
    {
        self.front.seen(index)
    }

    /// Returns the position of a stream's end, if the end is held or its block is done. `None` otherwise, and if this index has no stream.
    /// It looks at the stream's blocks one by one.
    pub fn end(&self, index: u32) -> Option<PayloadId>
        requires { self.now.point.index ≤ index }
        ensures { (s : Holding) → StandsFor self.now s → option_map (λ (id : Name). position index id.block id.symbol) result ≡ end_at self.now.p s index }
    {
        self.front.end(index)
    }

    /// Whether an object, or the rest of a stream, was lost since the hold was made or cleared.
    pub fn has_lost(&self) -> bool
        ensures { (s : Holding) → StandsFor self.now s → lost_nothing s ≡ not result }
    {
        self.front.lost
    }

    /// Returns how many hand-ups [`next_up`](Hold::next_up) would return now before `None`.
    pub fn ups(&self) -> usize
        ensures { result ≡ length self.now.ups }
    {
        self.front.ups.len()
    }

    /// Notes that a block was seen, whether or not its symbol was kept. Only a stream keeps it, if it is the greatest.
    pub fn see(&mut self, at: Point)
        ensures profile { self.new.p ≡ self.old.p }
        ensures state { (s : Holding) → StandsFor self.old s → StandsFor self.new (sees_block at s) }
    {
        self.front.see_block(at.index, at.block);
    }

    /// Takes the next hand-up, in transport order. `None` if all were taken. It takes no memory.
    pub fn next_up(&mut self) -> Option<Up>
        ensures profile { self.new.p ≡ self.old.p }
        ensures none { IfNone result ((self.old.ups ≡ []) × (self.new ≡ self.old)) }
        ensures rest { self.new ≡ record self.old { ups = self.new.ups } }
        ensures settled { IsSettled self.old → IsSettled self.new }
        ensures state { (s : Holding) → StandsFor self.old s → (result ≡ (up_taken s).1) × StandsFor self.new (up_taken s).0 }
    {
        self.front.ups.pop_front()
    }

    /// Keeps a symbol of an object if it is new.
    ///
    /// Returns the first result that applies:
    /// - `Had` if the object was handed up or lost, the symbol is held, or its block is done or was handed up.
    /// - `Away` if the object has no plan, or its stream has no room for the block yet.
    /// - `Unfit` if the object has no such encoded symbol, or the payload is not of its form.
    /// - `Kept`.
    ///
    /// # Errors
    ///
    /// `Memory` if memory runs out; then nothing changes.
    pub fn put(&mut self, index: u32, id: PayloadId, payload: &[u8]) -> Result<Put, Memory>
        ensures profile { self.new.p ≡ self.old.p }
        ensures state { IfOk result (λ word. (s : Holding) → StandsFor self.old s
            → (word ≡ put_of self.old.p s (position index id.block id.symbol) payload.now)
            × StandsFor self.new (with_symbol word (position index id.block id.symbol) payload.now s)) }
        ensures refused { OnErr result (self.new ≡ self.old) }
    {
        self.front.put(
            index,
            id,
            payload,
            &mut self.solver,
            &mut self.stream_solver,
        )
    }

    /// Takes an object up if its transmission information and flags fit and are new. Data and files take all the memory that their symbols
    /// need; a stream takes more as symbols come.
    ///
    /// Returns the first result that applies:
    /// - `Known` if the object has this plan already, or was handed up or lost. The length of a stream is not compared.
    /// - `Away` if it is 256 objects or more ahead, or is new and there is no room for its octets. A stream counts for
    ///   `blocks` * `b` * `e` octets.
    /// - `Unfit` if the plan is refused, differs from the known one, or is not of the profile.
    /// - `Taken`.
    ///
    /// # Errors
    ///
    /// `Memory` if memory runs out; then nothing changes.
    pub fn fti(&mut self, index: u32, fti: &Fti, flags: u8) -> Result<Fit, Memory>
        requires { index < 4294967295 }
        ensures profile { self.new.p ≡ self.old.p }
        ensures state { IfOk result (λ word. (s : Holding) → StandsFor self.old s
            → (word ≡ fit_of self.old.p s index fti.now flags) × StandsFor self.new (fitted word index fti.now flags s)) }
        ensures unused { IfOk result (λ word. word ≡ fit_word.Taken → IsUnused self.new index) }
        ensures fresh { IfOk result (λ word. word ≡ fit_word.Taken → (s : Holding) → StandsFor self.old s → plan_of s index ≡ None) }
        ensures refused { OnErr result (self.new ≡ self.old) }
    {
        self.front.fti(self.alloc, index, fti, flags)
    }

    /// Undoes an [`fti`](Hold::fti) that returned `Taken`. Nothing of the object was put or seen since.
    pub fn untake(&mut self, index: u32)
        requires { IsUnused self.old index }
        ensures profile { self.new.p ≡ self.old.p }
        ensures state { (s : Holding) (f : FtiValue) (flags : ℕ) → plan_of s index ≡ None → StandsFor self.old (with_plan index f flags s) → StandsFor self.new s }
    {
        self.front.untake(index);
    }

    /// Keeps the info of an object if it is new.
    ///
    /// Returns the first result that applies:
    /// - `Had` if the object was handed up or lost, or its info is held.
    /// - `Away` if it has no plan.
    /// - `Unfit` if the info has more than `e` octets, or the object's flags lack INFO.
    /// - `Kept`.
    ///
    /// # Errors
    ///
    /// `Memory` if memory runs out; then nothing changes.
    pub fn put_info(&mut self, index: u32, info: &[u8]) -> Result<Put, Memory>
        ensures profile { self.new.p ≡ self.old.p }
        ensures state { IfOk result (λ word. (s : Holding) → StandsFor self.old s
            → (word ≡ put_info_of self.old.p s index info.now) × StandsFor self.new (with_info word index info.now s)) }
        ensures refused { OnErr result (self.new ≡ self.old) }
    {
        self.front.keep_info(self.alloc, index, info)
    }

    /// Hands up everything that is ready, in order. It takes no memory.
    pub fn advance(&mut self)
        ensures profile { self.new.p ≡ self.old.p }
        ensures state { (s : Holding) → StandsFor self.old s → StandsFor self.new (handed_up self.old.p s) }
        ensures settled { IsSettled self.new }
    {
        self.front.advance();
    }

    /// Gives up what is missing before the sender's window, which begins at this block. It hands up what is ready of each earlier object,
    /// and reports the object as lost if anything is left. If the window begins within a stream whose next segment is missing and was
    /// dropped, the rest of the stream is lost too. An object without a plan counts as such a stream if `block` is above 0. Last, it hands
    /// up everything that is ready from there on.
    ///
    /// # Errors
    ///
    /// `Memory` if memory runs out; then nothing changes.
    pub fn lose_before(&mut self, index: u32, block: u32) -> Result<(), Memory>
        requires { index < 4294967295 }
        ensures profile { self.new.p ≡ self.old.p }
        ensures state { IfOk result (λ _. (s : Holding) → StandsFor self.old s → StandsFor self.new (squelched self.old.p (point_at index block) s)) }
        ensures settled { IfOk result (λ _. IsSettled self.new) }
        ensures refused { OnErr result (self.new ≡ self.old) }
    {
        self.front.squelch(index, block)
    }
}
