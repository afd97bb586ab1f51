//! The [`Union`]: what is wanted of a sender's window, what was sent of it, and what the open round asks for.

ghost use Rattle.std.specs.Prelude.{◌≡◌, ◌<◌, ◌+◌, ◌-◌, ◌∷◌, [], length, IfOk, IsErr, MatchOption, None, Some, ℕ, List, slice_get, not, min, nat_lt};
ghost use Rattle.std.specs.List.{list_any};
ghost use Rattle.fec_plan.specs.Partition.{IsSound};
ghost use Rattle.fec_plan.specs.Points.{point};
ghost use Rattle.norm_order.specs.Entries.{Entry, Part, Stream};
ghost use Rattle.norm_order.specs.Shapes.{shape_of};
ghost use Rattle.norm_send_rules.specs.SenderState.{SenderState, Round, sender_opening};
ghost use Rattle.norm_send_rules.specs.InWindow.{stands_behind, last_index};
ghost use Rattle.norm_send_rules.specs.Enqueuing.{with_entry};
ghost use Rattle.norm_send_rules.specs.Streaming.{with_parts};
ghost use Rattle.norm_send_rules.specs.Restarting.{begun_anew};
ghost use Rattle.norm_send_rules.specs.Hearing.{joined_round};
ghost use Rattle.norm_send_rules.specs.Sending.{noted};
ghost use Rattle.norm_send_rules.specs.Dropping.{dropped_to};
ghost use Rattle.norm_send_rules.specs.Closing.{round_closed, asks_early};
ghost use Rattle.norm_send_rules.specs.declared.want.Want.{Want as Wanted};
ghost use Rattle.norm_send_rules.specs.declared.want.Want.TheVariants.{Symbol};
ghost use Rattle.nack_union.specs.Kept.{Marked, IsEncodedIn, OfLast, MayGrow, MayRetire, grown_to, admitted, admitted_stream, retired, with_object, shape_of_marked};
ghost use Rattle.nack_union.specs.UnionState.{UnionState, Stands, empty_union};
ghost use Rattle.nack_union.specs.UnionMoves.{UnionMoves};

use crate::collection::{Closed, Collection};
use fec_plan::{Plan, Position};
use norm_base::{Memory, Profile};
use norm_ext::Requests;
use norm_send_rules::Want;
use std::alloc::Global;
use std::marker::Model;

/// What a sender has to repeat of the objects in its window, and what the open repair round asks for (RFC 5740 section 5.4).
///
/// 1. [`admit`](Union::admit) each object that joins the window. A stream takes [`admit_stream`](Union::admit_stream), and [`grow`](Union::grow)
///    after its segments are closed.
/// 2. [`note_sent`](Union::note_sent) each symbol that is sent.
/// 3. [`add`](Union::add) the requests of each NACK.
/// 4. [`close_round`](Union::close_round) when the round ends. Then take the wants one by one with [`next`](Union::next).
/// 5. [`retire`](Union::retire) what the window drops.
///
/// [`clear`](Union::clear) begins another instance.
// Proof: the profile stands beside the collection and not in it. The laws of a collection then hold of any profile.
#[derive(Debug, Drop)]
pub struct Union {
    profile: Profile,
    collection: Collection,
}

// Proof: it stands for what it reads of a state (UnionReads), with what the open round was asked for.
// Proof: so a step of the sender needs no second relation beside it.
impl Model for Union {
    ghost use Rattle.nack_union.specs.UnionState.{UnionState};

    ghost Value = { UnionState };

    ghost view = { λ u. record { p = u.profile; kept = u.collection } };
}

impl Union {
    /// Creates a union with an empty window.
    // All room is taken as objects and streams are admitted: a sender that hears a NACK or ends a round cannot report that memory ran out.
    pub fn new(alloc: Global, profile: &Profile) -> Union
        ensures empty { result ≡ empty_union profile.now }
        ensures begun { (instance : ℕ) → Stands result (sender_opening profile.now instance) }
    {
        let collection = Collection::new(alloc);
        Union {
            profile: *profile,
            collection,
        }
    }

    /// Appends an object of which nothing is wanted and nothing was sent. `index` is the next one of this instance, from 0 on.
    ///
    /// # Errors
    ///
    /// `Memory` if memory runs out. The union stays as it was.
    // Two calls, `admit` and `admit_stream`: an object comes whole, with a number of blocks, all of it closed, and perhaps an info. A
    // stream joins with none of these.
    pub fn admit(&mut self, index: u32, plan: &Plan, info: bool) -> Result<(), Memory>
        requires { index ≡ self.old.kept.first + length self.old.kept.objects }
        ensures exact { IfOk result (λ _. self.new ≡ record self.old { kept = with_object (admitted plan.now info) self.old.kept }) }
        ensures stands { IfOk result (λ _. (entry : Entry) → shape_of self.old.p entry.object ≡ shape_of_marked (admitted plan.now info)
            → UnionMoves self.old self.new (with_entry entry)) }
        ensures memory { IsErr result → self.new ≡ self.old }
    {
        self.collection.admit(index, plan, info)?;
        Ok(())
    }

    /// Appends a stream without closed segments, with room for the profile's number of blocks. `index` is as for `admit`.
    ///
    /// # Errors
    ///
    /// `Memory` if memory runs out. The union stays as it was.
    pub fn admit_stream(&mut self, index: u32, plan: &Plan) -> Result<(), Memory>
        requires index { index ≡ self.old.kept.first + length self.old.kept.objects }
        requires stream { plan.now.l ≡ None }
        ensures exact { IfOk result (λ _. self.new ≡ record self.old { kept = with_object (admitted_stream plan.now self.old.p.blocks) self.old.kept }) }
        ensures stands { IfOk result (λ _. (entry : Entry) → shape_of self.old.p entry.object ≡ shape_of_marked (admitted_stream plan.now self.old.p.blocks)
            → UnionMoves self.old self.new (with_entry entry)) }
        ensures memory { IsErr result → self.new ≡ self.old }
    {
        self.collection.admit_stream(&self.profile, index, plan)?;
        Ok(())
    }

    /// Sets how many segments of the last object, a stream, are closed. `index` is the stream's. What the open round asks for so far takes
    /// in those that become closed only by a count of their block.
    pub fn grow(&mut self, index: u32, segments: u32)
        requires index { index + 1 ≡ self.old.kept.first + length self.old.kept.objects }
        requires last { OfLast (MayGrow self.old.p segments) self.old.kept }
        ensures exact { (m : Marked) → slice_get self.old.kept.objects (length self.old.kept.objects - 1) ≡ Some m
            → self.new ≡ record self.old { kept = grown_to segments m self.old.kept } }
        ensures stands { (parts : List Part) → segments ≡ (shape_of self.old.p (Stream parts)).closed → UnionMoves self.old self.new (with_parts parts) }
    {
        self.collection.grow(index, u64::from(segments));
    }

    /// Removes the last object: takes back its `admit` or `admit_stream`. Since that call, only `retire` may have come.
    pub fn withdraw(&mut self)
        requires { 0 < length self.old.kept.objects }
        ensures { (m : Marked) (u : UnionState) → self.old ≡ record u { kept = with_object m u.kept } → self.new ≡ u }
    {
        self.collection.withdraw();
    }

    /// Empties the window and the open round for another instance.
    pub fn clear(&mut self)
        ensures begun { (id : ℕ) → UnionMoves self.old self.new (begun_anew id) }
        ensures profile { self.new.p ≡ self.old.p }
    {
        self.collection.clear();
    }

    /// Drops everything before a block of an object. With the index after the last object's and block 0 it drops all. Returns whether something of
    /// what was dropped was wanted.
    pub fn retire(&mut self, index: u32, block: u32) -> bool
        requires { MayRetire index block self.old.kept }
        ensures exact { self.new ≡ record self.old { kept = retired index block self.old.kept } }
        ensures stands { UnionMoves self.old self.new (dropped_to (point index block)) }
        ensures wanted { (s : SenderState) → Stands self.old s → result ≡ list_any (λ want. not (stands_behind (point index block) want)) s.wants }
        ensures profile { self.new.p ≡ self.old.p }
    {
        self.collection.retire(index, block)
    }

    /// Notes that an encoded symbol of the window was sent. If it is parity, no later count takes it.
    pub fn note_sent(&mut self, at: Position)
        requires { IsEncodedIn self.old.kept at }
        ensures stands { UnionMoves self.old self.new (noted (Symbol at)) }
        ensures sound { (m : Marked) → slice_get self.old.kept.objects (at.index - self.old.kept.first) ≡ Some m → IsSound m.cut }
        ensures profile { self.new.p ≡ self.old.p }
    {
        self.collection.note_sent(at);
    }

    /// Returns the index of the last object that joined this instance and was not withdrawn, even if it was dropped since. It is 0 if
    /// there is none.
    pub fn known(&self) -> u32
        ensures { (s : SenderState) → Stands self.now s → result ≡ last_index s }
    {
        self.collection.known()
    }

    /// Adds the requests of a NACK to the open round, or to a new one, as far as the window has what they ask for. Of what lies before the
    /// window it notes only that it was asked for. Ignores an item whose object id stands for no index, and a range if that is so of one of
    /// its ends.
    pub fn add(&mut self, requests: Requests<'_>)
        ensures stands { (s : SenderState) (now : ℕ) → Stands self.old s → Stands self.new (joined_round self.old.p s now requests.entry) }
        ensures profile { self.new.p ≡ self.old.p }
    {
        self.collection.add(&self.profile, requests);
    }

    /// Whether anything is wanted.
    pub fn is_wanted(&self) -> bool
        ensures { (s : SenderState) → Stands self.now s → result ≡ nat_lt 0 (length s.wants) }
    {
        self.collection.is_wanted()
    }

    /// Takes out the first want in transport order, in which an object's info comes before its symbols. `None` if nothing is wanted.
    pub fn next(&mut self) -> Option<Want>
        ensures first { (s : SenderState) → Stands self.old s → MatchOption result ((s.wants ≡ []) × Stands self.new s)
            (λ want. (rest : List Wanted) × (s.wants ≡ want ∷ rest) × Stands self.new (record s { wants = rest })) }
        ensures profile { self.new.p ≡ self.old.p }
    {
        self.collection.next()
    }

    /// Closes the open round: what it asked for is wanted, and the next round begins empty (RFC 5740 section 5.4). Of a block that was
    /// counted, its lowest parity symbols that were never sent are wanted: as many as the count says, but at most its number of source
    /// symbols. If fewer are left, all its closed source symbols are wanted.
    pub fn close_round(&mut self) -> Closed
        ensures stands { (r : Round) (s : SenderState) → s.round ≡ Some r → Stands self.old s → Stands self.new (round_closed self.old.p r s) }
        ensures answer { (r : Round) (s : SenderState) → s.round ≡ Some r → Stands self.old s
            → (result.queued ≡ min (length (round_closed self.old.p r s).wants - length s.wants) 4294967295)
            × (result.early ≡ list_any (λ a. asks_early s.current.drop a.request) r.asked) }
        ensures profile { self.new.p ≡ self.old.p }
    {
        self.collection.close_round()
    }
}
