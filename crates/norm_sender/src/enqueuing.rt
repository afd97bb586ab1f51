//! Enqueues data objects and files (RFC 5740 section 5.1).
//!
//! An object may come in pieces: `begin`, then `fill` until all its octets are there, then `finish`. `leave` gives it up before that.

ghost use Rattle.std.specs.Prelude.{ℕ, ◌≡◌, ◌+◌, ◌<◌, ◌≤◌, ◌||◌, List, [], length, not, None, Some, Ok, IfOk, IfErr, IsErr, MatchOption};
ghost use Rattle.std.specs.List.{list_any};
ghost use Rattle.norm_base.specs.Settings.{InRange};
ghost use Rattle.norm_base.specs.declared.node.Origin.{Origin};
ghost use Rattle.norm_send_rules.specs.SenderState.{SenderState};
ghost use Rattle.norm_send_rules.specs.InWindow.{stands_behind};
ghost use Rattle.norm_send_rules.specs.Dropping.{dropped_to};
ghost use Rattle.norm_send_rules.specs.Enqueuing.{enqueued};
ghost use Rattle.tx_window.specs.Taking.{room_made, with_piece, GivesBack, IsRefusal};
ghost use Rattle.tx_window.specs.WindowState.{Filling, drop_of};
ghost use Rattle.nack_union.specs.Kept.{retired};
ghost use Rattle.nack_union.specs.UnionState.{Stands as UnionStands};
ghost use Rattle.nack_union.specs.UnionMoves.{UnionMoves};
ghost use Rattle.norm_sender.specs.SenderKept.{Agrees};
ghost use Rattle.norm_sender.specs.Filling.{Fills};
ghost use Rattle.norm_sender.specs.Inside.{kept_of};
ghost use Rattle.norm_sender.specs.Retiring.{CanRetire};
ghost use Rattle.norm_sender.specs.Wanted.{IsStanding};

use crate::parts::{Parts, hold_range};
use norm_base::{Kind, Octets};
use norm_send_rules::{EnqueueFault, Receipt};
use tx_window::{info_len, plan_of};

impl Parts {
    /// Call after the window may have dropped entries or blocks: forgets what is wanted of them. A squelch is due if anything was.
    pub(crate) fn retire(&mut self)
        requires { CanRetire self.old.union (drop_of self.old.window) }
        ensures rest { (self.new.profile ≡ self.old.profile) × (self.new.window ≡ self.old.window) × (self.new.book ≡ self.old.book) }
        ensures exact { self.new.union ≡ record self.old.union { kept = retired (drop_of self.old.window).index (drop_of self.old.window).block self.old.union.kept } }
        ensures few { (drop_of self.old.window).block ≤ 16777216 }
        ensures union { UnionMoves self.old.union self.new.union (dropped_to (drop_of self.old.window)) }
        ensures pace { (s : SenderState) → UnionStands self.old.union s → self.new.pace ≡ record self.old.pace {
          squelch_due = self.old.pace.squelch_due || list_any (λ want. not (stands_behind (drop_of self.old.window) want)) s.wants;
        } }
    {
        self.window.fits();
        let (index, block) = self.window.first();
        let dropped = self.union.retire(index, block);
        self.pace = self.pace.retired(dropped);
    }

    /// Begins an object of `len` octets: admits it to the union, and drops what has to go for it.
    ///
    /// # Errors
    ///
    /// The window's fault, with the info; or `Memory` without it. Then nothing changes.
    pub(crate) fn begin(
        &mut self,
        kind: Kind,
        info: Option<Octets>,
        len: u64,
    ) -> Result<(), (Option<Option<Octets>>, EnqueueFault)>
        requires { IsStanding (kept_of self.old) }
        ensures range { InRange self.old.profile }
        ensures profile { self.new.profile ≡ self.old.profile }
        ensures filling { IfOk result (λ _. self.new.window.filling ≡ Some (record { kind = kind; info = info; len = len; octets = [] })) }
        ensures begun { IfOk result (λ _. (s : SenderState) → Agrees (kept_of self.old) s
            → Fills (kept_of self.new) s (record { kind = kind; info = info; len = len; octets = [] })) }
        ensures refused { IfErr result (λ refusal. (s : SenderState) (octets : List ℕ) → Agrees (kept_of self.old) s → length octets ≡ len
            → IsRefusal self.old.profile s info octets refusal.1) }
        ensures back { IfErr result (λ refusal. GivesBack info refusal) }
        ensures same { IsErr result → kept_of self.new ≡ kept_of self.old }
    {
        hold_range(&self.profile);
        if let Some(fault) = self.window.object_fault(info_len(&info), len) {
            return Err((Some(info), fault));
        }
        let plan = plan_of(&self.profile, len as u32);
        let index = self.window.next_index();
        // The union first, and what was dropped is forgotten last: all memory is taken before anything is dropped. Until the object is finished
        // the union is ahead of the window by one.
        let Ok(()) = self.union.admit(index, &plan, info.is_some()) else {
            return Err((None, EnqueueFault::Memory));
        };
        match self.window.begin(kind, info, len) {
            Ok(()) => {
                self.retire();
                Ok(())
            }
            Err(refusal) => {
                // `begin` of the window may still run out of memory, before it drops anything.
                self.union.withdraw();
                Err(refusal)
            }
        }
    }

    /// Copies the next octets of the begun object into the window.
    pub(crate) fn fill(&mut self, piece: &[u8])
        requires { MatchOption self.old.window.filling ⊥ (λ f. length f.octets + length piece.now ≤ f.len) }
        ensures profile { self.new.profile ≡ self.old.profile }
        ensures filling { (f : Filling) → self.old.window.filling ≡ Some f → self.new.window.filling ≡ Some (with_piece piece.now f) }
        ensures fills { (s : SenderState) (f : Filling) → Fills (kept_of self.old) s f → Fills (kept_of self.new) s (with_piece piece.now f) }
    {
        self.window.fill(piece);
    }

    /// Adds the begun object to the end of the order. It cannot fail: `begin` took the memory and looked for each fault.
    pub(crate) fn finish(&mut self) -> Receipt
        requires { MatchOption self.old.window.filling ⊥ (λ f. length f.octets ≡ f.len) }
        ensures range { InRange self.old.profile }
        ensures profile { self.new.profile ≡ self.old.profile }
        ensures stands { (s : SenderState) (by : Origin) (f : Filling) → Fills (kept_of self.old) s f
            → Agrees (kept_of self.new) (enqueued self.old.profile s by f.kind f.info f.octets).0
            × (Ok result ≡ (enqueued self.old.profile s by f.kind f.info f.octets).1) }
    {
        hold_range(&self.profile);
        let len = u64::from(self.window.begun_len());
        let index = self.window.finish();
        Receipt::Object { index, len }
    }

    /// Gives up the begun object. What was dropped for it stays dropped.
    pub(crate) fn leave(&mut self)
        requires { 0 < length self.old.union.kept.objects }
        ensures profile { self.new.profile ≡ self.old.profile }
        ensures left { (s : SenderState) (f : Filling) → Fills (kept_of self.old) s f → Agrees (kept_of self.new) (room_made self.old.profile f.len s) }
    {
        self.window.leave();
        self.union.withdraw();
    }

    /// Enqueues an object with all its octets.
    ///
    /// # Errors
    ///
    /// As in `begin`, and the octets come back with the info.
    pub(crate) fn enqueue(
        &mut self,
        kind: Kind,
        info: Option<Octets>,
        bytes: Octets,
    ) -> Result<Receipt, (Option<(Option<Octets>, Octets)>, EnqueueFault)>
        requires { IsStanding (kept_of self.old) }
        ensures range { InRange self.old.profile }
        ensures profile { self.new.profile ≡ self.old.profile }
        ensures enqueued { IfOk result (λ receipt. (s : SenderState) (by : Origin) → Agrees (kept_of self.old) s
            → Agrees (kept_of self.new) (enqueued self.old.profile s by kind info bytes).0
            × (Ok receipt ≡ (enqueued self.old.profile s by kind info bytes).1)) }
        ensures refused { IfErr result (λ refusal. (s : SenderState) → Agrees (kept_of self.old) s
            → IsRefusal self.old.profile s info bytes refusal.1) }
        ensures back { IfErr result (λ refusal. GivesBack (info, bytes) refusal) }
        ensures same { IsErr result → kept_of self.new ≡ kept_of self.old }
    {
        match self.begin(kind, info, bytes.bytes().len() as u64) {
            Ok(()) => {
                self.fill(bytes.bytes());
                Ok(self.finish())
            }
            Err((back, fault)) => match back {
                Some(info) => Err((Some((info, bytes)), fault)),
                None => Err((None, fault)),
            },
        }
    }
}
