//! Streams (RFC 5740 section 5.1 on NORM_OBJECT_STREAM): opens one, writes to it, cuts and closes it.

ghost use Rattle.std.specs.Prelude.{◌≡◌, List, Ok, IfOk, IfErr, IsErr};
ghost use Rattle.norm_base.specs.Settings.{InRange};
ghost use Rattle.norm_base.specs.declared.node.Origin.{Origin};
ghost use Rattle.fec_plan.specs.Partition.{stream_cut};
ghost use Rattle.norm_order.specs.Entries.{Part};
ghost use Rattle.norm_send_rules.specs.SenderState.{SenderState};
ghost use Rattle.norm_send_rules.specs.Streaming.{opened, wrote, closed, cut, with_parts};
ghost use Rattle.tx_window.specs.Taking.{IsUnopened};
ghost use Rattle.nack_union.specs.UnionState.{Stands as UnionStands};
ghost use Rattle.norm_sender.specs.SenderKept.{Agrees};
ghost use Rattle.norm_sender.specs.SenderMoves.{IsBehind};
ghost use Rattle.norm_sender.specs.Retiring.{CanCut, GoesOn, IsGrowing};
ghost use Rattle.norm_sender.specs.Inside.{kept_of};
ghost use Rattle.norm_sender.specs.Wanted.{IsStanding};

use crate::parts::{Parts, hold_range};
use fec_plan::Plan;
use norm_base::Profile;
use norm_send_rules::{EnqueueFault, Receipt};

/// How each stream is cut into blocks: all streams of a profile alike, since a stream has no length when it opens.
fn stream_plan(profile: &Profile) -> Plan
    ensures { result ≡ stream_cut profile.now.e profile.now.b profile.now.max_n }
{
    hold_range(profile);
    // It does not fail: a profile's sizes are in the ranges of a plan.
    Plan::stream(profile.e, profile.b, profile.max_n).unwrap()
}

impl Parts {
    /// Opens a stream: admits it to the union, and drops what has to go for its buffer.
    ///
    /// # Errors
    ///
    /// The window's fault, or `Memory`. Then nothing changes.
    pub(crate) fn open(&mut self) -> Result<Receipt, EnqueueFault>
        requires { IsStanding (kept_of self.old) }
        ensures range { InRange self.old.profile }
        ensures profile { self.new.profile ≡ self.old.profile }
        ensures opened { IfOk result (λ receipt. (s : SenderState) (by : Origin) → Agrees (kept_of self.old) s
            → Agrees (kept_of self.new) (opened self.old.profile s by).0 × (Ok receipt ≡ (opened self.old.profile s by).1)) }
        ensures refused { IfErr result (λ fault. (s : SenderState) → Agrees (kept_of self.old) s → IsUnopened self.old.profile s fault) }
        ensures same { IsErr result → kept_of self.new ≡ kept_of self.old }
    {
        hold_range(&self.profile);
        if let Some(fault) = self.window.open_fault() {
            return Err(fault);
        }
        let plan = stream_plan(&self.profile);
        let index = self.window.next_index();
        // The union first, as for an object: all memory is taken before anything is dropped.
        let Ok(()) = self.union.admit_stream(index, &plan) else {
            return Err(EnqueueFault::Memory);
        };
        match self.window.open_stream() {
            Ok(index) => {
                self.retire();
                Ok(Receipt::Opened { index })
            }
            Err(fault) => {
                self.union.withdraw();
                Err(fault)
            }
        }
    }

    /// Lets receivers ask for all kept closed segments of the stream with this index, the window's last entry. Call it after each change
    /// that may close a segment.
    fn grow(&mut self, index: u32)
        requires { IsGrowing (kept_of self.old) index }
        ensures rest { self.new ≡ record self.old { union = self.new.union } }
        ensures profile { self.new.union.p ≡ self.old.union.p }
        ensures union { (s : SenderState) (parts : List Part) → GoesOn (kept_of self.old) s parts → UnionStands self.new.union (with_parts parts s) }
    {
        let segments = self.window.segments();
        self.union.grow(index, segments);
    }

    /// Writes octets to the open stream. If there is no room, its first blocks are dropped if they may go, and before them all entries
    /// before the stream.
    ///
    /// # Errors
    ///
    /// The window's fault. Then nothing changes.
    pub(crate) fn write(&mut self, bytes: &[u8]) -> Result<Receipt, EnqueueFault>
        requires { IsStanding (kept_of self.old) }
        ensures range { InRange self.old.profile }
        ensures profile { self.new.profile ≡ self.old.profile }
        ensures wrote { (s : SenderState) (by : Origin) → Agrees (kept_of self.old) s
            → Agrees (kept_of self.new) (wrote self.old.profile s by bytes.now).0 × (result ≡ (wrote self.old.profile s by bytes.now).1) }
    {
        hold_range(&self.profile);
        match self.window.write(bytes) {
            Ok(at) => {
                self.retire();
                // Last: segments may be asked for only if the window can send them, and what was dropped has to be gone from the union first.
                self.grow(at.0);
                Ok(Receipt::Wrote {
                    index: at.0,
                    offset: at.1,
                    len: bytes.len() as u64,
                })
            }
            Err(fault) => Err(fault),
        }
    }

    /// Ends the open stream. Blocks are dropped for room as in `write`, and a fault changes nothing, as there.
    pub(crate) fn close(&mut self) -> Result<Receipt, EnqueueFault>
        requires { IsStanding (kept_of self.old) }
        ensures range { InRange self.old.profile }
        ensures profile { self.new.profile ≡ self.old.profile }
        ensures closed { (s : SenderState) → Agrees (kept_of self.old) s
            → Agrees (kept_of self.new) (closed self.old.profile s).0 × (result ≡ (closed self.old.profile s).1) }
    {
        hold_range(&self.profile);
        match self.window.close_stream() {
            Ok(index) => {
                self.retire();
                self.grow(index);
                Ok(Receipt::Closed { index })
            }
            Err(fault) => Err(fault),
        }
    }

    /// Closes the open stream's segment that fills, if it holds octets. Does nothing if no stream is open.
    pub(crate) fn cut(&mut self)
        requires { CanCut (kept_of self.old) }
        ensures profile { self.new.profile ≡ self.old.profile }
        ensures stands { (s t : SenderState) → IsBehind (kept_of self.old) s t → IsBehind (kept_of self.new) (cut self.old.profile s) t }
    {
        let Some(index) = self.window.open_index() else {
            return;
        };
        hold_range(&self.profile);
        self.window.cut();
        self.grow(index);
    }
}
