//! Strikes a receiver from the members for good (beyond RFC 5740).

ghost use Rattle.std.specs.Prelude.{◌≡◌};
ghost use Rattle.norm_base.specs.Settings.{InRange};
ghost use Rattle.norm_send_rules.specs.SenderState.{SenderState};
ghost use Rattle.norm_send_rules.specs.Striking.{strikes};
ghost use Rattle.norm_sender.specs.SenderKept.{Agrees};
ghost use Rattle.norm_sender.specs.Inside.{kept_of};

use crate::parts::{Parts, hold_range};
use norm_base::NodeId;
use norm_send_rules::{Receipt, StrikeFault};

impl Parts {
    /// Strikes a member. In hold mode, entries that only this member had not confirmed may then go for room.
    pub(crate) fn strike(&mut self, node: NodeId) -> Result<Receipt, StrikeFault>
        ensures range { InRange self.old.profile }
        ensures profile { self.new.profile ≡ self.old.profile }
        ensures stands { (s : SenderState) → Agrees (kept_of self.old) s
            → Agrees (kept_of self.new) (strikes s node).0 × (result ≡ (strikes s node).1) }
    {
        hold_range(&self.profile);
        let before = self.book.oldest();
        match self.book.strike(node) {
            Ok(()) => {
                self.follow(before);
                Ok(Receipt::Struck { node })
            }
            Err(fault) => Err(fault),
        }
    }
}
