//! Sends infos and encoded symbols of the window (RFC 5740 section 5.1), new ones and repairs alike.

ghost use Rattle.std.specs.Prelude.{◌≡◌, ◌≤◌, ◌<◌, ◌+◌, ℕ, List, true, Some, nat_le, nat_lt};
ghost use Rattle.norm_order.specs.Entries.{Object, Whole};
ghost use Rattle.norm_order.specs.Shapes.{shape_of, encoded_in};
ghost use Rattle.norm_base.specs.declared.kinds.Kind.{Kind};
ghost use Rattle.norm_ext.specs.Octets.{octets_of};
ghost use Rattle.norm_send_rules.specs.SenderState.{SenderState};
ghost use Rattle.norm_send_rules.specs.Messages.{data_message, info_message};
ghost use Rattle.norm_send_rules.specs.Room.{first_kept};
ghost use Rattle.norm_send_rules.specs.Sending.{noted, object_of, repair_flags, sends_want};
ghost use Rattle.norm_send_rules.specs.declared.want.Want.TheVariants.{Info, Symbol};
ghost use Rattle.tx_window.specs.Asked.{kept_at, IsEncodedIn};
ghost use Rattle.tx_window.specs.WindowState.{IsInWindow};
ghost use Rattle.nack_union.specs.Kept.{IsEncodedIn as IsAdmitted};
ghost use Rattle.norm_sender.specs.SenderKept.{Agrees};
ghost use Rattle.norm_sender.specs.SenderMoves.{IsSent, SenderMoves};
ghost use Rattle.norm_sender.specs.Inside.{kept_of};
ghost use Rattle.norm_sender.specs.Wanted.{IsValid, CanSend, spent};

use crate::parts::Parts;
use crate::writing::{push_info, write_data_front, write_info_front};
use fec_plan::Position;
use norm_base::{Datagram, Moment, Sent};
use norm_ext::flags;
use norm_send_rules::Want;

/// What is added to the flags of a repair, if it is an info or a source symbol.
// NORM_FLAG_REPAIR and NORM_FLAG_EXPLICIT of RFC 5740 section 4.2.1. Which of what is sent again has the second is our own choice.
const EXPLICIT_REPAIR: u8 = flags::REPAIR + flags::EXPLICIT;

impl Parts {
    /// Writes the DATA of an encoded symbol of the window, with `repair` added to its flags. Returns `false` if the window has no such symbol; then
    /// `out` may hold anything.
    fn write_symbol(&self, at: Position, repair: u8, out: &mut Datagram) -> bool
        ensures { (s : SenderState) (object : Object) → Agrees (kept_of self.now) s → kept_at s at.index ≡ Some object
            → nat_lt at.symbol (encoded_in (shape_of self.now.profile object) at.block) ≡ true → nat_le (first_kept s at.index) at.block ≡ true → repair ≤ 3
            → (result ≡ true) × (out.new ≡ octets_of (data_message self.now.profile s at object repair)) }
    {
        let Some(about) = self.window.about(at.index) else {
            return false;
        };
        let flags = about.flags.saturating_add(repair);
        write_data_front(&self.profile, &self.pace, &at, flags, &about.fti, out);
        self.window.symbol(at, out).is_some()
    }

    /// Writes the INFO of an object of the window, with `repair` added to its flags. Returns `false` if the window has no such info.
    fn write_info(&self, index: u32, repair: u8, out: &mut Datagram) -> bool
        requires { self.now.window.p ≡ self.now.profile }
        ensures { (s : SenderState) (kind : Kind) (info octets : List ℕ) → Agrees (kept_of self.now) s → kept_at s index ≡ Some (Whole kind (Some info) octets)
            → repair ≤ 3
            → (result ≡ true) × (out.new ≡ octets_of (info_message self.now.profile s index (Whole kind (Some info) octets) info repair)) }
    {
        let Some(about) = self.window.about(index) else {
            return false;
        };
        let Some(info) = self.window.info(index) else {
            return false;
        };
        let flags = about.flags.saturating_add(repair);
        write_info_front(&self.profile, &self.pace, index, flags, &about.fti, out);
        push_info(&self.profile, info, out);
        true
    }

    /// Notes in the window and the union that an encoded symbol was sent.
    fn note_symbol(&mut self, at: Position)
        requires window { IsEncodedIn self.old.window at }
        requires union { IsAdmitted self.old.union.kept at }
        ensures profile { self.new.profile ≡ self.old.profile }
        ensures stands { SenderMoves (kept_of self.old) (kept_of self.new) (λ p s. noted (Symbol at) s) }
    {
        self.window.note_sent(at);
        // The window asks whether source symbols were sent before it drops an entry, the union which parity was never sent.
        self.union.note_sent(at);
    }

    /// Notes in the window that an info was sent. The union need not know: no count asks for an info.
    fn note_info(&mut self, index: u32)
        requires { IsInWindow self.old.window index }
        ensures profile { self.new.profile ≡ self.old.profile }
        ensures stands { SenderMoves (kept_of self.old) (kept_of self.new) (λ p s. noted (Info index) s) }
    {
        self.window.note_info(index);
    }

    /// Call after each datagram: the next may be sent a gap later, and has the next sequence number.
    pub(crate) fn spend(&mut self, now: Moment)
        ensures { self.new ≡ record self.old { pace = spent self.old.profile now self.old.pace } }
    {
        self.pace = self.pace.sent(self.profile.gap, now);
    }

    /// Writes an encoded symbol as `write_symbol` does, notes that it was sent, and starts the gap before the next datagram.
    fn send_symbol(&mut self, at: Position, repair: u8, now: Moment, out: &mut Datagram) -> Sent
        requires { CanSend (kept_of self.old) (Symbol at) }
        ensures profile { self.new.profile ≡ self.old.profile }
        ensures stands { (s : SenderState) → Agrees (kept_of self.old) s → IsValid self.old.profile s (Symbol at) → repair ≤ 3
            → IsSent (kept_of self.new) out.new result (sends_want self.old.profile now (λ object. repair) (Symbol at) s) }
    {
        // Not taken: what the union wants and what the window names as new is in the window.
        if !self.write_symbol(at, repair, out) {
            return Sent::Nothing;
        }
        self.note_symbol(at);
        self.spend(now);
        Sent::Datagram
    }

    /// Writes an info as `write_info` does, notes that it was sent, and starts the gap before the next datagram.
    fn send_info(&mut self, index: u32, repair: u8, now: Moment, out: &mut Datagram) -> Sent
        requires { CanSend (kept_of self.old) (Info index) }
        ensures profile { self.new.profile ≡ self.old.profile }
        ensures stands { (s : SenderState) → Agrees (kept_of self.old) s → IsValid self.old.profile s (Info index) → repair ≤ 3
            → IsSent (kept_of self.new) out.new result (sends_want self.old.profile now (λ object. repair) (Info index) s) }
    {
        // Not taken, as for a symbol.
        if !self.write_info(index, repair, out) {
            return Sent::Nothing;
        }
        self.note_info(index);
        self.spend(now);
        Sent::Datagram
    }

    /// Sends an info or an encoded symbol of the window, with `repair` added to its flags: 0 if it is new.
    pub(crate) fn send_want(
        &mut self,
        want: &Want,
        repair: u8,
        now: Moment,
        out: &mut Datagram,
    ) -> Sent
        requires { CanSend (kept_of self.old) want.now }
        ensures profile { self.new.profile ≡ self.old.profile }
        ensures stands { (s : SenderState) → Agrees (kept_of self.old) s → IsValid self.old.profile s want.now → repair ≤ 3
            → IsSent (kept_of self.new) out.new result (sends_want self.old.profile now (λ object. repair) want.now s) }
    {
        match want {
            Want::Info { index } => self.send_info(*index, repair, now, out),
            Want::Symbol { at } => self.send_symbol(*at, repair, now, out),
        }
    }

    /// What a repair adds to the flags: REPAIR, and EXPLICIT too if it is an info or a source symbol, whichever request asked for it.
    pub(crate) fn repair_flags(&self, want: &Want) -> u8
        ensures few { result ≤ 3 }
        ensures exact { (s : SenderState) → Agrees (kept_of self.now) s → IsValid self.now.profile s want.now
            → result ≡ repair_flags self.now.profile (object_of s want.now) want.now }
    {
        let Want::Symbol { at } = want else {
            return EXPLICIT_REPAIR;
        };
        // Not taken: a want is of the window.
        let Some(plan) = self.window.plan(at.index) else {
            return flags::REPAIR;
        };
        // Our own choice: parity has REPAIR alone, since mostly it answers a count. That an item may have named it makes no difference.
        if at.symbol < plan.source_len(at.block) {
            return EXPLICIT_REPAIR;
        }
        flags::REPAIR
    }
}
