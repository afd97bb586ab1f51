//! Hears NACKs of receivers and acknowledgements of members (RFC 5740 sections 5.4 and 5.5.3), in datagrams of any octets.

ghost use Rattle.std.specs.Prelude.{◌≡◌, ◌&&◌, ◌==◌};
ghost use Rattle.norm_ext.specs.Asking.{item_named};
ghost use Rattle.std.specs.Prelude.{Ok};
ghost use Rattle.norm_codec.specs.View.{message_of};
ghost use Rattle.norm_ext.specs.declared.refusal.Refusal.{Refusal as Refused};
ghost use Rattle.norm_sender.specs.Feedback.{nack_message, ack_message, content_heard};
ghost use Rattle.norm_fbmsg.specs.View.{content_of};
ghost use Rattle.norm_sender.specs.Pacing.{opened_at};
ghost use Rattle.norm_base.specs.Settings.{InRange};
ghost use Rattle.norm_send_rules.specs.InWindow.{last_index};
ghost use Rattle.norm_send_rules.specs.Hearing.{credited, credited_by, joined_round, heard, message_heard, nack_heard, ack_heard};
ghost use Rattle.norm_sender.specs.SenderMoves.{SenderMoves};
ghost use Rattle.norm_sender.specs.Inside.{kept_of};

use crate::pace::moment_after;
use crate::parts::{Parts, hold_range};
use fec_plan::Position;
use norm_base::{InstanceId, Moment, NodeId};
use norm_codec::{Message, decode};
use norm_ext::{Item, Requests, index_named};
use norm_fbmsg::{AckBody, AckMsg, NackMsg, is_for};

impl Parts {
    /// Lists a member as past a position, unless it was already.
    fn credit(&mut self, node: NodeId, at: Position)
        ensures profile { self.new.profile ≡ self.old.profile }
        ensures stands { SenderMoves (kept_of self.old) (kept_of self.new) (λ p s. credited node at s) }
    {
        let before = self.book.oldest();
        self.book.ack(node, at);
        self.follow(before);
    }

    /// Credits a member with the position that an item names. Ignores it unless it is a closed source symbol of the order, dropped or not.
    fn credit_named(&mut self, node: NodeId, item: &Item)
        ensures profile { self.new.profile ≡ self.old.profile }
        ensures stands { SenderMoves (kept_of self.old) (kept_of self.new) (λ p s. credited_by p node (item_named p (last_index s) item.now) s) }
    {
        let Some(index) = index_named(&self.profile, self.union.known(), item.object) else {
            return;
        };
        let at = Position {
            index,
            block: item.id.block,
            symbol: item.id.symbol,
        };
        // A position that no data has would list its member past what comes later, and the window could drop that unconfirmed.
        if !self.window.is_source(at) {
            return;
        }
        self.credit(node, at);
    }

    /// Opens a repair round that closes after K + 1 round trips, unless one is open.
    fn open_round(&mut self, now: Moment)
        ensures { self.new ≡ record self.old { pace = opened_at self.old.profile now self.old.pace } }
    {
        if self.pace.closes.is_some() {
            return;
        }
        // RFC 5401 section 3.2.4: receivers back off for up to K round trips, and their requests take one more to come.
        let span = (u64::from(self.profile.k) + 1) * u64::from(self.profile.grtt);
        self.pace = self.pace.opened(moment_after(now, span));
    }

    /// Adds the requests of a NACK to the open round, and opens a round if none is open, even if the window has nothing of what they ask for. An
    /// empty list changes nothing.
    fn join_round(&mut self, requests: &Requests<'_>, now: Moment)
        ensures profile { self.new.profile ≡ self.old.profile }
        ensures stands { SenderMoves (kept_of self.old) (kept_of self.new) (λ p s. joined_round p s now requests.now) }
    {
        // An empty list would open a round that delays the end of a watermark.
        if requests.is_empty() {
            return;
        }
        self.union.add(requests.iter());
        self.open_round(now);
    }

    fn is_for(&self, sender: NodeId, instance: InstanceId) -> bool
        ensures { result ≡ (sender == self.now.profile.sender && instance == self.now.pace.instance) }
    {
        is_for(sender, instance, self.profile.sender, self.pace.instance)
    }

    /// Hears a NACK. Ignores it unless a receiver, struck or not, sent it to this sender and its current instance.
    fn hear_nack(&mut self, msg: &NackMsg<'_>, now: Moment)
        ensures profile { self.new.profile ≡ self.old.profile }
        ensures stands { SenderMoves (kept_of self.old) (kept_of self.new) (λ p s. nack_heard p s now (nack_message msg.now)) }
    {
        // A struck receiver may still ask: others that heard its NACK hold theirs back. Only its acknowledgements count no more.
        if !self.profile.is_receiver(msg.source) {
            return;
        }
        if !self.is_for(msg.sender, msg.instance) {
            return;
        }
        self.join_round(&msg.requests, now);
    }

    /// Hears what an acknowledgement holds. Ignores anything except the position of a flush.
    fn hear_body(&mut self, node: NodeId, body: &AckBody<'_>)
        ensures profile { self.new.profile ≡ self.old.profile }
        ensures stands { SenderMoves (kept_of self.old) (kept_of self.new) (λ p s. content_heard p node s (content_of body.now)) }
    {
        match body {
            AckBody::Mark(item) => self.credit_named(node, item),
            AckBody::Opaque(_) => {}
        }
    }

    /// Hears an acknowledgement. Ignores it unless a member sent it to this sender and its current instance.
    fn hear_ack(&mut self, msg: &AckMsg<'_>)
        ensures profile { self.new.profile ≡ self.old.profile }
        ensures stands { SenderMoves (kept_of self.old) (kept_of self.new) (λ p s. ack_heard p s (ack_message msg.now)) }
    {
        if !self.book.lists(msg.source) {
            return;
        }
        if !self.is_for(msg.sender, msg.instance) {
            return;
        }
        self.hear_body(msg.source, &msg.body);
    }

    /// Hears a message. Ignores every message except NACKs and acknowledgements.
    fn hear(&mut self, msg: &Message<'_>, now: Moment)
        ensures profile { self.new.profile ≡ self.old.profile }
        ensures stands { SenderMoves (kept_of self.old) (kept_of self.new) (λ p s. message_heard {E = Refused} p s now (Ok (message_of msg.now))) }
    {
        match msg {
            Message::Nack(msg) => self.hear_nack(msg, now),
            Message::Ack(msg) => self.hear_ack(msg),
            Message::Info(_) => {}
            Message::Data(_) => {}
            Message::Command(_) => {}
            Message::Report { .. } => {}
        }
    }

    /// Hears a datagram. Ignores octets that spell no message.
    pub(crate) fn deliver(&mut self, bytes: &[u8], now: Moment)
        ensures range { InRange self.old.profile }
        ensures profile { self.new.profile ≡ self.old.profile }
        ensures stands { SenderMoves (kept_of self.old) (kept_of self.new) (λ p s. heard p s bytes.now now) }
    {
        hold_range(&self.profile);
        match decode(bytes) {
            Ok(msg) => self.hear(&msg, now),
            Err(_) => {}
        }
    }
}
