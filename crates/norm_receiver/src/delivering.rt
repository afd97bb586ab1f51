//! Taking in a datagram, by the type of its message (RFC 5740 section 5.2).

ghost use Rattle.std.specs.Prelude.{◌≡◌, Ok, IfOk, OnErr, true};
ghost use Rattle.norm_cmdmsg.specs.View.{command_of};
ghost use Rattle.norm_cmdmsg.specs.Whole.{IsWhole};
ghost use Rattle.norm_ext.specs.declared.refusal.Refusal.{Refusal as Refused};
ghost use Rattle.norm_objmsg.specs.MessageView.{info_of, data_of};
ghost use Rattle.norm_receive_rules.specs.ReceiverState.{ReceiverState};
ghost use Rattle.norm_receive_rules.specs.Receiving.{message_received, received};
ghost use Rattle.norm_receive_rules.specs.Wanting.{message_wants, may_want};
ghost use Rattle.norm_codec.specs.View.{message_of};
ghost use Rattle.norm_codec.specs.Whole.{IsWhole as IsWholeMessage};
ghost use Rattle.norm_receiver.specs.ReceiverKept.{Stands};
ghost use Rattle.norm_receiver.specs.Inside.{kept_of};

use crate::entering::Naming;
use crate::parts::Parts;
use crate::receiving::Said;
use fec_plan::PayloadId;
use norm_base::{Memory, Moment};
use norm_cmdmsg::CommandMsg;
use norm_codec::{Message, decode};
use norm_ext::{CmdHead, ObjHead};
use norm_objmsg::grammar::{DataMsg, InfoMsg};

fn object_naming(head: &ObjHead) -> Naming
    ensures { result ≡ record { source = head.now.source; instance = head.now.instance; object = head.now.object } }
{
    Naming {
        source: head.source,
        instance: head.instance,
        object: head.object,
    }
}

fn command_naming(head: &CmdHead, object: u16) -> Naming
    ensures { result ≡ record { source = head.now.source; instance = head.now.instance; object = object } }
{
    Naming {
        source: head.source,
        instance: head.instance,
        object,
    }
}

fn block_of(id: PayloadId) -> u32
    ensures { result ≡ id.block }
{
    id.block
}

impl Parts {
    fn deliver_info(&mut self, msg: &InfoMsg<'_>, now: Moment, draw: u32) -> Result<(), Memory>
        ensures profile { self.new.profile ≡ self.old.profile }
        ensures state { IfOk result (λ _. (s : ReceiverState) → Stands (kept_of self.old) s
            → Stands (kept_of self.new) (message_received {E = Refused} self.old.profile now draw (Ok (info_of msg.now)) s)) }
        ensures refused { OnErr result ((s : ReceiverState) → Stands (kept_of self.old) s → Stands (kept_of self.new) s) }
        ensures wanted { OnErr result ((s : ReceiverState) → Stands (kept_of self.old) s → message_wants {E = Refused} self.old.profile (Ok (info_of msg.now)) s ≡ true) }
    {
        let exts = msg.exts.iter();
        let said = Said::Info {
            flags: msg.head.flags,
            exts,
            info: msg.info,
        };
        self.deliver_said(&object_naming(&msg.head), &said, now, draw)
    }

    fn deliver_data(&mut self, msg: &DataMsg<'_>, now: Moment, draw: u32) -> Result<(), Memory>
        ensures profile { self.new.profile ≡ self.old.profile }
        ensures state { IfOk result (λ _. (s : ReceiverState) → Stands (kept_of self.old) s
            → Stands (kept_of self.new) (message_received {E = Refused} self.old.profile now draw (Ok (data_of msg.now)) s)) }
        ensures refused { OnErr result ((s : ReceiverState) → Stands (kept_of self.old) s → Stands (kept_of self.new) s) }
        ensures wanted { OnErr result ((s : ReceiverState) → Stands (kept_of self.old) s → message_wants {E = Refused} self.old.profile (Ok (data_of msg.now)) s ≡ true) }
    {
        let exts = msg.exts.iter();
        let said = Said::Data {
            flags: msg.head.flags,
            exts,
            id: msg.id,
            payload: msg.payload,
        };
        self.deliver_said(&object_naming(&msg.head), &said, now, draw)
    }

    /// Takes in a command: a flush, a squelch, or a REPAIR_ADV. Any other changes nothing.
    fn deliver_command(
        &mut self,
        msg: &CommandMsg<'_>,
        now: Moment,
        draw: u32,
    ) -> Result<(), Memory>
        requires whole { IsWhole msg.now }
        ensures profile { self.new.profile ≡ self.old.profile }
        ensures state { IfOk result (λ _. (s : ReceiverState) → Stands (kept_of self.old) s
            → Stands (kept_of self.new) (message_received {E = Refused} self.old.profile now draw (Ok (command_of msg.now)) s)) }
        ensures refused { OnErr result ((s : ReceiverState) → Stands (kept_of self.old) s → Stands (kept_of self.new) s) }
        ensures wanted { OnErr result ((s : ReceiverState) → Stands (kept_of self.old) s → message_wants {E = Refused} self.old.profile (Ok (command_of msg.now)) s ≡ true) }
    {
        match msg {
            CommandMsg::Flush {
                head,
                object,
                id,
                nodes,
                ..
            } => {
                let said = Said::Flush { id: *id, nodes };
                self.deliver_said(&command_naming(head, *object), &said, now, draw)
            }
            CommandMsg::Squelch {
                head,
                object,
                id,
                ..
            } => {
                let said = Said::Squelch {
                    block: block_of(*id),
                };
                self.deliver_said(&command_naming(head, *object), &said, now, draw)
            }
            // NORM_CMD(REPAIR_ADV). Our sender does not send it, but other implementations may.
            CommandMsg::RepairAdv { head, requests, .. } => self.hear_adv(head, requests),
            _ => Ok(()),
        }
    }

    /// Takes in a message. An acknowledgement or a report changes nothing.
    fn deliver_message(&mut self, msg: &Message<'_>, now: Moment, draw: u32) -> Result<(), Memory>
        requires whole { IsWholeMessage msg.now }
        ensures profile { self.new.profile ≡ self.old.profile }
        ensures state { IfOk result (λ _. (s : ReceiverState) → Stands (kept_of self.old) s
            → Stands (kept_of self.new) (message_received {E = Refused} self.old.profile now draw (Ok (message_of msg.now)) s)) }
        ensures refused { OnErr result ((s : ReceiverState) → Stands (kept_of self.old) s → Stands (kept_of self.new) s) }
        ensures wanted { OnErr result ((s : ReceiverState) → Stands (kept_of self.old) s → message_wants {E = Refused} self.old.profile (Ok (message_of msg.now)) s ≡ true) }
    {
        match msg {
            Message::Info(msg) => self.deliver_info(msg, now, draw),
            Message::Data(msg) => self.deliver_data(msg, now, draw),
            Message::Command(msg) => self.deliver_command(msg, now, draw),
            Message::Nack(msg) => self.hear_nack(msg),
            Message::Ack(_) => Ok(()),
            Message::Report { .. } => Ok(()),
        }
    }

    /// Takes in a datagram. Octets that are no message change nothing.
    pub(crate) fn deliver(&mut self, bytes: &[u8], now: Moment, draw: u32) -> Result<(), Memory>
        ensures profile { self.new.profile ≡ self.old.profile }
        ensures state { IfOk result (λ _. (s : ReceiverState) → Stands (kept_of self.old) s
            → Stands (kept_of self.new) (received self.old.profile s bytes.now now draw)) }
        ensures refused { OnErr result ((s : ReceiverState) → Stands (kept_of self.old) s → Stands (kept_of self.new) s) }
        ensures wanted { OnErr result ((s : ReceiverState) → Stands (kept_of self.old) s → may_want self.old.profile s bytes.now ≡ true) }
    {
        match decode(bytes) {
            Ok(msg) => self.deliver_message(&msg, now, draw),
            // A member may send any octets, so this is no fault of the run.
            Err(_) => Ok(()),
        }
    }
}
