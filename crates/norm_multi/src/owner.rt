//! Which sender a datagram belongs to.

ghost use Rattle.std.specs.Prelude.{◌≡◌, Ok};
ghost use Rattle.norm_cmdmsg.specs.View.{command_of};
ghost use Rattle.norm_codec.specs.View.{message_of};
ghost use Rattle.norm_ext.specs.declared.refusal.Refusal.{Refusal as Refused};
ghost use Rattle.norm_multi.specs.Owner.{owner_of_message, owner_of};

use norm_base::NodeId;
use norm_cmdmsg::CommandMsg;
use norm_codec::{Message, decode};

fn source_of(msg: &CommandMsg<'_>) -> NodeId
    ensures { Some result ≡ owner_of_message {E = Refused} (Ok (command_of msg.now)) }
{
    match msg {
        CommandMsg::Flush { head, .. } => head.source,
        CommandMsg::Eot { head, .. } => head.source,
        CommandMsg::Squelch { head, .. } => head.source,
        CommandMsg::RepairAdv { head, .. } => head.source,
        CommandMsg::AckReq { head, .. } => head.source,
        CommandMsg::Opaque { head, .. } => head.source,
    }
}

fn owner_of_message(msg: &Message<'_>) -> Option<NodeId>
    ensures { result ≡ owner_of_message {E = Refused} (Ok (message_of msg.now)) }
{
    match msg {
        Message::Info(msg) => Some(msg.head.source),
        Message::Data(msg) => Some(msg.head.source),
        Message::Command(msg) => Some(source_of(msg)),
        // RFC 5740 section 4.3: a NACK or ACK comes from a receiver, and names the sender that it is for.
        Message::Nack(msg) => Some(msg.sender),
        Message::Ack(msg) => Some(msg.sender),
        Message::Report { .. } => None,
    }
}

/// Returns the sender that a datagram belongs to: its source, or the sender that a NACK or ACK names. `None` if the octets spell no message, or a
/// report. Decodes the datagram, and takes no memory.
pub fn owner_of(bytes: &[u8]) -> Option<NodeId>
    ensures { result ≡ owner_of bytes.now }
{
    match decode(bytes) {
        Ok(msg) => owner_of_message(&msg),
        Err(_) => None,
    }
}
