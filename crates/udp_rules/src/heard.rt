//! What a sender's datagram says of its sender: [`heard_in`].

ghost use Rattle.std.specs.Prelude.{◌≡◌, Some};
ghost use Rattle.norm_cmdmsg.specs.View.{command_of};
ghost use Rattle.norm_codec.specs.View.{message_of};
ghost use Rattle.udp_rules.specs.Hearing.{object_heard, command_heard, message_heard, heard_in};

use norm_base::{InstanceId, NodeId};
use norm_cmdmsg::CommandMsg;
use norm_codec::{Message, decode};
use norm_ext::{CmdHead, Extensions, Fti, ObjHead, read_fti};

/// What INFO, DATA or a command says of its sender (RFC 5740 section 4.2).
#[derive(Clone, Copy, Debug)]
pub struct Heard {
    pub sender: NodeId,
    pub instance: InstanceId,
    /// The transport id of the object that INFO, DATA, a flush or a squelch names.
    pub object: Option<u16>,
    /// The first EXT_FTI of INFO or DATA that has three words. `None` if there is none, and for a command.
    pub fti: Option<Fti>,
    /// The flags of INFO or DATA. 0 for a command.
    pub flags: u8,
}

fn object_heard(head: &ObjHead, exts: &Extensions<'_>) -> Heard
    ensures { result ≡ object_heard head.now exts.now }
{
    Heard {
        sender: head.source,
        instance: head.instance,
        object: Some(head.object),
        fti: read_fti(exts.iter()),
        flags: head.flags,
    }
}

fn command_heard(head: &CmdHead, object: Option<u16>) -> Heard
    ensures { result ≡ command_heard head.now object }
{
    Heard {
        sender: head.source,
        instance: head.instance,
        object,
        fti: None,
        flags: 0,
    }
}

/// The object is that of a flush or a squelch.
fn any_command_heard(msg: &CommandMsg<'_>) -> Heard
    ensures { message_heard (command_of msg.now) ≡ Some result }
{
    match msg {
        CommandMsg::Flush { head, object, .. } => command_heard(head, Some(*object)),
        CommandMsg::Eot { head, .. } => command_heard(head, None),
        CommandMsg::Squelch { head, object, .. } => command_heard(head, Some(*object)),
        CommandMsg::RepairAdv { head, .. } => command_heard(head, None),
        CommandMsg::AckReq { head, .. } => command_heard(head, None),
        CommandMsg::Opaque { head, .. } => command_heard(head, None),
    }
}

/// Returns what a message says of its sender. `None` for feedback and reports.
fn message_heard(msg: &Message<'_>) -> Option<Heard>
    ensures { result ≡ message_heard (message_of msg.now) }
{
    match msg {
        Message::Info(msg) => Some(object_heard(&msg.head, &msg.exts)),
        Message::Data(msg) => Some(object_heard(&msg.head, &msg.exts)),
        Message::Command(msg) => Some(any_command_heard(msg)),
        Message::Nack(_) => None,
        Message::Ack(_) => None,
        Message::Report { .. } => None,
    }
}

/// Returns what a datagram says of its sender. `None` if it is no INFO, DATA or command, or no message at all.
pub fn heard_in(bytes: &[u8]) -> Option<Heard>
    ensures { result ≡ heard_in bytes.now }
{
    match decode(bytes) {
        Ok(msg) => message_heard(&msg),
        Err(_) => None,
    }
}
