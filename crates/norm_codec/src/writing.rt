//! Writes messages of any type: calls the writer of its type. Reports are written here.

ghost use Rattle.std.specs.Prelude.{◌≡◌, []};
ghost use Rattle.norm_ext.specs.Message.{Report};
ghost use Rattle.norm_ext.specs.Octets.{octets_of};
ghost use Rattle.norm_codec.specs.View.{message_of};
ghost use Rattle.norm_codec.specs.CanEncode.{CanEncode, IsReport};

use crate::message::Message;
use norm_base::{Datagram, NodeId};
use norm_cmdmsg::write_command;
use norm_ext::MessageType;
use norm_ext::pushing::push_front;
use norm_fbmsg::{write_ack, write_nack};
use norm_objmsg::grammar::{write_data, write_info};

fn write_report(source: NodeId, sequence: u16, words: u8, rest: &[u8], out: &mut Datagram)
    requires empty { out.old ≡ [] }
    requires room { IsReport words rest.now }
    ensures { out.new ≡ octets_of (Report (record { source = source; sequence = sequence; words = words; rest = rest.now })) }
{
    push_front(MessageType::Report.number(), words, sequence, source, out);
    out.push(rest);
}

/// Writes a message into an empty datagram. Reserved octets and time stamps are 0, except in what is kept unread and in lent requests, which is
/// copied. Ask [`fits`](Message::fits) first if it may not fit.
// Only tests call it: a node knows which message it writes. It is for programs over this crate.
pub fn encode(msg: &Message<'_>, out: &mut Datagram)
    requires empty { out.old ≡ [] }
    requires message { CanEncode msg.now }
    ensures { out.new ≡ octets_of (message_of msg.now) }
{
    match msg {
        Message::Info(m) => write_info(m, out),
        Message::Data(m) => write_data(m, out),
        Message::Command(m) => write_command(m, out),
        Message::Nack(m) => write_nack(m, out),
        Message::Ack(m) => write_ack(m, out),
        Message::Report {
            source,
            sequence,
            words,
            rest,
        } => write_report(*source, *sequence, *words, rest, out),
    }
}
