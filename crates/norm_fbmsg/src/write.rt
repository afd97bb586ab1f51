//! Writes feedback (RFC 5740 section 4.3).

ghost use Rattle.std.specs.Prelude.{◌≡◌, ◌+◌, ◌≤◌, ◌++◌, [], length};
ghost use Rattle.norm_base.specs.Sizes.{datagram_room};
ghost use Rattle.norm_ext.specs.Octets.{octets_of, content_octets, requests_octets};
ghost use Rattle.norm_fbmsg.specs.View.{nack_of, ack_of, content_of};
ghost use Rattle.norm_fbmsg.specs.CanWrite.{CanWriteParts, CanWriteNack, CanWriteAck, body_length, zero_list};
ghost use Rattle.norm_ext.specs.Message.{Nack, Ack};

use crate::message::{AckBody, AckMsg, NackMsg};
use norm_base::Datagram;
use norm_ext::header::ENCODING_ID;
use norm_ext::places::{FEEDBACK_WORDS, WORD};
use norm_ext::pushing::{push_16, push_front, push_instance, push_name, push_node};
use norm_ext::{Extensions, MessageType, Requests};

/// Writes a NACK with these extensions and requests, and the other fields of `msg`.
fn write_nack_parts(
    msg: &NackMsg<'_>,
    exts: &Extensions<'_>,
    requests: &Requests<'_>,
    out: &mut Datagram,
)
    requires empty { out.old ≡ [] }
    requires parts { CanWriteParts exts.now (length (requests_octets requests.now)) }
    ensures { out.new ≡ octets_of (Nack (record { source = msg.now.source; sequence = msg.now.sequence; sender = msg.now.sender; instance = msg.now.instance; extensions = exts.now; requests = requests.now })) }
{
    let spelled = exts.octets();
    let words = FEEDBACK_WORDS + (spelled.len() / WORD) as u8;
    push_front(
        MessageType::Nack.number(),
        words,
        msg.sequence,
        msg.source,
        out,
    );
    push_node(msg.sender, out);
    push_instance(msg.instance, out);
    // Two reserved octets and the time stamp of RFC 5740 section 4.3.1. Without congestion control nobody reads it.
    out.push(&[0; 10]);
    out.push(spelled);
    out.push(requests.octets());
}

/// Writes a NACK into an empty datagram. Reserved octets and the time stamp are 0, except in the requests, which are copied. Ask
/// [`fits`](NackMsg::fits) first if it may not fit.
pub fn write_nack(msg: &NackMsg<'_>, out: &mut Datagram)
    requires empty { out.old ≡ [] }
    requires message { CanWriteNack msg.now }
    ensures { out.new ≡ octets_of (nack_of msg.now) }
{
    write_nack_parts(msg, &msg.exts, &msg.requests, out);
}

/// Appends the content of an acknowledgement. An item has FEC Encoding ID 5 and a reserved octet of 0.
fn push_body(body: &AckBody<'_>, out: &mut Datagram)
    requires { length out.old + body_length body.now ≤ datagram_room }
    ensures { out.new ≡ out.old ++ content_octets (content_of body.now) (zero_list 1) }
{
    match body {
        AckBody::Mark(item) => {
            out.push(&[ENCODING_ID, 0]);
            push_16(item.object, out);
            push_name(&item.id, out);
        }
        AckBody::Opaque(octets) => out.push(octets),
    }
}

/// Writes an ACK with these extensions, and the other fields of `msg`.
fn write_ack_parts(msg: &AckMsg<'_>, exts: &Extensions<'_>, out: &mut Datagram)
    requires empty { out.old ≡ [] }
    requires parts { CanWriteParts exts.now (body_length msg.now.body) }
    ensures { out.new ≡ octets_of (Ack (record { source = msg.now.source; sequence = msg.now.sequence; sender = msg.now.sender; instance = msg.now.instance; ack_type = msg.now.ack_type; ack_id = msg.now.ack_id; extensions = exts.now; content = content_of msg.now.body })) }
{
    let spelled = exts.octets();
    let words = FEEDBACK_WORDS + (spelled.len() / WORD) as u8;
    push_front(
        MessageType::Ack.number(),
        words,
        msg.sequence,
        msg.source,
        out,
    );
    push_node(msg.sender, out);
    push_instance(msg.instance, out);
    out.push(&[msg.ack_type, msg.ack_id]);
    // The time stamp, as in a NACK.
    out.push(&[0; 8]);
    out.push(spelled);
    push_body(&msg.body, out);
}

/// Writes an ACK into an empty datagram. Reserved octets and the time stamp are 0. Ask [`fits`](AckMsg::fits) first if it may not fit.
pub fn write_ack(msg: &AckMsg<'_>, out: &mut Datagram)
    requires empty { out.old ≡ [] }
    requires message { CanWriteAck msg.now }
    ensures { out.new ≡ octets_of (ack_of msg.now) }
{
    write_ack_parts(msg, &msg.exts, out);
}
