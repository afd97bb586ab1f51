//! Reads feedback (RFC 5740 section 4.3).

ghost use Rattle.std.specs.Prelude.{◌≡◌, ◌+◌, ◌*◌, ◌≤◌, ◌<◌, ◌^◌, Ok, Err, MatchResult, OnOk, length};
ghost use Rattle.norm_ext.specs.Places.{item_width};
ghost use Rattle.norm_ext.specs.Numbers.{flush_ack};
ghost use Rattle.norm_ext.specs.Reading.{nack_read, ack_read, ack_encoding_checked, ack_length_checked, ack_content_of};
ghost use Rattle.norm_fbmsg.specs.View.{nack_of, ack_of, content_of};

use crate::message::{AckBody, AckMsg, FLUSH_ACK, NackMsg};
use norm_base::InstanceId;
use norm_ext::header::{ENCODING_ID, check_extensions, check_header, check_member, check_source};
use norm_ext::places::{
    ACK_ID_AT, ACK_TYPE_AT, FEEDBACK, FEEDBACK_INSTANCE_AT, ITEM, ITEM_NAME_AT, ITEM_OBJECT_AT,
    SENDER_AT, SEQUENCE_AT,
};
use norm_ext::{Item, MessageType, Refusal, Requests, read_16, read_32, read_name};

/// Reads a NACK. It takes no memory: the result borrows from the octets.
///
/// # Errors
///
/// If the octets spell no NACK, the first refusal that applies, in the order of [`Refusal`].
#[tactic(auto, unfolding(norm_ext::specs::Reading::nack_read))]
pub fn read_nack(bytes: &[u8]) -> Result<NackMsg<'_>, Refusal>
    ensures { MatchResult result (λ m. nack_read bytes.now ≡ Ok (nack_of m)) (λ refusal. nack_read bytes.now ≡ Err refusal) }
{
    let end = check_header(MessageType::Nack, bytes)?;
    let exts = check_extensions(bytes, FEEDBACK, end)?;
    let requests = Requests::check(bytes.split_at(end).1, end)?;
    let source = check_source(bytes)?;
    let sender = check_member(read_32(bytes, SENDER_AT))?;
    Ok(NackMsg {
        source,
        sequence: read_16(bytes, SEQUENCE_AT),
        sender,
        instance: InstanceId(read_16(bytes, FEEDBACK_INSTANCE_AT)),
        exts,
        requests,
    })
}

/// Refuses a flush acknowledgement if it has one item whose FEC Encoding ID is not 5. `at` is the offset of the content.
/// Accepts it if the content is not as long as an item: `check_ack_length` refuses that later.
fn check_ack_encoding(ack_type: u8, at: usize, content: &[u8]) -> Result<(), Refusal>
    ensures { result ≡ ack_encoding_checked ack_type at content.now }
{
    if ack_type != FLUSH_ACK || content.len() != ITEM {
        return Ok(());
    }
    let id = content[0];
    if id != ENCODING_ID {
        return Err(Refusal::ItemFec { at, id });
    }
    Ok(())
}

/// Refuses a flush acknowledgement if its content is not as long as one item. Any content of other types is accepted.
fn check_ack_length(ack_type: u8, content: &[u8]) -> Result<(), Refusal>
    ensures exact { result ≡ ack_length_checked ack_type content.now }
    ensures item { OnOk result (ack_type ≡ flush_ack → length content.now ≡ item_width) }
{
    let rest = content.len();
    if ack_type == FLUSH_ACK && rest != ITEM {
        return Err(Refusal::BadList { rest });
    }
    Ok(())
}

/// Returns the content of an acknowledgement of this type. An item's FEC Encoding ID and reserved octet are not looked at.
fn body_of(ack_type: u8, content: &[u8]) -> AckBody<'_>
    requires { ack_type ≡ flush_ack → length content.now ≡ item_width }
    ensures { content_of result ≡ ack_content_of ack_type content.now }
{
    if ack_type != FLUSH_ACK {
        return AckBody::Opaque(content);
    }
    AckBody::Mark(Item {
        object: read_16(content, ITEM_OBJECT_AT),
        id: read_name(content, ITEM_NAME_AT),
    })
}

/// Reads an ACK. It takes no memory: the result borrows from the octets.
///
/// # Errors
///
/// If the octets spell no ACK, the first refusal that applies, in the order of [`Refusal`].
#[tactic(auto, unfolding(norm_ext::specs::Reading::ack_read))]
pub fn read_ack(bytes: &[u8]) -> Result<AckMsg<'_>, Refusal>
    ensures { MatchResult result (λ m. ack_read bytes.now ≡ Ok (ack_of m)) (λ refusal. ack_read bytes.now ≡ Err refusal) }
{
    let end = check_header(MessageType::Ack, bytes)?;
    let exts = check_extensions(bytes, FEEDBACK, end)?;
    let content = bytes.split_at(end).1;
    // Two looks at the content, because the order of refusals is that of `Refusal`: the encoding before the members, the length after them.
    check_ack_encoding(bytes[ACK_TYPE_AT], end, content)?;
    let source = check_source(bytes)?;
    let sender = check_member(read_32(bytes, SENDER_AT))?;
    check_ack_length(bytes[ACK_TYPE_AT], content)?;
    let body = body_of(bytes[ACK_TYPE_AT], content);
    Ok(AckMsg {
        source,
        sequence: read_16(bytes, SEQUENCE_AT),
        sender,
        instance: InstanceId(read_16(bytes, FEEDBACK_INSTANCE_AT)),
        ack_type: bytes[ACK_TYPE_AT],
        ack_id: bytes[ACK_ID_AT],
        exts,
        body,
    })
}
