//! Reads messages of any type: looks at the version and the type, and calls the reader of that type. Reports are read here.

ghost use Rattle.std.specs.Prelude.{◌≡◌, ◌≤◌, Ok, Err, MatchResult, IfOk, IfErr, length};
ghost use Rattle.norm_ext.specs.Places.{common};
ghost use Rattle.norm_ext.specs.Message.{Message as Meaning};
ghost use Rattle.norm_ext.specs.Spells.{Spells};
ghost use Rattle.norm_ext.specs.Reading.{decoded, report_read, read_as, known_type};
ghost use Rattle.norm_codec.specs.View.{message_of};
ghost use Rattle.norm_codec.specs.Whole.{IsWhole};

use crate::message::Message;
use norm_cmdmsg::read_command;
use norm_ext::header::{check_header, check_source, check_version};
use norm_ext::places::{COMMON, SEQUENCE_AT, WORDS_AT};
use norm_ext::{MessageType, Refusal, read_16};
use norm_fbmsg::{read_ack, read_nack};
use norm_objmsg::grammar::{read_data, read_info};

/// Reads a report. Refuses it only for its header or its source, since its content is kept unread.
#[tactic(auto, unfolding(norm_ext::specs::Reading::report_read))]
fn read_report(bytes: &[u8]) -> Result<Message<'_>, Refusal>
    ensures exact { MatchResult result (λ m. report_read bytes.now ≡ Ok (message_of m)) (λ refusal. report_read bytes.now ≡ Err refusal) }
    ensures whole { IfOk result IsWhole }
{
    check_header(MessageType::Report, bytes)?;
    let source = check_source(bytes)?;
    Ok(Message::Report {
        source,
        sequence: read_16(bytes, SEQUENCE_AT),
        words: bytes[WORDS_AT],
        rest: bytes.split_at(COMMON).1,
    })
}

/// Returns the type, or `BadType` if its code is not 1 to 6.
fn read_type(bytes: &[u8]) -> Result<MessageType, Refusal>
    requires { common ≤ length bytes.now }
    ensures { result ≡ known_type bytes.now }
{
    let t = bytes[0] % 16;
    match MessageType::of(t) {
        Some(kind) => Ok(kind),
        None => Err(Refusal::BadType { t }),
    }
}

/// Reads a message of this type. Its reader checks version and type once more.
fn read_message(kind: MessageType, bytes: &[u8]) -> Result<Message<'_>, Refusal>
    ensures exact { MatchResult result (λ m. read_as kind bytes.now ≡ Ok (message_of m)) (λ refusal. read_as kind bytes.now ≡ Err refusal) }
    ensures whole { IfOk result IsWhole }
{
    match kind {
        MessageType::Info => match read_info(bytes) {
            Ok(msg) => Ok(Message::Info(msg)),
            Err(refusal) => Err(refusal),
        },
        MessageType::Data => match read_data(bytes) {
            Ok(msg) => Ok(Message::Data(msg)),
            Err(refusal) => Err(refusal),
        },
        MessageType::Command => match read_command(bytes) {
            Ok(msg) => Ok(Message::Command(msg)),
            Err(refusal) => Err(refusal),
        },
        MessageType::Nack => match read_nack(bytes) {
            Ok(msg) => Ok(Message::Nack(msg)),
            Err(refusal) => Err(refusal),
        },
        MessageType::Ack => match read_ack(bytes) {
            Ok(msg) => Ok(Message::Ack(msg)),
            Err(refusal) => Err(refusal),
        },
        MessageType::Report => read_report(bytes),
    }
}

/// Like `decode`, which promises more.
#[tactic(auto, unfolding(norm_ext::specs::Reading::decoded))]
fn read_any(bytes: &[u8]) -> Result<Message<'_>, Refusal>
    ensures exact { MatchResult result (λ m. decoded bytes.now ≡ Ok (message_of m)) (λ refusal. decoded bytes.now ≡ Err refusal) }
    ensures whole { IfOk result IsWhole }
{
    check_version(bytes)?;
    let kind = read_type(bytes)?;
    read_message(kind, bytes)
}

/// Reads a message. It takes no memory: the result borrows from the octets. Any octets are allowed.
///
/// # Errors
///
/// If the octets spell no message, the first refusal that applies, in the order of [`Refusal`].
pub fn decode(bytes: &[u8]) -> Result<Message<'_>, Refusal>
    ensures exact { MatchResult result (λ m. decoded bytes.now ≡ Ok (message_of m)) (λ refusal. decoded bytes.now ≡ Err refusal) }
    ensures whole { IfOk result IsWhole }
    ensures found { IfOk result (λ m. Spells (message_of m) bytes.now) }
    // So whoever drops what is refused loses no message.
    ensures none { IfErr result (λ refusal. (m : Meaning) → Spells m bytes.now → ⊥) }
{
    read_any(bytes)
}
