//! Reads commands (RFC 5740 section 4.2.3). The header is checked first, then the sub-type. Each sub-type has its own reader, except that
//! the two whose content is kept unread share one.

ghost use Rattle.std.specs.Prelude.{◌≡◌, ◌+◌, ◌*◌, ◌≤◌, ◌<◌, Ok, Err, MatchResult, IfOk, length};
ghost use Rattle.norm_ext.specs.Places.{word_size, sub_type_at, command_header, naming_header};
ghost use Rattle.norm_ext.specs.Numbers.{octet, sub_type_number};
ghost use Rattle.norm_ext.specs.Reading.{words_of, least_words, command_read, command_by, sub_type_in, flush_read, eot_read, squelch_read, repair_adv_read, ack_req_read, opaque_read};
ghost use Rattle.norm_cmdmsg.specs.View.{command_of};
ghost use Rattle.norm_cmdmsg.specs.Whole.{IsWhole};

use crate::command::{BEFORE_REST, CommandMsg};
use norm_ext::header::{
    check_encoding, check_extensions, check_header, check_numbers, check_source, read_command_head,
};
use norm_ext::places::{
    ACK_ID_AT, ACK_TYPE_AT, ADV_FLAGS_AT, COMMAND, ENCODING_AT, NAME_AT, NAMING, NODE, OBJECT,
    OBJECT_AT, SUB_TYPE_AT, WORDS_AT,
};
use norm_ext::{MessageType, Refusal, Requests, SubType, read_16, read_name};

/// Reads a FLUSH whose header has `end` octets. The list of nodes follows the header.
#[tactic(auto, unfolding(norm_ext::specs::Reading::flush_read))]
fn read_flush(bytes: &[u8], end: usize) -> Result<CommandMsg<'_>, Refusal>
    requires end { end ≡ word_size * words_of bytes.now }
    requires least { naming_header ≤ end }
    requires long { end ≤ length bytes.now }
    ensures exact { MatchResult result (λ m. flush_read bytes.now ≡ Ok (command_of m)) (λ refusal. flush_read bytes.now ≡ Err refusal) }
    ensures whole { IfOk result IsWhole }
{
    check_encoding(bytes[ENCODING_AT])?;
    let exts = check_extensions(bytes, NAMING, end)?;
    let source = check_source(bytes)?;
    let nodes = bytes.split_at(end).1;
    check_numbers(NODE, nodes)?;
    Ok(CommandMsg::Flush {
        head: read_command_head(bytes, source),
        object: read_16(bytes, OBJECT_AT),
        id: read_name(bytes, NAME_AT),
        exts,
        nodes,
    })
}

/// Reads an EOT whose header has `end` octets. `BadList` if anything follows the header.
#[tactic(auto, unfolding(norm_ext::specs::Reading::eot_read))]
fn read_eot(bytes: &[u8], end: usize) -> Result<CommandMsg<'_>, Refusal>
    requires end { end ≡ word_size * words_of bytes.now }
    requires least { command_header ≤ end }
    requires long { end ≤ length bytes.now }
    ensures exact { MatchResult result (λ m. eot_read bytes.now ≡ Ok (command_of m)) (λ refusal. eot_read bytes.now ≡ Err refusal) }
    ensures whole { IfOk result IsWhole }
{
    let exts = check_extensions(bytes, COMMAND, end)?;
    let source = check_source(bytes)?;
    let rest = bytes.split_at(end).1.len();
    if rest != 0 {
        return Err(Refusal::BadList { rest });
    }
    Ok(CommandMsg::Eot {
        head: read_command_head(bytes, source),
        exts,
    })
}

/// Reads a SQUELCH whose header has `end` octets. The list of objects follows the header.
#[tactic(auto, unfolding(norm_ext::specs::Reading::squelch_read))]
fn read_squelch(bytes: &[u8], end: usize) -> Result<CommandMsg<'_>, Refusal>
    requires end { end ≡ word_size * words_of bytes.now }
    requires least { naming_header ≤ end }
    requires long { end ≤ length bytes.now }
    ensures exact { MatchResult result (λ m. squelch_read bytes.now ≡ Ok (command_of m)) (λ refusal. squelch_read bytes.now ≡ Err refusal) }
    ensures whole { IfOk result IsWhole }
{
    check_encoding(bytes[ENCODING_AT])?;
    let exts = check_extensions(bytes, NAMING, end)?;
    let source = check_source(bytes)?;
    let invalid = bytes.split_at(end).1;
    check_numbers(OBJECT, invalid)?;
    Ok(CommandMsg::Squelch {
        head: read_command_head(bytes, source),
        object: read_16(bytes, OBJECT_AT),
        id: read_name(bytes, NAME_AT),
        exts,
        invalid,
    })
}

/// Reads a REPAIR_ADV whose header has `end` octets. The list of requests follows the header.
#[tactic(auto, unfolding(norm_ext::specs::Reading::repair_adv_read))]
fn read_repair_adv(bytes: &[u8], end: usize) -> Result<CommandMsg<'_>, Refusal>
    requires end { end ≡ word_size * words_of bytes.now }
    requires least { command_header ≤ end }
    requires long { end ≤ length bytes.now }
    ensures exact { MatchResult result (λ m. repair_adv_read bytes.now ≡ Ok (command_of m)) (λ refusal. repair_adv_read bytes.now ≡ Err refusal) }
    ensures whole { IfOk result IsWhole }
{
    let exts = check_extensions(bytes, COMMAND, end)?;
    let requests = Requests::check(bytes.split_at(end).1, end)?;
    let source = check_source(bytes)?;
    Ok(CommandMsg::RepairAdv {
        head: read_command_head(bytes, source),
        flags: bytes[ADV_FLAGS_AT],
        exts,
        requests,
    })
}

/// Reads an ACK_REQ whose header has `end` octets. The list of nodes follows the header.
#[tactic(auto, unfolding(norm_ext::specs::Reading::ack_req_read))]
fn read_ack_req(bytes: &[u8], end: usize) -> Result<CommandMsg<'_>, Refusal>
    requires end { end ≡ word_size * words_of bytes.now }
    requires least { command_header ≤ end }
    requires long { end ≤ length bytes.now }
    ensures exact { MatchResult result (λ m. ack_req_read bytes.now ≡ Ok (command_of m)) (λ refusal. ack_req_read bytes.now ≡ Err refusal) }
    ensures whole { IfOk result IsWhole }
{
    let exts = check_extensions(bytes, COMMAND, end)?;
    let source = check_source(bytes)?;
    let nodes = bytes.split_at(end).1;
    check_numbers(NODE, nodes)?;
    Ok(CommandMsg::AckReq {
        head: read_command_head(bytes, source),
        ack_type: bytes[ACK_TYPE_AT],
        ack_id: bytes[ACK_ID_AT],
        exts,
        nodes,
    })
}

/// Reads a command whose content is kept unread, its extensions too. Refuses it only if no member can have its source's number.
#[tactic(auto, unfolding(norm_ext::specs::Reading::opaque_read))]
fn read_opaque(bytes: &[u8]) -> Result<CommandMsg<'_>, Refusal>
    requires { command_header ≤ length bytes.now }
    ensures exact { MatchResult result (λ m. opaque_read bytes.now ≡ Ok (command_of m)) (λ refusal. opaque_read bytes.now ≡ Err refusal) }
    ensures whole { IfOk result IsWhole }
{
    let source = check_source(bytes)?;
    Ok(CommandMsg::Opaque {
        head: read_command_head(bytes, source),
        sub_type: bytes[SUB_TYPE_AT],
        words: bytes[WORDS_AT],
        rest: bytes.split_at(BEFORE_REST).1,
    })
}

/// Returns the sub-type, or `SubType` if it is not 1 to 7.
fn known_sub_type(bytes: &[u8]) -> Result<SubType, Refusal>
    requires { command_header ≤ length bytes.now }
    ensures exact { result ≡ sub_type_in bytes.now }
    ensures number { IfOk result (λ sub_type. sub_type_number sub_type ≡ octet sub_type_at bytes.now) }
{
    let s = bytes[SUB_TYPE_AT];
    match SubType::of(s) {
        Some(sub_type) => Ok(sub_type),
        None => Err(Refusal::SubType { s }),
    }
}

/// Reads a command of this sub-type, whose header has `end` octets. The two that are kept unread need no `end`.
fn read_by(sub_type: SubType, bytes: &[u8], end: usize) -> Result<CommandMsg<'_>, Refusal>
    requires end { end ≡ word_size * words_of bytes.now }
    requires least { word_size * least_words MessageType.Command bytes.now ≤ end }
    requires named { sub_type_number sub_type ≡ octet sub_type_at bytes.now }
    requires long { end ≤ length bytes.now }
    ensures exact { MatchResult result (λ m. command_by sub_type bytes.now ≡ Ok (command_of m)) (λ refusal. command_by sub_type bytes.now ≡ Err refusal) }
    ensures whole { IfOk result IsWhole }
{
    match sub_type {
        SubType::Flush => read_flush(bytes, end),
        SubType::EndOfTransmission => read_eot(bytes, end),
        SubType::Squelch => read_squelch(bytes, end),
        SubType::RepairAdvertisement => read_repair_adv(bytes, end),
        SubType::AckRequest => read_ack_req(bytes, end),
        // Neither is used here. They are kept as octets, so that `show` can print them.
        SubType::CongestionControl | SubType::Application => read_opaque(bytes),
    }
}

/// Reads a command. It takes no memory: the result borrows from the octets.
///
/// # Errors
///
/// If the octets spell no command, the first refusal that applies, in the order of [`Refusal`].
#[tactic(auto, unfolding(norm_ext::specs::Reading::command_read))]
pub fn read_command(bytes: &[u8]) -> Result<CommandMsg<'_>, Refusal>
    ensures exact { MatchResult result (λ m. command_read bytes.now ≡ Ok (command_of m)) (λ refusal. command_read bytes.now ≡ Err refusal) }
    ensures whole { IfOk result IsWhole }
{
    let end = check_header(MessageType::Command, bytes)?;
    let sub_type = known_sub_type(bytes)?;
    read_by(sub_type, bytes, end)
}
