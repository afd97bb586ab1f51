//! Checks and reads the parts that messages share. The readers of single messages call these in the order in which refusals are reported:
//! first the header, then the encoding, the extensions, the requests, the nodes, and the length of a list.

ghost use Rattle.std.specs.Prelude.{◌≡◌, ◌+◌, ◌*◌, ◌%◌, ◌≤◌, ◌<◌, Ok, Err, MatchResult, OnOk, length};
ghost use Rattle.norm_base.specs.Member.{IsMember};
ghost use Rattle.norm_ext.specs.Places.{word_size, common, sub_type_at, info_header};
ghost use Rattle.norm_ext.specs.Numbers.{number, octet};
ghost use Rattle.norm_ext.specs.Extensions.{extensions_of as all_extensions};
ghost use Rattle.norm_ext.specs.Reading.{version_checked, header_checked, words_of, least_words, content_of, header_from, encoding_checked, header_extensions_checked, member_checked, list_checked, object_head_of, command_head_of, source_of};

use crate::extensions::{Extensions, check_list, extensions_of};
use crate::head::{CmdHead, ObjHead};
use crate::kinds::{MessageType, SubType};
use crate::numbers::{read_16, read_32};
use crate::places::{
    COMMAND_WORDS, COMMON, COMMON_WORDS, DATA_WORDS, FEEDBACK_WORDS, FLAGS_AT, GRTT_AT, INFO_WORDS,
    INSTANCE_AT, NAMING_WORDS, OBJECT_AT, SEQUENCE_AT, SIZES_AT, SOURCE_AT, SUB_TYPE_AT, WORD,
    WORDS_AT,
};
use crate::refusal::{ExtFault, Refusal};
use norm_base::{InstanceId, NodeId};

/// The version of NORM that is read and written.
// RFC 5740 section 4.1. A datagram of another version is refused.
pub const VERSION: u8 = 1;
/// The FEC Encoding ID of Reed-Solomon over GF(2^8) (RFC 5510).
// RFC 5510 section 5. Any other code is refused: with `FecId` in a header, and with `ItemFec` in an item.
pub const ENCODING_ID: u8 = 5;

/// Checks the version. `Short` if there is no whole common header, `Version` for another version.
pub fn check_version(bytes: &[u8]) -> Result<(), Refusal>
    ensures exact { result ≡ version_checked bytes.now }
    ensures long { OnOk result (common ≤ length bytes.now) }
{
    if bytes.len() < COMMON {
        return Err(Refusal::Short { len: bytes.len() });
    }
    let v = bytes[0] / 16;
    if v != VERSION {
        return Err(Refusal::Version { v });
    }
    Ok(())
}

/// Returns the octet at an offset, or 0 if the datagram ends before it.
fn octet_or_zero(bytes: &[u8], at: usize) -> u8
    ensures { result ≡ octet at bytes.now }
{
    match bytes.get(at) {
        Some(octet) => *octet,
        // A command that is too short for a sub-type is refused all the same, by one of the two tests that come next.
        None => 0,
    }
}

/// Returns the fewest words that the header of this message can have. FLUSH and SQUELCH have one more than other commands, since they name a symbol.
fn least_of(kind: MessageType, bytes: &[u8]) -> u8
    ensures { result ≡ least_words kind bytes.now }
{
    match kind {
        MessageType::Info => INFO_WORDS,
        MessageType::Data => DATA_WORDS,
        MessageType::Command => {
            let sub_type = octet_or_zero(bytes, SUB_TYPE_AT);
            if sub_type == SubType::Flush.number() || sub_type == SubType::Squelch.number() {
                NAMING_WORDS
            } else {
                COMMAND_WORDS
            }
        }
        MessageType::Nack | MessageType::Ack => FEEDBACK_WORDS,
        MessageType::Report => COMMON_WORDS,
    }
}

/// `check_header` without the length that it returns.
#[tactic(auto, unfolding(crate::specs::Reading::header_checked))]
fn check_fields(kind: MessageType, bytes: &[u8]) -> Result<(), Refusal>
    ensures exact { result ≡ header_checked kind bytes.now }
    ensures long { OnOk result ((least_words kind bytes.now ≤ words_of bytes.now) × (word_size * words_of bytes.now ≤ length bytes.now)) }
{
    check_version(bytes)?;
    let t = bytes[0] % 16;
    if t != kind.number() {
        return Err(Refusal::BadType { t });
    }
    let words = bytes[WORDS_AT];
    let least = least_of(kind, bytes);
    if words < least {
        return Err(Refusal::HeaderLength { words, least });
    }
    if bytes.len() < WORD * usize::from(words) {
        return Err(Refusal::PastEnd {
            words,
            len: bytes.len(),
        });
    }
    Ok(())
}

/// Checks version, type and header length of a message of this type. Returns the header's length in octets: the datagram has at least this many,
/// and all fixed fields of the type lie within them.
///
/// # Errors
///
/// The first of `Short`, `Version`, `BadType`, `HeaderLength` and `PastEnd` that applies.
pub fn check_header(kind: MessageType, bytes: &[u8]) -> Result<usize, Refusal>
    ensures { MatchResult result
        (λ end. (header_checked kind bytes.now ≡ Ok tt) × (end ≡ word_size * words_of bytes.now) × (word_size * least_words kind bytes.now ≤ end) × (end ≤ length bytes.now))
        (λ refusal. header_checked kind bytes.now ≡ Err refusal) }
{
    check_fields(kind, bytes)?;
    Ok(WORD * usize::from(bytes[WORDS_AT]))
}

/// Refuses any FEC Encoding ID except 5, with `FecId`.
pub fn check_encoding(id: u8) -> Result<(), Refusal>
    ensures { result ≡ encoding_checked id }
{
    if id != ENCODING_ID {
        return Err(Refusal::FecId { id });
    }
    Ok(())
}

/// Returns the header's extensions, which stand between the offsets `from` and `end`. `end` is the header's length, as `check_header` returns it.
///
/// # Errors
///
/// `Ext` with the offset of the first bad extension in the datagram.
pub fn check_extensions(bytes: &[u8], from: usize, end: usize) -> Result<Extensions<'_>, Refusal>
    requires end { end ≡ word_size * words_of bytes.now }
    requires from { from ≤ end }
    requires long { end ≤ length bytes.now }
    ensures { MatchResult result
        (λ exts. (header_extensions_checked from bytes.now ≡ Ok tt) × (exts ≡ all_extensions (header_from from bytes.now)))
        (λ refusal. header_extensions_checked from bytes.now ≡ Err refusal) }
{
    let exts = bytes.split_at(from).1.split_at(end - from).0;
    match check_list(exts, from) {
        Ok(()) => Ok(extensions_of(exts)),
        Err(ExtFault::ZeroLength { at }) => Err(Refusal::Ext { at }),
        Err(ExtFault::Overrun { at }) => Err(Refusal::Ext { at }),
    }
}

/// Returns the member with this number, or `BadNode` if no member can have it.
pub fn check_member(number: u32) -> Result<NodeId, Refusal>
    ensures { MatchResult result
        (λ node. (member_checked number ≡ Ok tt) × (node ≡ number))
        (λ refusal. member_checked number ≡ Err refusal) }
{
    match NodeId::of(number) {
        Some(node) => Ok(node),
        None => Err(Refusal::BadNode),
    }
}

/// Returns the source of a message, or `BadNode` if no member can have its number.
pub fn check_source(bytes: &[u8]) -> Result<NodeId, Refusal>
    requires { common ≤ length bytes.now }
    ensures { MatchResult result
        (λ node. (member_checked (source_of bytes.now) ≡ Ok tt) × (node ≡ source_of bytes.now))
        (λ refusal. member_checked (source_of bytes.now) ≡ Err refusal) }
{
    check_member(read_32(bytes, SOURCE_AT))
}

/// Checks that a list consists of whole numbers of `width` octets each. `BadList` if octets are left over.
pub fn check_numbers(width: usize, list: &[u8]) -> Result<(), Refusal>
    requires { 0 < width }
    ensures exact { result ≡ list_checked width list.now }
    ensures whole { OnOk result (length list.now % width ≡ 0) }
{
    let rest = list.len() % width;
    if rest != 0 {
        return Err(Refusal::BadList { rest });
    }
    Ok(())
}

/// Reads the fields at the beginning of INFO and DATA. `source` was read before, by `check_source`.
pub fn read_object_head(bytes: &[u8], source: NodeId) -> ObjHead
    requires long { info_header ≤ length bytes.now }
    requires source { source ≡ source_of bytes.now }
    ensures { result ≡ object_head_of bytes.now }
{
    let sizes = bytes[SIZES_AT];
    ObjHead {
        source,
        sequence: read_16(bytes, SEQUENCE_AT),
        instance: InstanceId(read_16(bytes, INSTANCE_AT)),
        grtt: bytes[GRTT_AT],
        backoff: sizes / 16,
        gsize: sizes % 16,
        flags: bytes[FLAGS_AT],
        object: read_16(bytes, OBJECT_AT),
    }
}

/// Reads the fields at the beginning of a command. `source` was read before, by `check_source`.
pub fn read_command_head(bytes: &[u8], source: NodeId) -> CmdHead
    requires long { sub_type_at ≤ length bytes.now }
    requires source { source ≡ source_of bytes.now }
    ensures { result ≡ command_head_of bytes.now }
{
    let sizes = bytes[SIZES_AT];
    CmdHead {
        source,
        sequence: read_16(bytes, SEQUENCE_AT),
        instance: InstanceId(read_16(bytes, INSTANCE_AT)),
        grtt: bytes[GRTT_AT],
        backoff: sizes / 16,
        gsize: sizes % 16,
    }
}
