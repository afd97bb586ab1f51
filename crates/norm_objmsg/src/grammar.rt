//! Reads and writes INFO and DATA with any header extensions (RFC 5740 sections 4.2.1 and 4.2.2), and reads the segment in a stream's symbol.

ghost use Rattle.std.specs.Prelude.{◌≡◌, ◌↔◌, ◌+◌, ◌≤◌, ◌<◌, IsTrue, Ok, Err, MatchResult, [], length};
ghost use Rattle.norm_ext.specs.Reading.{info_read, data_read};
ghost use Rattle.norm_ext.specs.Segment.{segment_in};
ghost use Rattle.norm_objmsg.specs.MessageView.{info_of, data_of, part_of};
ghost use Rattle.std.specs.Option.{option_map};
ghost use Rattle.norm_ext.specs.Message.{Info, Data};
ghost use Rattle.norm_ext.specs.Octets.{octets_of};
ghost use Rattle.norm_ext.specs.Places.{info_header, data_header};
ghost use Rattle.norm_objmsg.specs.CanWriteMessage.{CanWrite};

use fec_plan::{PLACE, PayloadId};
use norm_base::Datagram;
use norm_ext::fitting::{has_room, is_narrow};
use norm_ext::header::{
    check_encoding, check_extensions, check_header, check_source, read_object_head,
};
use norm_ext::places::{DATA, DATA_WORDS, ENCODING_AT, INFO, INFO_WORDS, NAME_AT, WORD};
use norm_ext::pushing::{push_front, push_name, push_object_head};
use norm_ext::{Extensions, MessageType, ObjHead, Refusal, read_16, read_32, read_name};

const MSG_START_AT: usize = 2;

const OFFSET_AT: usize = 4;

/// NORM_INFO: the info of an object. If it was read, it borrows from the datagram.
#[derive(Debug, Drop)]
pub struct InfoMsg<'a> {
    pub head: ObjHead,
    pub exts: Extensions<'a>,
    pub info: &'a [u8],
}

/// NORM_DATA: one symbol of an object or a stream. If it was read, it borrows from the datagram.
#[derive(Debug, Drop)]
pub struct DataMsg<'a> {
    pub head: ObjHead,
    pub id: PayloadId,
    pub exts: Extensions<'a>,
    pub payload: &'a [u8],
}

impl<'a> InfoMsg<'a> {
    /// Whether [`write_info`] can write it: its header has at most 255 words, the datagram at most 1,500 octets, and `backoff` and `gsize` are
    /// below 16.
    pub fn fits(&self) -> bool
        ensures { IsTrue result ↔ CanWrite info_header self.now.head self.now.exts self.now.info.now }
    {
        is_narrow(self.head.backoff, self.head.gsize) && has_room(INFO, &self.exts, self.info.len())
    }
}

impl<'a> DataMsg<'a> {
    /// Whether [`write_data`] can write it: the conditions are those of [`InfoMsg::fits`].
    pub fn fits(&self) -> bool
        ensures { IsTrue result ↔ CanWrite data_header self.now.head self.now.exts self.now.payload.now }
    {
        is_narrow(self.head.backoff, self.head.gsize)
            && has_room(DATA, &self.exts, self.payload.len())
    }
}

/// A segment of a stream with its offset, as a symbol's payload has it.
// The order (norm_order) has a definition of its own for a segment's octets, because it does not stand on the messages.
#[derive(Clone, Copy, Debug, PartialEq, Eq)]
pub struct StreamPart<'a> {
    /// How many octets the segment has, as the payload says.
    pub len: u16,
    pub msg_start: u16,
    /// How many octets of the stream come before the segment, as the payload says.
    pub offset: u32,
    /// The `len` octets after the eight of the three fields before.
    pub octets: &'a [u8],
}

/// Reads a NORM_INFO. It takes no memory: the result borrows from the octets.
///
/// # Errors
///
/// If the octets spell no NORM_INFO, the first refusal that applies, in the order of [`Refusal`].
#[tactic(auto, unfolding(norm_ext::specs::Reading::info_read))]
pub fn read_info(bytes: &[u8]) -> Result<InfoMsg<'_>, Refusal>
    ensures { MatchResult result (λ m. info_read bytes.now ≡ Ok (info_of m)) (λ refusal. info_read bytes.now ≡ Err refusal) }
{
    let end = check_header(MessageType::Info, bytes)?;
    check_encoding(bytes[ENCODING_AT])?;
    let exts = check_extensions(bytes, INFO, end)?;
    let source = check_source(bytes)?;
    Ok(InfoMsg {
        head: read_object_head(bytes, source),
        exts,
        info: bytes.split_at(end).1,
    })
}

/// Reads a NORM_DATA. It takes no memory: the result borrows from the octets.
///
/// # Errors
///
/// If the octets spell no NORM_DATA, the first refusal that applies, in the order of [`Refusal`].
#[tactic(auto, unfolding(norm_ext::specs::Reading::data_read))]
pub fn read_data(bytes: &[u8]) -> Result<DataMsg<'_>, Refusal>
    ensures { MatchResult result (λ m. data_read bytes.now ≡ Ok (data_of m)) (λ refusal. data_read bytes.now ≡ Err refusal) }
{
    let end = check_header(MessageType::Data, bytes)?;
    check_encoding(bytes[ENCODING_AT])?;
    let exts = check_extensions(bytes, DATA, end)?;
    let source = check_source(bytes)?;
    Ok(DataMsg {
        head: read_object_head(bytes, source),
        id: read_name(bytes, NAME_AT),
        exts,
        payload: bytes.split_at(end).1,
    })
}

/// Returns the segment in the payload of a stream's symbol. Returns `None` if the payload has fewer than eight octets, or fewer after them than
/// it says. More octets are ignored.
// Nothing calls it here: a receiver hands up the octets of decoded symbol buffers. It is for programs that read single datagrams.
pub fn read_part(payload: &[u8]) -> Option<StreamPart<'_>>
    ensures { option_map part_of result ≡ segment_in payload.now }
{
    if payload.len() < PLACE {
        return None;
    }
    let len = read_16(payload, 0);
    if payload.len() < PLACE + usize::from(len) {
        return None;
    }
    Some(StreamPart {
        len,
        msg_start: read_16(payload, MSG_START_AT),
        offset: read_32(payload, OFFSET_AT),
        octets: payload.split_at(PLACE).1.split_at(usize::from(len)).0,
    })
}

fn write_info_parts(head: &ObjHead, exts: &Extensions<'_>, info: &[u8], out: &mut Datagram)
    requires empty { out.old ≡ [] }
    requires parts { CanWrite info_header head.now exts.now info.now }
    ensures { out.new ≡ octets_of (Info (record { head = head.now; extensions = exts.now; info = info.now })) }
{
    let spelled = exts.octets();
    let words = INFO_WORDS + (spelled.len() / WORD) as u8;
    push_front(
        MessageType::Info.number(),
        words,
        head.sequence,
        head.source,
        out,
    );
    push_object_head(head, out);
    out.push(spelled);
    out.push(info);
}

/// Writes a NORM_INFO into an empty datagram. Ask [`fits`](InfoMsg::fits) first if it may not fit.
pub fn write_info(msg: &InfoMsg<'_>, out: &mut Datagram)
    requires empty { out.old ≡ [] }
    requires message { CanWrite info_header msg.now.head msg.now.exts msg.now.info.now }
    ensures { out.new ≡ octets_of (info_of msg.now) }
{
    write_info_parts(&msg.head, &msg.exts, msg.info, out);
}

fn write_data_parts(
    head: &ObjHead,
    id: &PayloadId,
    exts: &Extensions<'_>,
    payload: &[u8],
    out: &mut Datagram,
)
    requires empty { out.old ≡ [] }
    requires parts { CanWrite data_header head.now exts.now payload.now }
    ensures { out.new ≡ octets_of (Data (record { head = head.now; id = id.now; extensions = exts.now; payload = payload.now })) }
{
    let spelled = exts.octets();
    let words = DATA_WORDS + (spelled.len() / WORD) as u8;
    push_front(
        MessageType::Data.number(),
        words,
        head.sequence,
        head.source,
        out,
    );
    push_object_head(head, out);
    push_name(id, out);
    out.push(spelled);
    out.push(payload);
}

/// Writes a NORM_DATA into an empty datagram. Ask [`fits`](DataMsg::fits) first if it may not fit.
pub fn write_data(msg: &DataMsg<'_>, out: &mut Datagram)
    requires empty { out.old ≡ [] }
    requires message { CanWrite data_header msg.now.head msg.now.exts msg.now.payload.now }
    ensures { out.new ≡ octets_of (data_of msg.now) }
{
    write_data_parts(&msg.head, &msg.id, &msg.exts, msg.payload, out);
}
