//! Writes a sender's datagrams (RFC 5740 section 4.2) up to a symbol's octets, an info or a list of nodes. The caller pushes these afterwards, so
//! that they are copied once.

ghost use Rattle.std.specs.Prelude.{◌≡◌, ◌%◌, ◌<◌, ◌≤◌, ◌++◌, [], ◌∷◌, length};
ghost use Rattle.norm_ext.specs.Extensions.{fti_extension};
ghost use Rattle.norm_ext.specs.Message.{Info, Data, Flush, Squelch};
ghost use Rattle.norm_ext.specs.Octets.{octets_of};
ghost use Rattle.norm_ext.specs.ObjectIds.{object_id as id_of_index};
ghost use Rattle.norm_sender.specs.Heads.{object_front, command_front};

use crate::pace::Pace;
use fec_plan::{PayloadId, Point, Position};
use norm_base::{Datagram, NodeId, Profile};
use norm_cmdmsg::{CommandMsg, write_command};
use norm_ext::{CmdHead, Extensions, Fti, ObjHead, extensions_of, fti_words, object_id};
use norm_objmsg::{DataMsg, InfoMsg, write_data, write_info};

/// How many blocks of an object a message can name.
// RFC 5510 section 5.1: 24 bits name a block.
const BLOCK_COUNT: u32 = 16_777_216;

/// A symbol's name as messages spell it (RFC 5510 section 5.1): 24 bits for the block, 8 for the symbol.
fn name_of(block: u32, symbol: u8) -> PayloadId
    ensures { result ≡ record { block = block % 16777216; symbol = symbol } }
{
    PayloadId {
        block: block % BLOCK_COUNT,
        symbol,
    }
}

/// The fields that INFO and DATA share (RFC 5740 sections 4.2.1 and 4.2.2), with the sequence number of the next datagram.
fn object_head(profile: &Profile, pace: &Pace, index: u32, flags: u8) -> ObjHead
    ensures exact { result ≡ object_front profile.now pace.now index flags }
    ensures backoff { result.backoff < 16 }
    ensures gsize { result.gsize < 16 }
{
    ObjHead {
        // It does not fail: a profile's sender is a node.
        source: NodeId::of(profile.sender).unwrap(),
        sequence: pace.sequence,
        instance: pace.instance,
        grtt: profile.grtt_code,
        backoff: profile.k,
        gsize: profile.gsize_code,
        flags,
        object: object_id(profile, index),
    }
}

/// The fields that all commands share (RFC 5740 section 4.2.3), with the sequence number of the next datagram.
fn command_head(profile: &Profile, pace: &Pace) -> CmdHead
    ensures exact { result ≡ command_front profile.now pace.now }
    ensures backoff { result.backoff < 16 }
    ensures gsize { result.gsize < 16 }
{
    CmdHead {
        source: NodeId::of(profile.sender).unwrap(),
        sequence: pace.sequence,
        instance: pace.instance,
        grtt: profile.grtt_code,
        backoff: profile.k,
        gsize: profile.gsize_code,
    }
}

/// Writes an INFO up to where its info begins.
fn put_info_front(head: &ObjHead, fti: &Fti, out: &mut Datagram)
    requires empty { out.old ≡ [] }
    requires backoff { head.now.backoff < 16 }
    requires gsize { head.now.gsize < 16 }
    ensures { out.new ≡ octets_of (Info (record { head = head.now; extensions = fti_extension fti.now ∷ []; info = [] })) }
{
    let words = fti_words(fti);
    let exts = extensions_of(&words);
    write_info(
        &InfoMsg {
            head: *head,
            exts,
            info: &[],
        },
        out,
    );
}

/// Writes a DATA up to where its payload begins.
fn put_data_front(head: &ObjHead, id: &PayloadId, fti: &Fti, out: &mut Datagram)
    requires empty { out.old ≡ [] }
    requires backoff { head.now.backoff < 16 }
    requires gsize { head.now.gsize < 16 }
    ensures { out.new ≡ octets_of (Data (record { head = head.now; id = id.now; extensions = fti_extension fti.now ∷ []; payload = [] })) }
{
    let words = fti_words(fti);
    let exts = extensions_of(&words);
    write_data(
        &DataMsg {
            head: *head,
            id: *id,
            exts,
            payload: &[],
        },
        out,
    );
}

/// Writes a FLUSH up to where its nodes begin.
fn put_flush_front(head: &CmdHead, object: u16, id: &PayloadId, out: &mut Datagram)
    requires empty { out.old ≡ [] }
    requires backoff { head.now.backoff < 16 }
    requires gsize { head.now.gsize < 16 }
    ensures { out.new ≡ octets_of (Flush (record { head = head.now; object = object; id = id.now; extensions = []; nodes = [] })) }
{
    let exts = Extensions::none();
    write_command(
        &CommandMsg::Flush {
            head: *head,
            object,
            id: *id,
            exts,
            nodes: &[],
        },
        out,
    );
}

/// Writes a whole SQUELCH: it lists no objects, so nothing is appended.
fn put_squelch(head: &CmdHead, object: u16, id: &PayloadId, out: &mut Datagram)
    requires empty { out.old ≡ [] }
    requires backoff { head.now.backoff < 16 }
    requires gsize { head.now.gsize < 16 }
    ensures { out.new ≡ octets_of (Squelch (record { head = head.now; object = object; id = id.now; extensions = []; invalid = [] })) }
{
    let exts = Extensions::none();
    write_command(
        &CommandMsg::Squelch {
            head: *head,
            object,
            id: *id,
            exts,
            invalid: &[],
        },
        out,
    );
}

/// Clears the datagram, and writes an INFO up to its info, which [`push_info`] appends.
pub(crate) fn write_info_front(
    profile: &Profile,
    pace: &Pace,
    index: u32,
    flags: u8,
    fti: &Fti,
    out: &mut Datagram,
)
    ensures exact { out.new ≡ octets_of (Info (record { head = object_front profile.now pace.now index flags; extensions = fti_extension fti.now ∷ []; info = [] })) }
    ensures size { length out.new ≡ 28 }
{
    let head = object_head(profile, pace, index, flags);
    out.clear();
    put_info_front(&head, fti, out);
}

/// Clears the datagram, and writes a DATA up to its payload, which the window's `symbol` appends.
pub(crate) fn write_data_front(
    profile: &Profile,
    pace: &Pace,
    at: &Position,
    flags: u8,
    fti: &Fti,
    out: &mut Datagram,
)
    ensures exact { out.new ≡ octets_of (Data (record { head = object_front profile.now pace.now at.now.index flags; id = record { block = at.now.block; symbol = at.now.symbol }; extensions = fti_extension fti.now ∷ []; payload = [] })) }
    ensures size { length out.new ≡ 32 }
{
    let head = object_head(profile, pace, at.index, flags);
    let id = name_of(at.block, at.symbol);
    out.clear();
    put_data_front(&head, &id, fti, out);
}

/// Clears the datagram, and writes a FLUSH up to its nodes, which the book's `write_pending` appends.
pub(crate) fn write_flush_front(profile: &Profile, pace: &Pace, at: &Position, out: &mut Datagram)
    ensures exact { out.new ≡ octets_of (Flush (record { head = command_front profile.now pace.now; object = id_of_index profile.now at.now.index; id = record { block = at.now.block; symbol = at.now.symbol }; extensions = []; nodes = [] })) }
    ensures size { length out.new ≡ 20 }
{
    let head = command_head(profile, pace);
    let id = name_of(at.block, at.symbol);
    out.clear();
    put_flush_front(&head, object_id(profile, at.index), &id, out);
}

/// Clears the datagram, and writes a SQUELCH that names the first symbol of this block. It lists no single objects as invalid.
pub(crate) fn write_squelch(profile: &Profile, pace: &Pace, first: &Point, out: &mut Datagram)
    ensures { out.new ≡ octets_of (Squelch (record { head = command_front profile.now pace.now; object = id_of_index profile.now first.now.index; id = record { block = first.now.block; symbol = 0 }; extensions = []; invalid = [] })) }
{
    let head = command_head(profile, pace);
    let id = name_of(first.block, 0);
    out.clear();
    put_squelch(&head, object_id(profile, first.index), &id, out);
}

/// Appends an object's info to what [`write_info_front`] wrote. An info has at most the octets of one symbol, so it fits.
pub(crate) fn push_info(profile: &Profile, info: &[u8], out: &mut Datagram)
    requires front { length out.old ≡ 28 }
    requires most { length info.now ≤ profile.now.e }
    ensures { out.new ≡ out.old ++ info.now }
{
    let _most = profile.e;
    out.push(info);
}
