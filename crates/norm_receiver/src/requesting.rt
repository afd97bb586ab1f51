//! What a NACK asks with (RFC 5740 section 4.3.1): for each need an item, or a range, of its repair requests.

ghost use Rattle.std.specs.Prelude.{◌≡◌, ◌+◌, ◌≤◌, ◌<◌, ◌++◌, ℕ, List, [], ◌∷◌, false, length, map};
ghost use Rattle.std.specs.Bool.{MatchBool};
ghost use Rattle.fec_plan.specs.Points.{IsBlock, position};
ghost use Rattle.norm_ext.specs.Asked.{asked_octets};
ghost use Rattle.norm_receive_rules.specs.Needs.{Need as Meaning};
ghost use Rattle.norm_receive_rules.specs.Nack.{asked_of};
ghost use Rattle.norm_receiver.specs.Requesting.{need_of, IsNeed, HasAsked};

use fec_plan::{LAST_BLOCK, Position};
use norm_base::{Datagram, Profile};
use norm_ext::flags::{WANT_BLOCK, WANT_INFO, WANT_OBJECT, WANT_SEGMENT};
use norm_ext::items::item_of;
use norm_ext::{Form, RequestWriter};

/// What a receiver needs. A NACK has one item, or one range, for each need before the first that does not fit.
#[derive(Clone, Copy, Debug, PartialEq, Eq)]
pub enum Need {
    /// An object that was not taken up, and its info.
    Object { index: u32 },
    /// The info of an object that was taken up.
    ObjectInfo { index: u32 },
    /// This many more symbols of a block.
    Symbols { index: u32, block: u32, wanted: u8 },
    /// A source symbol of a stream, by its own name.
    Source { at: Position },
    /// Everything of a stream from a block on.
    Rest { index: u32, block: u32 },
}

/// Returns the position of an object's first symbol, which names the object in a request.
fn first_of(index: u32) -> Position
    ensures { result ≡ position index 0 0 }
{
    Position {
        index,
        block: 0,
        symbol: 0,
    }
}

/// Returns the position of a block's first symbol, which names the block in a range.
fn first_in(index: u32, block: u32) -> Position
    requires { IsBlock block }
    ensures { result ≡ position index block 0 }
{
    Position {
        index,
        block,
        symbol: 0,
    }
}

/// Appends the item or range that asks for a need. It joins the last request if that has its form and flags. `out` is the datagram that
/// the writer wrote to before. Returns `false` if the requests would exceed the limit; then nothing changes.
pub(crate) fn ask(
    profile: &Profile,
    need: Need,
    writer: &mut RequestWriter,
    out: &mut Datagram,
) -> bool
    requires need { IsNeed need }
    requires used { writer.old.used ≤ length out.old }
    requires room { length out.old + writer.old.limit ≤ 1500 + writer.old.used }
    ensures added { (front : List ℕ) (needs : List Meaning) → HasAsked profile.now writer.old out.old front needs →
        MatchBool result
        (HasAsked profile.now writer.new out.new front (needs ++ need_of need ∷ []))
        (writer.old.limit < length (asked_octets (map (asked_of profile.now) (needs ++ need_of need ∷ [])))) }
    ensures kept { result ≡ false → (writer.new ≡ writer.old) × (out.new ≡ out.old) }
    ensures limit { writer.new.limit ≡ writer.old.limit }
    ensures used { writer.new.used ≤ length out.new }
    ensures room { length out.new + writer.new.limit ≤ 1500 + writer.new.used }
{
    match need {
        Need::Object { index } => {
            let item = item_of(profile, first_of(index));
            writer.push_item(out, Form::Items, WANT_OBJECT + WANT_INFO, item, None)
        }
        Need::ObjectInfo { index } => {
            let item = item_of(profile, first_of(index));
            writer.push_item(out, Form::Items, WANT_INFO, item, None)
        }
        Need::Symbols {
            index,
            block,
            wanted,
        } => {
            let at = Position {
                index,
                block,
                symbol: wanted,
            };
            writer.push_item(
                out,
                Form::Erasures,
                WANT_SEGMENT,
                item_of(profile, at),
                None,
            )
        }
        Need::Source { at } => {
            let item = item_of(profile, at);
            writer.push_item(out, Form::Items, WANT_SEGMENT, item, None)
        }
        // The end of the stream is not known, so the range goes to the last block that a message can name.
        Need::Rest { index, block } => {
            let first = item_of(profile, first_in(index, block));
            let last = item_of(profile, first_in(index, LAST_BLOCK));
            writer.push_item(out, Form::Ranges, WANT_BLOCK, first, Some(last))
        }
    }
}
