//! Adds the words that several messages share to a line: heads, positions and transmission information. `lines` calls them.

ghost use Rattle.std.specs.Prelude.{◌≡◌, ◌∷◌, [], decimal, OnOk};
ghost use Rattle.norm_text.specs.Words.{with_word, with_words};
ghost use Rattle.norm_show.specs.Words.{sizes_word, command_words, object_words, receiver_words, symbol_words, plan_word, fti_word};

use norm_base::{InstanceId, NodeId};
use norm_ext::{CmdHead, Extensions, Fti, Item, ObjHead, read_fti};
use norm_text::Line;
use std::alloc::AllocError;

fn put_source(
    line: &mut Line,
    source: NodeId,
    sequence: u16,
    instance: InstanceId,
) -> Result<(), AllocError>
    ensures { OnOk result (line.new ≡ with_words line.old (decimal source ∷ decimal sequence ∷ decimal instance ∷ [])) }
{
    line.number(u64::from(source.number()))?;
    line.number(u64::from(sequence))?;
    line.number(u64::from(instance.0))
}

/// Adds the round trip time, the back-off factor and the group's size as one word, such as `64.4.1`. All are as encoded.
fn put_sizes(line: &mut Line, grtt: u8, backoff: u8, gsize: u8) -> Result<(), AllocError>
    ensures { OnOk result (line.new ≡ with_word line.old (sizes_word grtt backoff gsize)) }
{
    line.joined_piece(
        b' ',
        b'.',
        u64::from(grtt),
        &[u64::from(backoff), u64::from(gsize)],
    )
}

/// Adds the head of a command of the sender, which INFO and DATA begin with too.
pub(crate) fn put_command(line: &mut Line, head: &CmdHead) -> Result<(), AllocError>
    ensures { OnOk result (line.new ≡ with_words line.old (command_words head.now)) }
{
    put_source(line, head.source, head.sequence, head.instance)?;
    put_sizes(line, head.grtt, head.backoff, head.gsize)
}

/// Adds the head of INFO and DATA: that of a command, then the flags and the transport id of the object.
pub(crate) fn put_object(line: &mut Line, head: &ObjHead) -> Result<(), AllocError>
    ensures { OnOk result (line.new ≡ with_words line.old (object_words head.now)) }
{
    put_source(line, head.source, head.sequence, head.instance)?;
    put_sizes(line, head.grtt, head.backoff, head.gsize)?;
    line.number(u64::from(head.flags))?;
    line.number(u64::from(head.object))
}

/// Adds the head of NACK and ACK: the source, the sequence number, and the sender and instance that it is for.
pub(crate) fn put_receiver(
    line: &mut Line,
    source: NodeId,
    sequence: u16,
    sender: NodeId,
    instance: InstanceId,
) -> Result<(), AllocError>
    ensures { OnOk result (line.new ≡ with_words line.old (receiver_words source sequence sender instance)) }
{
    line.number(u64::from(source.number()))?;
    line.number(u64::from(sequence))?;
    line.number(u64::from(sender.number()))?;
    line.number(u64::from(instance.0))
}

/// Adds a position as three words: the transport id of the object, the block and the symbol.
pub(crate) fn put_symbol(line: &mut Line, item: Item) -> Result<(), AllocError>
    ensures { OnOk result (line.new ≡ with_words line.old (symbol_words item.object item.id.block item.id.symbol)) }
{
    line.number(u64::from(item.object))?;
    line.number(u64::from(item.id.block))?;
    line.number(u64::from(item.id.symbol))
}

/// Adds the transmission information as one word: `l`, `e`, `b` and `max_n`, separated by commas.
fn put_plan(line: &mut Line, fti: Fti) -> Result<(), AllocError>
    ensures { OnOk result (line.new ≡ with_word line.old (plan_word fti)) }
{
    let Fti { l, e, b, max_n } = fti;
    line.joined_piece(
        b' ',
        b',',
        l,
        &[u64::from(e), u64::from(b), u64::from(max_n)],
    )
}

/// Adds the transmission information among a message's extensions, or a dash if there is none.
pub(crate) fn put_fti(line: &mut Line, exts: &Extensions<'_>) -> Result<(), AllocError>
    ensures { OnOk result (line.new ≡ with_word line.old (fti_word exts.now)) }
{
    match read_fti(exts.iter()) {
        Some(fti) => put_plan(line, fti),
        None => line.word(b"-"),
    }
}
