//! The line of a change that a sender reports.

ghost use Rattle.std.specs.Prelude.{◌≡◌, IfOk, IfErr, OnOk};
ghost use Rattle.std.specs.Option.{option_to_list};
ghost use Rattle.norm_base.specs.Told.{gained};
ghost use Rattle.norm_journal.specs.Lines.{news_line};
ghost use Rattle.norm_send_rules.specs.SenderState.{SenderState};
ghost use Rattle.norm_sender.specs.SenderKept.{Stands};
ghost use Rattle.norm_turns.specs.Causes.{WriteCause};
ghost use Rattle.norm_turns.specs.Printing.{IsUnwritten};
ghost use Rattle.norm_turns.specs.Telling.{left_by, left_past};

use crate::fault::SessionFault;
use crate::noticing::news_notice;
use crate::printing::write_line;
use norm_base::{Memory, NodeId, Sink};
use norm_journal::news_line;
use norm_send_rules::News;
use norm_sender::Sender;
use norm_text::Line;
use std::alloc::Global;

/// The most receivers of a session.
// The key `receivers` goes up to 16. The loop ends earlier if fewer are left.
const MOST_RECEIVERS: u32 = 16;

/// The members that are not listed past a watermark, in the order of their ids. A struck receiver is none of them. Empty if no watermark
/// has this number. `Memory` if memory runs out.
fn left_past(alloc: Global, sender: &Sender, mark: u32) -> Result<Vec<NodeId>, Memory>
    ensures { IfOk result (λ left. (s : SenderState) → Stands sender.now s → left.items ≡ left_past s mark) }
{
    let mut left = Vec::new(alloc);
    for i in 0..MOST_RECEIVERS {
        let Some(node) = sender.book().pending(mark, i) else {
            return Ok(left);
        };
        left.push(node)?;
    }
    Ok(left)
}

/// Returns the members that are not listed past the watermark of this change, in the order of their ids. A struck receiver is none of them.
/// If the change is a listing, there are none.
///
/// # Errors
///
/// `Memory` if memory runs out.
pub fn left_by(alloc: Global, sender: &Sender, news: &News) -> Result<Vec<NodeId>, Memory>
    ensures { IfOk result (λ left. (s : SenderState) → Stands sender.now s → left.items ≡ left_by s news.now) }
{
    match news {
        News::Done { mark, .. } => left_past(alloc, sender, *mark),
        News::Past { .. } => Ok(Vec::new(alloc)),
    }
}

/// Writes the line of a change that a sender reported, in one piece. The line of an expired watermark names the members that are not
/// listed past it. A watermark that is open has no line. The line is made in the memory of `line`.
///
/// # Errors
///
/// `Write` if the write failed, and then a prefix of the line may have been written. `Memory` if memory runs out, and then nothing was
/// written.
// For what comes without a journal, as `write_up`: `norm_program` calls it for tails.
pub fn write_news<K: Sink>(
    alloc: Global,
    line: &mut Line,
    sender: &Sender,
    news: &News,
    output: &mut K,
) -> Result<(), SessionFault>
    ensures written { OnOk result ((s : SenderState) → Stands sender.now s → K.pieces output.new
        ≡ gained (K.pieces output.old) (option_to_list (news_line s.current.id (left_by s news.now) news.now))) }
    ensures stops { IfErr result (λ fault. (s : SenderState) → Stands sender.now s
        → IsUnwritten fault (K.pieces output.old) (K.pieces output.new) (news_line s.current.id (left_by s news.now) news.now)) }
    ensures cause { WriteCause result (K.fault_count output.old) (K.fault_count output.new) }
{
    let left = left_by(alloc, sender, news)?;
    let instance = sender.instance();
    let has = news_line(line, instance, &left, news)?;
    let notice = news_notice(news);
    write_line(has, line, &notice, output)
}
