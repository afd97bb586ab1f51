//! The line of a receiver that lacks something.

ghost use Rattle.std.specs.Prelude.{◌≡◌, OnOk};
ghost use Rattle.norm_text.specs.Words.{with_words};
ghost use Rattle.norm_persist.specs.Printed.{confirmed_words, lacks_line};

use crate::account::Account;
use fec_plan::Position;
use norm_base::InstanceId;
use norm_text::Line;
use std::alloc::AllocError;

/// Puts what a receiver confirmed: a position, or `-`.
fn put_confirmed(text: &mut Line, confirmed: Option<Position>) -> Result<(), AllocError>
    ensures { OnOk result (text.new ≡ with_words text.old (confirmed_words confirmed)) }
{
    match confirmed {
        Some(at) => {
            text.number(u64::from(at.index))?;
            text.number(u64::from(at.block))?;
            text.number(u64::from(at.symbol))
        }
        None => text.word(b"-"),
    }
}

/// Makes the line of a receiver that lacks something of an instance. If memory runs out, the text may hold a prefix of it.
pub fn lacks_line(
    text: &mut Line,
    instance: InstanceId,
    account: &Account,
) -> Result<(), AllocError>
    ensures { OnOk result (text.new ≡ lacks_line instance account.now) }
{
    text.restart(b"lacks", 0)?;
    text.number(u64::from(account.node.number()))?;
    text.number(u64::from(instance.0))?;
    put_confirmed(text, account.confirmed)?;
    text.finish()
}
