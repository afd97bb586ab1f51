//! What the line of an event says to a sink that counts: a [`Notice`]. `norm_journal` has the line's text.

ghost use Rattle.std.specs.Prelude.{◌≡◌};
ghost use Rattle.norm_turns.specs.Noticing.{receipt_notice, gave_notice, up_notice, done_notice, news_notice};

use norm_base::Notice;
use norm_order::Up;
use norm_send_rules::{News, Outcome, Receipt, SendFault};

/// What the line of an accepted command says. A stream that was opened is an object without octets.
fn receipt_notice(receipt: &Receipt) -> Notice
    ensures { result ≡ receipt_notice receipt.now }
{
    match receipt {
        Receipt::Object { len, .. } => Notice::Object { octets: *len },
        Receipt::Opened { .. } => Notice::Object { octets: 0 },
        Receipt::Wrote { len, .. } => Notice::Octets { octets: *len },
        Receipt::Closed { .. } => Notice::Other,
        Receipt::Mark { mark, at } => Notice::Mark {
            mark: *mark,
            index: at.index,
            block: at.block,
            symbol: at.symbol,
        },
        Receipt::Restarted { instance } => Notice::Restarted {
            instance: *instance,
        },
        Receipt::Struck { node } => Notice::Struck { node: *node },
    }
}

/// Returns what the line of the sender's answer to a command says. A refusal says nothing that is counted.
pub fn gave_notice(gave: &Result<Receipt, SendFault>) -> Notice
    ensures { result ≡ gave_notice gave.now }
{
    match gave {
        Ok(receipt) => receipt_notice(receipt),
        Err(_) => Notice::Other,
    }
}

/// Returns what the line of a hand-up says. The beginning of a stream is an object without octets. Its end and a loss say nothing that is counted.
pub fn up_notice(up: &Up) -> Notice
    ensures { result ≡ up_notice up.now }
{
    match up {
        Up::Object { bytes, .. } => Notice::Object {
            octets: bytes.bytes().len() as u64,
        },
        Up::StreamOpen { .. } => Notice::Object { octets: 0 },
        Up::StreamBytes { bytes, .. } => Notice::Octets {
            octets: bytes.bytes().len() as u64,
        },
        Up::StreamEnd { .. } | Up::Lost { .. } => Notice::Other,
    }
}

/// What the line of a watermark's outcome says. A watermark that a restart ended is done, as a satisfied one is. An open one has no line.
fn done_notice(mark: u32, outcome: &Outcome) -> Notice
    ensures { result ≡ done_notice mark outcome.now }
{
    match outcome {
        Outcome::Open { .. } => Notice::Other,
        Outcome::Satisfied | Outcome::Cut => Notice::Done {
            mark,
            has_expired: false,
        },
        Outcome::Expired { .. } => Notice::Done {
            mark,
            has_expired: true,
        },
    }
}

/// Returns what the line of a change says: that a receiver is past a position, or that a watermark ended.
pub fn news_notice(news: &News) -> Notice
    ensures { result ≡ news_notice news.now }
{
    match news {
        News::Past { node, at } => Notice::Past {
            node: *node,
            index: at.index,
            block: at.block,
            symbol: at.symbol,
        },
        News::Done { mark, outcome } => done_notice(*mark, outcome),
    }
}
