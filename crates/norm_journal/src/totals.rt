//! The counts of a run's summary. A run asks whether a count fits ([`Totals::has_room_for_up`] and its like) before it counts.

ghost use Rattle.std.specs.Prelude.{◌≡◌, ◌+◌, ◌<◌, ◌^◌, ◌∷◌, [], decimal, OnOk};
ghost use Rattle.std.specs.Bool.{Decides};
ghost use Rattle.norm_text.specs.Words.{with_words};
ghost use Rattle.norm_journal.specs.Lines.{end_line};
ghost use Rattle.norm_journal.specs.Totals.{nothing_counted, with_gave, with_up, with_news, CountsFit};

use norm_order::Up;
use norm_send_rules::{News, Outcome, Receipt, SendFault};
use norm_text::Line;
use std::alloc::AllocError;

// Asked before each sum, because the counts are exact: one that went round would be a false summary.
fn fits(count: u64, more: u64) -> bool
    ensures { Decides result (count + more < 2 ^ 64) }
{
    more <= u64::MAX - count
}

/// What a run counts. Call `has_room_for_gave` before `count_gave`, and so for hand-ups and news.
#[derive(Clone, Copy, Debug, PartialEq, Eq)]
pub struct Totals {
    /// Accepted objects. A stream counts as one.
    pub objects: u64,
    /// Their octets that were accepted, without infos.
    pub octets: u64,
    /// Data, files and ended streams that were handed up, over all receivers.
    pub handed: u64,
    /// Losses, over all receivers.
    pub lost: u64,
    /// Watermarks that enough members confirmed.
    pub satisfied: u64,
    /// Watermarks that expired before that.
    pub expired: u64,
    /// Watermarks that a restart ended.
    pub cut: u64,
}

impl Totals {
    pub fn new() -> Totals
        ensures { result ≡ nothing_counted }
    {
        Totals {
            objects: 0,
            octets: 0,
            handed: 0,
            lost: 0,
            satisfied: 0,
            expired: 0,
            cut: 0,
        }
    }

    // Proof: each count is a number of 64 bits, which a proof knows of those that are read.
    fn are_counts(&self)
        ensures { CountsFit self.now }
    {
        let Totals {
            objects,
            octets,
            handed,
            lost,
            satisfied,
            expired,
            cut,
        } = *self;
    }

    /// Whether the counts still fit into 64 bits after [`count_gave`](Totals::count_gave). If not, the run ends as if memory ran out.
    pub fn has_room_for_gave(&self, gave: &Result<Receipt, SendFault>) -> bool
        ensures { Decides result (CountsFit (with_gave gave.now self.now)) }
    {
        self.are_counts();
        match gave {
            Ok(Receipt::Object { len, .. }) => { fits(self.objects, 1) && fits(self.octets, *len) }
            Ok(Receipt::Opened { .. }) => fits(self.objects, 1),
            Ok(Receipt::Wrote { len, .. }) => fits(self.octets, *len),
            _ => true,
        }
    }

    /// Counts what the sender gave to a command: an accepted object or stream, and accepted octets. A refusal, a close, a watermark, a restart and a
    /// strike count nothing.
    pub fn count_gave(&mut self, gave: &Result<Receipt, SendFault>)
        requires { CountsFit (with_gave gave.now self.old) }
        ensures { self.new ≡ with_gave gave.now self.old }
    {
        match gave {
            Ok(Receipt::Object { len, .. }) => {
                self.objects += 1;
                self.octets += *len;
            }
            Ok(Receipt::Opened { .. }) => self.objects += 1,
            Ok(Receipt::Wrote { len, .. }) => self.octets += *len,
            _ => {}
        }
    }

    /// Whether the counts still fit into 64 bits after [`count_up`](Totals::count_up). If not, the run ends as if memory ran out.
    pub fn has_room_for_up(&self, up: &Up) -> bool
        ensures { Decides result (CountsFit (with_up up.now self.now)) }
    {
        self.are_counts();
        match up {
            Up::Object { .. } | Up::StreamEnd { .. } => fits(self.handed, 1),
            Up::Lost { .. } => fits(self.lost, 1),
            _ => true,
        }
    }

    /// Counts a hand-up: an object, an ended stream or a loss. Stream octets are not counted.
    pub fn count_up(&mut self, up: &Up)
        requires { CountsFit (with_up up.now self.old) }
        ensures { self.new ≡ with_up up.now self.old }
    {
        match up {
            Up::Object { .. } | Up::StreamEnd { .. } => self.handed += 1,
            Up::Lost { .. } => self.lost += 1,
            _ => {}
        }
    }

    /// Whether the counts still fit into 64 bits after [`count_news`](Totals::count_news). If not, the run ends as if memory ran out.
    pub fn has_room_for_news(&self, news: &News) -> bool
        ensures { Decides result (CountsFit (with_news news.now self.now)) }
    {
        self.are_counts();
        let News::Done { outcome, .. } = news else {
            return true;
        };
        match outcome {
            Outcome::Open { .. } => true,
            Outcome::Satisfied => fits(self.satisfied, 1),
            Outcome::Expired { .. } => fits(self.expired, 1),
            Outcome::Cut => fits(self.cut, 1),
        }
    }

    /// Counts a watermark that ended. No other change is counted.
    pub fn count_news(&mut self, news: &News)
        requires { CountsFit (with_news news.now self.old) }
        ensures { self.new ≡ with_news news.now self.old }
    {
        if let News::Done { outcome, .. } = news {
            match outcome {
                Outcome::Open { .. } => {}
                Outcome::Satisfied => self.satisfied += 1,
                Outcome::Expired { .. } => self.expired += 1,
                Outcome::Cut => self.cut += 1,
            }
        }
    }
}

fn put_count(text: &mut Line, word: &[u8], n: u64) -> Result<(), AllocError>
    ensures { OnOk result (text.new ≡ with_words text.old (word.now ∷ decimal n ∷ [])) }
{
    text.word(word)?;
    text.number(n)
}

/// Makes the line of the summary. If memory runs out, the text may hold a prefix of it.
pub fn end_line(text: &mut Line, totals: &Totals) -> Result<(), AllocError>
    ensures { OnOk result (text.new ≡ end_line totals.now) }
{
    text.restart(b"end", 0)?;
    put_count(text, b"objects", totals.objects)?;
    put_count(text, b"octets", totals.octets)?;
    put_count(text, b"handed", totals.handed)?;
    put_count(text, b"lost", totals.lost)?;
    put_count(text, b"satisfied", totals.satisfied)?;
    put_count(text, b"expired", totals.expired)?;
    put_count(text, b"cut", totals.cut)?;
    text.finish()
}
