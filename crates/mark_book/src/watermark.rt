//! One watermark of a book.

ghost use Rattle.std.specs.Prelude.{◌≡◌, ◌<◌, ◌^◌, [], ◌∷◌, false, is_none, length, option_map};
ghost use Rattle.norm_send_rules.specs.SenderState.{SenderState};
ghost use Rattle.norm_send_rules.specs.Watermarks as rules;
ghost use Rattle.mark_book.specs.Answers.{open_watermark};
ghost use Rattle.mark_book.specs.BookMoves.{settled_by, expired_by, cut_off, is_finished, outcome_by, open_count, opened};

use crate::listings::Listings;
use fec_plan::Position;
use norm_send_rules::Outcome;
use std::marker::Model;

/// The number and the position of an open watermark.
// A position that is asked for by a number would need an answer for numbers that no watermark has.
#[derive(Clone, Copy, Debug, PartialEq, Eq)]
pub struct OpenWatermark {
    pub mark: u32,
    pub at: Position,
}

/// Whether the oldest open watermark is the same as before, or none is open any more. If so, the count of flushes stays.
pub fn keeps_oldest(before: Option<OpenWatermark>, after: Option<OpenWatermark>) -> bool
    ensures { (s t : SenderState) → before ≡ option_map open_watermark (rules.oldest s) → after ≡ option_map open_watermark (rules.oldest t)
        → result ≡ rules.keeps_oldest s t }
{
    // Without an open watermark nothing is flushed, so the count is of no use until the next one becomes the oldest.
    let Some(after) = after else {
        return true;
    };
    let Some(before) = before else {
        return false;
    };
    before.mark == after.mark
}

/// A watermark of a book, open or ended.
///
/// `quorum` members have to confirm it, or all if that is `None` or fewer are left. `ended` is its outcome if it ended, and `untold`
/// whether that is still to be reported.
#[derive(Clone, Copy, Debug)]
pub struct Watermark {
    pub mark: u32,
    pub at: Position,
    pub quorum: Option<u32>,
    pub ended: Option<Outcome>,
    pub untold: bool,
}

impl Model for Watermark {
    ghost use Rattle.mark_book.specs.BookState.{Kept};

    ghost Value = { Kept };

    ghost view = { λ w. record { mark = w.mark; at = w.at; quorum = w.quorum; ended = w.ended; untold = w.untold } };

    ghost inverse = { λ w. record { mark = w.mark; at = w.at; quorum = w.quorum; ended = w.ended; untold = w.untold } };
}

impl Watermark {
    /// Creates an open watermark. Does not ask whether enough members are past it already.
    pub fn new(mark: u32, at: Position, quorum: Option<u32>) -> Watermark
        ensures { result ≡ opened mark at quorum }
    {
        Watermark {
            mark,
            at,
            quorum,
            ended: None,
            untold: false,
        }
    }

    /// Returns the watermark as it is after its outcome was reported.
    pub fn told(&self) -> Watermark
        ensures { result ≡ record self.now { untold = false } }
    {
        Watermark {
            untold: false,
            ..*self
        }
    }

    /// Whether the watermark was neither satisfied nor cut, and did not expire.
    pub fn is_open(&self) -> bool
        ensures { result ≡ is_none self.now.ended }
    {
        self.ended.is_none()
    }

    /// Returns 1 if the watermark is open, and otherwise 0, for a sum.
    pub fn count_open(&self) -> usize
        ensures { result ≡ open_count (self.now ∷ []) }
    {
        if self.is_open() { 1 } else { 0 }
    }

    /// Whether the watermark ended and that was reported.
    pub fn is_finished(&self) -> bool
        ensures { result ≡ is_finished self.now }
    {
        self.ended.is_some() && !self.untold
    }

    /// Returns what became of the watermark. If it is open, that is how many members have not confirmed it.
    pub fn outcome(&self, listings: &Listings) -> Outcome
        requires { length listings.now < 2 ^ 32 }
        ensures { result ≡ outcome_by listings.now self.now }
    {
        match self.ended {
            Some(outcome) => outcome,
            None => Outcome::Open {
                left: listings.count_left(self.at),
            },
        }
    }

    /// Returns the watermark, satisfied if it is open and enough members are past it. That outcome is then to be reported.
    pub fn settled(&self, listings: &Listings) -> Watermark
        requires { length listings.now < 2 ^ 32 }
        ensures { result ≡ settled_by listings.now self.now }
    {
        if !self.is_open() || !listings.is_met(self.quorum, self.at) {
            return *self;
        }
        Watermark {
            ended: Some(Outcome::Satisfied),
            untold: true,
            ..*self
        }
    }

    /// Returns the watermark, expired if it is open and has this number. The outcome says how many members had not confirmed it, and is to be
    /// reported.
    pub fn expired(&self, listings: &Listings, mark: u32) -> Watermark
        requires { length listings.now < 2 ^ 32 }
        ensures { result ≡ expired_by listings.now mark self.now }
    {
        if !self.is_open() || self.mark != mark {
            return *self;
        }
        Watermark {
            ended: Some(Outcome::Expired {
                left: listings.count_left(self.at),
            }),
            untold: true,
            ..*self
        }
    }

    /// Returns the watermark, cut if it is open. That outcome is then to be reported.
    pub fn cut(&self) -> Watermark
        ensures { result ≡ cut_off self.now }
    {
        if !self.is_open() {
            return *self;
        }
        Watermark {
            ended: Some(Outcome::Cut),
            untold: true,
            ..*self
        }
    }
}
