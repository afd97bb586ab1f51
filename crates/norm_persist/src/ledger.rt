//! What a run that persists keeps beside what every run keeps: its [`Ledger`].

ghost use Rattle.std.specs.Prelude.{◌≡◌, ◌==◌, filter, IfOk, IfSome, OnOk, OnErr};
ghost use Rattle.norm_base.specs.Settings.{Settings};
ghost use Rattle.mark_book.specs.BookState.{Stands};
ghost use Rattle.norm_send_rules.specs.SenderState.{SenderState};
ghost use Rattle.norm_send_rules.specs.Ticking.{is_idle};
ghost use Rattle.norm_persist.specs.Accounts.{lacks, last_position};
ghost use Rattle.norm_persist.specs.Ledger.{ledger_opening, accounted, accounts_heard, accounts_gave, own_noted};
ghost use Rattle.norm_persist.specs.Persisted.{mark_after, name_after, job_unless};
ghost use Rattle.norm_persist.specs.Persisting.{own_job, one_lacks, all_silent};

use crate::account::Account;
use crate::accounts::Accounts;
use fec_plan::Position;
use mark_book::Book;
use norm_base::{Memory, NodeId, Origin, Profile};
use norm_send_rules::{Job, News, Receipt, SendFault};
use std::alloc::Global;
use std::marker::Model;

/// What a run that persists keeps beside what every run keeps: the accounts of its receivers, and its own commands. The run tells it of each
/// line of news ([`hear`](Ledger::hear)), each answer to a command of the script ([`give`](Ledger::give)), and each answer to an own command
/// ([`note_own`](Ledger::note_own)).
#[derive(Debug, Drop)]
pub struct Ledger {
    give_up: Option<u32>,
    accounts: Accounts,
    own: u64,
    own_turn: u32,
    own_mark: u32,
}

impl Model for Ledger {
    ghost use Rattle.norm_persist.specs.Ledger.{LedgerState};

    ghost Value = { LedgerState };

    ghost view = { λ l. record {
      give_up = l.give_up;
      accounts = l.accounts;
      own = l.own;
      own_turn = l.own_turn;
      own_mark = l.own_mark;
    } };
}

/// The number of the last own mark after an own command was answered so.
fn mark_after(gave: &Result<Receipt, SendFault>, last: u32) -> u32
    ensures { result ≡ mark_after gave.now last }
{
    match gave {
        Ok(Receipt::Mark { mark, .. }) => *mark,
        _ => last,
    }
}

impl Ledger {
    /// The ledger of a run of this profile as it begins. With `give_up` a member is given up after this many marks.
    ///
    /// # Errors
    ///
    /// `Memory` if memory runs out.
    pub fn of(alloc: Global, profile: &Profile, give_up: Option<u32>) -> Result<Ledger, Memory>
        ensures { IfOk result (λ ledger. ledger ≡ ledger_opening profile.now give_up) }
    {
        let accounts = Accounts::of(alloc, profile)?;
        Ok(Ledger {
            give_up,
            accounts,
            own: 0,
            own_turn: 0,
            own_mark: 0,
        })
    }

    pub fn accounts(&self) -> &Accounts
        ensures { result.now ≡ self.now.accounts }
    {
        &self.accounts
    }

    /// A change was told. `left` are the members that its line names.
    ///
    /// # Errors
    ///
    /// `Memory` if a count does not fit 64 bits. Nothing changes then.
    pub fn hear(&mut self, news: &News, left: &[NodeId]) -> Result<(), Memory>
        ensures heard { OnOk result (self.new ≡ accounted (accounts_heard news.now left.now self.old.accounts) self.old) }
        ensures same { OnErr result (self.new ≡ self.old) }
    {
        self.accounts.hear(news, left)
    }

    /// A command was answered.
    pub fn give(&mut self, by: Origin, gave: &Result<Receipt, SendFault>)
        ensures { self.new ≡ accounted (accounts_gave by gave.now self.old.accounts) self.old }
    {
        self.accounts.give(by, gave);
    }

    /// The name of the next own command, or `None` if its number does not fit 64 bits.
    pub fn name(&self) -> Option<Origin>
        ensures { IfSome result (λ by. by ≡ name_after self.now.own) }
    {
        let number = self.own.checked_add(1)?;
        Some(Origin {
            producer: 0,
            number,
        })
    }

    /// Whether this turn had an own command.
    fn had_own(&self, turn: u32) -> bool
        ensures { result ≡ (self.now.own_turn == turn) }
    {
        self.own_turn == turn
    }

    /// The own command that is due before the sender's tick of a turn. The arguments are those of [`Accounts::own_job`].
    pub fn due(
        &self,
        turn: u32,
        book: &Book,
        idle: bool,
        last: &Option<Position>,
        stopped: bool,
    ) -> Option<Job>
        ensures { (p : Settings) (s : SenderState) → Stands p book.now s → idle ≡ is_idle p s → last.now ≡ last_position p s
            → result ≡ job_unless (self.now.own_turn == turn) (own_job p s self.now.give_up stopped self.now.accounts) }
    {
        if self.had_own(turn) {
            return None;
        }
        self.accounts
            .own_job(book, idle, last, self.give_up, stopped)
    }

    /// An own command was made in this turn and answered so. `Memory` if its number does not fit 64 bits.
    pub fn note_own(&mut self, turn: u32, gave: &Result<Receipt, SendFault>) -> Result<(), Memory>
        ensures { OnOk result (self.new ≡ own_noted turn gave.now self.old) }
    {
        let Some(own) = self.own.checked_add(1) else {
            return Err(Memory);
        };
        self.own = own;
        self.own_turn = turn;
        self.own_mark = mark_after(gave, self.own_mark);
        Ok(())
    }

    /// Whether this is the number of the last own mark.
    pub fn is_own_mark(&self, mark: u32) -> bool
        ensures { result ≡ (mark == self.now.own_mark) }
    {
        mark == self.own_mark
    }

    /// Whether some member lacks something, `last` being the position that a mark made now would get.
    pub fn one_lacks(&self, book: &Book, last: &Option<Position>) -> bool
        ensures { (p : Settings) (s : SenderState) → Stands p book.now s → last.now ≡ last_position p s → result ≡ one_lacks p s self.now.accounts }
    {
        self.accounts.one_lacks(book, last)
    }

    /// Whether every member is silent.
    pub fn all_silent(&self, book: &Book) -> bool
        ensures { (p : Settings) (s : SenderState) → Stands p book.now s → result ≡ all_silent self.now.give_up s self.now.accounts }
    {
        self.accounts.all_silent(book, self.give_up)
    }

    /// The receivers that lack something, struck ones too, in order of id.
    ///
    /// # Errors
    ///
    /// `Memory` if memory runs out.
    pub fn lacking(&self, alloc: Global, last: &Option<Position>) -> Result<Vec<Account>, Memory>
        ensures { IfOk result (λ accounts. accounts.items ≡ filter (lacks last.now) self.now.accounts) }
    {
        self.accounts.lacking(alloc, last)
    }
}
