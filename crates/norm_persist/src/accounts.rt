//! What a run that persists keeps of all receivers, and what it decides by that.

ghost use Rattle.std.specs.Prelude.{◌≡◌, ◌&&◌, true, map, filter, option_map, IfOk, OnOk, OnErr};
ghost use Rattle.std.specs.List.{list_any, list_all};
ghost use Rattle.norm_base.specs.Settings.{Settings};
ghost use Rattle.mark_book.specs.BookState.{Stands};
ghost use Rattle.norm_send_rules.specs.SenderState.{SenderState};
ghost use Rattle.norm_send_rules.specs.Ticking.{is_idle};
ghost use Rattle.norm_persist.specs.declared.account.Account.{Account};
ghost use Rattle.norm_base.specs.Members.{receivers_of};
ghost use Rattle.norm_persist.specs.Accounts.{accounts_of, opened, begun_anew, excused_by, risen, passed_by, has_room, lacks, last_position};
ghost use Rattle.norm_persist.specs.Ledger.{accounts_heard, accounts_gave};
ghost use Rattle.norm_persist.specs.Persisting.{own_job, one_lacks, all_silent, first_silent, calls_for_mark, struck_unless, marked_if};

use crate::account::Account;
use fec_plan::Position;
use mark_book::Book;
use norm_base::{Memory, NodeId, Origin, Profile};
use norm_send_rules::{Job, News, Outcome, Receipt, SendFault};
use std::alloc::{AllocError, Global};
use std::marker::Model;

/// What a run that persists keeps of each receiver of its profile, struck ones too, in order of id. The run tells it of:
/// - each `past` line: [`rise`](Accounts::rise)
/// - each `done M expired` line, with the nodes that it names: [`pass`](Accounts::pass)
/// - each restart that was accepted: [`begin_anew`](Accounts::begin_anew)
/// - each strike of the script that was accepted: [`excuse`](Accounts::excuse)
#[derive(Debug, Drop)]
pub struct Accounts {
    all: Vec<Account>,
}

impl Model for Accounts {
    ghost use Rattle.std.specs.Prelude.{List};
    ghost use Rattle.norm_persist.specs.declared.account.Account.{Account};

    ghost Value = { List Account };

    ghost view = { λ a. a.all.items };
}

impl Accounts {
    /// Opens an account for each receiver of a profile.
    ///
    /// # Errors
    ///
    /// `Memory` if memory runs out.
    pub fn of(alloc: Global, profile: &Profile) -> Result<Accounts, Memory>
        ensures { IfOk result (λ accounts. accounts ≡ accounts_of profile.now) }
    {
        let nodes = receivers(alloc, profile)?;
        let all = opened(alloc, &nodes)?;
        Ok(Accounts { all })
    }

    /// The accounts, in order of id.
    pub fn all(&self) -> &[Account]
        ensures { result.now ≡ self.now }
    {
        &self.all
    }

    /// A receiver's listing rose to this position.
    pub fn rise(&mut self, node: NodeId, at: Position)
        ensures { self.new ≡ map (risen node at) self.old }
    {
        rise_all(&mut self.all, node, at);
    }

    /// A watermark expired that these members had not confirmed.
    ///
    /// # Errors
    ///
    /// `Memory` if a count does not fit 64 bits. Nothing changes then.
    pub fn pass(&mut self, left: &[NodeId]) -> Result<(), Memory>
        ensures counted { OnOk result (self.new ≡ map (passed_by left.now) self.old) }
        ensures same { OnErr result (self.new ≡ self.old) }
    {
        // Not taken: that would be 2^64 marks.
        if !have_room(&self.all) {
            return Err(Memory);
        }
        pass_all(&mut self.all, left);
        Ok(())
    }

    /// Another instance began.
    pub fn begin_anew(&mut self)
        ensures { self.new ≡ map begun_anew self.old }
    {
        begin_all(&mut self.all);
    }

    /// The script struck a receiver.
    pub fn excuse(&mut self, node: NodeId)
        ensures { self.new ≡ map (excused_by node) self.old }
    {
        excuse_all(&mut self.all, node);
    }

    /// A change was told. `left` are the members that its line names.
    ///
    /// # Errors
    ///
    /// `Memory` if a count does not fit 64 bits. Nothing changes then.
    pub fn hear(&mut self, news: &News, left: &[NodeId]) -> Result<(), Memory>
        ensures heard { OnOk result (self.new ≡ accounts_heard news.now left.now self.old) }
        ensures same { OnErr result (self.new ≡ self.old) }
    {
        match news {
            News::Past { node, at } => {
                self.rise(*node, *at);
                Ok(())
            }
            News::Done { outcome, .. } => match outcome {
                Outcome::Expired { .. } => self.pass(left),
                Outcome::Open { .. } | Outcome::Satisfied | Outcome::Cut => Ok(()),
            },
        }
    }

    /// A command was answered.
    pub fn give(&mut self, by: Origin, gave: &Result<Receipt, SendFault>)
        ensures { self.new ≡ accounts_gave by gave.now self.old }
    {
        match gave {
            Ok(receipt) => match receipt {
                Receipt::Restarted { .. } => self.begin_anew(),
                // An own strike excuses nobody.
                Receipt::Struck { node } => {
                    if by.producer != 0 {
                        self.excuse(*node);
                    }
                }
                Receipt::Object { .. }
                | Receipt::Opened { .. }
                | Receipt::Wrote { .. }
                | Receipt::Closed { .. }
                | Receipt::Mark { .. } => {}
            },
            Err(_) => {}
        }
    }

    /// The accounts of the receivers that lack something, struck ones too, in order of id.
    ///
    /// # Errors
    ///
    /// `Memory` if memory runs out.
    pub fn lacking(&self, alloc: Global, last: &Option<Position>) -> Result<Vec<Account>, Memory>
        ensures { IfOk result (λ accounts. accounts.items ≡ filter (lacks last.now) self.now) }
    {
        lacking(alloc, &self.all, last)
    }

    /// Whether some member lacks something, `last` being the position that a mark made now would get.
    pub fn one_lacks(&self, book: &Book, last: &Option<Position>) -> bool
        ensures { (p : Settings) (s : SenderState) → Stands p book.now s → last.now ≡ last_position p s → result ≡ one_lacks p s self.now }
    {
        one_lacks(&self.all, book, last)
    }

    /// Whether every member is silent.
    pub fn all_silent(&self, book: &Book, give_up: Option<u32>) -> bool
        ensures { (p : Settings) (s : SenderState) → Stands p book.now s → result ≡ all_silent give_up s self.now }
    {
        let accounts = self.all();
        all_silent(accounts, book, give_up)
    }

    /// The command that the run makes of itself, if one is due, where its script has `stopped`: a command of it waits, or all were pulled. `idle`
    /// says whether the sender is idle.
    pub fn own_job(
        &self,
        book: &Book,
        idle: bool,
        last: &Option<Position>,
        give_up: Option<u32>,
        stopped: bool,
    ) -> Option<Job>
        ensures { (p : Settings) (s : SenderState) → Stands p book.now s → idle ≡ is_idle p s → last.now ≡ last_position p s
            → result ≡ own_job p s give_up stopped self.now }
    {
        let accounts = self.all();
        match first_silent(accounts, book, give_up) {
            Some(node) => {
                let all = all_silent(accounts, book, give_up);
                struck_unless(all, node)
            }
            None => {
                let called = calls_for_mark(accounts, book, idle, last, stopped);
                marked_if(called)
            }
        }
    }
}

/// The strike of a node, unless all are silent.
fn struck_unless(all: bool, node: NodeId) -> Option<Job>
    ensures { result ≡ struck_unless all node }
{
    if all {
        return None;
    }
    Some(Job::Strike { node })
}

/// A mark for all members, if one is called for.
fn marked_if(called: bool) -> Option<Job>
    ensures { result ≡ marked_if called }
{
    if called {
        return Some(Job::Mark { quorum: None });
    }
    None
}

fn all_four(first: bool, second: bool, third: bool, fourth: bool) -> bool
    ensures { result ≡ (first && (second && third && fourth)) }
{
    first && second && third && fourth
}

/// Whether the script has stopped and a mark is called for.
fn calls_for_mark(
    accounts: &[Account],
    book: &Book,
    idle: bool,
    last: &Option<Position>,
    stopped: bool,
) -> bool
    ensures { (p : Settings) (s : SenderState) → Stands p book.now s → idle ≡ is_idle p s → last.now ≡ last_position p s
        → result ≡ (stopped && calls_for_mark p s accounts.now) }
{
    // Most turns end here, and look at no account.
    if !stopped {
        return false;
    }
    if !idle {
        return false;
    }
    let none = book.open() == 0;
    let lacks = one_lacks(accounts, book, last);
    all_four(stopped, idle, none, lacks)
}

fn receivers(alloc: Global, profile: &Profile) -> Result<Vec<NodeId>, Memory>
    ensures { IfOk result (λ nodes. nodes.items ≡ receivers_of profile.now profile.now.receivers) }
{
    let mut nodes = Vec::new(alloc);
    for i in 0..u32::from(profile.receivers) {
        nodes.push(profile.receiver(i))?;
    }
    Ok(nodes)
}

fn opened(alloc: Global, nodes: &[NodeId]) -> Result<Vec<Account>, AllocError>
    ensures { IfOk result (λ accounts. accounts.items ≡ map opened nodes.now) }
{
    nodes
        .iter()
        .map(|node| Account::opened(*node))
        .collect(alloc)
}

fn rise_all(accounts: &mut [Account], node: NodeId, at: Position)
    ensures { accounts.new ≡ map (risen node at) accounts.old }
{
    for account in accounts.iter_mut() {
        *account = account.risen(node, at);
    }
}

fn begin_all(accounts: &mut [Account])
    ensures { accounts.new ≡ map begun_anew accounts.old }
{
    for account in accounts.iter_mut() {
        *account = account.begun_anew();
    }
}

fn excuse_all(accounts: &mut [Account], node: NodeId)
    ensures { accounts.new ≡ map (excused_by node) accounts.old }
{
    for account in accounts.iter_mut() {
        *account = account.excused_by(node);
    }
}

fn lacking(
    alloc: Global,
    accounts: &[Account],
    last: &Option<Position>,
) -> Result<Vec<Account>, Memory>
    ensures { IfOk result (λ found. found.items ≡ filter (lacks last.now) accounts.now) }
{
    let mut found = Vec::new(alloc);
    for account in accounts {
        if account.lacks(last) {
            found.push(*account)?;
        }
    }
    Ok(found)
}

fn have_room(accounts: &[Account]) -> bool
    ensures { result ≡ list_all has_room accounts.now }
{
    accounts.iter().all(|account| account.has_room())
}

fn pass_all(accounts: &mut [Account], left: &[NodeId])
    requires { list_all has_room accounts.old ≡ true }
    ensures { accounts.new ≡ map (passed_by left.now) accounts.old }
{
    for account in accounts.iter_mut() {
        *account = account.passed_by(left);
    }
}

fn one_lacks(accounts: &[Account], book: &Book, last: &Option<Position>) -> bool
    ensures { (p : Settings) (s : SenderState) → Stands p book.now s → last.now ≡ last_position p s → result ≡ one_lacks p s accounts.now }
{
    for account in accounts {
        let lacks = account.lacks(last);
        let lists = book.lists(account.node);
        if lists && lacks {
            return true;
        }
    }
    false
}

fn all_silent(accounts: &[Account], book: &Book, give_up: Option<u32>) -> bool
    ensures { (p : Settings) (s : SenderState) → Stands p book.now s → result ≡ all_silent give_up s accounts.now }
{
    for account in accounts {
        let silent = account.is_silent(give_up);
        let lists = book.lists(account.node);
        if lists && !silent {
            return false;
        }
    }
    true
}

/// The silent member with the lowest id.
fn first_silent(accounts: &[Account], book: &Book, give_up: Option<u32>) -> Option<NodeId>
    ensures { (p : Settings) (s : SenderState) → Stands p book.now s → result ≡ option_map (λ (a : Account). a.node) (first_silent give_up s accounts.now) }
{
    for account in accounts {
        let silent = account.is_silent(give_up);
        let lists = book.lists(account.node);
        if lists && silent {
            return Some(account.node);
        }
    }
    None
}
