//! To whom a hub sends what a member offers: once to all receivers that listen, and a copy to each other one ([`Listening`]). When a receiver
//! answers a hub that asks ([`Answering`]).

ghost use Rattle.std.specs.Prelude.{◌≡◌, ◌||◌, true, None, Some, if◌then◌else◌};
ghost use Rattle.norm_base.specs.Members.{is_node};
ghost use Rattle.udp_rules.specs.Listening.{goes_to_all, listens, some_listen, is_broadcast, gets_own_copy, still_counts, listeners_at, all_listen, wait_for, is_due, asked_at, answered_then, answers};

use crate::address::gets_copy;
use norm_base::{NodeId, Profile};

/// The most receivers of a profile.
const RECEIVERS: usize = 16;

/// Microseconds for which an answer counts.
// Our own choice, three questions: one that was lost, or its answer, does not bring the copies back.
const COUNTS: u64 = 3_000_000;

/// Microseconds after its first question for which a hub asks often.
// Our own choice: nodes that are started together are all there after it.
const BEGINNING: u64 = 3_000_000;

/// Microseconds from one question to the next in the beginning.
const OFTEN: u64 = 50_000;

/// Microseconds from one question to the next afterwards.
// Our own choice: a receiver that starts late gets copies for so long.
const SELDOM: u64 = 1_000_000;

/// Microseconds for which a receiver gives no second answer.
// Our own choice: anybody on this machine may ask, and so causes at most twenty answers a second.
const REST: u64 = 50_000;

/// Which receivers listen at the broadcast address, by their indexes.
#[derive(Clone, Copy, Debug)]
pub struct Listeners {
    pub each: [bool; RECEIVERS],
}

/// When a hub asked first and last, in microseconds of the clock.
#[derive(Clone, Copy, Debug)]
pub struct Questions {
    pub first: u64,
    pub last: u64,
}

/// Whether what this member offers goes once to all that listen: the sender's.
// Not a receiver's: it would come back to it.
fn goes_to_all(profile: &Profile, from: NodeId) -> bool
    ensures { result ≡ goes_to_all profile.now from }
{
    from.number() == profile.sender
}

/// Whether a member listens.
fn listens(profile: &Profile, listeners: &Listeners, node: NodeId) -> bool
    ensures { result ≡ listens profile.now listeners.now.each node }
{
    if !profile.is_receiver(node) {
        return false;
    }
    listeners.each[(node.number() - (profile.sender + 1)) as usize]
}

fn some_listen(listeners: &Listeners) -> bool
    ensures { result ≡ some_listen listeners.now.each }
{
    listeners.each.iter().any(|one| *one)
}

/// Whether what a member offers is broadcast. While nobody listens nothing is.
pub fn is_broadcast(profile: &Profile, listeners: &Listeners, from: NodeId) -> bool
    ensures { result ≡ is_broadcast profile.now listeners.now.each from }
{
    goes_to_all(profile, from) && some_listen(listeners)
}

/// Whether `to` gets a copy of its own of what `from` offers: `false` also if it hears that as a broadcast.
pub fn gets_own_copy(profile: &Profile, listeners: &Listeners, from: NodeId, to: NodeId) -> bool
    ensures { result ≡ gets_own_copy profile.now listeners.now.each from to }
{
    gets_copy(profile, from, to) && !(goes_to_all(profile, from) && listens(profile, listeners, to))
}

/// Whether an answer of this moment still counts.
fn still_counts(now: u64, answered: Option<u64>) -> bool
    ensures { result ≡ still_counts now answered }
{
    match answered {
        Some(moment) => now.saturating_sub(moment) < COUNTS,
        None => false,
    }
}

fn all_listen(profile: &Profile, listeners: &Listeners) -> bool
    ensures { result ≡ all_listen profile.now listeners.now.each }
{
    listeners.each[..usize::from(profile.receivers)]
        .iter()
        .all(|one| *one)
}

/// Returns who listens at this moment.
fn listeners_at(now: u64, answered: [Option<u64>; RECEIVERS]) -> Listeners
    ensures { result.each ≡ listeners_at now answered }
{
    let mut each = [false; RECEIVERS];
    for place in 0..RECEIVERS {
        each[place] = still_counts(now, answered[place]);
    }
    Listeners { each }
}

/// Returns how many microseconds a hub waits from one question to the next.
fn wait_for(all: bool, first: u64, now: u64) -> u64
    ensures { result ≡ wait_for all first now }
{
    if now.saturating_sub(first) < BEGINNING && !all {
        OFTEN
    } else {
        SELDOM
    }
}

/// Whether a question is due. `all` is whether all receivers listen.
fn is_due(all: bool, questions: &Option<Questions>, now: u64) -> bool
    ensures { result ≡ is_due all questions.now now }
{
    match questions {
        Some(questions) => now.saturating_sub(questions.last)
            >= wait_for(all, questions.first, now),
        None => true,
    }
}

/// Returns the questions so far with one of this moment.
fn asked_at(questions: &Option<Questions>, now: u64) -> Option<Questions>
    ensures { result ≡ asked_at questions.now now }
{
    let first = match questions {
        Some(questions) => questions.first,
        None => now,
    };
    Some(Questions { first, last: now })
}

impl Listeners {
    /// Nobody.
    pub fn none() -> Listeners {
        Listeners {
            each: [false; RECEIVERS],
        }
    }
}

/// What a hub knows of who listens. Call [`look_at`](Listening::look_at) with each reading of the clock, ask if it says so, and
/// [`note_answer`](Listening::note_answer) each answer.
#[derive(Clone, Copy, Debug)]
pub struct Listening {
    /// When each receiver answered last, by their indexes, in microseconds of the clock.
    pub answered: [Option<u64>; RECEIVERS],
    /// The last reading of the clock.
    pub moment: u64,
    pub questions: Option<Questions>,
}

impl Listening {
    /// Before the clock was read: nobody listens.
    pub fn new() -> Listening {
        Listening {
            answered: [None; RECEIVERS],
            moment: 0,
            questions: None,
        }
    }

    /// Returns who listens.
    pub fn listeners(&self) -> Listeners
        ensures { result.each ≡ listeners_at self.now.moment self.now.answered }
    {
        listeners_at(self.moment, self.answered)
    }

    /// Notes a member's answer. A sender's is none.
    pub fn note_answer(&mut self, profile: &Profile, from: NodeId)
        ensures answered { self.new.answered ≡ answered_then profile.now self.old.answered from self.old.moment }
        ensures moment { self.new.moment ≡ self.old.moment }
        ensures questions { self.new.questions ≡ self.old.questions }
    {
        if !profile.is_receiver(from) {
            return;
        }
        let place = (from.number() - (profile.sender + 1)) as usize;
        self.answered[place] = Some(self.moment);
    }

    /// Notes a reading of the clock. Returns whether a question is due, which is to be asked at once.
    pub fn look_at(&mut self, profile: &Profile, now: u64) -> bool
        ensures due { result ≡ is_due (all_listen profile.now (listeners_at now self.old.answered)) self.old.questions now }
        ensures answered { self.new.answered ≡ self.old.answered }
        ensures moment { self.new.moment ≡ now }
        ensures questions { self.new.questions ≡ (if result then asked_at self.old.questions now else self.old.questions) }
    {
        self.moment = now;
        let all = all_listen(profile, &self.listeners());
        let due = is_due(all, &self.questions, now);
        if due {
            self.questions = asked_at(&self.questions, now);
        }
        due
    }
}

/// When a receiver answered a question last.
#[derive(Clone, Copy, Debug)]
pub struct Answering {
    pub last: Option<u64>,
}

impl Answering {
    pub fn new() -> Answering
        ensures { result.last ≡ None }
    {
        Answering { last: None }
    }

    /// Whether a question of this moment is answered. If so, notes that.
    pub fn answers(&mut self, now: u64) -> bool
        ensures exact { result ≡ answers self.old.last now }
        ensures last { self.new.last ≡ (if result then Some now else self.old.last) }
    {
        if let Some(last) = self.last {
            if now.saturating_sub(last) < REST {
                return false;
            }
        }
        self.last = Some(now);
        true
    }
}
