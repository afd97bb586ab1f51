//! Writes to standard error, for people: why words, a line, a profile, a refused tail or memory ended the program, and what a failed call
//! of the outside was about. `norm_program` calls [`explain`] and [`explain_no_text`]; `normd` calls [`say_cause`] and [`needed`].

ghost use Rattle.std.specs.Prelude.{◌≡◌, ◌∷◌, Some, map, string_bytes, Ok, Err, MatchResult};
ghost use Rattle.std.specs.Fmt.{DisplaysOnOk};
ghost use Rattle.std.specs.Process.{exit_status};
ghost use Rattle.norm_endings.specs.Reasons.{extra_reason, refused_reason, words_reason, node_reason, members_reason, profile_reason, pace_reason, flushes_reason, no_tail_reason, has_reason, reason_of};
ghost use Rattle.norm_endings.specs.StatusOf.{status_of};
ghost use Rattle.norm_endings.specs.declared.status.Ending.TheVariants as ending;

use crate::mirror_reason::{say_not_accepted, say_not_satisfied, say_unlike, say_unsendable};
use crate::status::{Ending, NoTail, ProfileFault};
use crate::usage::{asks_help, asks_version, say_usage};
use norm_base::Memory;
use norm_multi::MultiFault;
use relay_words::{is_told, say_command, say_no_relay, say_relayed};
use std::fmt;
use std::process::ExitCode;

// Words that ask for it are refused words, which have the usage line on the output: a clause fixes all that the output gets then.
const VERSION: &str = "normd 0.1.0";

// Why words are refused is not kept, so each of these says all that its command takes. The bounds are those of `chance` and `turns`.
const SESSION_TAKES: &str =
    "session takes --chance N, from 0 to 4294967295, --turns N and --tail T, from 1 to 4000000, each at most once, and no other word";

// The bounds are those of 32 bits, of which `generate` takes every number.
const GENERATE_TAKES: &str = "generate takes one word, a number from 0 to 4294967295";

// The bounds are those of the key `instance`, and those of a group's port.
const SEND_TAKES: &str =
    "send takes one word, the path of a profile, --instance I, from 0 to 65535, and --group ADDRESS or ADDRESS:PORT, four numbers with points and a port from 1024 to 65534, each at most once";

// The bounds are those of a node's id (RFC 5740 section 4.1). Whether the profile has the node is seen only after the profile is loaded.
const RECV_TAKES: &str =
    "recv takes two words, the path of a profile and a node, from 1 to 4294967294, and --group ADDRESS or ADDRESS:PORT, four numbers with points and a port from 1024 to 65534, at most once";

// Not as for `show`, which names the word that is too many: `hub` is refused without a path too, and then no word could be named.
const HUB_TAKES: &str = "hub takes one word, the path of a profile";

// Eight are the most that are heard at once. Whether a profile has its node is seen only after the profiles are loaded.
const GATHER_TAKES: &str =
    "gather takes one to eight pairs of words, the path of a profile and a node, from 1 to 4294967294";

// The bounds are those of a node's id and of the key `instance`.
const RELAY_TAKES: &str =
    "relay takes three words, the path of the profile above, a node of it, from 1 to 4294967294, and the path of the profile below, and --instance I, from 0 to 65535, at most once";

/// Names the word that is one too many after a command that takes none. Writes nothing if no word follows.
fn say_extra<W: fmt::Write>(word: &str, others: &[String], f: &mut fmt::Formatter<W>) -> fmt::Result
    ensures { DisplaysOnOk W.write_str_gives f.old result (Some (extra_reason word.now (map string_bytes others.now))) f.new }
{
    match others {
        [] => Ok(()),
        [extra, ..] => {
            let extra = extra.as_str();
            write!(f, "the word {extra} is one too many behind {word}")
        }
    }
}

/// Says why words are refused, of which `word` is the first. Looks at the others only for `show` and `mirror`: of any other command it says all that it takes,
/// and of any other word that it is unknown.
fn say_first<W: fmt::Write>(word: &str, others: &[String], f: &mut fmt::Formatter<W>) -> fmt::Result
    ensures { DisplaysOnOk W.write_str_gives f.old result (Some (refused_reason (word.now ∷ map string_bytes others.now))) f.new }
{
    let octets = word.as_bytes();
    if octets == b"session".as_slice() {
        return f.write_str(SESSION_TAKES);
    }
    if octets == b"generate".as_slice() {
        return f.write_str(GENERATE_TAKES);
    }
    if octets == b"show".as_slice() {
        return say_extra(word, others, f);
    }
    if octets == b"mirror".as_slice() {
        return say_extra(word, others, f);
    }
    if octets == b"send".as_slice() {
        return f.write_str(SEND_TAKES);
    }
    if octets == b"recv".as_slice() {
        return f.write_str(RECV_TAKES);
    }
    if octets == b"hub".as_slice() {
        return f.write_str(HUB_TAKES);
    }
    if octets == b"gather".as_slice() {
        return f.write_str(GATHER_TAKES);
    }
    if octets == b"relay".as_slice() {
        return f.write_str(RELAY_TAKES);
    }
    write!(f, "the word {word} is unknown")
}

fn say_refused<W: fmt::Write>(words: &[String], f: &mut fmt::Formatter<W>) -> fmt::Result
    ensures { DisplaysOnOk W.write_str_gives f.old result (Some (refused_reason (map string_bytes words.now))) f.new }
{
    match words {
        [] => f.write_str("no word says what to do"),
        [word, others @ ..] => say_first(word.as_str(), others, f),
    }
}

/// Says what refused words ask for, if it is help or the version, and else why they are refused. Call it only if they are.
fn say_words<W: fmt::Write>(words: &[String], f: &mut fmt::Formatter<W>) -> fmt::Result
    ensures { DisplaysOnOk W.write_str_gives f.old result (Some (words_reason (map string_bytes words.now))) f.new }
{
    if asks_help(words) {
        return say_usage(words, f);
    }
    if asks_version(words) {
        return f.write_str(VERSION);
    }
    say_refused(words, f)
}

fn say_node<W: fmt::Write>(
    node: u32,
    first: u32,
    last: u32,
    f: &mut fmt::Formatter<W>,
) -> fmt::Result
    ensures { DisplaysOnOk W.write_str_gives f.old result (Some (node_reason node first last)) f.new }
{
    write!(
        f,
        "the node {node} is no receiver of the profile, whose receivers are {first} to {last}"
    )
}

/// Says which node is no receiver of its profile, or which id stands twice.
fn say_members<W: fmt::Write>(why: MultiFault, f: &mut fmt::Formatter<W>) -> fmt::Result
    ensures { DisplaysOnOk W.write_str_gives f.old result (Some (members_reason why)) f.new }
{
    match why {
        MultiFault::NotReceiver { i } => {
            let pair = u64::from(i) + 1;
            write!(f, "the node of pair {pair} is no receiver of its profile")
        }
        MultiFault::SameId { node } => {
            let id = node.number();
            write!(f, "the id {id} stands twice among the senders and nodes")
        }
        MultiFault::Memory => f.write_str("out of memory"),
    }
}

/// Says why a profile is refused, or which receivers it has if the node is none of them.
fn say_profile<W: fmt::Write>(why: &ProfileFault, f: &mut fmt::Formatter<W>) -> fmt::Result
    ensures { DisplaysOnOk W.write_str_gives f.old result (profile_reason why.now) f.new }
{
    match why {
        ProfileFault::Document { why } => write!(f, "the profile is refused: {why}"),
        ProfileFault::Node { node, first, last } => say_node(node.number(), *first, *last, f),
        ProfileFault::Members { why } => say_members(*why, f),
        ProfileFault::Relay { why } => say_no_relay(*why, f),
    }
}

/// Says why a tail is too slow.
fn say_pace<W: fmt::Write>(
    symbols: u64,
    gap: u32,
    step: u32,
    grtt: u32,
    f: &mut fmt::Formatter<W>,
) -> fmt::Result
    ensures { DisplaysOnOk W.write_str_gives f.old result (Some (pace_reason symbols gap step grtt)) f.new }
{
    write!(
        f,
        "the number of infos and symbols in the window is {symbols}: with one more, sent twice, a gap of {gap} and a step of {step} apart, they take longer than the grtt of {grtt} microseconds"
    )
}

/// Says that too many flushes were counted for a tail.
fn say_flushes<W: fmt::Write>(count: u32, k: u32, f: &mut fmt::Formatter<W>) -> fmt::Result
    ensures { DisplaysOnOk W.write_str_gives f.old result (Some (flushes_reason count k)) f.new }
{
    write!(
        f,
        "the number of flushes that were counted is {count}: with twice the k of {k} it is above 15"
    )
}

/// Says why there is no tail.
fn say_no_tail<W: fmt::Write>(why: &NoTail, f: &mut fmt::Formatter<W>) -> fmt::Result
    ensures { DisplaysOnOk W.write_str_gives f.old result (Some (no_tail_reason why.now)) f.new }
{
    match why {
        NoTail::Waiting { turn } => write!(
            f,
            "after turn {turn} a command was not pulled yet, or waits"
        ),
        NoTail::NoRequest { turn } => write!(
            f,
            "after turn {turn} no watermark is open, and the session is not whole"
        ),
        NoTail::Mode => f.write_str("the mode of the profile is drop, and a tail wants hold"),
        NoTail::Streams { count } => write!(
            f,
            "the number of streams in the window is {count}, and a tail wants none"
        ),
        NoTail::Step { step, gap } => write!(
            f,
            "the step of {step} microseconds is not from 1 to the gap of {gap}"
        ),
        NoTail::Pace {
            symbols,
            gap,
            step,
            grtt,
        } => say_pace(*symbols, *gap, *step, *grtt, f),
        NoTail::Flushes { count, k } => say_flushes(*count, *k, f),
    }
}

/// Prints why the program ended so after these words. Prints nothing if the ending has no reason of its own.
#[derive(Drop)]
pub(crate) struct Reason<'a> {
    pub ending: &'a Ending,
    pub words: &'a [String],
}

// A value that prints itself takes no memory, so it can also say that memory ran out.
impl fmt::Display for Reason<'_> {
    ghost output = { λ r. reason_of r.ending.now (map string_bytes r.words.now) };

    fn fmt<W: fmt::Write>(&self, f: &mut fmt::Formatter<W>) -> fmt::Result {
        match self.ending {
            Ending::Memory => f.write_str("out of memory"),
            Ending::Words => say_words(self.words, f),
            Ending::Refused { refusal } => write!(f, "{refusal}"),
            Ending::Line { number, why } => write!(f, "line {number}: {why}"),
            Ending::Event { number, why } => write!(f, "line {number}: {why}"),
            Ending::Profile { why } => say_profile(why, f),
            Ending::TailRefused { why } => say_no_tail(why, f),
            Ending::Relayed { lost, patience } => say_relayed(*lost, *patience, f),
            Ending::Command { fault } => say_command(*fault, f),
            Ending::Unsendable { name, len } => say_unsendable(name, *len, f),
            Ending::NotAccepted { what } => say_not_accepted(what, f),
            Ending::NotSatisfied { which } => say_not_satisfied(*which, f),
            Ending::Unlike { why } => say_unlike(why, f),
            Ending::Done
            | Ending::Datagram
            | Ending::Read
            | Ending::Write
            | Ending::Fabric
            | Ending::Files
            | Ending::Absent { .. }
            | Ending::Spent
            | Ending::Tailed { .. } => Ok(()),
        }
    }
}

impl Ending {
    /// Whether [`explain`] has a reason to print. What a failed call of the outside was about is not one: [`say_cause`] prints it.
    pub(crate) fn has_reason(&self) -> bool
        ensures { result ≡ has_reason self.now }
    {
        match self {
            Ending::Relayed { lost, patience } => is_told(*lost, *patience),
            Ending::Memory
            | Ending::Words
            | Ending::Refused { .. }
            | Ending::Line { .. }
            | Ending::Event { .. }
            | Ending::Profile { .. }
            | Ending::TailRefused { .. }
            | Ending::Command { .. }
            | Ending::Unsendable { .. }
            | Ending::NotAccepted { .. }
            | Ending::NotSatisfied { .. }
            | Ending::Unlike { .. } => true,
            _ => false,
        }
    }
}

/// Says on standard error why the program ended so, if [`has_reason`](Ending::has_reason) says that there is a reason to print, and nothing
/// otherwise. If the words were refused, also names the program and its version, unless they ask for help.
pub fn explain(rt: &impl Eprint, ending: &Ending, words: &[String]) {
    if ending.has_reason() {
        let reason = Reason { ending, words };
        let _ = eprintln!(rt; "{reason}");
    }
    if matches!(ending, Ending::Words) && !asks_help(words) && !asks_version(words) {
        let _ = eprintln!(rt; "{VERSION}");
    }
}

/// Says on standard error that a word is not UTF-8, also if it is the program's name, and names the program and its version.
pub fn explain_no_text(rt: &impl Eprint) {
    let _ = eprintln!(rt; "a word is not UTF-8");
    let _ = eprintln!(rt; "{VERSION}");
}

/// Says on standard error what a failed call of the outside was about. Writes nothing if there is no cause.
pub fn say_cause<C: fmt::Display>(rt: &impl Eprint, cause: Option<&C>) {
    if let Some(cause) = cause {
        let _ = eprintln!(rt; "{cause}");
    }
}

/// Returns what was made. If memory ran out, says so on standard error and returns the exit code to end with, 1.
pub fn needed<T>(rt: &impl Eprint, made: Result<T, Memory>) -> Result<T, ExitCode>
    ensures { MatchResult result (λ x. made ≡ Ok x) (λ code. exit_status code ≡ status_of ending.Memory) }
{
    match made {
        Ok(made) => Ok(made),
        Err(Memory) => {
            explain(rt, &Ending::Memory, &[]);
            Err(ExitCode::from(Ending::Memory.status()))
        }
    }
}
