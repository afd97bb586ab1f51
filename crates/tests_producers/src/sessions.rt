//! Tests of what a session does with its gate and its board.
ghost use Rattle.std.specs.Prelude.{◌≡◌, IfOk, IfSome};
ghost use Rattle.norm_base.specs.Octets.{AreOctets};
ghost use Rattle.norm_base.specs.Settings.{InRange};
ghost use Rattle.norm_script.specs.Scripts.{CanRun};

use mark_book::Outcome;
use norm_base::{Failed, Memory, Octets, Profile, Sink};
use norm_memory::{DirectFabric, MemClock, MemFiles};
use norm_order::Up;
use norm_script::{Line, Script, Verb, read};
use norm_session::{Ended, Journal, run_session};
use norm_turns::SessionFault;
use producer_gate::{Board, Seen, Through, Turnstile};
use std::alloc::Global;
use std::sync::Wait;
use std::sync::atomic::{AtomicU64, Ordering};
use std::thread;
use std::thread::Threads;
use std::time::{Clock, Duration};

/// The script in a text. `None` if a line is refused.
fn script_of(alloc: Global, text: &[u8]) -> Result<Option<Script>, Memory>
    ensures { IfOk result (λ found. IfSome found CanRun) }
{
    match read(alloc, text) {
        Ok(Ok(script)) => Ok(Some(script)),
        Ok(Err(_)) => Ok(None),
        Err(_) => Err(Memory),
    }
}

/// A sink that keeps nothing of what is written. At the first write it reads a flag.
#[derive(Drop)]
struct Looking<'a> {
    flag: &'a AtomicU64,
    /// The flag as it was at the first write, if there was one.
    found: Option<u64>,
}

impl<'a> Looking<'a> {
    fn at(flag: &'a AtomicU64) -> Looking<'a> {
        Looking { flag, found: None }
    }
}

impl Sink for Looking<'_> {
    ghost use Rattle.std.specs.Prelude.{None};

    ghost pieces = { λ _. None };

    ghost fault_count = { λ _. 0 };

    fn write(&mut self, bytes: &[u8]) -> Result<(), Failed> {
        if self.found.is_none() && !bytes.is_empty() {
            self.found = Some(self.flag.load(Ordering::SeqCst));
        }
        Ok(())
    }

    fn faults(&self) -> u64 {
        0
    }
}

/// Runs the session of a script in memory, with its producers at this turnstile, and returns how it ended.
fn ran<R: Threads + Wait + Sync, G: Turnstile + Sync, K: Sink>(
    rt: &R,
    alloc: Global,
    script: &Script,
    gate: &G,
    board: &mut Board,
    output: &mut K,
) -> Result<Ended, SessionFault>
    requires { CanRun script.now }
    ensures { board.new.id ≡ board.old.id }
{
    let mut fabric = DirectFabric::new(alloc)?;
    let mut files = MemFiles::of(Vec::new(alloc), Vec::new(alloc));
    let mut clock = MemClock::of(Vec::new(alloc));
    run_session(
        rt,
        alloc,
        script,
        gate,
        board,
        output,
        &mut fabric,
        &mut files,
        &mut clock,
    )
}

/// Runs the session of a text with its producers at this turnstile, and returns what a reader then finds of marks 1 and 2 if it was told of all
/// that the session published. `None` if not everything was done.
fn looks_after<R: Threads + Wait + Sync, G: Turnstile + Sync, K: Sink>(
    rt: &R,
    alloc: Global,
    text: &[u8],
    gate: &G,
    output: &mut K,
) -> Result<Option<[Seen; 2]>, SessionFault> {
    let Some(script) = script_of(alloc, text)? else {
        return Ok(None);
    };
    let (mut board, mut readers) = Board::new(alloc, 1)?;
    let Some(mut reader) = readers.pop() else {
        return Ok(None);
    };
    if !ran(rt, alloc, &script, gate, &mut board, output)?.whole {
        return Ok(None);
    }
    reader.learn(board.front());
    Ok(Some([reader.outcome(1), reader.outcome(2)]))
}

/// As [`looks_after`], with producers that nothing holds up.
fn looks_through<R: Threads + Wait + Sync>(
    rt: &R,
    alloc: Global,
    text: &[u8],
) -> Result<Option<[Seen; 2]>, SessionFault> {
    let flag = AtomicU64::new(0);
    let mut output = Looking::at(&flag);
    looks_after(rt, alloc, text, &Through, &mut output)
}

#[test]
fn a_reader_finds_what_became_of_a_sessions_mark(rt: HostRuntime) {
    let text = b"set instance 7\nset e 64\n1 data 68656c6c6f\n1 mark\n";
    let looks = looks_through(&rt, rt.alloc(), text.as_slice()).unwrap_or(None);
    assert!(rt; looks == Some([Seen::Known(Outcome::Satisfied), Seen::Unknown]));
}

/// A turnstile at which producers meet before their first commands: each shows that it is there, and waits for the others.
#[derive(Drop)]
struct Meeting {
    /// A bit for each producer that is awaited.
    all: u64,
    there: AtomicU64,
    met: AtomicU64,
}

/// How often a producer looks for the others before it goes on alone.
const LOOKS: u32 = 10_000_000;

impl Turnstile for Meeting {
    fn pass(&self, producer: u32, number: u64) {
        if number != 1 {
            return;
        }
        self.there
            .fetch_or(1u64 << (producer % 64), Ordering::SeqCst);
        for _ in 0..LOOKS {
            if self.there.load(Ordering::SeqCst) == self.all {
                self.met.fetch_add(1, Ordering::SeqCst);
                return;
            }
            thread::yield_now();
        }
    }
}

/// Runs the session of a text, and returns how many producers found all the others. Returns 0 if not everything was done.
fn meetings<R: Threads + Wait + Sync>(
    rt: &R,
    alloc: Global,
    text: &[u8],
    all: u64,
) -> Result<u64, SessionFault> {
    let meeting = Meeting {
        all,
        there: AtomicU64::new(0),
        met: AtomicU64::new(0),
    };
    let mut output = Looking::at(&meeting.met);
    let looks = looks_after(rt, alloc, text, &meeting, &mut output)?;
    let met = meeting.met.load(Ordering::SeqCst);
    Ok(if looks.is_some() { met } else { 0 })
}

/// Scripts, the bits of their producers, and the number of producers.
const MEETINGS: [(&[u8], u64, u64); 2] = [
    (
        b"set instance 7\nset e 64\nset producers 2\n1 data 01\n2 data 02\n",
        0b110,
        2,
    ),
    (
        b"set producers 4\n1 data 01\n2 data 02\n3 data 03\n4 data 04\n",
        0b11110,
        4,
    ),
];

#[test]
fn producers_run_at_once(rt: HostRuntime) {
    for (text, all, producers) in MEETINGS {
        let met = meetings(&rt, rt.alloc(), text, all).unwrap_or(0);
        assert!(rt; met == producers, "{producers} producers");
    }
}

/// How many milliseconds a producer is held up. If the session does not wait for it, the first line is written within a few.
const HOLD_UP: u64 = 300;

/// Holds the first producer up before its first command, and then sets a flag.
#[derive(Drop)]
struct Slow<'a, R: Clock> {
    clock: &'a R,
    passed: AtomicU64,
}

impl<R: Clock> Turnstile for Slow<'_, R> {
    fn pass(&self, producer: u32, number: u64) {
        if producer == 1 && number == 1 {
            thread::sleep(self.clock, Duration::from_millis(HOLD_UP));
            self.passed.store(1, Ordering::SeqCst);
        }
    }
}

/// The flag of a producer that is held up, at the time of the first line of its session. `None` if nothing was written or not everything was
/// done.
fn found_at_first<R: Threads + Wait + Clock + Sync>(
    rt: &R,
    alloc: Global,
    text: &[u8],
) -> Result<Option<u64>, SessionFault> {
    let gate = Slow {
        clock: rt,
        passed: AtomicU64::new(0),
    };
    let mut output = Looking::at(&gate.passed);
    let looks = looks_after(rt, alloc, text, &gate, &mut output)?;
    Ok(if looks.is_some() { output.found } else { None })
}

#[test]
fn a_command_comes_after_its_producer_passed(rt: HostRuntime) {
    let found = found_at_first(&rt, rt.alloc(), b"1 data 01\n1 data 02\n").unwrap_or(None);
    assert!(rt; found == Some(1));
}

/// How many octets the long object has: 139 symbols of 1,024. A line of a script gives at most 8,192.
const LONG: u32 = 142_336;

/// The long object's octets. 251 is prime, so no symbol has the octets of another.
fn long_object(alloc: Global) -> Result<Vec<u8>, Memory> {
    let mut octets = Vec::new(alloc);
    for i in 0..LONG {
        octets.push((i % 251) as u8)?;
    }
    Ok(octets)
}

// Proof: a profile's numbers are in their ranges, once one of them is read.
fn is_in_range(profile: &Profile)
    ensures { InRange profile.now }
{
    let _producers = profile.producers;
}

// Proof: a slice of octets has octets alone.
fn hold_octets(bytes: &[u8])
    ensures { AreOctets bytes.now }
{}

/// A script of one command, which sends a data object of these octets.
fn script_of_object(alloc: Global, octets: Vec<u8>) -> Result<Script, Memory>
    ensures { IfOk result CanRun }
{
    let profile = Profile::default();
    is_in_range(&profile);
    hold_octets(octets.as_slice());
    let verb = Verb::Data {
        info: None,
        bytes: Octets::of(octets),
    };
    let mut lines = Vec::new(alloc);
    lines.push(Line {
        producer: 1,
        number: 1,
        verb,
    })?;
    Ok(Script { profile, lines })
}

/// Whether a hand-up is an object of these octets.
fn is_object(up: &Up, octets: &[u8]) -> bool {
    match up {
        Up::Object { bytes, .. } => bytes.bytes() == octets,
        _ => false,
    }
}

/// Whether a journal has exactly one hand-up, an object of these octets.
fn has_handed(journal: &Journal, octets: &[u8]) -> bool {
    let Some((_node, up)) = journal.up(0) else {
        return false;
    };
    is_object(up, octets) && journal.up(1).is_none()
}

/// Whether a session hands the long object up, octet for octet, and refuses nothing.
fn hands_object_up<R: Threads + Wait + Sync>(rt: &R, alloc: Global) -> Result<bool, SessionFault> {
    let octets = long_object(alloc)?;
    let script = script_of_object(alloc, long_object(alloc)?)?;
    let (mut board, _readers) = Board::new(alloc, 1)?;
    let flag = AtomicU64::new(0);
    let mut output = Looking::at(&flag);
    let ended = ran(rt, alloc, &script, &Through, &mut board, &mut output)?;
    let refused = ended.journal.refused();
    Ok(ended.whole && refused == 0 && has_handed(&ended.journal, &octets))
}

#[test]
fn an_object_longer_than_any_line_is_handed_up(rt: HostRuntime) {
    let whole = hands_object_up(&rt, rt.alloc()).unwrap_or(false);
    assert!(rt; whole);
}
