//! `session --tail T`: after turn T, or the profile's last turn if that is earlier, the nodes of a session that is not whole go on over a
//! network that loses nothing, until no watermark is open or a tail is refused. `session` calls [`end_tails`].

ghost use Rattle.std.specs.Prelude.{◌≡◌, ◌+◌, ◌*◌, ◌^◌, ◌≤◌, ◌∷◌, [], fold, IfOk, IfErr, OnOk, Some};
ghost use Rattle.std.specs.Bool.{Decides};
ghost use Rattle.std.specs.Option.{option_map, option_to_list};
ghost use Rattle.std.specs.Result.{result_ok};
ghost use Rattle.norm_base.specs.Settings.{InRange};
ghost use Rattle.norm_base.specs.Told.{Pieces, gained};
ghost use Rattle.norm_journal.specs.Judged.{Judged};
ghost use Rattle.norm_safety.specs.World.{World as Rules};
ghost use Rattle.norm_send_rules.specs.SenderState.{SenderState};
ghost use Rattle.norm_sender.specs.SenderKept.{Stands};
ghost use Rattle.norm_session.specs.Pausing.{IsReadOff};
ghost use Rattle.norm_tail.specs.Beginning.{refusal_of};
ghost use Rattle.norm_text.specs.Words.{with_words};
ghost use Rattle.norm_turns.specs.Causes.{NeedsMemory, WriteCause};
ghost use Rattle.norm_turns.specs.Printing.{IsUnwritten};
ghost use Rattle.norm_world.specs.WorldKept.{StandsFor};
ghost use Rattle.driven_nodes.specs.Writing.{LeavesLines};
ghost use Rattle.norm_program.specs.TailEnds.{step_line, lines_of, with_step, has_open, no_tail, word_of, last_words, last_line, ending_of, no_tails, tail_once, tails_of, refused_after, going_on, ending_after, lines_after};
ghost use Rattle.norm_program.specs.Tailing.{AreMade, IsTailsEnding, IsTurned, LeadsOn, MayGoOn, StopsOn};

use norm_base::{Moment, Notice, Profile, Sink};
use norm_endings::{Ending, NoTail, stop_session};
use norm_journal::Totals;
use norm_sender::Sender;
use norm_session::Paused;
use norm_tail::laws::tails_fit;
use norm_tail::{TailFault, TailStep, run_tail};
use norm_text::Line;
use norm_turns::{SessionFault, write_end, write_line, write_news, write_up};
use norm_world::World;
use rand_pcg::Lcg64Xsh32;
use std::alloc::{AllocError, Global};

/// The last moment after which a tail may begin.
// `run_tail` wants room for its moments. No session gets so far: its turns and 16 tails end before 2^57 microseconds, and no real clock is
// so late.
const LAST: u64 = 1 << 63;

/// How the turns of a session ended.
#[derive(Clone, Copy, Debug)]
struct Turned {
    whole: bool,
    waiting: bool,
    turn: u32,
}

/// The tails of a session so far.
#[derive(Drop)]
struct Tails {
    /// How many turns they took.
    turns: u64,
    /// How many turns they might take.
    bound: u64,
    /// The moment of the last turn.
    last: Moment,
    /// The draws that were not used yet.
    draws: Lcg64Xsh32,
    /// The counts of the summary.
    counts: Totals,
    world: World,
}

/// Adds a hand-up or a change to the counts. `Memory` if a count does not fit 64 bits.
fn count_step(counts: &mut Totals, step: &TailStep) -> Result<(), SessionFault>
    ensures counted { OnOk result (counts.new ≡ with_step counts.old step.now) }
    ensures cause { NeedsMemory result }
{
    match step {
        TailStep::Up { up, .. } => {
            if !counts.has_room_for_up(up) {
                return Err(SessionFault::Memory);
            }
            counts.count_up(up);
            Ok(())
        }
        TailStep::News(news) => {
            if !counts.has_room_for_news(news) {
                return Err(SessionFault::Memory);
            }
            counts.count_news(news);
            Ok(())
        }
    }
}

/// Adds what a tail handed up and reported to the counts. `Memory` if a count does not fit 64 bits.
fn count_steps(counts: &mut Totals, steps: &[TailStep]) -> Result<(), SessionFault>
    ensures counted { OnOk result (counts.new ≡ fold with_step counts.old steps.now) }
    ensures cause { NeedsMemory result }
{
    for step in steps {
        count_step(counts, step)?;
    }
    Ok(())
}

/// Writes the line of a hand-up or a change, if it has one: in the sender's instance, and with the members that its book has as left.
fn write_step<K: Sink>(
    alloc: Global,
    line: &mut Line,
    sender: &Sender,
    step: &TailStep,
    output: &mut K,
) -> Result<(), SessionFault>
    ensures written { OnOk result ((s : SenderState) → Stands sender.now s → K.pieces output.new
        ≡ gained (K.pieces output.old) (option_to_list (step_line s step.now))) }
    ensures stops { IfErr result (λ fault. (s : SenderState) → Stands sender.now s
        → IsUnwritten fault (K.pieces output.old) (K.pieces output.new) (step_line s step.now)) }
    ensures cause { WriteCause result (K.fault_count output.old) (K.fault_count output.new) }
{
    match step {
        TailStep::Up { node, up } => write_up(line, *node, sender.instance(), up, output),
        TailStep::News(news) => write_news(alloc, line, sender, news, output),
    }
}

/// Writes the lines of what a tail handed up and reported.
fn write_steps<K: Sink>(
    alloc: Global,
    line: &mut Line,
    sender: &Sender,
    steps: &[TailStep],
    output: &mut K,
) -> Result<(), SessionFault>
    ensures written { OnOk result ((s : SenderState) → Stands sender.now s → K.pieces output.new
        ≡ gained (K.pieces output.old) (lines_of s steps.now)) }
    ensures stops { IfErr result (λ fault. (s : SenderState) → Stands sender.now s
        → LeavesLines fault (K.pieces output.old) (K.pieces output.new) (lines_of s steps.now)) }
    ensures cause { WriteCause result (K.fault_count output.old) (K.fault_count output.new) }
{
    for step in steps {
        write_step(alloc, line, sender, step, output)?;
    }
    Ok(())
}

/// Whether a watermark is open.
fn has_open(world: &World) -> bool
    ensures { (w : Rules) → StandsFor world.now w → result ≡ has_open w }
{
    world.sender().book().oldest().is_some()
}

/// Why a tail was refused, with the numbers that decide. `Memory` if memory ran out in it.
fn refusal(profile: &Profile, turn: u32, fault: TailFault) -> Result<NoTail, SessionFault>
    ensures why { result_ok result ≡ option_map (no_tail profile.now turn) (refusal_of fault) }
    ensures cause { NeedsMemory result }
{
    match fault {
        TailFault::NoRequest => Ok(NoTail::NoRequest { turn }),
        TailFault::Mode => Ok(NoTail::Mode),
        TailFault::Streams { count } => Ok(NoTail::Streams { count }),
        TailFault::Step { step } => Ok(NoTail::Step {
            step,
            gap: profile.gap,
        }),
        TailFault::Pace { symbols } => Ok(NoTail::Pace {
            symbols,
            gap: profile.gap,
            step: profile.step,
            grtt: profile.grtt,
        }),
        TailFault::Flushes { count } => Ok(NoTail::Flushes {
            count,
            k: u32::from(profile.k),
        }),
        TailFault::Memory => Err(SessionFault::Memory),
    }
}

/// The word of a refusal.
fn word_of(why: NoTail) -> &'static str
    ensures { result.now ≡ word_of why }
{
    match why {
        NoTail::Waiting { .. } => "waiting",
        NoTail::NoRequest { .. } => "no-request",
        NoTail::Mode => "mode",
        NoTail::Streams { .. } => "streams",
        NoTail::Step { .. } => "step",
        NoTail::Pace { .. } => "pace",
        NoTail::Flushes { .. } => "flushes",
    }
}

/// Puts the words of the last line: how many turns tails took and might take, or `refused` and the word of the refusal.
fn put_words(line: &mut Line, turns: u64, bound: u64, why: Option<NoTail>) -> Result<(), AllocError>
    ensures { OnOk result (line.new ≡ with_words line.old (last_words turns bound why)) }
{
    match why {
        Some(why) => {
            line.word(b"refused")?;
            line.word(word_of(why).as_bytes())
        }
        None => {
            line.number(turns)?;
            line.number(bound)
        }
    }
}

/// Writes the last line of tails that took and might take so many turns, or the word of the refusal.
fn write_last<K: Sink>(
    line: &mut Line,
    turns: u64,
    bound: u64,
    why: Option<NoTail>,
    output: &mut K,
) -> Result<(), SessionFault>
    ensures written { OnOk result (K.pieces output.new ≡ gained (K.pieces output.old) (last_line turns bound why ∷ [])) }
    ensures stops { IfErr result (λ fault. IsUnwritten fault (K.pieces output.old) (K.pieces output.new) (Some (last_line turns bound why))) }
    ensures cause { WriteCause result (K.fault_count output.old) (K.fault_count output.new) }
{
    line.restart(b"tail", 0)?;
    put_words(line, turns, bound, why)?;
    line.finish()?;
    write_line(true, line, &Notice::Other, output)
}

/// How a session ends whose tails took and might take so many turns, or were refused.
fn ending_of(turns: u64, bound: u64, why: Option<NoTail>) -> Ending
    ensures { result ≡ ending_of turns bound why }
{
    match why {
        Some(why) => Ending::TailRefused { why },
        None => Ending::Tailed { turns, bound },
    }
}

// Proof: a profile's numbers are in their ranges, once one of them is read.
fn hold_range(profile: &Profile)
    ensures { InRange profile.now }
{
    let _value = profile.step;
}

impl Tails {
    /// The tails of a session whose turns ended so: none.
    fn of(paused: Paused) -> Tails
        ensures { result ≡ record { turns = 0; bound = 0; last = paused.last; draws = paused.draws; counts = paused.counts; world = paused.world } }
    {
        let Paused {
            journal: _journal,
            draws,
            whole: _whole,
            waiting: _waiting,
            turn: _turn,
            last,
            counts,
            world,
        } = paused;
        Tails {
            turns: 0,
            bound: 0,
            last,
            draws,
            counts,
            world,
        }
    }

    /// Whether the moments of another tail have 64 bits.
    // Proof: a number that is read here leaves the fields of `make` as they are.
    fn has_room(&self) -> bool
        ensures { Decides result (self.now.last ≤ 2 ^ 63) }
    {
        self.last.0 <= LAST
    }

    /// Adds a tail to the sums and to the moment. `Memory` if one does not fit 64 bits.
    fn add(&mut self, turns: u64, bound: u64, step: u32) -> Result<(), SessionFault>
        ensures added { OnOk result (self.new
            ≡ record self.old { last = self.old.last + turns * step; turns = self.old.turns + turns; bound = self.old.bound + bound }) }
        ensures cause { NeedsMemory result }
    {
        let time = turns.checked_mul(u64::from(step));
        let Some(time) = time else {
            return Err(SessionFault::Memory);
        };
        let Some(last) = self.last.0.checked_add(time) else {
            return Err(SessionFault::Memory);
        };
        let Some(turns) = self.turns.checked_add(turns) else {
            return Err(SessionFault::Memory);
        };
        let Some(bound) = self.bound.checked_add(bound) else {
            return Err(SessionFault::Memory);
        };
        self.last = Moment(last);
        self.turns = turns;
        self.bound = bound;
        Ok(())
    }

    /// Makes a tail, writes the lines of its steps and counts them. Returns why it was refused, if it was. Then nothing was done.
    ///
    /// # Errors
    ///
    /// `Write` if a write failed, or `Memory`.
    fn make<K: Sink>(
        &mut self,
        alloc: Global,
        profile: &Profile,
        turn: u32,
        line: &mut Line,
        output: &mut K,
    ) -> Result<Option<NoTail>, SessionFault>
        requires { MayGoOn profile.now self.old.world }
        ensures may { OnOk result (MayGoOn profile.now self.new.world) }
        ensures leads { IfOk result (λ why. LeadsOn (λ t. refused_after profile.now turn (tail_once profile.now t)) self.old self.new
            (K.pieces output.old) (K.pieces output.new) why) }
        ensures stops { IfErr result (λ fault. StopsOn (λ t. refused_after profile.now turn (tail_once profile.now t)) fault self.old
            (K.pieces output.old) (K.pieces output.new)) }
        ensures cause { WriteCause result (K.fault_count output.old) (K.fault_count output.new) }
    {
        if !self.has_room() {
            return Err(SessionFault::Memory);
        }
        // Proof: with the clause of the law, and a profile that is in its ranges, `run_tail` may be called.
        hold_range(profile);
        tails_fit();
        let end = match run_tail(alloc, &mut self.world, profile, self.last, &mut self.draws) {
            Ok(end) => end,
            Err(fault) => return Ok(Some(refusal(profile, turn, fault)?)),
        };
        self.add(end.turns, end.bound, profile.step)?;
        count_steps(&mut self.counts, &end.steps)?;
        write_steps(alloc, line, self.world.sender(), &end.steps, output)?;
        Ok(None)
    }

    /// Makes tails while a watermark is open, at most as many as were open. Returns why one was refused, if it was.
    ///
    /// # Errors
    ///
    /// `Write` if a write failed, or `Memory`.
    fn make_all<K: Sink>(
        &mut self,
        alloc: Global,
        profile: &Profile,
        turn: u32,
        line: &mut Line,
        output: &mut K,
    ) -> Result<Option<NoTail>, SessionFault>
        requires { MayGoOn profile.now self.old.world }
        ensures leads { IfOk result (λ why. LeadsOn (λ t. refused_after profile.now turn (tails_of profile.now t)) self.old self.new
            (K.pieces output.old) (K.pieces output.new) why) }
        ensures stops { IfErr result (λ fault. StopsOn (λ t. refused_after profile.now turn (tails_of profile.now t)) fault self.old
            (K.pieces output.old) (K.pieces output.new)) }
        ensures cause { WriteCause result (K.fault_count output.old) (K.fault_count output.new) }
    {
        for _ in 0..self.world.sender().open_requests() {
            if !has_open(&self.world) {
                return Ok(None);
            }
            if let Some(why) = self.make(alloc, profile, turn, line, output)? {
                return Ok(Some(why));
            }
        }
        Ok(None)
    }

    /// Makes the tails of a session that is not whole. Returns why there are none, or no further one, if there is a reason.
    ///
    /// # Errors
    ///
    /// `Write` if a write failed, or `Memory`.
    fn go_on<K: Sink>(
        &mut self,
        alloc: Global,
        profile: &Profile,
        turned: Turned,
        line: &mut Line,
        output: &mut K,
    ) -> Result<Option<NoTail>, SessionFault>
        requires { MayGoOn profile.now self.old.world }
        ensures leads { IfOk result (λ why. (j : Judged) (unwritten : Pieces) → IsTurned turned j
            → AreMade self.old (no_tails j) unwritten (K.pieces output.old)
            → AreMade self.new (going_on profile.now j).0 unwritten (K.pieces output.new) × (why ≡ (going_on profile.now j).1)) }
        ensures stops { IfErr result (λ fault. (j : Judged) (unwritten : Pieces) → IsTurned turned j
            → AreMade self.old (no_tails j) unwritten (K.pieces output.old)
            → LeavesLines fault unwritten (K.pieces output.new) (going_on profile.now j).0.lines) }
        ensures cause { WriteCause result (K.fault_count output.old) (K.fault_count output.new) }
    {
        let turn = turned.turn;
        if turned.waiting {
            return Ok(Some(NoTail::Waiting { turn }));
        }
        if !has_open(&self.world) {
            return Ok(Some(NoTail::NoRequest { turn }));
        }
        self.make_all(alloc, profile, turn, line, output)
    }

    /// Makes the tails, and writes the summary and the last line. If the session is whole, writes the summary alone.
    ///
    /// # Errors
    ///
    /// `Write` if a write failed, or `Memory`.
    fn run<K: Sink>(
        &mut self,
        alloc: Global,
        profile: &Profile,
        turned: Turned,
        output: &mut K,
    ) -> Result<Ending, SessionFault>
        requires { MayGoOn profile.now self.old.world }
        ensures goes { IfOk result (λ ending. (j : Judged) → IsTurned turned j
            → AreMade self.old (no_tails j) (K.pieces output.old) (K.pieces output.old)
            → (ending ≡ ending_after profile.now j) × (K.pieces output.new ≡ gained (K.pieces output.old) (lines_after profile.now j))) }
        ensures stops { IfErr result (λ fault. (j : Judged) → IsTurned turned j
            → AreMade self.old (no_tails j) (K.pieces output.old) (K.pieces output.old)
            → LeavesLines fault (K.pieces output.old) (K.pieces output.new) (lines_after profile.now j)) }
        ensures cause { WriteCause result (K.fault_count output.old) (K.fault_count output.new) }
    {
        let mut line = Line::new(alloc);
        if turned.whole {
            write_end(&mut line, &self.counts, output)?;
            return Ok(Ending::Done);
        }
        let why = self.go_on(alloc, profile, turned, &mut line, output)?;
        write_end(&mut line, &self.counts, output)?;
        write_last(&mut line, self.turns, self.bound, why, output)?;
        Ok(ending_of(self.turns, self.bound, why))
    }
}

/// How the turns of a session ended.
fn end_of_turns(paused: &Paused) -> Turned
    ensures { (j : Judged) → IsReadOff j paused.now → IsTurned result j }
{
    Turned {
        whole: paused.whole,
        waiting: paused.waiting,
        turn: paused.turn,
    }
}

/// Makes the tails of a session that stopped after its turns, and writes the summary and the last line. If it is whole, writes the summary
/// alone. Returns the ending.
pub(crate) fn end_tails<K: Sink>(
    alloc: Global,
    profile: &Profile,
    paused: Paused,
    output: &mut K,
) -> Ending
    requires { MayGoOn profile.now paused.world }
    ensures { (j : Judged) → IsReadOff j paused → StandsFor paused.world j.world → IsTailsEnding result profile.now j
        (K.pieces output.old) (K.pieces output.new) (K.fault_count output.old) (K.fault_count output.new) }
{
    let turned = end_of_turns(&paused);
    let mut tails = Tails::of(paused);
    match tails.run(alloc, profile, turned, output) {
        Ok(ending) => ending,
        Err(fault) => stop_session(alloc, fault, output),
    }
}
