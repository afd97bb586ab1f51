//! A relay that the lines of the input drive, and what is printed of it. `relay_run` calls
//! [`Chain::begin`] and [`Chain::take_lines`].

ghost use Rattle.std.specs.Prelude.{◌≡◌, ◌+◌, [], ◌∷◌, true, fold, Some, IfOk, IfErr, OnOk};
ghost use Rattle.std.specs.Option.{option_map};
ghost use Rattle.norm_base.specs.Datagrams.{datagram_of};
ghost use Rattle.norm_base.specs.Told.{Pieces, gained};
ghost use Rattle.norm_relay.specs.RelayMoves.{IsRefusal};
ghost use Rattle.norm_relay.specs.RelayKept.{StandsFor as RelayStands};
ghost use Rattle.norm_relay.specs.RelayState.{Relaying, can_relay, upper_instance};
ghost use Rattle.norm_script.specs.Text.{text_lines};
ghost use Rattle.norm_turns.specs.Causes.{WriteCause, NeedsMemory};
ghost use Rattle.norm_turns.specs.Printing.{IsUnwritten};
ghost use Rattle.relay_words.specs.declared.ends.RelayEnd.TheVariants as stop;
ghost use Rattle.driven_nodes.specs.Chaining.{Breaks, Does, DoesUnless, Halts, HearsAbove, IsRefusalOf, StandsFor, TicksAbove, TicksBelow, Tells, with_waiting};
ghost use Rattle.driven_nodes.specs.Relayed.{acks_in, answers, answers_below, busy_line, followed, hears_down, hears_up, is_ack, last_line, losses_of, opening, pumps, sent_line, takes_event, takes_line, takes_lines, takes_one, ticks_down, ticks_up, with_loss};

use crate::lines::{first_line, moment_of, next_number};
use norm_base::{Datagram, InstanceId, Moment, NodeId, Notice, Profile, Sent, Sink};
use norm_ext::MessageType;
use norm_relay::{Relay, RelayFault, Waiting};
use norm_send_rules::SendFault;
use norm_text::Line;
use norm_turns::{SessionFault, first_draws, next_draw, write_line};
use rand_pcg::Lcg64Xsh32;
use relay_words::{LineEvent, Losses, RelayEnd, event_in, why_no_event};
use std::alloc::{AllocError, Global};

/// The type of a message is this remainder of its first octet.
// RFC 5740 section 4.1: the version is in the high four bits, the type in the low ones.
const TYPES: u8 = 16;

/// A relay, and what the lines so far led to.
#[derive(Drop)]
pub(crate) struct Chain {
    relay: Relay,
    /// The next draw, which is used if a datagram from above is taken.
    // It is drawn before it is known whether it is used: `deliver_up` takes it and says whether the datagram was taken.
    draw: u32,
    /// The draws after it.
    draws: Lcg64Xsh32,
    lines: u64,
    /// How many hand-ups became jobs of the session below.
    enqueued: u64,
    /// How many acknowledgements were sent above.
    acknowledged: u64,
    lost: Losses,
    /// Each printed line is made in its memory.
    line: Line,
    /// What the relay sends is written into it.
    datagram: Datagram,
}

/// Makes the line of a datagram that is sent to this side.
fn put_sent(line: &mut Line, side: &[u8], octets: &[u8]) -> Result<(), AllocError>
    ensures { OnOk result (line.new ≡ sent_line side.now octets.now) }
{
    line.restart(side, octets.len())?;
    line.contents(octets)?;
    line.finish()
}

fn put_busy(line: &mut Line) -> Result<(), AllocError>
    ensures { OnOk result (line.new ≡ busy_line) }
{
    line.restart(b"busy", 0)?;
    line.finish()
}

fn put_last(line: &mut Line, lines: u64, enqueued: u64, acknowledged: u64) -> Result<(), AllocError>
    ensures { OnOk result (line.new ≡ last_line lines enqueued acknowledged) }
{
    line.restart(b"end", 0)?;
    line.word(b"lines")?;
    line.number(lines)?;
    line.word(b"enqueued")?;
    line.number(enqueued)?;
    line.word(b"acknowledged")?;
    line.number(acknowledged)?;
    line.finish()
}

/// Writes the line of a datagram that is sent to this side. No sink counts what `relay` prints.
fn write_sent<K: Sink>(
    line: &mut Line,
    side: &[u8],
    octets: &[u8],
    output: &mut K,
) -> Result<(), SessionFault>
    ensures written { OnOk result (K.pieces output.new ≡ gained (K.pieces output.old) (sent_line side.now octets.now ∷ [])) }
    ensures stops { IfErr result (λ fault. IsUnwritten fault (K.pieces output.old) (K.pieces output.new) (Some (sent_line side.now octets.now))) }
    ensures cause { WriteCause result (K.fault_count output.old) (K.fault_count output.new) }
{
    put_sent(line, side, octets)?;
    write_line(true, line, &Notice::Other, output)
}

/// Writes that a datagram from above was not taken.
fn write_busy<K: Sink>(line: &mut Line, output: &mut K) -> Result<(), SessionFault>
    ensures written { OnOk result (K.pieces output.new ≡ gained (K.pieces output.old) (busy_line ∷ [])) }
    ensures stops { IfErr result (λ fault. IsUnwritten fault (K.pieces output.old) (K.pieces output.new) (Some (busy_line))) }
    ensures cause { WriteCause result (K.fault_count output.old) (K.fault_count output.new) }
{
    put_busy(line)?;
    write_line(true, line, &Notice::Other, output)
}

/// Writes the last line.
fn write_last<K: Sink>(
    line: &mut Line,
    lines: u64,
    enqueued: u64,
    acknowledged: u64,
    output: &mut K,
) -> Result<(), SessionFault>
    ensures written { OnOk result (K.pieces output.new ≡ gained (K.pieces output.old) (last_line lines enqueued acknowledged ∷ [])) }
    ensures stops { IfErr result (λ fault. IsUnwritten fault (K.pieces output.old) (K.pieces output.new) (Some (last_line lines enqueued acknowledged))) }
    ensures cause { WriteCause result (K.fault_count output.old) (K.fault_count output.new) }
{
    put_last(line, lines, enqueued, acknowledged)?;
    write_line(true, line, &Notice::Other, output)
}

/// Adds to a count. `Memory` if the sum does not fit 64 bits: the counts are exact, so the run ends then.
fn sum(count: u64, more: u64) -> Result<u64, SessionFault>
    ensures sum { IfOk result (λ sum. sum ≡ count + more) }
    ensures cause { NeedsMemory result }
{
    match count.checked_add(more) {
        Some(sum) => Ok(sum),
        None => Err(SessionFault::Memory),
    }
}

fn wide(count: u32) -> u64
    ensures { result ≡ count }
{
    u64::from(count)
}

/// Whether a datagram is an acknowledgement, by its type.
fn is_ack(octets: &[u8]) -> bool
    ensures { result ≡ is_ack octets.now }
{
    match octets {
        [] => false,
        [first, ..] => *first % TYPES == MessageType::Ack.number(),
    }
}

fn with_loss(lost: Losses, instance: InstanceId, index: u32) -> Result<Losses, SessionFault>
    ensures loss { IfOk result (λ now. now ≡ with_loss instance index lost) }
    ensures cause { NeedsMemory result }
{
    if lost.count == 0 {
        return Ok(Losses {
            count: 1,
            instance,
            index,
        });
    }
    let count = sum(lost.count, 1)?;
    Ok(Losses { count, ..lost })
}

fn with_waiting(
    lost: Losses,
    instance: InstanceId,
    waiting: &Waiting,
) -> Result<Losses, SessionFault>
    ensures loss { IfOk result (λ now. now ≡ with_waiting instance lost waiting.now) }
    ensures cause { NeedsMemory result }
{
    match waiting {
        Waiting::Lost { index } => with_loss(lost, instance, *index),
        Waiting::Given(_) => Ok(lost),
    }
}

/// Adds the losses among these.
fn with_all(lost: Losses, instance: InstanceId, waiting: &[Waiting]) -> Result<Losses, SessionFault>
    ensures losses { IfOk result (λ now. now ≡ fold (with_waiting instance) lost waiting.now) }
    ensures cause { NeedsMemory result }
{
    let mut lost = lost;
    for first in waiting {
        lost = with_waiting(lost, instance, first)?;
    }
    Ok(lost)
}

/// Adds the losses among what the relay was just handed up.
fn losses_of(relay: &Relay, lost: Losses) -> Result<Losses, SessionFault>
    ensures losses { IfOk result (λ now. (x : Relaying) → RelayStands relay.now x → now ≡ losses_of (upper_instance x) x.waiting lost) }
    ensures cause { NeedsMemory result }
{
    let Some(instance) = relay.instance() else {
        return Ok(lost);
    };
    let slices = relay.waiting().as_slices();
    let first = with_all(lost, instance, slices.0)?;
    with_all(first, instance, slices.1)
}

/// Asks for all news of the members below, which nobody prints. The sender below keeps them until they are asked for.
fn tell_all(relay: &mut Relay)
    ensures { Tells relay.old relay.new }
{
    // The number is known before, so that the loop has a bound: telling makes no further news.
    for _ in 0..relay.untold() {
        relay.news();
    }
}

/// How many acknowledgements a tick gave, one or none.
fn acks_in(sent: Sent, datagram: &Datagram) -> u64
    ensures { result ≡ acks_in (datagram_of sent datagram.now) }
{
    match sent {
        Sent::Nothing => 0,
        Sent::Datagram => {
            if is_ack(datagram.bytes()) {
                return 1;
            }
            0
        }
    }
}

/// Returns why the session below refused a job for good. `Memory` if it was want of memory.
fn refusal_of(why: RelayFault) -> Result<Option<SendFault>, SessionFault>
    ensures fault { IfOk result (IsRefusalOf why) }
    ensures cause { NeedsMemory result }
{
    match why {
        RelayFault::Refused(fault) => Ok(Some(fault)),
        // `Profiles` is no error of a pump.
        RelayFault::Profiles => Err(SessionFault::Memory),
        RelayFault::Memory => Err(SessionFault::Memory),
    }
}

fn end_of(refused: Option<SendFault>) -> Option<RelayEnd>
    ensures { result ≡ option_map stop.Refused refused }
{
    let fault = refused?;
    Some(RelayEnd::Refused { fault })
}

impl Chain {
    /// Begins to relay between these sessions, as this node of the one above.
    ///
    /// # Errors
    ///
    /// `Profiles` if they cannot be relayed, or `Memory`.
    pub(crate) fn begin(
        alloc: Global,
        up: &Profile,
        node: NodeId,
        down: &Profile,
    ) -> Result<Chain, RelayFault>
        ensures stands { IfOk result (λ k. StandsFor k (opening up.now node down.now)) }
        ensures fits { IfOk result (λ _. can_relay up.now node down.now ≡ true) }
        ensures fault { IfErr result (λ why. IsRefusal why (can_relay up.now node down.now)) }
    {
        let mut draws = first_draws(up);
        let draw = next_draw(&mut draws);
        let datagram = match Datagram::new(alloc) {
            Ok(datagram) => datagram,
            Err(_) => return Err(RelayFault::Memory),
        };
        // Proof: the largest part last, so that no exit drops it.
        let relay = Relay::new(alloc, up, node, down)?;
        Ok(Chain {
            relay,
            draw,
            draws,
            lines: 0,
            enqueued: 0,
            acknowledged: 0,
            lost: Losses {
                count: 0,
                instance: InstanceId(0),
                index: 0,
            },
            line: Line::new(alloc),
            datagram,
        })
    }

    /// Delivers a datagram from above. Uses a draw exactly if it was taken. Returns whether it was.
    fn deliver_up(&mut self, octets: &[u8], now: Moment) -> Result<bool, SessionFault>
        ensures goes { IfOk result (λ taken. HearsAbove octets.now now taken self.old self.new) }
        ensures cause { NeedsMemory result }
    {
        let taken = match self.relay.deliver_up(octets, now, self.draw) {
            Ok(taken) => taken,
            // It returns no other error than want of memory.
            Err(_) => return Err(SessionFault::Memory),
        };
        // Proof: a return in place of a branch, so that each way has its own facts.
        if !taken {
            return Ok(false);
        }
        self.draw = next_draw(&mut self.draws);
        let lost = losses_of(&self.relay, self.lost)?;
        self.lost = lost;
        Ok(true)
    }

    /// Delivers a datagram from above. If it was not taken, writes `busy`.
    fn hear_up<K: Sink>(
        &mut self,
        octets: &[u8],
        now: Moment,
        output: &mut K,
    ) -> Result<(), SessionFault>
        ensures goes { OnOk result (Does (hears_up octets.now now) self.old self.new (K.pieces output.old) (K.pieces output.new)) }
        ensures stops { IfErr result (λ fault. Breaks (hears_up octets.now now) fault self.old (K.pieces output.old) (K.pieces output.new)) }
        ensures cause { WriteCause result (K.fault_count output.old) (K.fault_count output.new) }
    {
        let taken = self.deliver_up(octets, now)?;
        if taken {
            return Ok(());
        }
        write_busy(&mut self.line, output)
    }

    fn hear_down(&mut self, octets: &[u8], now: Moment)
        ensures { (u : Pieces) → Does (hears_down octets.now now) self.old self.new u u }
    {
        self.relay.deliver_down(octets, now);
        tell_all(&mut self.relay);
    }

    /// Ticks above, and counts the datagram if it is an acknowledgement.
    fn tick_above(&mut self, now: Moment) -> Result<Sent, SessionFault>
        ensures goes { IfOk result (λ sent. TicksAbove now sent self.old self.new) }
        ensures cause { NeedsMemory result }
    {
        let sent = self.relay.tick_up(now, &mut self.datagram);
        let acknowledged = sum(self.acknowledged, acks_in(sent, &self.datagram))?;
        self.acknowledged = acknowledged;
        Ok(sent)
    }

    /// Ticks above, and writes the line of the datagram, if there is one.
    fn tick_up<K: Sink>(&mut self, now: Moment, output: &mut K) -> Result<(), SessionFault>
        ensures goes { OnOk result (Does (ticks_up now) self.old self.new (K.pieces output.old) (K.pieces output.new)) }
        ensures stops { IfErr result (λ fault. Breaks (ticks_up now) fault self.old (K.pieces output.old) (K.pieces output.new)) }
        ensures cause { WriteCause result (K.fault_count output.old) (K.fault_count output.new) }
    {
        let sent = self.tick_above(now)?;
        match sent {
            Sent::Nothing => Ok(()),
            Sent::Datagram => { write_sent(&mut self.line, b"up", self.datagram.bytes(), output) }
        }
    }

    /// Ticks below.
    fn tick_below(&mut self, now: Moment) -> Sent
        ensures { TicksBelow now result self.old self.new }
    {
        let sent = self.relay.tick_down(now, &mut self.datagram);
        tell_all(&mut self.relay);
        sent
    }

    /// Ticks below, and writes the line of the datagram, if there is one.
    fn tick_down<K: Sink>(&mut self, now: Moment, output: &mut K) -> Result<(), SessionFault>
        ensures goes { OnOk result (Does (ticks_down now) self.old self.new (K.pieces output.old) (K.pieces output.new)) }
        ensures stops { IfErr result (λ fault. Breaks (ticks_down now) fault self.old (K.pieces output.old) (K.pieces output.new)) }
        ensures cause { WriteCause result (K.fault_count output.old) (K.fault_count output.new) }
    {
        match self.tick_below(now) {
            Sent::Nothing => Ok(()),
            Sent::Datagram => { write_sent(&mut self.line, b"down", self.datagram.bytes(), output) }
        }
    }

    /// Pumps. Returns why the session below refused a job for good, if it did.
    fn pump(&mut self, now: Moment) -> Result<Option<SendFault>, SessionFault>
        ensures goes { IfOk result (λ refused. (u : Pieces) → DoesUnless (pumps now) (option_map stop.Refused refused) self.old self.new u u) }
        ensures cause { NeedsMemory result }
    {
        let count = match self.relay.pump(now) {
            Ok(count) => count,
            Err(why) => return refusal_of(why),
        };
        let enqueued = sum(self.enqueued, wide(count))?;
        self.enqueued = enqueued;
        tell_all(&mut self.relay);
        Ok(None)
    }

    /// Pumps, and then ticks below. Returns why the session below refused a job for good, if it did; then it does not tick.
    fn answer_below<K: Sink>(
        &mut self,
        now: Moment,
        output: &mut K,
    ) -> Result<Option<SendFault>, SessionFault>
        ensures goes { IfOk result (λ refused. DoesUnless (answers_below now) (option_map stop.Refused refused) self.old self.new
            (K.pieces output.old) (K.pieces output.new)) }
        ensures stops { IfErr result (λ fault. Breaks (answers_below now) fault self.old (K.pieces output.old) (K.pieces output.new)) }
        ensures cause { WriteCause result (K.fault_count output.old) (K.fault_count output.new) }
    {
        if let Some(fault) = self.pump(now)? {
            return Ok(Some(fault));
        }
        self.tick_down(now, output)?;
        Ok(None)
    }

    /// Ticks above, pumps and ticks below, as after each event.
    // In this order, so that an acknowledgement is never sent in the moment in which its watermark was made.
    fn answer<K: Sink>(
        &mut self,
        now: Moment,
        output: &mut K,
    ) -> Result<Option<SendFault>, SessionFault>
        ensures goes { IfOk result (λ refused. DoesUnless (answers now) (option_map stop.Refused refused) self.old self.new
            (K.pieces output.old) (K.pieces output.new)) }
        ensures stops { IfErr result (λ fault. Breaks (answers now) fault self.old (K.pieces output.old) (K.pieces output.new)) }
        ensures cause { WriteCause result (K.fault_count output.old) (K.fault_count output.new) }
    {
        self.tick_up(now, output)?;
        self.answer_below(now, output)
    }

    /// Delivers a datagram from above, and answers.
    fn take_up<K: Sink>(
        &mut self,
        octets: &[u8],
        now: Moment,
        output: &mut K,
    ) -> Result<Option<SendFault>, SessionFault>
        ensures goes { IfOk result (λ refused. DoesUnless (followed (hears_up octets.now now) (answers now)) (option_map stop.Refused refused)
            self.old self.new (K.pieces output.old) (K.pieces output.new)) }
        ensures stops { IfErr result (λ fault. Breaks (followed (hears_up octets.now now) (answers now)) fault self.old
            (K.pieces output.old) (K.pieces output.new)) }
        ensures cause { WriteCause result (K.fault_count output.old) (K.fault_count output.new) }
    {
        self.hear_up(octets, now, output)?;
        self.answer(now, output)
    }

    /// Delivers a datagram from below, and answers.
    fn take_down<K: Sink>(
        &mut self,
        octets: &[u8],
        now: Moment,
        output: &mut K,
    ) -> Result<Option<SendFault>, SessionFault>
        ensures goes { IfOk result (λ refused. DoesUnless (followed (hears_down octets.now now) (answers now)) (option_map stop.Refused refused)
            self.old self.new (K.pieces output.old) (K.pieces output.new)) }
        ensures stops { IfErr result (λ fault. Breaks (followed (hears_down octets.now now) (answers now)) fault self.old
            (K.pieces output.old) (K.pieces output.new)) }
        ensures cause { WriteCause result (K.fault_count output.old) (K.fault_count output.new) }
    {
        self.hear_down(octets, now);
        self.answer(now, output)
    }

    /// Does what the event of a line says. Returns why the session below refused a job for good, if it did.
    fn take_event<K: Sink>(
        &mut self,
        event: LineEvent,
        now: Moment,
        output: &mut K,
    ) -> Result<Option<SendFault>, SessionFault>
        ensures goes { IfOk result (λ refused. DoesUnless (takes_event event now) (option_map stop.Refused refused) self.old self.new
            (K.pieces output.old) (K.pieces output.new)) }
        ensures stops { IfErr result (λ fault. Breaks (takes_event event now) fault self.old (K.pieces output.old) (K.pieces output.new)) }
        ensures cause { WriteCause result (K.fault_count output.old) (K.fault_count output.new) }
    {
        match event {
            LineEvent::Up(datagram) => self.take_up(datagram.bytes(), now, output),
            LineEvent::Down(datagram) => self.take_down(datagram.bytes(), now, output),
            LineEvent::Tick => self.answer(now, output),
        }
    }

    /// Counts line `number` and does what its event says. Returns why the session below refused a job for good, if it did.
    fn count_event<K: Sink>(
        &mut self,
        event: LineEvent,
        number: u64,
        output: &mut K,
    ) -> Result<Option<SendFault>, SessionFault>
        ensures goes { IfOk result (λ refused. DoesUnless (takes_one event number) (option_map stop.Refused refused) self.old self.new
            (K.pieces output.old) (K.pieces output.new)) }
        ensures stops { IfErr result (λ fault. Breaks (takes_one event number) fault self.old (K.pieces output.old) (K.pieces output.new)) }
        ensures cause { WriteCause result (K.fault_count output.old) (K.fault_count output.new) }
    {
        let lines = sum(self.lines, 1)?;
        self.lines = lines;
        self.take_event(event, moment_of(number), output)
    }

    /// Takes line `number`, counted from 1. Returns how the run ends, if the line is no event, or if the session below refused a job for good.
    fn take_line<K: Sink>(
        &mut self,
        alloc: Global,
        number: u64,
        line: &[u8],
        output: &mut K,
    ) -> Result<Option<RelayEnd>, SessionFault>
        ensures goes { IfOk result (λ how. DoesUnless (takes_line number line.now) how self.old self.new (K.pieces output.old) (K.pieces output.new)) }
        ensures stops { IfErr result (λ fault. Breaks (takes_line number line.now) fault self.old (K.pieces output.old) (K.pieces output.new)) }
        ensures cause { WriteCause result (K.fault_count output.old) (K.fault_count output.new) }
    {
        let found = event_in(alloc, line)?;
        let Some(event) = found else {
            let why = why_no_event(line);
            return Ok(Some(RelayEnd::NoEvent { number, why }));
        };
        let refused = self.count_event(event, number, output)?;
        Ok(end_of(refused))
    }

    /// Takes the lines of a text in order, as far as they are events and no job is refused. Returns how the run ends. If all were taken, writes the
    /// last line.
    pub(crate) fn take_lines<K: Sink>(
        &mut self,
        alloc: Global,
        text: &[u8],
        output: &mut K,
    ) -> Result<RelayEnd, SessionFault>
        ensures goes { IfOk result (λ how. Halts (λ g others. takes_lines 1 (text_lines text.now) g) how self.old (K.pieces output.old) (K.pieces output.new)) }
        ensures stops { IfErr result (λ fault. Breaks (λ g others. takes_lines 1 (text_lines text.now) g) fault self.old
            (K.pieces output.old) (K.pieces output.new)) }
        ensures cause { WriteCause result (K.fault_count output.old) (K.fault_count output.new) }
    {
        let mut rest = text;
        let mut number = 1u64;
        // Proof: the label names the loop for its invariant.
        'lines: while !rest.is_empty() {
            let (line, more) = first_line(rest);
            if let Some(end) = self.take_line(alloc, number, line, output)? {
                return Ok(end);
            }
            rest = more;
            number = next_number(number)?;
        }
        write_last(
            &mut self.line,
            self.lines,
            self.enqueued,
            self.acknowledged,
            output,
        )?;
        Ok(RelayEnd::All { lost: self.lost })
    }
}
