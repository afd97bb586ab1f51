//! The receivers of several senders, driven by the lines of the input, and what is printed of them. `gather_run` calls [`Gathering::begin`] and
//! [`Gathering::take_lines`].

ghost use Rattle.std.specs.Prelude.{◌≡◌, ◌+◌, ◌≤◌, ℕ, List, length, IfOk, IfErr, IfSome, OnOk, IsSome};
ghost use Rattle.std.specs.List.{flat_map};
ghost use Rattle.norm_journal.specs.Totals.{with_up};
ghost use Rattle.norm_multi.specs.Beginning.{IsFault};
ghost use Rattle.norm_multi.specs.Calls.{member_of};
ghost use Rattle.norm_multi.specs.MultiMoves.{AreTaken};
ghost use Rattle.norm_script.specs.Text.{text_lines};
ghost use Rattle.norm_turns.specs.Causes.{WriteCause, NeedsMemory};
ghost use Rattle.driven_nodes.specs.Gathered.{Hearer, SoFar, Printed, draws_of, opening, up_lines, told, gather_line, gather_lines, lines_of};
ghost use Rattle.driven_nodes.specs.Hearing.{AllAnswered, Answered, AreHeard, AreReady, Delivers, HandedAll, HandsOn, Heard, IsAt, IsReady, KeepsOthers, StandsFor, TakesLine, TickedAt};
ghost use Rattle.driven_nodes.specs.Writing.{TookLines, LeavesLines};

use crate::gathered_lines::{write_last, write_of, write_send};
use crate::lines::{first_line, moment_of, next_number};
use norm_base::{Datagram, Moment, NodeId, Profile, Sent, Sink};
use norm_journal::Totals;
use norm_multi::{Multi, MultiFault};
use norm_order::Up;
use norm_show::{NoDatagram, datagram_in, why_none};
use norm_text::Line;
use norm_turns::{SessionFault, first_draws, next_draw};
use rand_pcg::Lcg64Xsh32;
use std::alloc::Global;

/// The receivers of several senders, and what the lines so far led to.
#[derive(Drop)]
pub(crate) struct Gathering {
    multi: Multi,
    /// The next draw, which is used if a datagram belongs to one of the senders.
    // It is drawn before it is known whether it is used: `deliver` takes it and says whose the datagram was.
    draw: u32,
    /// The draws after it.
    draws: Lcg64Xsh32,
    /// How many lines were not empty.
    lines: u64,
    counts: Totals,
    /// Each printed line is made in its memory.
    line: Line,
    /// What a receiver sends is written into it.
    datagram: Datagram,
}

/// The sender of a profile.
pub(crate) fn sender_of(profile: &Profile) -> NodeId
    ensures { result ≡ profile.now.sender }
{
    NodeId::of(profile.sender).unwrap()
}

/// Returns the draws as a gathering begins: those of the first profile. `None` does not happen, since the words name one at least.
fn draws_of(members: &[(Profile, NodeId)]) -> Option<Lcg64Xsh32>
    ensures { IfSome result (λ draws. draws ≡ draws_of members.now) }
{
    match members {
        [] => None,
        [first, ..] => Some(first_draws(&first.0)),
    }
}

/// Adds a hand-up to the counts. `Memory` if a count does not fit 64 bits.
fn count_up(counts: &mut Totals, up: &Up) -> Result<(), SessionFault>
    ensures counted { OnOk result (counts.new ≡ with_up up.now counts.old) }
    ensures cause { NeedsMemory result }
{
    if !counts.has_room_for_up(up) {
        return Err(SessionFault::Memory);
    }
    counts.count_up(up);
    Ok(())
}

impl Gathering {
    /// Begins to hear the senders of these profiles, each as the node beside its profile.
    ///
    /// # Errors
    ///
    /// `NotReceiver` or `SameId`, the first that applies, or `Memory`.
    pub(crate) fn begin(
        alloc: Global,
        members: &[(Profile, NodeId)],
    ) -> Result<Gathering, MultiFault>
        requires { length members.now ≤ 8 }
        ensures stands { IfOk result (λ k. StandsFor members.now k (opening members.now)) }
        ensures fault { IfErr result (λ why. IsFault why members.now) }
    {
        let Some(mut draws) = draws_of(members) else {
            return Err(MultiFault::Memory);
        };
        let draw = next_draw(&mut draws);
        let datagram = Datagram::new(alloc)?;
        // Proof: the largest part last, so that no exit drops it.
        let multi = Multi::new(alloc, members)?;
        Ok(Gathering {
            multi,
            draw,
            draws,
            lines: 0,
            counts: Totals::new(),
            line: Line::new(alloc),
            datagram,
        })
    }

    /// Takes the next hand-up of a sender's receiver, counts it and writes its line. Does nothing if none is left.
    fn hand_up<K: Sink>(
        &mut self,
        sender: NodeId,
        node: NodeId,
        output: &mut K,
    ) -> Result<(), SessionFault>
        requires { IsSome (member_of self.old.multi sender) }
        ensures goes { OnOk result (HandsOn sender node self.old self.new (K.pieces output.old) (K.pieces output.new)) }
        ensures keeps { OnOk result (KeepsOthers sender self.old self.new) }
        ensures stops { IfErr result (λ fault. (h : Hearer) → IsAt sender node self.old.multi h
            → LeavesLines fault (K.pieces output.old) (K.pieces output.new) (up_lines h)) }
        ensures cause { WriteCause result (K.fault_count output.old) (K.fault_count output.new) }
    {
        let within = self.multi.receiver(sender).instance();
        let Some(up) = self.multi.take_up(sender) else {
            return Ok(());
        };
        // A receiver that hands something up is in an instance.
        let Some(instance) = within else {
            return Err(SessionFault::Memory);
        };
        count_up(&mut self.counts, &up)?;
        write_of(&mut self.line, sender, node, instance, &up, output)
    }

    /// Takes all hand-ups of a sender's receiver, counts them and writes their lines.
    fn hand_all<K: Sink>(
        &mut self,
        sender: NodeId,
        node: NodeId,
        output: &mut K,
    ) -> Result<(), SessionFault>
        requires { IsSome (member_of self.old.multi sender) }
        ensures goes { OnOk result ((h : Hearer) → IsAt sender node self.old.multi h
            → HandedAll sender node h self.old self.new (K.pieces output.old) (K.pieces output.new)) }
        ensures taken { OnOk result (AreTaken (member_of self.new.multi sender)) }
        ensures keeps { OnOk result (KeepsOthers sender self.old self.new) }
        ensures stops { IfErr result (λ fault. (h : Hearer) → IsAt sender node self.old.multi h
            → LeavesLines fault (K.pieces output.old) (K.pieces output.new) (up_lines h)) }
        ensures cause { WriteCause result (K.fault_count output.old) (K.fault_count output.new) }
    {
        for _ in 0..self.multi.receiver(sender).ups() {
            self.hand_up(sender, node, output)?;
        }
        // Never taken: the loop handed up as many as there were.
        if self.multi.receiver(sender).ups() > 0 {
            return Err(SessionFault::Memory);
        }
        Ok(())
    }

    /// Ticks a sender's receiver. If it has a datagram to send, that is in `datagram` afterwards.
    fn tick(&mut self, sender: NodeId, now: Moment) -> Sent
        requires there { IsSome (member_of self.old.multi sender) }
        requires taken { AreTaken (member_of self.old.multi sender) }
        ensures goes { (node : ℕ) (h : Hearer) → IsAt sender node self.old.multi h → TickedAt sender node now h result self.old self.new }
        ensures keeps { KeepsOthers sender self.old self.new }
    {
        self.multi.tick(sender, now, &mut self.datagram)
    }

    /// Takes all hand-ups of a sender's receiver and ticks it, and writes the lines of what it handed up and of what it sends. The tick is last,
    /// because an acknowledgement may leave only after the user has what it confirms.
    fn answer<K: Sink>(
        &mut self,
        sender: NodeId,
        node: NodeId,
        now: Moment,
        output: &mut K,
    ) -> Result<(), SessionFault>
        requires { IsSome (member_of self.old.multi sender) }
        ensures goes { OnOk result ((h : Hearer) → IsAt sender node self.old.multi h
            → Answered sender node now h self.old self.new (K.pieces output.old) (K.pieces output.new)) }
        ensures keeps { OnOk result (KeepsOthers sender self.old self.new) }
        ensures stops { IfErr result (λ fault. (h : Hearer) → IsAt sender node self.old.multi h
            → LeavesLines fault (K.pieces output.old) (K.pieces output.new) (told now h)) }
        ensures cause { WriteCause result (K.fault_count output.old) (K.fault_count output.new) }
    {
        self.hand_all(sender, node, output)?;
        match self.tick(sender, now) {
            Sent::Nothing => Ok(()),
            Sent::Datagram => { write_send(&mut self.line, sender, self.datagram.bytes(), output) }
        }
    }

    /// Does so for each sender in the order of the words.
    fn answer_all<K: Sink>(
        &mut self,
        members: &[(Profile, NodeId)],
        now: Moment,
        output: &mut K,
    ) -> Result<(), SessionFault>
        requires { AreReady members.now self.old.multi }
        ensures goes { OnOk result ((hearers : List Hearer) → AreHeard members.now self.old.multi hearers
            → AllAnswered members.now now hearers self.old self.new (K.pieces output.old) (K.pieces output.new)) }
        ensures stops { IfErr result (λ fault. (hearers : List Hearer) → AreHeard members.now self.old.multi hearers
            → LeavesLines fault (K.pieces output.old) (K.pieces output.new) (flat_map (told now) hearers)) }
        ensures cause { WriteCause result (K.fault_count output.old) (K.fault_count output.new) }
    {
        for member in members {
            self.answer(sender_of(&member.0), member.1, now, output)?;
        }
        Ok(())
    }

    /// Delivers a datagram. Uses a draw exactly if it belongs to one of the senders.
    fn deliver(&mut self, octets: &[u8], now: Moment) -> Result<(), SessionFault>
        ensures goes { OnOk result (Delivers octets.now now self.old self.new) }
        ensures cause { NeedsMemory result }
    {
        let owner = self.multi.deliver(octets, now, self.draw)?;
        // Proof: a return in place of a branch, so that each way has its own facts.
        if !owner.is_some() {
            return Ok(());
        }
        self.draw = next_draw(&mut self.draws);
        Ok(())
    }

    /// Counts a line that is not empty. `Memory` if the count does not fit 64 bits.
    fn count_line(&mut self) -> Result<(), SessionFault>
        ensures counted { OnOk result (self.new ≡ record self.old { lines = self.old.lines + 1 }) }
        ensures cause { NeedsMemory result }
    {
        let Some(lines) = self.lines.checked_add(1) else {
            return Err(SessionFault::Memory);
        };
        self.lines = lines;
        Ok(())
    }

    /// Delivers the datagram of a line at its moment. Then takes the hand-ups of each sender's receiver and ticks it, whoever the datagram
    /// belonged to.
    fn hear<K: Sink>(
        &mut self,
        members: &[(Profile, NodeId)],
        octets: &[u8],
        now: Moment,
        output: &mut K,
    ) -> Result<(), SessionFault>
        requires { IsReady members.now self.old }
        ensures goes { OnOk result ((g : SoFar) → StandsFor members.now self.old g
            → Heard members.now now octets.now g self.new (K.pieces output.old) (K.pieces output.new)) }
        ensures stops { IfErr result (λ fault. (g : SoFar) → StandsFor members.now self.old g
            → LeavesLines fault (K.pieces output.old) (K.pieces output.new) (lines_of now octets.now g)) }
        ensures cause { WriteCause result (K.fault_count output.old) (K.fault_count output.new) }
    {
        self.deliver(octets, now)?;
        self.count_line()?;
        self.answer_all(members, now, output)
    }

    /// Takes line `number`, counted from 1. Returns why it spells no datagram, if it spells none; then nothing was done. An empty line does nothing
    /// but that its moment passes.
    fn take_line<K: Sink>(
        &mut self,
        alloc: Global,
        members: &[(Profile, NodeId)],
        number: u64,
        line: &[u8],
        output: &mut K,
    ) -> Result<Option<NoDatagram>, SessionFault>
        requires { IsReady members.now self.old }
        ensures goes { IfOk result (λ why. (g : SoFar) → StandsFor members.now self.old g
            → TakesLine members.now number line.now g self.new (K.pieces output.old) (K.pieces output.new) why) }
        ensures ready { OnOk result (IsReady members.now self.new) }
        ensures stops { IfErr result (λ fault. (g : SoFar) (rest : SoFar → Printed) → StandsFor members.now self.old g
            → LeavesLines fault (K.pieces output.old) (K.pieces output.new) (gather_line number line.now g rest).lines) }
        ensures cause { WriteCause result (K.fault_count output.old) (K.fault_count output.new) }
    {
        if line.is_empty() {
            return Ok(None);
        }
        let Some(datagram) = datagram_in(alloc, line)? else {
            return Ok(Some(why_none(line)));
        };
        self.hear(members, datagram.bytes(), moment_of(number), output)?;
        Ok(None)
    }

    /// Takes the lines of a text, and writes the last line. If a line spells no datagram, returns its number and why, and takes no further one.
    pub(crate) fn take_lines<K: Sink>(
        &mut self,
        alloc: Global,
        members: &[(Profile, NodeId)],
        text: &[u8],
        output: &mut K,
    ) -> Result<Option<(u64, NoDatagram)>, SessionFault>
        requires { IsReady members.now self.old }
        ensures goes { IfOk result (λ stop. (g : SoFar) → StandsFor members.now self.old g
            → TookLines (gather_lines 1 (text_lines text.now) g) (K.pieces output.old) (K.pieces output.new) stop) }
        ensures stops { IfErr result (λ fault. (g : SoFar) → StandsFor members.now self.old g
            → LeavesLines fault (K.pieces output.old) (K.pieces output.new) (gather_lines 1 (text_lines text.now) g).lines) }
        ensures cause { WriteCause result (K.fault_count output.old) (K.fault_count output.new) }
    {
        let mut rest = text;
        let mut number = 1u64;
        // Proof: the label names the loop for its invariant.
        'lines: while !rest.is_empty() {
            let (line, more) = first_line(rest);
            if let Some(why) = self.take_line(alloc, members, number, line, output)? {
                return Ok(Some((number, why)));
            }
            rest = more;
            number = next_number(number)?;
        }
        write_last(&mut self.line, self.lines, self.counts.handed, output)?;
        Ok(None)
    }
}
