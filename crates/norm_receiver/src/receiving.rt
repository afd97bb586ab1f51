//! What a receiver does with an INFO, DATA, flush or squelch (RFC 5740 section 5.2), after `entering` checked its instance and object id.

ghost use Rattle.std.specs.Prelude.{◌≡◌, ◌^◌, ◌<◌, ◌%◌, ◌&&◌, IfOk, OnErr, IfSome, false, length};
ghost use Rattle.fec_plan.specs.Points.{IsBlock, position, point as point_at, point_of};
ghost use Rattle.norm_ext.specs.Lists.{nodes_of};
ghost use Rattle.norm_receive_rules.specs.Holding.{Holding};
ghost use Rattle.norm_receive_rules.specs.ReceiverState.{ReceiverState};
ghost use Rattle.norm_receive_rules.specs.Fitting.{lets_put};
ghost use Rattle.norm_receive_rules.specs.HandingUp.{handed_up};
ghost use Rattle.norm_receive_rules.specs.Putting.{put_info, put_symbol};
ghost use Rattle.norm_receive_rules.specs.Seeing.{sees_block};
ghost use Rattle.norm_receive_rules.specs.Acknowledging.{acknowledges};
ghost use Rattle.norm_receive_rules.specs.Receiving.{object_held, object_received, learns};
ghost use Rattle.rx_hold.specs.EntryHold.{StandsFor as HoldStands};
ghost use Rattle.norm_receiver.specs.Receiving.{puts, place_of, object_told, flush_at, squelch_at, said_received, IsSaid};
ghost use Rattle.norm_receiver.specs.ReceiverKept.{Stands};
ghost use Rattle.norm_receiver.specs.Inside.{kept_of};

use crate::numbers::FlushPlace;
use crate::parts::Parts;
use fec_plan::{PayloadId, Position};
use norm_base::Memory;
use norm_cmdmsg::names;
use norm_ext::{Extensions, Fti, read_fti};
use norm_receive_rules::Fit;
use rx_hold::Hold;

/// What an INFO or DATA brings for its object.
#[derive(Clone, Copy, Debug)]
pub(crate) enum Brought<'a> {
    Info(&'a [u8]),
    Symbol { id: PayloadId, payload: &'a [u8] },
}

/// What an INFO, DATA, flush or squelch says of an object.
#[derive(Debug, Drop)]
pub(crate) enum Said<'a> {
    Info {
        flags: u8,
        exts: Extensions<'a>,
        info: &'a [u8],
    },
    Data {
        flags: u8,
        exts: Extensions<'a>,
        id: PayloadId,
        payload: &'a [u8],
    },
    Flush {
        id: PayloadId,
        /// Node ids, four octets each.
        nodes: &'a [u8],
    },
    Squelch {
        block: u32,
    },
}

/// Returns the position of what is brought. An INFO counts as block 0, symbol 0.
fn place_of(index: u32, brought: &Brought<'_>) -> Position
    ensures exact { result ≡ place_of index brought.now }
    ensures block { IsBlock result.block }
{
    match brought {
        Brought::Info(_) => Position {
            index,
            block: 0,
            symbol: 0,
        },
        Brought::Symbol { id, .. } => Position {
            index,
            block: id.block,
            symbol: id.symbol,
        },
    }
}

/// Whether what comes with transmission information may be kept, by how that fits.
fn lets_put(word: Fit) -> bool
    ensures { result ≡ lets_put word }
{
    match word {
        Fit::Known | Fit::Taken => true,
        // The object has no plan, or another one.
        Fit::Away | Fit::Unfit => false,
    }
}

/// Does what [`Hold::put_info`] does, without saying whether the info was kept.
fn keep_info(hold: &mut Hold, index: u32, info: &[u8]) -> Result<(), Memory>
    ensures profile { hold.new.p ≡ hold.old.p }
    ensures state { IfOk result (λ _. (s : Holding) → HoldStands hold.old s → HoldStands hold.new (put_info hold.old.p index info.now s)) }
    ensures refused { OnErr result (hold.new ≡ hold.old) }
{
    hold.put_info(index, info)?;
    Ok(())
}

/// Does what [`Hold::put`] does, without saying whether the symbol was kept.
fn keep_symbol(hold: &mut Hold, index: u32, id: PayloadId, payload: &[u8]) -> Result<(), Memory>
    ensures profile { hold.new.p ≡ hold.old.p }
    ensures state { IfOk result (λ _. (s : Holding) → HoldStands hold.old s
        → HoldStands hold.new (put_symbol hold.old.p (position index id.block id.symbol) payload.now s)) }
    ensures refused { OnErr result (hold.new ≡ hold.old) }
{
    hold.put(index, id, payload)?;
    Ok(())
}

fn put_brought(hold: &mut Hold, index: u32, brought: &Brought<'_>) -> Result<(), Memory>
    ensures profile { hold.new.p ≡ hold.old.p }
    ensures state { IfOk result (λ _. (s : Holding) → HoldStands hold.old s → HoldStands hold.new (puts hold.old.p index brought.now s)) }
    ensures refused { OnErr result (hold.new ≡ hold.old) }
{
    match brought {
        Brought::Info(info) => keep_info(hold, index, info),
        Brought::Symbol { id, payload } => keep_symbol(hold, index, *id, payload),
    }
}

/// Notes that the block of what is brought was seen, whether or not it was kept.
fn see_brought(hold: &mut Hold, index: u32, brought: &Brought<'_>)
    ensures profile { hold.new.p ≡ hold.old.p }
    ensures state { (s : Holding) → HoldStands hold.old s → HoldStands hold.new (sees_block (point_of (place_of index brought.now)) s) }
{
    hold.see(place_of(index, brought).point());
}

/// Keeps what is brought if the hold can, notes its block as seen, and hands up everything that is ready.
fn keep(hold: &mut Hold, index: u32, brought: &Brought<'_>) -> Result<(), Memory>
    ensures profile { hold.new.p ≡ hold.old.p }
    ensures state { IfOk result (λ _. (s : Holding) → HoldStands hold.old s
        → HoldStands hold.new (handed_up hold.old.p (puts hold.old.p index brought.now (sees_block (point_of (place_of index brought.now)) s)))) }
    ensures refused { OnErr result (hold.new ≡ hold.old) }
{
    // Notes the block only after nothing can fail any more. The rules note it first, with the same result.
    put_brought(hold, index, brought)?;
    see_brought(hold, index, brought);
    hold.advance();
    Ok(())
}

/// Does what [`keep`] does if the transmission information of an INFO or DATA fits. Otherwise only notes the block as seen. If memory runs
/// out, an object that was taken up by this message is forgotten again.
fn keep_told(
    hold: &mut Hold,
    index: u32,
    fti: &Fti,
    flags: u8,
    brought: &Brought<'_>,
) -> Result<(), Memory>
    requires { index < 4294967295 }
    ensures profile { hold.new.p ≡ hold.old.p }
    ensures state { IfOk result (λ _. (s : Holding) → HoldStands hold.old s → HoldStands hold.new (object_told hold.old.p index fti.now flags brought.now s)) }
    ensures refused { OnErr result ((s : Holding) → HoldStands hold.old s → HoldStands hold.new s) }
{
    let word = hold.fti(index, fti, flags)?;
    if !lets_put(word) {
        see_brought(hold, index, brought);
        return Ok(());
    }
    let Err(fault) = keep(hold, index, brought) else {
        return Ok(());
    };
    // If the plan stayed, the datagram would have changed something, and could not count as lost.
    if word == Fit::Taken {
        hold.untake(index);
    }
    Err(fault)
}

/// Keeps what an INFO or DATA brings if the hold can: without transmission information, only if the object was taken up before.
fn keep_object(
    hold: &mut Hold,
    index: u32,
    flags: u8,
    exts: &Extensions<'_>,
    brought: &Brought<'_>,
) -> Result<(), Memory>
    requires { index < 4294967295 }
    ensures profile { hold.new.p ≡ hold.old.p }
    ensures state { IfOk result (λ _. (s : Holding) → HoldStands hold.old s
        → HoldStands hold.new (object_held hold.old.p (place_of index brought.now) exts.now flags (puts hold.old.p index brought.now) s)) }
    ensures refused { OnErr result ((s : Holding) → HoldStands hold.old s → HoldStands hold.new s) }
{
    match read_fti(exts.iter()) {
        Some(fti) => keep_told(hold, index, &fti, flags, brought),
        None => keep(hold, index, brought),
    }
}

impl Parts {
    /// Whether to acknowledge a flush: it names this node, everything up to its position was handed up, and nothing was lost.
    fn acknowledges(&self, at: Position, nodes: &[u8]) -> bool
        requires { length nodes.now % 4 ≡ 0 }
        ensures { (s : ReceiverState) → Stands (kept_of self.now) s → result ≡ acknowledges s at (nodes_of nodes.now) }
    {
        if !names(nodes, self.numbers.node) {
            return false;
        }
        self.hold.hand_up().all_handed_up(&at, self.hold.has_lost())
    }

    /// Takes in an INFO or DATA of the object with this index, and notes the index, and the block if it is the farthest.
    #[tactic(auto, using(crate::proofs::BlockLemmas::held_blocks))]
    fn receive_object(
        &mut self,
        index: u32,
        flags: u8,
        exts: &Extensions<'_>,
        brought: &Brought<'_>,
    ) -> Result<(), Memory>
        requires { index < 4294967295 }
        ensures profile { self.new.profile ≡ self.old.profile }
        ensures state { IfOk result (λ _. (s : ReceiverState) → Stands (kept_of self.old) s
            → Stands (kept_of self.new) (object_received self.old.profile (place_of index brought.now) exts.now flags (puts self.old.profile index brought.now) (record s { knows = learns index s.knows }))) }
        ensures refused { OnErr result ((s : ReceiverState) → Stands (kept_of self.old) s → Stands (kept_of self.new) s) }
    {
        keep_object(&mut self.hold, index, flags, exts, brought)?;
        let known = self.numbers.learning(index);
        self.numbers = known.seeing(place_of(index, brought).point());
        Ok(())
    }

    /// Takes in a flush up to a symbol of the object with this index. Whether to acknowledge it is decided now: what is handed up later is
    /// acknowledged only after another flush.
    fn receive_flush(&mut self, index: u32, id: PayloadId, nodes: &[u8])
        requires { length nodes.now % 4 ≡ 0 }
        ensures profile { self.new.profile ≡ self.old.profile }
        ensures state { (s : ReceiverState) → Stands (kept_of self.old) s
            → Stands (kept_of self.new) (flush_at (position index id.block id.symbol) (nodes_of nodes.now) (record s { knows = learns index s.knows })) }
    {
        let at = FlushPlace { index, id };
        let acknowledged = self.acknowledges(at.position(), nodes);
        let known = self.numbers.learning(index);
        self.numbers = known.flushed(at, acknowledged);
    }

    /// Takes in a squelch, which says that the sender's window begins at this block.
    fn receive_squelch(&mut self, index: u32, block: u32) -> Result<(), Memory>
        requires { index < 4294967295 }
        ensures profile { self.new.profile ≡ self.old.profile }
        ensures state { IfOk result (λ _. (s : ReceiverState) → Stands (kept_of self.old) s
            → Stands (kept_of self.new) (squelch_at self.old.profile (point_at index block) (record s { knows = learns index s.knows }))) }
        ensures refused { OnErr result ((s : ReceiverState) → Stands (kept_of self.old) s → Stands (kept_of self.new) s) }
    {
        self.hold.lose_before(index, block)?;
        self.numbers = self.numbers.learning(index);
        Ok(())
    }

    /// Does what a message says of the object with this index, and notes the index. It starts no back-off.
    pub(crate) fn receive(&mut self, index: u32, said: &Said<'_>) -> Result<(), Memory>
        requires whole { IsSaid said.now }
        requires last { index < 4294967295 }
        ensures profile { self.new.profile ≡ self.old.profile }
        ensures state { IfOk result (λ _. (s : ReceiverState) → Stands (kept_of self.old) s
            → Stands (kept_of self.new) (said_received self.old.profile said.now index (record s { knows = learns index s.knows }))) }
        ensures refused { OnErr result ((s : ReceiverState) → Stands (kept_of self.old) s → Stands (kept_of self.new) s) }
    {
        match said {
            Said::Info { flags, exts, info } => {
                self.receive_object(index, *flags, exts, &Brought::Info(info))
            }
            Said::Data {
                flags,
                exts,
                id,
                payload,
            } => self.receive_object(index, *flags, exts, &Brought::Symbol { id: *id, payload }),
            Said::Flush { id, nodes } => {
                self.receive_flush(index, *id, nodes);
                Ok(())
            }
            Said::Squelch { block } => self.receive_squelch(index, *block),
        }
    }
}
