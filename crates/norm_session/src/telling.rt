//! The sender's news: a receiver is past a position, or a watermark ended.

ghost use Rattle.std.specs.Prelude.{◌≡◌, ◌∷◌, [], ℕ, IfOk, IfErr, OnErr, OnOk};
ghost use Rattle.norm_base.specs.Network.{Network};
ghost use Rattle.norm_journal.specs.Places.{Place};
ghost use Rattle.norm_journal.specs.Totals.{with_news};
ghost use Rattle.norm_journal.specs.declared.event.Event.TheVariants as event;
ghost use Rattle.norm_turns.specs.Causes.{WriteCause, NeedsMemory};
ghost use Rattle.norm_session.specs.Context.{Context, with_posted};
ghost use Rattle.norm_session.specs.Noting.{noted};
ghost use Rattle.norm_session.specs.Posting.{entries_in, posting};
ghost use Rattle.norm_session.specs.SoFar.{At, IsTelling};
ghost use Rattle.norm_session.specs.Stopping.{Stopped};
ghost use Rattle.norm_session.specs.Telling.{HasTold, IsTellingOf};

use crate::run::Run;
use norm_base::{Memory, Sink};
use norm_journal::news_line;
use norm_send_rules::News;
use norm_turns::{SessionFault, left_by, news_notice, write_line};
use producer_gate::Board;

/// Publishes a change on the board if it is the outcome of a watermark. `Memory` if the board has no room.
fn publish(board: &mut Board, news: &News) -> Result<(), Memory>
    ensures posted { OnOk result (board.new ≡ posting board.old (entries_in (event.News news.now ∷ []))) }
    ensures same { OnErr result (board.new ≡ board.old) }
{
    match news {
        News::Done { mark, outcome } => {
            board.publish(*mark, *outcome)?;
            Ok(())
        }
        News::Past { .. } => Ok(()),
    }
}

impl Run {
    /// Adds a change to the journal, and counts it if it is a watermark that ended. `Memory` also if a count does not fit 64 bits.
    fn note_news(&mut self, news: News) -> Result<(), SessionFault>
        ensures noted { OnOk result (self.new
            ≡ record self.old { journal = noted self.old.journal (event.News news); totals = with_news news self.old.totals }) }
        ensures cause { NeedsMemory result }
    {
        // The counts are exact, so one that does not fit 64 bits ends the run. It has no fault of its own: that takes 2^64 changes.
        if !self.totals.has_room_for_news(&news) {
            return Err(SessionFault::Memory);
        }
        self.totals.count_news(&news);
        self.journal.push_news(news)?;
        Ok(())
    }

    /// Reports the sender's next change: notes it, publishes it on the board if it is an outcome, and writes its line, if it has one.
    /// Returns false if none is left.
    ///
    /// # Errors
    ///
    /// `Write` if the write failed, or `Memory`, also if a count does not fit 64 bits or the board has no room.
    pub fn tell<K: Sink>(&mut self, board: &mut Board, output: &mut K) -> Result<bool, SessionFault>
        ensures goes { IfOk result (λ told. (x : Context) (place : Place) (network : Network) (many : ℕ)
            → IsTellingOf (with_posted x board.old) self.old place network (K.pieces output.old) many
            → HasTold told (with_posted x board.new) self.new place network (K.pieces output.new) many) }
        ensures stops { IfErr result (λ fault. (x : Context) (place : Place) (network : Network) (many : ℕ)
            → IsTellingOf (with_posted x board.old) self.old place network (K.pieces output.old) many
            → Stopped (with_posted x board.new) fault network (K.pieces output.new)) }
        ensures cause { WriteCause result (K.fault_count output.old) (K.fault_count output.new) }
    {
        let Some(news) = self.world.news() else {
            return Ok(false);
        };
        // Before the change is noted: this takes memory, and what is left of a watermark is that of this moment.
        let left = left_by(self.alloc, self.world.sender(), &news)?;
        self.note_news(news)?;
        let instance = self.world.sender().instance();
        let has = news_line(&mut self.line, instance, &left, &news)?;
        // Nothing but the write can fail once it is published, so that a reader knows of no outcome that the journal lacks.
        publish(board, &news)?;
        write_line(has, &self.line, &news_notice(&news), output)?;
        Ok(true)
    }

    /// Reports all changes of the sender. Call it after the command, after the sender's tick and after each datagram that was taken.
    ///
    /// # Errors
    ///
    /// As for [`tell`](Run::tell).
    pub fn tell_all<K: Sink>(
        &mut self,
        board: &mut Board,
        output: &mut K,
    ) -> Result<(), SessionFault>
        ensures goes { OnOk result ((x : Context) (place : Place) (network : Network)
            → IsTelling (with_posted x board.old) self.old place network (K.pieces output.old)
            → At (with_posted x board.new) self.new place network (K.pieces output.new)) }
        ensures stops { IfErr result (λ fault. (x : Context) (place : Place) (network : Network)
            → IsTelling (with_posted x board.old) self.old place network (K.pieces output.old)
            → Stopped (with_posted x board.new) fault network (K.pieces output.new)) }
        ensures cause { WriteCause result (K.fault_count output.old) (K.fault_count output.new) }
    {
        // The number is known before, so that the loop has a bound: telling makes no further news.
        for _ in 0..self.world.sender().untold() {
            if !self.tell(board, output)? {
                return Ok(());
            }
        }
        Ok(())
    }
}
