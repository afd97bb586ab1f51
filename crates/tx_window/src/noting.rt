//! Notes in a window what was sent, and what all members are listed past.

ghost use Rattle.std.specs.Prelude.{◌≡◌};
ghost use Rattle.fec_plan.specs.Points.{reached_by};
ghost use Rattle.fec_plan.specs.declared.position.Position.{Position as Place};
ghost use Rattle.norm_send_rules.specs.SenderState.{SenderState};
ghost use Rattle.norm_send_rules.specs.Sending.{noted};
ghost use Rattle.norm_send_rules.specs.Watermarks.{all_past};
ghost use Rattle.norm_send_rules.specs.declared.want.Want.TheVariants.{Symbol, Info as InfoOf};
ghost use Rattle.tx_window.specs.WindowState.{reads, Stands, IsInWindow};
ghost use Rattle.tx_window.specs.WindowMoves.{WindowMoves};
ghost use Rattle.tx_window.specs.Asked.{IsEncodedIn};

use crate::window::Window;
use fec_plan::Position;

impl Window {
    /// Marks an encoded symbol of a kept block as sent. For parity nothing changes. An entry may go only after all its closed source symbols are
    /// marked.
    // It does not say that the cut of the entry is sound, as `plan` does and the union's `note_sent`: that would make a plan for each
    // symbol that is sent.
    pub fn note_sent(&mut self, at: Position)
        requires { IsEncodedIn self.old at }
        ensures stands { WindowMoves self.old self.new (noted (Symbol at)) }
        ensures filling { self.new.filling ≡ self.old.filling }
        ensures profile { self.new.p ≡ self.old.p }
    {
        let place = (at.index - self.dropped) as usize;
        self.held[place].note_sent(at.block, at.symbol);
    }

    /// Marks the info of an entry of the window as sent. Until then an entry with info may not go.
    pub fn note_info(&mut self, index: u32)
        requires { IsInWindow self.old index }
        ensures stands { WindowMoves self.old self.new (noted (InfoOf index)) }
        ensures filling { self.new.filling ≡ self.old.filling }
        ensures profile { self.new.p ≡ self.old.p }
    {
        let place = (index - self.dropped) as usize;
        self.held[place].note_info();
    }

    /// Notes the least position that members are listed past now. `None` if a member is listed past nothing.
    pub fn note_past(&mut self, through: Option<Position>)
        ensures exact { self.new ≡ record self.old { past = through } }
        ensures stands { (s t : SenderState) → Stands self.old s → reads t ≡ record (reads s) { past = all_past t }
            → ((at : Place) → all_past t at ≡ reached_by through at) → Stands self.new t }
    {
        self.past = through;
    }
}
