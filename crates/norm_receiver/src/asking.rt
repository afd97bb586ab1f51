//! A NACK in progress, written need by need (RFC 5740 section 4.3.1).

ghost use Rattle.std.specs.Prelude.{◌≡◌, ◌≤◌, ◌&&◌, ℕ, List, Bool};
ghost use Rattle.fec_plan.specs.Partition.{most_symbol};
ghost use Rattle.norm_receive_rules.specs.Needs.{Need as Meaning};
ghost use Rattle.norm_receiver.specs.Requesting.{need_of, IsNeed};
ghost use Rattle.norm_receiver.specs.Walking.{Walked, walk_need, asking_nothing, HasRoom, IsAt};

use crate::requesting::{Need, ask};
use norm_base::{Datagram, Profile};
use norm_ext::RequestWriter;

/// A NACK in progress. [`add`](Asking::add) the needs in order.
#[derive(Debug, Drop)]
pub(crate) struct Asking {
    pub writer: RequestWriter,
    /// Whether others asked for everything that was added. True if nothing was.
    pub all_heard: bool,
    /// Whether a need did not fit. No further one is added then.
    pub full: bool,
}

fn are_both(one: bool, other: bool) -> bool
    ensures { result ≡ (one && other) }
{
    one && other
}

impl Asking {
    /// Creates a NACK without requests, which may get at most `e` octets of them.
    pub fn new(profile: &Profile) -> Asking
        ensures begun { result ≡ asking_nothing profile.now }
        ensures few { profile.now.e ≤ most_symbol }
    {
        Asking {
            writer: RequestWriter::new(profile.e),
            all_heard: true,
            full: false,
        }
    }

    /// Adds a need if it fits, unless an earlier one did not. `heard` tells whether others asked for it.
    pub fn add(&mut self, profile: &Profile, need: Need, heard: bool, out: &mut Datagram)
        requires need { IsNeed need }
        requires room { HasRoom self.old.writer out.old }
        ensures room { HasRoom self.new.writer out.new }
        ensures walked { (test : Meaning → Bool) (front : List ℕ) (w : Walked) → heard ≡ test (need_of need)
            → IsAt profile.now test self.old out.old front w → IsAt profile.now test self.new out.new front (walk_need profile.now w (need_of need)) }
    {
        // A later need might still fit, but a NACK asks for a prefix of the needs: hand-ups go in order, so a later need can wait.
        if self.full {
            return;
        }
        if !ask(profile, need, &mut self.writer, out) {
            self.full = true;
            return;
        }
        self.all_heard = are_both(self.all_heard, heard);
    }
}
