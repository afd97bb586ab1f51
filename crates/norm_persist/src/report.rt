//! What a run that persists says of its end: [`Report`].

ghost use Rattle.std.specs.Prelude.{◌≡◌};
ghost use Rattle.norm_persist.specs.Reports.{is_lacking_in, verdict_when};

use crate::account::Account;
use norm_base::InstanceId;

/// How a run that persists ended.
#[derive(Clone, Copy, Debug, PartialEq, Eq)]
pub enum Verdict {
    /// All commands were pulled, none waits, no watermark is open, the sender is idle, and no member lacks anything.
    Whole,
    /// Every member is silent.
    GivenUp,
    /// Turn 4,294,967,295 was done.
    Spent,
}

/// The end of a run that persists.
#[derive(Debug, Drop)]
pub struct Report {
    pub verdict: Verdict,
    /// The sender's instance at the end.
    pub instance: InstanceId,
    /// How many commands of the script were neither accepted nor refused: they were not pulled, or one waits.
    pub left: u64,
    /// The receivers that lack something, struck ones too, in order of id.
    pub lacking: Vec<Account>,
}

impl Report {
    /// Whether a receiver lacks something that the script did not strike.
    pub fn is_lacking(&self) -> bool
        ensures { result ≡ is_lacking_in self.now.lacking.items }
    {
        self.lacking.iter().any(|account| !account.excused)
    }
}

/// How a run ended after its last turn, by whether it is whole and whether it is given up.
pub fn verdict_of(complete: bool, given_up: bool) -> Verdict
    ensures { result ≡ verdict_when complete given_up }
{
    if complete {
        Verdict::Whole
    } else if given_up {
        Verdict::GivenUp
    } else {
        Verdict::Spent
    }
}
