//! Laws of whole runs. Each law is the contract of a function that does nothing.

ghost use Rattle.norm_laws.specs.CountsFit.{CountsOfASessionFit};
ghost use Rattle.norm_laws.specs.HandedUp.{AllIsHandedUp};
ghost use Rattle.norm_laws.specs.LaterTails.{LaterTailsAccepted};
ghost use Rattle.norm_laws.specs.SentOnce.{IdleHasSent, IdleHasSources};

/// If a sender is idle, it has sent each info and symbol that it sends once without a request, or dropped it.
#[tactic(auto, using(crate::proofs::IdleRun::idle_has_sent))]
pub fn idle_has_sent()
    ensures { IdleHasSent }
{}

/// If a sender is idle, each closed source symbol and each info of its order was sent in the instance, even if it was dropped since.
#[tactic(auto, using(crate::proofs::IdleRun::idle_has_sources))]
pub fn idle_has_sources()
    ensures { IdleHasSources }
{}

/// Everything is handed up if a lawful run passes on each datagram of the sender before its next tick and before the end: delivers it in
/// time to all receivers, and takes their hand-ups. If the sender is idle at the end, every receiver has handed up everything of the
/// current instance's order whose source symbols are closed, and nothing else of that instance.
pub fn all_is_handed_up()
    ensures { AllIsHandedUp }
{}

/// In a session of data and files whose takes are honest, the counts are bounded by the script's commands and the profile's receivers and
/// octets. So they fit 64 bits.
pub fn counts_of_a_session_fit()
    ensures { CountsOfASessionFit }
{}

/// After a first tail no later one is refused. If no reason refuses the first of several tails, and each of them ends its watermark, then no
/// reason refuses the next one, if a watermark is still open.
#[tactic(auto, using(crate::proofs::LaterTailLemmas::later_tails))]
pub fn later_tails_accepted()
    ensures { LaterTailsAccepted }
{}
