//! What is promised of the rule and its judge. Each law is the contract of a function that does nothing.

ghost use Rattle.norm_persist.specs.Laws.{RunsByFronts, OthersAsEver, OwnHaveReasons, OwnComeInTime, OwnAreAccepted, StatusesSay, PersistingMovesTheWorld, ConfirmedIsListed};
ghost use Rattle.norm_persist.specs.Reports.{ReportsSay};

/// A run goes on from the state that its prefix leaves.
#[tactic(auto, using(crate::proofs::Steps::runs_by_fronts))]
pub fn runs_by_fronts()
    ensures { RunsByFronts }
{}

/// If no own command is due, each event is judged as in a run that does not persist, except the beginning of a turn and the summary.
#[tactic(auto, using(crate::proofs::Steps::others_as_ever))]
pub fn others_as_ever()
    ensures { OthersAsEver }
{}

/// An own command is due for its reason alone. A mark: the sender is idle, no watermark is open, a member lacks something, the script has
/// stopped, and nobody is silent. A strike: its member is silent, and another is not.
#[tactic(auto, using(crate::proofs::Reasons::own_have_reasons))]
pub fn own_have_reasons()
    ensures { OwnHaveReasons }
{}

/// If there is such a reason, an own command is due.
#[tactic(auto, using(crate::proofs::Reasons::own_come_in_time))]
pub fn own_come_in_time()
    ensures { OwnComeInTime }
{}

/// No own command of a run is refused.
#[tactic(auto, using(crate::proofs::Accepted::own_are_accepted))]
pub fn own_are_accepted()
    ensures { OwnAreAccepted }
{}

/// What a member confirmed is what it is listed past, unless a rise of it is still to be told.
#[tactic(auto, using(crate::proofs::Confirmed::confirmed_is_listed))]
pub fn confirmed_is_listed()
    ensures { ConfirmedIsListed }
{}

/// A journal leaves the judge's nodes as its events leave them in their world, own commands too.
#[tactic(auto, using(crate::proofs::Moves::moves_the_world))]
pub fn moves_the_world()
    ensures { PersistingMovesTheWorld }
{}

/// A run that ended whole or given up has status 0 if and only if every receiver, except those that the script struck, confirmed everything
/// that was accepted in the last instance. Else it has 15.

pub fn statuses_say()
    ensures { StatusesSay }
{}

/// Status 0 of a report says that every receiver, except those that the script struck, confirmed everything that was accepted in the last
/// instance; 15 that one did not.
#[tactic(auto, using(crate::proofs::Reporting::reports_say))]
pub fn reports_say()
    ensures { ReportsSay }
{}
