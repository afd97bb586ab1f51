//! Laws of bounded recovery. Each law is the contract of a function that does nothing. Begin with [`tail_is_lawful`].

ghost use Rattle.norm_recovery.specs.Asking.{ClosingsHelp};
ghost use Rattle.norm_recovery.specs.BackOffEnds.{BackOffEnds};
ghost use Rattle.norm_recovery.specs.Clean.{CleanStays};
ghost use Rattle.norm_recovery.specs.Flush.{FlushHeard};
ghost use Rattle.norm_recovery.specs.FlushListed.{FlushListed};
ghost use Rattle.norm_recovery.specs.FlushNeeds.{FlushNeeds};
ghost use Rattle.norm_recovery.specs.FlushReaches.{FlushReaches};
ghost use Rattle.norm_recovery.specs.FewRecover.{FewRecover};
ghost use Rattle.norm_recovery.specs.HadBringsNothing.{HadBringsNothing};
ghost use Rattle.norm_recovery.specs.Left.{LeftTells};
ghost use Rattle.norm_recovery.specs.LeftHeard.{LeftHeard};
ghost use Rattle.norm_recovery.specs.LeftNeverRises.{LeftNeverRises};
ghost use Rattle.norm_recovery.specs.MarksEnd.{MarksEnd};
ghost use Rattle.norm_recovery.specs.MembersEnter.{MembersEnter};
ghost use Rattle.norm_recovery.specs.MembersStand.{MembersStand};
ghost use Rattle.norm_recovery.specs.NackAsks.{NackAsks};
ghost use Rattle.norm_recovery.specs.NeedLacks.{NeedLacks};
ghost use Rattle.norm_recovery.specs.NeedsRead.{NeedsAreRead};
ghost use Rattle.norm_recovery.specs.RoundAsks.{RoundAsks};
ghost use Rattle.norm_recovery.specs.RunsOut.{RunsOutLaws, TailRunsOut};
ghost use Rattle.norm_recovery.specs.SteadyAsked.{IsAskedOnceOrTwice};
ghost use Rattle.norm_recovery.specs.SteadyNeeds.{HadIsNotNeeded};
ghost use Rattle.norm_recovery.specs.SteadyNothing.{NothingIsNeeded};
ghost use Rattle.norm_recovery.specs.SteadyPasses.{DirectPasses};
ghost use Rattle.norm_recovery.specs.SteadySent.{IsSentBeforeNext};
ghost use Rattle.norm_recovery.specs.SteadyTakes.{DirectTakesAll};
ghost use Rattle.norm_recovery.specs.SteadyTurns.{TurnsSuffice};
ghost use Rattle.norm_recovery.specs.TailKeeps.{TailKeeps};
ghost use Rattle.norm_recovery.specs.TailLawful.{TailIsLawful};
ghost use Rattle.norm_recovery.specs.TailRecovers.{TailRecovers};
ghost use Rattle.norm_recovery.specs.WatchCleans.{WatchCleans};
ghost use Rattle.norm_recovery.specs.WatchEnds.{WatchEnds};
ghost use Rattle.norm_recovery.specs.WatchGoesOn.{WatchGoesOn};
ghost use Rattle.norm_recovery.specs.WatchHolds.{WatchHolds};
ghost use Rattle.norm_recovery.specs.WatchKeeps.{WatchKeeps};
ghost use Rattle.norm_recovery.specs.WatchTicks.{WatchTicks};
ghost use Rattle.norm_recovery.specs.WatchWaits.{WatchWaits};
ghost use Rattle.norm_recovery.specs.Timely.{RunsAreTimely};

/// No run, lawful or not, puts anything off further than the rules say. If no event passes a moment, then within a gap of it the sender may
/// send, within K + 1 round trips an open round closes, within K a back-off ends, and within K + 2 nobody is held off any more. The last
/// flush was not later than that moment.
pub fn runs_are_timely()
    ensures { RunsAreTimely }
{}

/// A tail of a lawful run is lawful with it, and may be followed by another tail, if the commands are such as a program can make and no
/// instance has more than 32,768 objects. The tail may be cut. Mode, pace, draws and moments do not matter, and streams may be there.
#[tactic(auto, using(crate::proofs::LawfulTail::tail_is_lawful))]
pub fn tail_is_lawful()
    ensures { TailIsLawful }
{}

/// At every moment of each tail of each run, the sender's orders, drop points, members and struck nodes are as they were when it began, and
/// so are the number, command, position and quorum of each watermark.
pub fn tail_keeps()
    ensures { TailKeeps }
{}

/// In `hold` mode, at every moment of each tail, a member that is in the sender's current instance stands at the drop point or past it, and
/// lost nothing there. If a member is in another instance or in none, nothing was dropped of the current one.
#[tactic(auto, using(crate::proofs::MembersTail::members_stand))]
pub fn members_stand()
    ensures { MembersStand }
{}

/// Whoever hears a datagram of the sender at a moment of a tail is in the sender's current instance then, if the datagram is of it. What the
/// sender's tick gives is.
#[tactic(auto, using(crate::proofs::MembersEnter::members_enter))]
pub fn members_enter()
    ensures { MembersEnter }
{}

/// What one sender has to send runs out while its rounds stay open: a squelch that is due, the wants, and what is new take a gap and a step
/// each. The wants are no more than the infos and encoded symbols of the window, and nor is what is new.
pub fn what_is_to_send()
    ensures { RunsOutLaws }
{}

/// In a tail all that is to be sent runs out, whatever the draws: a round trip after the tail began, or after the last closing of a round,
/// nothing is. The window has to be so small that it can be sent twice in a round trip.
pub fn tail_runs_out()
    ensures { TailRunsOut }
{}

/// A receiver that hears a flush in its instance, or in one that it goes on to, knows that position or a further one from then on, until it
/// leaves that instance. If the flush asks it, and it handed up all through that position, it owes an acknowledgement.
#[tactic(auto, using(crate::proofs::FlushHeard::flush_heard))]
pub fn flush_heard()
    ensures { FlushHeard }
{}

/// A sender that hears a member confirm a position, or a further one, lists it past that position. It stays listed through whatever is no
/// command.
#[tactic(auto, using(crate::proofs::FlushListed::flush_listed))]
pub fn flush_listed()
    ensures { FlushListed }
{}

/// A receiver that knows a flush and did not come past its object needs something of the object at its hand-up point, if that is data or a file.
pub fn flush_needs()
    ensures { FlushNeeds }
{}

/// No more is left than may need repair. If nothing is wanted and nothing is left, every member has everything of the window. What a receiver
/// has of it, or will have, stays so whatever happens to it, unless it leaves the sender's instance. The closing of a round leaves no more.
#[tactic(auto, using(crate::proofs::LeftCounts::left_tells))]
pub fn left_tells()
    ensures { LeftTells }
{}

/// Let every member have everything that is wanted. If a round asks for something of the window that a member lacks, by name or by a count, its
/// closing leaves less, adds a want, and sets the count of flushes to 0. If a closing leaves no less, every member has also all that it adds.
pub fn closings_help()
    ensures { ClosingsHelp }
{}

/// What a member needs it lacks. In `hold` mode, with no stream in the window, after a lawful run: of each need of a member that is in the current
/// instance there is an info or a closed source symbol of the window that it does not have.
pub fn need_lacks()
    ensures { NeedLacks }
{}

/// If requests, as the sender reads them, ask for all of a need, the round that they join asks for each info and closed source symbol of the window that
/// is of that need. What a round asks for it goes on to ask for, whatever joins it.
pub fn round_asks()
    ensures { RoundAsks }
{}

/// In `hold` mode, with no stream in the window, after a run that may go on: if the tick of a member in the current instance gives a NACK, and the sender
/// hears that, its open round asks then for something of the window that the member lacks.
pub fn nack_asks()
    ensures { NackAsks }
{}

/// What a member heard others ask for while it backs off, the open round goes on to ask for, if the member lacks it. So it is of a back-off that began in
/// the turn, and of one that was so before, unless the turn closes a round that leaves less, or that asks for what is on its way.
pub fn clean_stays()
    ensures { CleanStays }
{}

/// In `hold` mode, with no stream in the window, the open round asks for something that a member lacks once its back-off ended, if it was clean and needs
/// anything: by its own NACK in that turn, or by what it heard others ask for.
pub fn back_off_ends()
    ensures { BackOffEnds }
{}

/// A phase of a tail is over within 4 K + 9.25 round trips, by what each of its turns leaves: before its flush, since that goes in time; after it, since
/// the open round closes. So no watermark expires in a phase that began with no more than 15 - 2 K flushes counted.
pub fn watch_ends()
    ensures { WatchEnds }
{}

/// A turn of a tail keeps of a phase, whatever the draws: nodes are timely, and an open round closes later; all that is to be sent goes within a round trip of
/// the last closing of a round, and no round closes sooner after it; and flushes are two round trips apart.
pub fn watch_keeps()
    ensures { WatchKeeps }
{}

/// If its closing leaves no less, a turn of a tail keeps of a phase, after a run that may go on: two round trips after its begin, or once a round closed a
/// round trip after it, nothing new is left, and every member has everything that is wanted; and each back-off that began after that is clean.
pub fn watch_cleans()
    ensures { WatchCleans }
{}

/// And a turn of a tail whose turns do not stand still keeps of a phase, after a run that may go on: everybody does what is due. A turn after its begin nobody
/// owes an acknowledgement, and from three turns on each back-off that runs ends later, or it ended in this turn, which flushed.
pub fn watch_ticks()
    ensures { WatchTicks }
{}

/// And a turn of a tail whose closing leaves no less keeps of a phase, in `hold` mode, with no stream in the window: whoever is held off for longer than by
/// what it heard before the phase is asked for. No other one is held off after a back-off that ended while it needed something.
pub fn watch_holds()
    ensures { WatchHolds }
{}

/// As a phase begins, and after each turn of it that leaves no less, in `hold` mode with no stream in the window: the oldest watermark is flushed for in time; from
/// its first flush after nobody was held off any more each member that is behind is asked for, or backs off, and the open round closes soon.
pub fn watch_waits()
    ensures { WatchWaits }
{}

/// Each turn of a tail satisfies its watermark, or leaves its phase as it was, or begins the next one with less left, whatever the draws: in `hold` mode, with
/// no stream in the window, at the pace of a tail, and if no more than 15 - 2 K flushes were counted as the phase began.
pub fn watch_goes_on()
    ensures { WatchGoesOn }
{}

/// Bounded recovery: from a lawful run of few objects, in `hold` mode, with no stream in the window and at the pace of a tail, some number of turns that is no
/// more than `tail_bound` satisfies the oldest watermark, whatever the draws. Until then no tick expires it.
pub fn bounded_recovery()
    ensures { FewRecover }
{}

/// And so a whole tail, which ends with the tick or the turn that ends its watermark, leaves that satisfied; and with its events the run may go on.
pub fn tail_recovers()
    ensures { TailRecovers }
{}

/// With the position of an open watermark a part of the order ends: it is the last source symbol of data or a file, or a closed segment of a
/// stream ends with it. So it is after every lawful run, whatever was enqueued since. A restart leaves no watermark open.
#[tactic(auto, using(crate::proofs::MarksEnd::marks_end))]
pub fn marks_end()
    ensures { MarksEnd }
{}

/// In `hold` mode, with no stream in the window, a member that hears an INFO or a DATA of the window has what it brings then. It has to be offered,
/// of the current instance, and come after a lawful run of few objects.
pub fn left_heard()
    ensures { LeftHeard }
{}

/// In `hold` mode, with no stream in the window, a member that hears an info or a symbol that it has, a flush, or a squelch up to where the window begins,
/// holds then what it held. The datagram has to be offered, of the current instance, and come after a lawful run of few objects.
pub fn had_brings_nothing()
    ensures { HadBringsNothing }
{}

/// Over a turn no more is left: in `hold` mode, with no stream in the window, after a run that may go on, and whatever the draws. A closing only adds
/// wants; what the sender's tick sends is heard by every member in that turn; and what a member has stays.
pub fn left_never_rises()
    ensures { LeftNeverRises }
{}

/// The requests of a NACK ask for all of each need that they were written for, as whoever takes them to whom its index is near: for an unknown object,
/// for an info, for so many symbols of a block, and in a stream for a source symbol and for the rest.
pub fn needs_are_read()
    ensures { NeedsAreRead }
{}

/// A flush reaches every member. If nothing is to be sent, two round trips have passed since the last flush and fewer than 20 were counted, a due
/// tick that closes no round flushes for the oldest watermark. At the end of that turn, after a lawful run of few objects and whatever the draws:
/// 1. Every receiver is in the current instance, and knows that position or a further one.
/// 2. Every member that the flush asks and that, in the current instance and without a loss, had handed up all through that position is listed past it.
/// 3. In `hold` mode, with no stream in the window, every member that is not past the position needs something of the object at its hand-up point,
///    which is in the window.
pub fn flush_reaches()
    ensures { FlushReaches }
{}

/// Over a direct network each turn takes all that the nodes offered: at most 272 copies wait, no turn takes 512, and the last take of each turn
/// finds none.
pub fn takes_all()
    ensures { DirectTakesAll }
{}

/// A direct network is honest, and over one a session passes each datagram of its sender on, to every receiver, before the sender's next tick. So if
/// it ends whole, every receiver was handed everything of the current instance's order, and nothing else of it.
pub fn direct_passes()
    ensures { DirectPasses }
{}

/// A receiver of data and files that is in the current instance needs nothing, if it has each source symbol and info before what it saw of the
/// sender, and of all objects up to that of the flush that it knows. The order must have no stream.
pub fn had_is_not_needed()
    ensures { HadIsNotNeeded }
{}

/// What lies before a sender's next place was sent in the current instance, dropped or not: each closed source symbol and each info.
pub fn sent_before_next()
    ensures { IsSentBeforeNext }
{}

/// In a steady session over a direct network nothing is needed, at any moment: no receiver needs anything or backs off, no NACK was ever given, no
/// round is open, nothing is wanted, and no squelch is due.
pub fn nothing_is_needed()
    ensures { NothingIsNeeded }
{}

/// In a steady session over a direct network each watermark is asked for once or twice, and is satisfied then. A flush of one turn is acknowledged in
/// it by every pending member, and the sender takes these acknowledgements in the next turn. So no watermark expires.
pub fn asked_once_or_twice()
    ensures { IsAskedOnceOrTwice }
{}

/// A steady session over a direct network never spends its turns, if there are as many as its script tells. If it ends whole, each watermark was
/// satisfied, and every receiver was handed everything of the order.
pub fn turns_suffice()
    ensures { TurnsSuffice }
{}
