//! Laws of runs of a sender and its receivers, and of the tests of safety. Each law is the contract of a function that does nothing. Begin
//! with [`safe_run`].

ghost use Rattle.norm_safety.specs.AsItCame.{AsksAsItCame, RoundsAskAsItCame};
ghost use Rattle.norm_safety.specs.ClosingCompletes.{ClosingCompletes};
ghost use Rattle.norm_safety.specs.FilesHaveNames.{FilesHaveNamesInRuns};
ghost use Rattle.norm_safety.specs.FreshWants.{FreshWants};
ghost use Rattle.norm_safety.specs.HandsBegin.{HandsBeginInRuns};
ghost use Rattle.norm_safety.specs.InTime.{TimeLaws};
ghost use Rattle.norm_safety.specs.LastUpto.{LastUpto};
ghost use Rattle.norm_safety.specs.Laws.{TestLaws, WantsHoldInRuns, SafeRun, FrontLaws, OfLawfulRuns, SaidOfOrders, CreditRun, SatisfiedRun, AcknowledgeRun};
ghost use Rattle.norm_safety.specs.LosesNothing.{LosesNothing};
ghost use Rattle.norm_safety.specs.RepairSuffices.{RepairSuffices};
ghost use Rattle.norm_safety.specs.TailLaws.{TailLaws};
ghost use Rattle.norm_safety.specs.WorldLaws.{WorldLaws};

/// Every lawful run is safe, whatever the network loses, repeats, reorders or delays, and however often the sender restarts:
/// 1. Accepted objects, and what is written to streams, enter the transport order once each. This holds of every honest run ([`in_time`]).
/// 2. Each receiver hands up an instance's order from its beginning, octet for octet, a stream segment by segment. It leaves out only what it reports
/// as lost, and that only if the sender dropped data. It comes to each instance at most once.
/// 3. A receiver is listed past a watermark only after it handed up everything before.
/// 4. A watermark is satisfied if and only if its quorum, or every member if there are fewer, was listed past it before it ended.
// Proof: hand-ups are exact first (Passed), and the relation GoesThrough follows at the end.
#[tactic(auto, using(crate::proofs::SafeRun::safe_run))]
pub fn safe_run()
    ensures { SafeRun }
{}

/// A lawful run is safe at each moment, because each prefix of it is lawful. If a receiver was ever listed past a position, it had handed
/// up everything before, even if the listing ended later.
#[tactic(auto, using(crate::proofs::RunFronts::front_laws))]
pub fn each_front()
    ensures { FrontLaws }
{}

/// In lawful runs, what the sender says of its orders is true. Each DATA and INFO carries the encoded symbol or the info of its object, with
/// the object's transmission information and flags. Each flush names a closed source symbol of its instance's order. Each squelch names a
/// point that is not after the drop point of its instance. Of NACKs, acknowledgements and REPAIR_ADV it says nothing.
// Proof: octets of receivers say nothing of objects whatever is read of them: the first octet decides.
#[tactic(auto, using(crate::proofs::SaidRun::said_run))]
pub fn said_run()
    ensures { OfLawfulRuns SaidOfOrders }
{}

/// The test of each part of safety gives true if and only if that part holds, and so does the test of all four. The test of lawful runs
/// gives true if and only if a run is lawful.
#[tactic(auto, using(crate::proofs::TestLemmas::test_laws))]
pub fn tests()
    ensures { TestLaws }
{}

/// In each run, what the sender wants to send again is of its order and in its window, the lowest first.
#[tactic(auto, using(crate::proofs::WantRunLemmas::wants_hold_in_runs))]
pub fn wants()
    ensures { WantsHoldInRuns }
{}

/// In each run, if a member's acknowledgement for the current instance names an enqueued source symbol, delivering it to the sender lists
/// the member past this position or further.
#[tactic(auto, using(crate::proofs::CreditLemmas::credit_run))]
pub fn credit_run()
    ensures { CreditRun }
{}

/// The fourth part of safety. In each run, a watermark is satisfied if and only if, at some moment before it ended, as many members as its
/// quorum says were listed past it, or all if there were no more. The outcome of one that ended never changes.
pub fn satisfied_run()
    ensures { SatisfiedRun }
{}

/// In `hold` mode no member reports a loss: in each lawful run, a node hands up an object or the rest of a stream as lost only if it was
/// struck.
#[tactic(auto, using(crate::proofs::HoldRun::hold_run))]
pub fn hold_run()
    ensures { OfLawfulRuns LosesNothing }
{}

/// In each lawful run, if a symbol is wanted as a round closes and was never sent, no receiver holds it. So a fresh symbol is of use to
/// each receiver that lacks one.
#[tactic(auto, using(crate::proofs::FreshRun::fresh_run))]
pub fn fresh_run()
    ensures { OfLawfulRuns FreshWants }
{}

/// In each lawful run, if a receiver of the instance lacks no more symbols of a whole block than a request of a closing round counts, what
/// is wanted then completes the block for it, whatever others asked, unless the sender dropped the block. With what the receiver holds, it
/// makes at least as many different symbols as the block has source symbols.
#[tactic(auto, using(crate::proofs::FreshRun::closing_run))]
pub fn closing_run()
    ensures { OfLawfulRuns ClosingCompletes }
{}

/// As a round closes, a request is read by the order as it was when the request came: it asks for the infos, symbols and counts of that
/// time, whatever was enqueued, written, cut or ended since.
#[tactic(auto, using(crate::proofs::AsItCame::as_it_came_law))]
pub fn requests_ask_as_they_came()
    ensures { AsksAsItCame }
{}

/// At each moment of each run, each request of the open round came by a NACK of this instance, and is read by the order as it was when that
/// NACK came.
#[tactic(auto, using(crate::proofs::RoundAsks::rounds_ask))]
pub fn rounds_ask_as_they_came()
    ensures { RoundsAskAsItCame }
{}

/// In each lawful run, coded repair is enough. If a NACK of a closing round counts missing symbols of a block, what is wanted then
/// completes that block, as far as it is closed, for the receiver that sent the NACK, whatever others asked, unless the sender dropped the
/// block. And if a wanted symbol was never sent, no receiver of the instance holds it.
#[tactic(auto, using(crate::proofs::RepairRun::repair_run))]
pub fn repair_run()
    ensures { OfLawfulRuns RepairSuffices }
{}

/// In lawful runs, a receiver acknowledges only what it handed up, with everything before.
///
/// And it does acknowledge what it handed up. Assume that it handed up everything before the end of an object or of a stream's segment,
/// lost nothing in that instance, and hears a flush of that position that names it. Then it owes an acknowledgement of this position or a
/// further one. It owes it whatever else it hears in this instance, and its next tick sends it.
#[tactic(auto, using(crate::proofs::Owing::acknowledge_run))]
pub fn acknowledge_run()
    ensures { AcknowledgeRun }
{}

/// A run is honest if it is lawful except that datagrams may be delivered too late. An honest run in which no instance has more than 32,768 objects
/// is lawful: nothing comes too late. If an honest run accepts at most 32,768 commands, no instance has more objects than that.
// 32,768 objects, because 16 bits of an id then still name every index that any node knows, however late a datagram comes.
#[tactic(auto, using(crate::proofs::InTime::time_laws))]
pub fn in_time()
    ensures { TimeLaws }
{}

/// What an event changes. Only an offer adds to what was offered. Only the sender's events change the sender, and they change no receiver. Each other
/// event changes no receiver except that of its node. The nodes stay those of the profile, in order. A take returns the next hand-up of its node's
/// receiver, or nothing if none is left.
// An offer of what no tick gave changes nothing, and a lawful run has none. So no law has to find a message in octets again.
#[tactic(auto, using(crate::proofs::WorldLemmas::world_laws))]
pub fn world_steps()
    ensures { WorldLaws }
{}

/// In each run, lawful or not, each file of an order has an info, which is its name.
#[tactic(auto, using(crate::proofs::FilesNamed::files_have_names))]
pub fn files_have_names()
    ensures { FilesHaveNamesInRuns }
{}

/// In each run, lawful or not, a node that never came to an instance handed up nothing of it.
#[tactic(auto, using(crate::proofs::RunLemmas::hands_begin))]
pub fn hands_begin()
    ensures { HandsBeginInRuns }
{}

/// In lawful runs, the current order up to its last closed source symbol is all that there is to hand up of it, except for the beginning of
/// a stream of which nothing is closed.
#[tactic(auto, using(crate::proofs::LastUptoLemmas::last_upto))]
pub fn last_upto()
    ensures { OfLawfulRuns LastUpto }
{}

/// A tail is a run from its world, and so are any of its turns. It has no more turns than its bound, and they are a step apart. What a node's
/// tick answers is what the node has to pass on. A tail is refused if and only if profile or sender are not as bounded recovery
/// presupposes.
#[tactic(auto, using(crate::proofs::TailLemmas::tail_laws))]
pub fn tails()
    ensures { TailLaws }
{}
