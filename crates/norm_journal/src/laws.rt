//! What is promised of the judge. Each law is the contract of a function that does nothing.

ghost use Rattle.norm_journal.specs.Follows.{JudgesWhatFollows};
ghost use Rattle.norm_journal.specs.Said.{LinesReadBack};
ghost use Rattle.norm_journal.specs.Free.{OnlyTheseAreFree};
ghost use Rattle.norm_journal.specs.Calls.{CallsAreDue};
ghost use Rattle.norm_journal.specs.Counts.{JournalIsCounted};
ghost use Rattle.norm_journal.specs.GoingOn.{GoesOn};
ghost use Rattle.norm_journal.specs.Handed.{SaysTheHands};
ghost use Rattle.norm_journal.specs.Laws.{FrontsAreAccepted, FrontsArePrinted, FrontsHappen, PullsInOrder, WholeIsDone, EndsLast, MovesTheWorld, BeginsHonestly, BeginsLawfully, FilesGoByLength, OffersAreTheWorlds, TakesStayHonest, TakesStayDirect, CommandsAreEvents, CommandsAreOfObjects, ScriptsNameOnce};

/// Each prefix of an accepted journal is accepted.
#[tactic(auto, using(crate::proofs::FrontLemmas::fronts_accepted))]
pub fn fronts_are_accepted()
    ensures { FrontsAreAccepted }
{}

/// A journal prints the lines of its prefix, and then those of the rest.
#[tactic(auto, using(crate::proofs::FrontLemmas::fronts_printed))]
pub fn fronts_are_printed()
    ensures { FrontsArePrinted }
{}

/// The events of a journal in the nodes' world are those of its prefix, and then those of the rest.
#[tactic(auto, using(crate::proofs::FrontLemmas::fronts_happen))]
pub fn fronts_happen()
    ensures { FrontsHappen }
{}

/// In an accepted journal, the pulls of each producer are its first commands, in their order. The others are left to pull.
#[tactic(auto, using(crate::proofs::PullLemmas::pulls_in_order))]
pub fn pulls_in_order()
    ensures { PullsInOrder }
{}

/// If a run ended whole, nothing is left to do: no command to pull or to offer again, no open watermark, and the sender is idle.
#[tactic(auto, using(crate::proofs::FrontLemmas::whole_done))]
pub fn whole_is_done()
    ensures { WholeIsDone }
{}

/// A journal leaves the judge's nodes as its events leave them in their world.
#[tactic(auto, using(crate::proofs::WorldLemmas::moves_world))]
pub fn moves_the_world()
    ensures { MovesTheWorld }
{}

/// If the takes of a journal are honest, its events are an honest run of the nodes' world. It accepts at most as many commands as the script has. Each
/// command of the script must have a name of its own.
// Proof: a predicate on whatever the judge answers, with lemmas for None, a value, a test and a step.
#[tactic(auto, using(crate::proofs::LawfulLemmas::begins_honestly))]
pub fn begins_honestly()
    ensures { BeginsHonestly }
{}

/// If the takes of a session are honest, the nodes have a lawful run: nothing comes too late. The script must be one that can be run, and
/// the octets of files must be octets as they are read.
#[tactic(auto, using(crate::proofs::TimeLemmas::begins_lawfully))]
pub fn begins_lawfully()
    ensures { BeginsLawfully }
{}

/// Of a file, a sender's answer depends only on the name and the length.
// Proof: the rules are given zeros of the file's length (file_of_length), so they need no second function by lengths.
#[tactic(auto, using(crate::proofs::LengthLemmas::files_by_length))]
pub fn files_go_by_length()
    ensures { FilesGoByLength }
{}

/// What the nodes offered in their world is what the journal says was offered.
#[tactic(auto, using(crate::proofs::OfferedLemmas::offers_are_the_worlds))]
pub fn offers_are_the_worlds()
    ensures { OffersAreTheWorlds }
{}

/// What the journal says was handed up is what the nodes handed up in their world: for each node and instance, in the same order.
#[tactic(auto, using(crate::proofs::HandedLemmas::says_the_hands))]
pub fn says_the_hands()
    ensures { SaysTheHands }
{}

/// If the takes of a journal are honest and the next event is too, the takes of both together are honest.
#[tactic(auto, using(crate::proofs::FrontLemmas::takes_stay_honest))]
pub fn takes_stay_honest()
    ensures { TakesStayHonest }
{}

/// If the takes of a journal are direct and the next event is too, the takes of both together are direct.
#[tactic(auto, using(crate::proofs::FrontLemmas::takes_stay_direct))]
pub fn takes_stay_direct()
    ensures { TakesStayDirect }
{}

/// Each event comes by the call of the outside that is due, and by none if none is.
pub fn calls_are_due()
    ensures { CallsAreDue }
{}

/// Each command reaches the sender as one that a program can make: its octets are octets, and an instance id has 16 bits. Those of files must be octets
/// as they are read.
#[tactic(auto, using(crate::proofs::OctetLemmas::commands_are_events))]
pub fn commands_are_events()
    ensures { CommandsAreEvents }
{}

/// If no line of a script is of a stream, the nodes have a run of data and files alone.
#[tactic(auto, using(crate::proofs::ObjectLemmas::commands_are_of_objects))]
pub fn commands_are_of_objects()
    ensures { CommandsAreOfObjects }
{}

/// If a run whose nodes are receivers of the profile has no ending yet, some event may come.
#[tactic(auto, using(crate::proofs::GoingLemmas::goes_on))]
pub fn goes_on()
    ensures { GoesOn }
{}

/// In a script that can be run, no two commands have the same producer and number.
// Proof: that a name stands once is a count, so a line from the middle of a list is arithmetic.
pub fn scripts_name_once()
    ensures { ScriptsNameOnce }
{}

/// The summary comes only after the last turn, and nothing comes after it.
pub fn ends_last()
    ensures { EndsLast }
{}

/// The judge accepts an event and leads to a state if and only if the event may come and leads there.
// Proof: relation and judge are one record of both directions (Exactly). An abbrev would leave its P undetermined.
#[tactic(auto, using(crate::proofs::FollowLemmas::judges_what_follows))]
pub fn judges_what_follows()
    ensures { JudgesWhatFollows }
{}

/// If two events print the same line, they say the same.
// Proof: a reader of words that only the proof has needs a case for each line, not for each pair.
pub fn lines_read_back()
    ensures { LinesReadBack }
{}

/// The counts of the summary are those of what the journal says.
#[tactic(auto, using(crate::proofs::CountLemmas::journal_is_counted))]
pub fn journal_is_counted()
    ensures { JournalIsCounted }
{}

/// If two events may come after the same state, they are the same event or both are free: `specs/Free` lists what the outside decides.
pub fn only_these_are_free()
    ensures { OnlyTheseAreFree }
{}
