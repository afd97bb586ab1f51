//! Promises about the statuses of failed calls. Each law is the contract of a function that does nothing. That no call failed means that their count
//! stayed as it was, and is below 2^64 - 1.

ghost use Rattle.norm_program.specs.Laws.{FourIsOfReads, FiveIsOfWrites, SixIsOfTheNetwork, SevenIsOfFiles};

/// If no read failed, the status is not 4.
#[tactic(auto, using(crate::proofs::LawLemmas::four_is_of_reads))]
pub fn four_is_of_reads()
    ensures { FourIsOfReads }
{}

/// If no write failed, the status is not 5.
#[tactic(auto, using(crate::proofs::LawLemmas::five_is_of_writes))]
pub fn five_is_of_writes()
    ensures { FiveIsOfWrites }
{}

/// If no call of the network failed, the status is not 6.
#[tactic(auto, using(crate::proofs::LawLemmas::six_is_of_the_network))]
pub fn six_is_of_the_network()
    ensures { SixIsOfTheNetwork }
{}

/// If no call of the files and no write failed, the last line at status 7 is `absent NAME`.
pub fn seven_is_of_files()
    ensures { SevenIsOfFiles }
{}
