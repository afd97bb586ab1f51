//! Laws of the grammar of scripts, each as the contract of a function that does nothing. A function that needs a law calls it.

ghost use Rattle.std.specs.Prelude.{◌≡◌, ◌≤◌, ℕ, List, Ok, IfOk};
ghost use Rattle.norm_script.specs.Commands.{Commands};
ghost use Rattle.norm_script.specs.Generated.{generate_text, generated_script};
ghost use Rattle.norm_script.specs.OneScript.{OneScriptLaws};
ghost use Rattle.norm_script.specs.Reading.{script_of};
ghost use Rattle.norm_script.specs.Scripts.{IsScript, CanRun};
ghost use Rattle.norm_script.specs.Written.{script_octets};

/// A script that was read has a profile within its ranges, and commands that a session can be asked to do.
#[tactic(auto, using(crate::proofs::TakingLemmas::script_laws))]
pub fn reads_scripts()
    ensures { (text : List ℕ) → IfOk (script_of text) IsScript }
{}

/// Every script that can be read can be run. More can be run: scripts with contents of any length, also none, and other names and quorums.
#[tactic(auto, using(crate::proofs::RunLemmas::run_laws))]
pub fn scripts_can_run()
    ensures { (script : Commands) → IsScript script → CanRun script }
{}

/// A script that can be read reads back as itself after it is written out.
#[tactic(auto, using(crate::proofs::AgainLemmas::again_laws))]
pub fn reads_back()
    ensures { (script : Commands) → IsScript script → script_of (script_octets script) ≡ Ok script }
{}

/// The text that is generated reads as the script that it was made of, for every number of 32 bits.
#[tactic(auto, using(crate::proofs::GeneratedLemmas::generated_laws))]
pub fn reads_generated()
    ensures { (n : ℕ) → n ≤ 4294967295 → script_of (generate_text n) ≡ Ok (generated_script n) }
{}

/// The texts of one script differ only in comments, empty lines, the line feed of the last line, the case of hexadecimal digits, the order
/// of settings, and settings that repeat a default.
#[tactic(auto, using(crate::proofs::ValueLemmas::one_script_laws))]
pub fn texts_of_one()
    ensures { OneScriptLaws }
{}
