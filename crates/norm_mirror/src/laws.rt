//! Laws of manifests and checks. Each law is the contract of a function that does nothing.

ghost use Rattle.norm_mirror.specs.Laws.{ManifestLaws, CheckLaws, DiffersLaw};

/// A manifest that is written reads back as itself, and octets that are read spell what was read.
#[tactic(auto, using(crate::proofs::SpellLemmas::manifest_laws))]
pub fn manifests()
    ensures { ManifestLaws }
{}

/// Hand-ups pass exactly if they are a manifest and then exactly its files.
#[tactic(auto, using(crate::proofs::CheckLemmas::check_laws))]
pub fn checks()
    ensures { CheckLaws }
{}

/// A file with another length or digest than the manifest says is refused, or something before it was.
#[tactic(auto, using(crate::proofs::DifferLemmas::differs_law))]
pub fn differs()
    ensures { DiffersLaw }
{}
