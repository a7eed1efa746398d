//! What follows from the numbers of verbs: a law's function does nothing.
ghost use Rattle.cave_verbs.specs.Verbs.{VerbsAreNumbered};

/// Each verb is the one of its number.
#[tactic(auto, using(crate::proofs::Numbered::verbs_are_numbered))]
pub fn verbs_are_numbered()
    ensures { VerbsAreNumbered }
{}
