//! Laws about what is in the hands.

ghost use Rattle.turn_laws.specs.ObjectLaws.{FewInHands};

/// At most eight objects are in the hands, as a game begins and after each line.
#[tactic(auto, using(crate::proofs::Bounds::few_in_hands))]
pub fn few_in_hands()
    ensures { FewInHands }
{}
