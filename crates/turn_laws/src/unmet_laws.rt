//! Laws about what no game reaches. Each is the contract of a function that does nothing.

ghost use Rattle.turn_laws.specs.Missing.{ClosesBetweenPlaces, LackedHintsComeToNothing};
ghost use Rattle.turn_laws.specs.Missing.{NoClassWantsPoints, NoWayHasAnEnd};
ghost use Rattle.turn_laws.specs.Unmet.{InputHasAWord, NoObjectIsAbove};

/// Input has a first word, so no command is without one.
#[tactic(auto, using(crate::proofs::WordLines::input_has_a_word))]
pub fn input_has_a_word()
    ensures { InputHasAWord }
{}

/// In a cave that was read, neither a word that is said nor a name of a rule is that of an object
/// above the last.
pub fn no_object_is_above()
    ensures { NoObjectIsAbove }
{}

/// A hint that the cave lacks isn't waited for, has no price and gives nothing.
pub fn lacked_hints_come_to_nothing()
    ensures { LackedHintsComeToNothing }
{}

/// If a score has no class, no points are asked for the next one.
#[tactic(auto, using(crate::proofs::Missing::no_class_wants_points))]
pub fn no_class_wants_points()
    ensures { NoClassWantsPoints }
{}

/// If the narrow passage, or the bridge, leads nowhere, the player stays.
#[tactic(auto, using(crate::proofs::Missing::no_way_has_an_end))]
pub fn no_way_has_an_end()
    ensures { NoWayHasAnEnd }
{}

/// The cave is closed only if both ends of the repository are places.
pub fn closes_between_places()
    ensures { ClosesBetweenPlaces }
{}
