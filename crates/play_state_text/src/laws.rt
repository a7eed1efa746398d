//! A law about the text of a state. It is the contract of a function that changes nothing.

ghost use Rattle.play_state_text.specs.StateText.{AreToldApart};

use crate::kind::are_facts_within;
use cave_data::Cave;
use cave_world::State;
use world_objects::Objects;

/// Two states of one cave have the same text only if they are the same state.
pub fn are_told_apart(cave: &Cave, begun: &Objects, first: &State, second: &State)
    ensures { AreToldApart cave.now begun.now first.now second.now }
{
    are_facts_within(first);
    are_facts_within(second);
}
