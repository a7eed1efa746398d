//! The text of a state.

ghost use Rattle.std.specs.Prelude.{◌≡◌, ◌++◌, OnOk};
ghost use Rattle.base_text.specs.Text.{Tells};
ghost use Rattle.play_state_text.specs.StateText.{state_text};

use crate::kind::{KINDS_BEFORE_PLACES, each_kind, put_facts};
use crate::places::put_places;
use crate::value::{Setting, put_number};
use base_text::Text;
use cave_data::Cave;
use cave_world::State;
use std::alloc::{AllocError, Global};
use world_objects::Objects;

/// How many turns led to a state, and the score there.
#[derive(Clone, Copy, Debug, PartialEq, Eq)]
pub struct Counts {
    pub turns: u32,
    pub score: u32,
}

#[tactic(auto, unfolding(crate::specs::StateText::state_text))]
fn put_state(text: &mut Text, setting: Setting<'_>, counts: Counts, state: &State)
    ensures { Tells (state_text setting.entry.cave.now setting.entry.begun.now counts.turns counts.score
        state.now) text.old text.new }
{
    let kinds = each_kind();
    let (before, after) = kinds.split_at(KINDS_BEFORE_PLACES);
    put_number(text, "turns", counts.turns);
    put_number(text, "score", counts.score);
    put_facts(text, setting, state, before);
    put_places(text, setting, &state.objects);
    put_facts(text, setting, state, after);
}

/// Appends the text of a state in a cave whose objects begin like this. No other state has that
/// text: see `are_told_apart`.
pub fn push_state(
    alloc: Global,
    text: &mut Vec<u8>,
    cave: &Cave,
    begun: &Objects,
    counts: Counts,
    state: &State,
) -> Result<(), AllocError>
    ensures { OnOk result (text.new.items ≡ text.old.items
        ++ state_text cave.now begun.now counts.turns counts.score state.now) }
{
    let mut told = Text::after(alloc, text);
    put_state(&mut told, Setting { cave, begun }, counts, state);
    told.give_to(text)
}
