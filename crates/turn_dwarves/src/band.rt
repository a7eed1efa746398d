//! The six dwarves by their numbers from 0, and how angry they are. The last is the pirate.

ghost use Rattle.std.specs.Prelude.{◌≡◌, ◌<◌, ◌≤◌};
ghost use Rattle.turn_scene.specs.Effects.{Changes};
ghost use Rattle.turn_dwarves.specs.Band.{dwarf_of, with_dwarf, with_anger};
ghost use Rattle.cave_world.specs.Limits.{MAX_ANGER, dwarf_count};

use cave_world::{Count, Dwarf, RowNotes, State};
use turn_scene::Scene;

/// The dwarf with a number.
#[tactic(auto, unfolding(crate::specs::Band::dwarf_of))]
pub fn dwarf_of(state: &State, number: usize) -> Dwarf
    requires { number < dwarf_count }
    ensures { result ≡ dwarf_of state.now number }
{
    state.dwarves.each[number]
}

/// Changes the dwarf with a number.
#[tactic(auto, unfolding(crate::specs::Band::with_dwarf))]
pub fn set_dwarf(number: usize, dwarf: &Dwarf, state: &mut State)
    requires { number < dwarf_count }
    ensures { state.new ≡ with_dwarf number dwarf.now state.old }
{
    state.dwarves.each[number] = *dwarf;
}

/// The dwarves are this angry from now on.
pub fn set_anger<N: RowNotes>(degree: u16, scene: &mut Scene<'_, N>)
    requires { degree ≤ MAX_ANGER }
    ensures { Changes N.rows (with_anger degree) scene.old scene.new }
{
    scene.state.dwarves.anger = Count::new(degree);
}
