ghost use Rattle.std.specs.Prelude.{◌≡◌, ◌≤◌};
ghost use Rattle.turn_ends.specs.Score.{scored_cave, points_by, is_seen, is_safe, treasure_rows};
ghost use Rattle.turn_ends.specs.Score.{treasures_row};

use crate::scorer::Scorer;
use crate::worths::worth;
use cave_data::Cave;
use cave_world::State;
use turn_scene::props::SEEN;
use turn_scene::treasures::{FIRST_TREASURE, LAST_TREASURE};
use turn_scene::{building_place, has_prop, is_known};
use world_objects::Object;

/// How many points a treasure counts once it was seen.
pub const POINTS_OF_SEEING: u32 = 2;

/// Whether a treasure was seen.
pub fn is_seen(state: &State, treasure: Object) -> bool
    ensures { result ≡ is_seen treasure state.now }
{
    state.objects.prop(treasure).value() >= 0
}

/// Whether a treasure is in the building, as whole as it was found.
pub fn is_safe(cave: &Cave, state: &State, treasure: Object) -> bool
    ensures { result ≡ is_safe cave.now treasure state.now }
{
    let building = building_place(cave);
    state.objects.is_first_at(building, treasure) && has_prop(state, treasure, SEEN)
}

/// How many points a treasure counts.
#[tactic(auto, unfolding(crate::specs::Score::treasure_rows))]
fn points_of_treasure(scorer: &Scorer<'_>, state: &State, treasure: Object) -> u32
    ensures value { result
        ≡ points_by (treasure_rows (scored_cave scorer.now) treasure) state.now }
    ensures most { result ≤ 16 }
{
    let seen = if is_seen(state, treasure) {
        POINTS_OF_SEEING
    } else {
        0
    };
    let safe = if is_safe(scorer.cave, state, treasure) {
        worth(scorer, treasure) - POINTS_OF_SEEING
    } else {
        0
    };
    seen + safe
}

/// How many points the known treasures count.
#[tactic(auto, using(crate::proofs::Sums::points))]
pub fn treasure_points(scorer: &Scorer<'_>, state: &State) -> u32
    ensures value { result ≡ (treasures_row (scored_cave scorer.now)).points state.now }
    ensures most { result ≤ 480 }
{
    let mut points = 0;
    for number in FIRST_TREASURE..LAST_TREASURE + 1 {
        let treasure = Object::new(number);
        if is_known(scorer.cave, treasure) {
            points += points_of_treasure(scorer, state, treasure);
        }
    }
    points
}
