ghost use Rattle.std.specs.Prelude.{◌≡◌, ◌≤◌};
ghost use Rattle.turn_ends.specs.Score.{scored_cave, most_by, worth, treasure_rows, treasures_row};

use crate::scorer::Scorer;
use turn_scene::is_known;
use turn_scene::treasures::{FIRST_TREASURE, LAST_TREASURE};
use world_objects::Object;

/// What a treasure is worth if its number is below the chest's, or if there is no chest.
const WORTH_BEFORE_CHEST: u32 = 12;

/// What the chest is worth.
const WORTH_OF_CHEST: u32 = 14;

/// What a treasure is worth if its number is above the chest's.
const WORTH_AFTER_CHEST: u32 = 16;

/// What a treasure is worth: more than the chest after it, less before it.
#[tactic(auto, unfolding(crate::specs::Score::worth, crate::specs::Score::treasure_rows))]
pub fn worth(scorer: &Scorer<'_>, treasure: Object) -> u32
    ensures value { result ≡ worth (scored_cave scorer.now) treasure }
    ensures whole { most_by (treasure_rows (scored_cave scorer.now) treasure) ≡ result }
    ensures least { 12 ≤ result }
    ensures most { result ≤ 16 }
{
    let chest = scorer.chest;
    if chest.is_none() || treasure.number() < chest.number() {
        WORTH_BEFORE_CHEST
    } else if treasure == chest {
        WORTH_OF_CHEST
    } else {
        WORTH_AFTER_CHEST
    }
}

/// The most that the treasures of a cave can count.
#[tactic(auto, using(crate::proofs::Sums::worths))]
pub fn most_treasure_points(scorer: &Scorer<'_>) -> u32
    ensures value { result ≡ (treasures_row (scored_cave scorer.now)).most }
    ensures most { result ≤ 480 }
{
    let mut points = 0;
    for number in FIRST_TREASURE..LAST_TREASURE + 1 {
        let treasure = Object::new(number);
        if is_known(scorer.cave, treasure) {
            points += worth(scorer, treasure);
        }
    }
    points
}
