//! The rows of what counts and what costs.

ghost use Rattle.std.specs.Prelude.{◌≡◌, ◌-◌, ◌≤◌, [], if◌then◌else◌};
ghost use Rattle.std.specs.List.{flat_map};
ghost use Rattle.base_text.specs.Text.{Tells};
ghost use Rattle.turn_scene.specs.Scene.{cave_of};
ghost use Rattle.turn_scene.specs.Treasures.{is_known};
ghost use Rattle.turn_ends.specs.Score.{most_by, score_row, is_seen, is_safe, treasure_rows, worth};
ghost use Rattle.play_tables.specs.ScoreRows.{treasure_row, treasure_rows_of, other_rows_of};
ghost use Rattle.play_tables.specs.ScoreRows.{hint_cost, hint_score_row, cave_has_hint};
ghost use Rattle.play_tables.specs.ScoreRows.{hint_rows_of};
ghost use Rattle.play_tables.specs.ScoreTable.{row_text, other_text};

use crate::score_names::{name_of, put_named_text};
use base_text::Text;
use cave_data::Cave;
use cave_world::hints::HINTS;
use cave_world::{HintNumber, LIVES, State};
use turn_ends::Scorer;
use turn_ends::scores::{
    POINTS_OF_CLOSING, POINTS_OF_DWARVES, POINTS_OF_ENDING, POINTS_OF_LIFE, POINTS_OF_MAGAZINE,
    POINTS_OF_PLAYING, POINTS_OF_SUCCESS, closed_points, closing_points, dwarf_points,
    ending_points, life_points, magazine_points, price_of,
};
use turn_ends::treasures::{POINTS_OF_SEEING, is_safe, is_seen};
use turn_ends::worths::worth;
use turn_scene::treasures::{FIRST_TREASURE, LAST_TREASURE};
use turn_scene::{Rules, is_known};
use world_objects::Object;

/// What a treasure counts if it was found.
fn found_points(state: &State, treasure: Object) -> u32
    ensures { result ≡ (score_row 2 (is_seen treasure)).points state.now }
{
    if is_seen(state, treasure) {
        POINTS_OF_SEEING
    } else {
        0
    }
}

/// What more a treasure counts if it is at home.
fn home_points(rules: &Rules<'_>, state: &State, treasure: Object) -> u32
    ensures value { let cave = cave_of rules.now in
        result ≡ (score_row (worth cave treasure - 2) (is_safe cave treasure)).points state.now }
    ensures most { result ≤ 14 }
{
    if is_safe(rules.cave, state, treasure) {
        worth(&Scorer::of(rules), treasure) - POINTS_OF_SEEING
    } else {
        0
    }
}

/// The most that a treasure counts.
#[tactic(auto, unfolding(turn_ends::specs::Score::treasure_rows))]
fn most_points(rules: &Rules<'_>, treasure: Object) -> u32
    ensures { result ≡ most_by (treasure_rows (cave_of rules.now) treasure) }
{
    worth(&Scorer::of(rules), treasure)
}

/// Writes the row of a treasure.
#[tactic(auto, unfolding(turn_ends::specs::Score::treasure_rows))]
fn put_treasure(text: &mut Text, rules: &Rules<'_>, state: &State, treasure: Object)
    ensures { Tells (row_text (treasure_row (cave_of rules.now) state.now treasure)) text.old
        text.new }
{
    let name = name_of(rules.cave, treasure);
    put_named_text(text, "treasure ", u16::from(treasure.number()), name);
    let found = found_points(state, treasure);
    let home = home_points(rules, state, treasure);
    let points = found + home;
    let most = most_points(rules, treasure);
    write!(text, "\t{found}\t{home}\t{points}\t{most}\n");
}

/// Writes the row of a treasure, if the cave knows it.
fn put_if_known(text: &mut Text, rules: &Rules<'_>, state: &State, treasure: Object)
    ensures { Tells (if is_known (cave_of rules.now) treasure
        then row_text (treasure_row (cave_of rules.now) state.now treasure) else []) text.old
        text.new }
{
    if is_known(rules.cave, treasure) {
        put_treasure(text, rules, state, treasure);
    }
}

/// Writes the rows of the treasures that the cave knows.
#[tactic(auto, using(crate::proofs::ScoreWalking::treasures_walked))]
pub(crate) fn put_treasures(text: &mut Text, rules: &Rules<'_>, state: &State)
    ensures { Tells (flat_map row_text (treasure_rows_of (cave_of rules.now) state.now)) text.old
        text.new }
{
    for number in FIRST_TREASURE..LAST_TREASURE + 1 {
        let treasure = Object::new(number);
        put_if_known(text, rules, state, treasure);
    }
}

/// Writes a row without parts.
#[tactic(auto, unfolding(crate::specs::ScoreTable::other_text))]
pub(crate) fn put_other(text: &mut Text, name: &str, points: u32, most: u32)
    ensures { Tells (other_text name.now points most) text.old text.new }
{
    write!(text, "{name}\t-\t-\t{points}\t{most}\n");
}

/// What the lives count if no death has taken one.
fn most_life_points() -> u32
    ensures { result ≡ 30 }
{
    u32::from(LIVES) * POINTS_OF_LIFE
}

/// Writes the rows of what counts apart from treasures.
pub(crate) fn put_others(text: &mut Text, rules: &Rules<'_>, state: &State)
    ensures { Tells (flat_map row_text (other_rows_of (cave_of rules.now) state.now)) text.old
        text.new }
{
    put_other(text, "lives", life_points(state), most_life_points());
    put_other(text, "ending", ending_points(state), POINTS_OF_ENDING);
    put_other(text, "dwarves", dwarf_points(state), POINTS_OF_DWARVES);
    put_other(text, "closing", closing_points(state), POINTS_OF_CLOSING);
    put_other(text, "closed", closed_points(state), POINTS_OF_SUCCESS);
    let magazine = magazine_points(&Scorer::of(rules), state);
    put_other(text, "magazine", magazine, POINTS_OF_MAGAZINE);
    put_other(text, "playing", POINTS_OF_PLAYING, POINTS_OF_PLAYING);
}

/// What a hint costs if it was taken.
fn hint_cost(cave: &Cave, state: &State, hint: HintNumber) -> u32
    ensures value { result ≡ hint_cost cave.now state.now hint }
    ensures most { result ≤ 65535 }
{
    if state.is_hint_taken(hint) {
        price_of(cave, u16::from(hint.number()))
    } else {
        0
    }
}

/// Writes the row of a hint.
fn put_hint(text: &mut Text, cave: &Cave, state: &State, hint: HintNumber)
    ensures { Tells (row_text (hint_score_row cave.now state.now hint)) text.old text.new }
{
    let number = hint.number();
    let points = -i64::from(hint_cost(cave, state, hint));
    let most = -i64::from(price_of(cave, u16::from(number)));
    write!(text, "hint {number}\t-\t-\t{points}\t{most}\n");
}

/// Writes the row of a hint, if the cave has it.
fn put_if_any(text: &mut Text, cave: &Cave, state: &State, hint: HintNumber)
    ensures { Tells (if cave_has_hint cave.now hint
        then row_text (hint_score_row cave.now state.now hint) else []) text.old text.new }
{
    if cave.hint(u16::from(hint.number())).is_some() {
        put_hint(text, cave, state, hint);
    }
}

/// Writes the rows of the hints that the cave has.
#[tactic(auto, using(crate::proofs::ScoreWalking::hints_walked))]
pub(crate) fn put_hints(text: &mut Text, cave: &Cave, state: &State)
    ensures { Tells (flat_map row_text (hint_rows_of cave.now state.now)) text.old text.new }
{
    for number in 1..HINTS as u8 + 1 {
        let hint = HintNumber::new(number);
        put_if_any(text, cave, state, hint);
    }
}
