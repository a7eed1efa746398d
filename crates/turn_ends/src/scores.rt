ghost use Rattle.std.specs.Prelude.{◌≡◌, ◌≤◌, ◌<◌};
ghost use Rattle.turn_ends.specs.Score.{scored_cave, points_by, score_row, life_points};
ghost use Rattle.turn_ends.specs.Score.{has_other_end, has_dwarves_up, is_closing, escape_points};
ghost use Rattle.turn_ends.specs.Score.{closed_points, lies_at, has_magazine_there, score_rows};
ghost use Rattle.turn_ends.specs.Score.{price_of, hint_costs, score_of, max_score_of};
ghost use Rattle.turn_ends.specs.Score.{END_OF_SCORES};

use crate::scorer::Scorer;
use crate::treasures::treasure_points;
use crate::worths::most_treasure_points;
use cave_data::Cave;
use cave_world::hints::HINTS;
use cave_world::{Ending, HintNumber, LIVES, State};
use data_rows::PlaceRole;
use turn_scene::place_named;
use world_objects::{Object, Place};

/// How many points each remaining life counts.
pub const POINTS_OF_LIFE: u32 = 10;

/// How many points it counts that a game ended in another way than by quitting.
pub const POINTS_OF_ENDING: u32 = 4;

/// How many points it counts that the dwarves are awake.
pub const POINTS_OF_DWARVES: u32 = 25;

/// How many points it counts that the cave is closing.
pub const POINTS_OF_CLOSING: u32 = 25;

/// The most points that it counts that the cave closed.
pub const POINTS_OF_SUCCESS: u32 = 45;

/// How many points it counts that the player got out of the closed cave the wrong way.
const POINTS_OF_WRONG_WAY: u32 = 30;

/// How many points it counts that the player blew up the closed cave, and the player with it.
const POINTS_OF_KLUTZ: u32 = 25;

/// How many points it counts that the cave closed, if the game went on or ended in another way.
const POINTS_OF_CLOSED: u32 = 10;

/// How many points it counts that the magazine is at its place.
pub const POINTS_OF_MAGAZINE: u32 = 1;

/// How many points each game counts.
pub const POINTS_OF_PLAYING: u32 = 2;

/// How many points the remaining lives count.
pub fn life_points(state: &State) -> u32
    ensures value { result ≡ life_points state.now }
    ensures most { result ≤ 30 }
{
    POINTS_OF_LIFE * u32::from(LIVES - state.tallies.deaths.number())
}

/// How many points it counts that a game has ended in another way than by quitting.
pub fn ending_points(state: &State) -> u32
    ensures value { result ≡ (score_row 4 has_other_end).points state.now }
    ensures most { result ≤ 4 }
{
    match state.ending {
        None | Some(Ending::Quit) => 0,
        Some(Ending::Killed | Ending::Klutz | Ending::WrongWay | Ending::Success) => {
            POINTS_OF_ENDING
        }
    }
}

/// How many points it counts that the dwarves aren't asleep.
pub fn dwarf_points(state: &State) -> u32
    ensures value { result ≡ (score_row 25 has_dwarves_up).points state.now }
    ensures most { result ≤ 25 }
{
    if state.dwarves.anger.number() == 0 {
        0
    } else {
        POINTS_OF_DWARVES
    }
}

/// How many points it counts that the cave is closing.
pub fn closing_points(state: &State) -> u32
    ensures value { result ≡ (score_row 25 is_closing).points state.now }
    ensures most { result ≤ 25 }
{
    if state.closing.is_closing {
        POINTS_OF_CLOSING
    } else {
        0
    }
}

/// How many points it counts to have got out of the closed cave, or to be in it.
fn escape_points(ending: Option<Ending>) -> u32
    ensures value { result ≡ escape_points ending }
    ensures most { result ≤ 45 }
{
    match ending {
        Some(Ending::Success) => POINTS_OF_SUCCESS,
        Some(Ending::WrongWay) => POINTS_OF_WRONG_WAY,
        Some(Ending::Klutz) => POINTS_OF_KLUTZ,
        None | Some(Ending::Quit | Ending::Killed) => POINTS_OF_CLOSED,
    }
}

/// How many points it counts that the cave is closed.
pub fn closed_points(state: &State) -> u32
    ensures value { result ≡ closed_points state.now }
    ensures most { result ≤ 45 }
{
    if state.closing.is_closed {
        escape_points(state.ending)
    } else {
        0
    }
}

fn lies_at(state: &State, object: Object, place: Option<Place>) -> bool
    ensures { result ≡ lies_at state.now object place }
{
    match place {
        Some(place) => state.objects.is_first_at(place, object),
        None => false,
    }
}

/// How many points it counts that the magazine is at its place.
pub fn magazine_points(scorer: &Scorer<'_>, state: &State) -> u32
    ensures value { result
        ≡ (score_row 1 (has_magazine_there (scored_cave scorer.now))).points state.now }
    ensures most { result ≤ 1 }
{
    let witt = place_named(scorer.cave, PlaceRole::Witt);
    if lies_at(state, scorer.magazine, witt) {
        POINTS_OF_MAGAZINE
    } else {
        0
    }
}

/// How many points a state counts before hints are paid for.
#[tactic(auto, unfolding(crate::specs::Score::score_rows))]
fn score_points(scorer: &Scorer<'_>, state: &State) -> u32
    ensures value { result ≡ points_by (score_rows (scored_cave scorer.now)) state.now }
    ensures most { result ≤ 612 }
{
    treasure_points(scorer, state)
        + life_points(state)
        + ending_points(state)
        + dwarf_points(state)
        + closing_points(state)
        + closed_points(state)
        + magazine_points(scorer, state)
        + POINTS_OF_PLAYING
}

/// How many points a hint costs.
#[tactic(auto, unfolding(crate::specs::Score::price_of))]
pub fn price_of(cave: &Cave, hint: u16) -> u32
    ensures value { result ≡ price_of cave.now hint }
    ensures most { result ≤ 65535 }
{
    match cave.hint(hint) {
        Some(row) => u32::from(row.points),
        None => 0,
    }
}

#[tactic(auto, using(crate::proofs::Sums::costs))]
fn hint_costs(cave: &Cave, state: &State) -> u32
    ensures { result ≡ hint_costs cave.now state.now }
{
    let mut costs = 0;
    for hint in 1..HINTS as u8 + 1 {
        if state.is_hint_taken(HintNumber::new(hint)) {
            costs += price_of(cave, u16::from(hint));
        }
    }
    costs
}

/// The score of a state, by a scorer that its caller keeps.
#[tactic(auto, using(crate::proofs::Most::most), unfolding(crate::specs::Score::score_of))]
pub fn score_by(scorer: &Scorer<'_>, state: &State) -> u32
    ensures value { result ≡ score_of (scored_cave scorer.now) state.now }
    ensures most { result ≤ max_score_of (scored_cave scorer.now) }
    ensures small { result < END_OF_SCORES }
{
    score_points(scorer, state).saturating_sub(hint_costs(scorer.cave, state))
}

/// The greatest score that a game of a cave can have, by its scorer.
#[tactic(auto, unfolding(crate::specs::Score::max_score_of, crate::specs::Score::score_rows))]
pub fn max_score_by(scorer: &Scorer<'_>) -> u32
    ensures value { result ≡ max_score_of (scored_cave scorer.now) }
    ensures small { result < END_OF_SCORES }
{
    most_treasure_points(scorer)
        + u32::from(LIVES) * POINTS_OF_LIFE
        + POINTS_OF_ENDING
        + POINTS_OF_DWARVES
        + POINTS_OF_CLOSING
        + POINTS_OF_SUCCESS
        + POINTS_OF_MAGAZINE
        + POINTS_OF_PLAYING
}

/// The score of a state of a game in a cave.
pub fn score(cave: &Cave, state: &State) -> u32
    ensures value { result ≡ score_of cave.now state.now }
    ensures most { result ≤ max_score_of cave.now }
    ensures small { result < END_OF_SCORES }
{
    score_by(&Scorer::in_cave(cave), state)
}

/// The greatest score that a game in a cave can have.
pub fn max_score(cave: &Cave) -> u32
    ensures value { result ≡ max_score_of cave.now }
    ensures small { result < END_OF_SCORES }
{
    max_score_by(&Scorer::in_cave(cave))
}
