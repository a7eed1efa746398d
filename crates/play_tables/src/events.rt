//! What happened at a line of a log, by the states before and after it.

ghost use Rattle.std.specs.Prelude.{◌≡◌};
ghost use Rattle.std.specs.List.{list_any, range_with_len};
ghost use Rattle.turn_scene.specs.Scene.{cave_of};
ghost use Rattle.base_lines.specs.Numbers.{LAST_HINT};
ghost use Rattle.turn_scene.specs.Treasures.{treasures};
ghost use Rattle.play_tables.specs.Events.{asks_revival, is_ended_killed, is_dead, is_hint_new};
ghost use Rattle.play_tables.specs.Events.{are_dwarves_woken, is_dwarf_new, is_dwarf_killed};
ghost use Rattle.play_tables.specs.Events.{is_new_at, is_hoard_richer, is_treasure_found};
ghost use Rattle.play_tables.specs.Events.{is_brought_home, each_event, event_happens, event_name};

use cave_world::hints::HINTS;
use cave_world::{Ending, HintNumber, Question, State};
use data_rows::PlaceRole;
use turn_ends::treasures::{is_safe, is_seen};
use turn_scene::treasures::{FIRST_TREASURE, LAST_TREASURE};
use turn_scene::{Rules, is_dwarf_here, is_known, place_named};
use world_objects::{Object, Place};

/// What may happen at a line.
#[derive(Clone, Copy, Debug, PartialEq, Eq)]
pub enum Event {
    /// The player died.
    Died,
    /// The player came back from death.
    Revived,
    /// A hint was taken.
    Hint,
    /// The dwarves woke, or one came to the player or was killed.
    Dwarf,
    /// The pirate took treasures, or hid its chest.
    Pirate,
    /// The cave began to close.
    Closing,
    /// The cave closed.
    Closed,
    /// A treasure was seen for the first time.
    TreasureFound,
    /// A treasure was brought home.
    TreasureHome,
}

fn asks_revival(question: Option<Question>) -> bool
    ensures { result ≡ asks_revival question }
{
    matches!(question, Some(Question::Die))
}

fn is_ended_killed(ending: Option<Ending>) -> bool
    ensures { result ≡ is_ended_killed ending }
{
    matches!(ending, Some(Ending::Killed))
}

fn is_dead(state: &State) -> bool
    ensures { result ≡ is_dead state.now }
{
    asks_revival(state.question) || is_ended_killed(state.ending)
}

fn is_hint_new(before: &State, after: &State, hint: HintNumber) -> bool
    ensures { result ≡ is_hint_new before.now after.now hint }
{
    after.is_hint_taken(hint) && !before.is_hint_taken(hint)
}

#[tactic(auto, using(crate::proofs::Walking::hints_walked))]
fn is_some_hint_new(before: &State, after: &State) -> bool
    ensures { result ≡ list_any (is_hint_new before.now after.now) (range_with_len 1 LAST_HINT) }
{
    for hint in 1..HINTS as u8 + 1 {
        if is_hint_new(before, after, HintNumber::new(hint)) {
            return true;
        }
    }
    false
}

fn are_dwarves_woken(before: &State, after: &State) -> bool
    ensures { result ≡ are_dwarves_woken before.now after.now }
{
    before.dwarves.anger.number() < 2 && 2 <= after.dwarves.anger.number()
}

fn is_dwarf_new(before: &State, after: &State) -> bool
    ensures { result ≡ is_dwarf_new before.now after.now }
{
    is_dwarf_here(after) && !is_dwarf_here(before)
}

fn is_dwarf_killed(before: &State, after: &State) -> bool
    ensures { result ≡ is_dwarf_killed before.now after.now }
{
    before.dwarves.kills.number() < after.dwarves.kills.number()
}

fn is_new_at(place: Place, before: &State, after: &State, object: Object) -> bool
    ensures { result ≡ is_new_at place before.now after.now object }
{
    after.objects.is_first_at(place, object) && !before.objects.is_first_at(place, object)
}

#[tactic(auto, using(crate::proofs::Walking::treasures_walked))]
fn is_treasure_new_at(place: Place, before: &State, after: &State) -> bool
    ensures { result ≡ list_any (is_new_at place before.now after.now) treasures }
{
    for number in FIRST_TREASURE..LAST_TREASURE + 1 {
        if is_new_at(place, before, after, Object::new(number)) {
            return true;
        }
    }
    false
}

/// Whether a treasure came to the place of the pirate's chest, while the player isn't there.
fn is_hoard_richer(hoard: Option<Place>, before: &State, after: &State) -> bool
    ensures { result ≡ is_hoard_richer hoard before.now after.now }
{
    match hoard {
        Some(hoard) => after.trail.here != hoard && is_treasure_new_at(hoard, before, after),
        None => false,
    }
}

fn is_found(rules: &Rules<'_>, before: &State, after: &State, object: Object) -> bool
    ensures { result ≡ is_treasure_found (cave_of rules.now) before.now after.now object }
{
    is_known(rules.cave, object) && (is_seen(after, object) && !is_seen(before, object))
}

#[tactic(auto, using(crate::proofs::Walking::treasures_walked))]
fn is_some_found(rules: &Rules<'_>, before: &State, after: &State) -> bool
    ensures { result
        ≡ list_any (is_treasure_found (cave_of rules.now) before.now after.now) treasures }
{
    for number in FIRST_TREASURE..LAST_TREASURE + 1 {
        if is_found(rules, before, after, Object::new(number)) {
            return true;
        }
    }
    false
}

fn is_brought_home(rules: &Rules<'_>, before: &State, after: &State, object: Object) -> bool
    ensures { result ≡ is_brought_home (cave_of rules.now) before.now after.now object }
{
    is_known(rules.cave, object)
        && (is_safe(rules.cave, after, object) && !is_safe(rules.cave, before, object))
}

#[tactic(auto, using(crate::proofs::Walking::treasures_walked))]
fn is_some_brought_home(rules: &Rules<'_>, before: &State, after: &State) -> bool
    ensures { result
        ≡ list_any (is_brought_home (cave_of rules.now) before.now after.now) treasures }
{
    for number in FIRST_TREASURE..LAST_TREASURE + 1 {
        if is_brought_home(rules, before, after, Object::new(number)) {
            return true;
        }
    }
    false
}

/// Whether an event happened between two states.
pub fn happens(rules: &Rules<'_>, before: &State, after: &State, event: Event) -> bool
    ensures { result ≡ event_happens (cave_of rules.now) before.now after.now event }
{
    match event {
        Event::Died => is_dead(after) && !is_dead(before),
        Event::Revived => is_dead(before) && !is_dead(after),
        Event::Hint => is_some_hint_new(before, after),
        Event::Dwarf => {
            are_dwarves_woken(before, after)
                || (is_dwarf_new(before, after) || is_dwarf_killed(before, after))
        }
        Event::Pirate => {
            is_hoard_richer(place_named(rules.cave, PlaceRole::Chest), before, after)
        }
        Event::Closing => after.closing.is_closing && !before.closing.is_closing,
        Event::Closed => after.closing.is_closed && !before.closing.is_closed,
        Event::TreasureFound => is_some_found(rules, before, after),
        Event::TreasureHome => is_some_brought_home(rules, before, after),
    }
}

pub fn event_name(event: Event) -> &'static str
    ensures { result.now ≡ event_name event }
{
    match event {
        Event::Died => "died",
        Event::Revived => "revived",
        Event::Hint => "hint",
        Event::Dwarf => "dwarf",
        Event::Pirate => "pirate",
        Event::Closing => "closing",
        Event::Closed => "closed",
        Event::TreasureFound => "treasure found",
        Event::TreasureHome => "treasure home",
    }
}

/// All events, in the order in which they are told.
pub fn each_event() -> [Event; 9]
    ensures { result ≡ each_event }
{
    [
        Event::Died,
        Event::Revived,
        Event::Hint,
        Event::Dwarf,
        Event::Pirate,
        Event::Closing,
        Event::Closed,
        Event::TreasureFound,
        Event::TreasureHome,
    ]
}
