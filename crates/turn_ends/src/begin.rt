ghost use Rattle.std.specs.Prelude.{◌≡◌, ℕ, ◌≤◌, ◌≤ℤ◌, length, pos};
ghost use Rattle.world_objects.specs.Lists.{halves_at};
ghost use Rattle.world_objects.specs.Objects.{after_move_to, with_anchor, unplaced_objects};
ghost use Rattle.turn_scene.specs.Homes.{anchor_by};
ghost use Rattle.turn_ends.specs.Begin.{is_placed_now, objects_due, starting_objects};
ghost use Rattle.turn_ends.specs.Begin.{dwarf_by_role, starting_dwarves, start_list, begun_state};
ghost use Rattle.turn_ends.specs.Placing.{after_placing_all, after_hiding_treasures};
ghost use Rattle.turn_scene.specs.Treasures.{known_treasures};
ghost use Rattle.base_lines.specs.Numbers.{LAST_PLACE};

use cave_data::Cave;
use cave_words::Stream;
use cave_world::{Count, DWARVES, Dwarf, MAX_TREASURES, State};
use data_rows::PlaceRole;
use turn_scene::homes::anchor_by;
use turn_scene::props::UNSEEN;
use turn_scene::treasures::{FIRST_TREASURE, LAST_TREASURE};
use turn_scene::{place_named, start_place};
use world_objects::object::OBJECTS;
use world_objects::{Anchor, Object, Objects, Place, Prop};

/// Whether an object is put with those that have two places, or with the others.
fn is_placed_now(twice: bool, second: i16) -> bool
    requires { second ≤ℤ pos LAST_PLACE }
    ensures { result ≡ is_placed_now twice (anchor_by second) }
{
    match anchor_by(second) {
        Anchor::At(_) => twice,
        Anchor::Loose | Anchor::Fixed => !twice,
    }
}

/// Puts an object at a place, its second half first.
fn place_object(object: Object, home: u16, second: i16, objects: &mut Objects)
    requires first { home ≤ LAST_PLACE }
    requires second { second ≤ℤ pos LAST_PLACE }
    ensures { objects.new
        ≡ after_move_to (with_anchor objects.old object (anchor_by second)) object home }
{
    objects.anchor_to(object, anchor_by(second));
    objects.move_to(object, Place::new(home));
}

/// Places the objects that have two places, or the others, from the last down.
#[tactic(auto, using(crate::proofs::Countdown::placing), unfolding(crate::specs::Placing::after_placing))]
fn place_down(cave: &Cave, twice: bool, objects: &mut Objects)
    ensures { objects.new ≡ after_placing_all cave.now (objects_due cave.now twice) objects.old }
{
    for i in 0..OBJECTS as u8 {
        let object = Object::new(OBJECTS as u8 - i);
        let (home, second) = cave.placement(u16::from(object.number()));
        if is_placed_now(twice, second) {
            place_object(object, home, second, objects);
        }
    }
}

/// Marks the known treasures as not seen yet, and returns how many there are.
#[tactic(auto, using(crate::proofs::Countdown::hiding))]
fn hide_treasures(cave: &Cave, objects: &mut Objects) -> Count<MAX_TREASURES>
    ensures objects { objects.new ≡ after_hiding_treasures (known_treasures cave.now) objects.old }
    ensures count { result ≡ length (known_treasures cave.now) }
{
    let mut hidden = Count::new(0);
    for number in FIRST_TREASURE..LAST_TREASURE + 1 {
        if cave.name(u16::from(number)).is_some() {
            objects.set_prop(Object::new(number), Prop::new(UNSEEN));
            hidden = hidden.up();
        }
    }
    hidden
}

/// Puts the objects where they are as a game begins. Returns how many treasures haven't been seen
/// yet.
fn place_all(cave: &Cave, objects: &mut Objects) -> Count<MAX_TREASURES>
    requires { objects.old ≡ unplaced_objects }
    ensures objects { objects.new ≡ starting_objects cave.now }
    ensures hidden { result ≡ length (known_treasures cave.now) }
{
    let hidden = hide_treasures(cave, objects);
    place_down(cave, true, objects);
    place_down(cave, false, objects);
    hidden
}

#[tactic(auto, unfolding(crate::specs::Begin::dwarf_by_role))]
fn dwarf_by_role(cave: &Cave, role: PlaceRole) -> Dwarf
    ensures { result ≡ dwarf_by_role cave.now role }
{
    let place = place_named(cave, role).unwrap_or(Place::new(0));
    Dwarf {
        place,
        last: place,
        has_seen: false,
    }
}

#[tactic(auto, unfolding(crate::specs::Begin::starting_dwarves))]
fn starting_dwarves(cave: &Cave) -> [Dwarf; DWARVES]
    ensures { result ≡ starting_dwarves cave.now }
{
    [
        dwarf_by_role(cave, PlaceRole::Dwarf1),
        dwarf_by_role(cave, PlaceRole::Dwarf2),
        dwarf_by_role(cave, PlaceRole::Dwarf3),
        dwarf_by_role(cave, PlaceRole::Dwarf4),
        dwarf_by_role(cave, PlaceRole::Dwarf5),
        dwarf_by_role(cave, PlaceRole::Chest),
    ]
}

/// The state with which a game begins.
#[tactic(auto, unfolding(crate::specs::Begin::begun_state, cave_world::specs::State::starting_state))]
pub fn begun_state(cave: &Cave, stream: Stream) -> State
    ensures state { result ≡ begun_state cave.now stream }
    ensures lists { (q : ℕ) → halves_at q result.objects.lists ≡ start_list cave.now q }
{
    let mut state = State::starting(start_place(cave), stream);
    state.tallies.unseen = place_all(cave, &mut state.objects);
    state.dwarves.each = starting_dwarves(cave);
    state
}
