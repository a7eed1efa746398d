ghost use Rattle.std.specs.Prelude.{◌≡◌, [], ◌∷◌, IsTrue, Some, is_some};
ghost use Rattle.data_rows.specs.declared.place_role.PlaceRole.TheVariants as role;
ghost use Rattle.world_objects.specs.Objects.{after_move_to, with_prop};
ghost use Rattle.turn_scene.specs.Scene.{cave_of, thing};
ghost use Rattle.turn_scene.specs.Bounds.{HasRoom};
ghost use Rattle.turn_scene.specs.Places.{place_named};
ghost use Rattle.turn_scene.specs.Rows.{Does};
ghost use Rattle.turn_clocks.specs.Repository.{hang_mirror, northeast_things, southwest_things};
ghost use Rattle.turn_clocks.specs.Repository.{without_all, with_empty_hands, close_cave};

use cave_words::Named;
use cave_world::{RowNotes, State};
use data_rows::{PlaceRole, Role};
use turn_scene::props::{BIRD_CAGED, BOTTLE_EMPTY, SNAKE_GONE, UNSEEN};
use turn_scene::{Rules, Scene, place_named};
use world_objects::{Anchor, Object, Objects, Place, Prop};

/// Puts a thing at a place, with its prop.
fn store(rules: &Rules<'_>, name: Named, prop: Prop, place: Place, objects: &mut Objects)
    ensures { let x = thing (cave_of rules.now) name in
        objects.new ≡ with_prop (after_move_to objects.old x place) x prop }
{
    let object = rules.thing(name);
    objects.move_to(object, place);
    objects.set_prop(object, prop);
}

/// Puts there what belongs at the northeast end.
#[tactic(auto, unfolding(crate::specs::Repository::northeast_things))]
fn put_northeast_things<N: RowNotes>(rules: &Rules<'_>, place: Place, scene: &mut Scene<'_, N>)
    requires { place_named (cave_of rules.now) role.Ne ≡ Some place }
    ensures things { Does N.rows northeast_things 0 rules.now tt scene.old scene.new }
{
    let empty = Prop::new(UNSEEN - BOTTLE_EMPTY);
    let unseen = Prop::new(UNSEEN);
    let objects = &mut scene.state.objects;
    store(rules, Named::Bottle, empty, place, objects);
    store(rules, Named::Plant, unseen, place, objects);
    store(rules, Named::Oyster, unseen, place, objects);
    store(rules, Named::Lamp, unseen, place, objects);
    store(rules, Named::Rod, unseen, place, objects);
    store(rules, Named::Dwarf, unseen, place, objects);
}

/// Hangs the mirror at the northeast end, with its second half at the southwest end.
fn hang_mirror<N: RowNotes>(
    rules: &Rules<'_>,
    northeast: Place,
    southwest: Place,
    scene: &mut Scene<'_, N>,
)
    requires northeast { place_named (cave_of rules.now) role.Ne ≡ Some northeast }
    requires southwest { place_named (cave_of rules.now) role.Sw ≡ Some southwest }
    ensures mirror { Does N.rows (hang_mirror ∷ []) 0 rules.now tt scene.old scene.new }
{
    let objects = &mut scene.state.objects;
    store(rules, Named::Mirror, Prop::new(UNSEEN), northeast, objects);
    objects.anchor_to(rules.thing(Named::Mirror), Anchor::at(southwest));
}

/// Puts there what belongs at the southwest end, and hangs the mirror.
#[tactic(auto, unfolding(crate::specs::Repository::southwest_things))]
fn put_southwest_things<N: RowNotes>(
    rules: &Rules<'_>,
    northeast: Place,
    southwest: Place,
    scene: &mut Scene<'_, N>,
)
    requires northeast { place_named (cave_of rules.now) role.Ne ≡ Some northeast }
    requires southwest { place_named (cave_of rules.now) role.Sw ≡ Some southwest }
    ensures things { Does N.rows southwest_things 0 rules.now tt scene.old scene.new }
{
    let gone = Prop::new(UNSEEN - SNAKE_GONE);
    let caged = Prop::new(UNSEEN - BIRD_CAGED);
    let unseen = Prop::new(UNSEEN);
    let objects = &mut scene.state.objects;
    store(rules, Named::Grate, unseen, southwest, objects);
    store(rules, Named::Snake, gone, southwest, objects);
    store(rules, Named::Bird, caged, southwest, objects);
    store(rules, Named::Cage, unseen, southwest, objects);
    store(rules, Named::SecondRod, unseen, southwest, objects);
    store(rules, Named::Pillow, unseen, southwest, objects);
    hang_mirror(rules, northeast, southwest, scene);
}

fn destroy_all(doomed: &[Object], objects: &mut Objects)
    ensures { objects.new ≡ without_all doomed.now objects.old }
{
    for object in doomed {
        objects.move_to(*object, Place::new(0));
    }
}

/// The player loses all that is in the hands.
#[tactic(auto, unfolding(crate::specs::Repository::with_empty_hands))]
fn empty_hands(state: &mut State)
    ensures { state.new ≡ with_empty_hands state.old }
{
    let held = state.in_hands();
    destroy_all(held.as_slice(), &mut state.objects);
}

/// Closes the cave, and puts the player at the northeast end of the repository.
#[tactic(auto, unfolding(crate::specs::Repository::close_cave))]
pub fn close_cave<N: RowNotes>(rules: &Rules<'_>, scene: &mut Scene<'_, N>)
    requires room { HasRoom 1 scene.old }
    requires northeast { IsTrue (is_some (place_named (cave_of rules.now) role.Ne)) }
    requires southwest { IsTrue (is_some (place_named (cave_of rules.now) role.Sw)) }
    ensures scene { Does N.rows close_cave 1 rules.now tt scene.old scene.new }
{
    if let Some(northeast) = place_named(rules.cave, PlaceRole::Ne) {
        if let Some(southwest) = place_named(rules.cave, PlaceRole::Sw) {
            put_northeast_things(rules, northeast, scene);
            scene.state.put_player_from(northeast);
            put_southwest_things(rules, northeast, southwest, scene);
            empty_hands(scene.state);
            scene.say(Role::Repository);
            scene.state.closing.is_closed = true;
        }
    }
}
