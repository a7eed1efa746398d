ghost use Rattle.std.specs.Prelude.{◌≡◌, ◌+◌, [], ◌∷◌, length};
ghost use Rattle.base_lines.specs.Numbers.{LAST_OBJECT};
ghost use Rattle.turn_scene.specs.Bounds.{GoesOnSaying, HasRoom, parts_of_inventory};
ghost use Rattle.turn_scene.specs.Scene.{scene_of, cave_of};
ghost use Rattle.cave_verbs.specs.Rows.{DoneByRows};
ghost use Rattle.turn_scene.specs.Rows.{Does, noted};
ghost use Rattle.cave_world.specs.declared.tables.Table.TheVariants as table;
ghost use Rattle.cave_verbs.specs.Finding.{find_rows, bare_inventory_rows, is_in_inventory};
ghost use Rattle.cave_verbs.specs.Finding.{listed_up_to, after_naming, tell_bear};

use crate::next::Next;
use crate::task::Task;
use arrayvec::ArrayVec;
use cave_words::Named;
use cave_world::{Part, RowNotes, State, Table};
use data_rows::Role;
use turn_scene::{Rules, Scene, is_carried, is_dwarf_here, is_liquid, lake, liquid, rows};
use world_objects::Object;
use world_objects::object::OBJECTS;

/// FIND an object, or INVENTORY of one.
#[tactic(auto, unfolding(crate::specs::Finding::find_rows))]
pub fn find<N: RowNotes>(rules: &Rules<'_>, task: Task, scene: &mut Scene<'_, N>) -> Next
    requires { HasRoom 1 scene.old }
    ensures row { DoneByRows N.rows (noted table.Find find_rows) rules.now task scene.old
        scene.new result }
{
    let x = task.object;
    rows! { scene, Table::Find, Next::Stay;
        is_carried(rules, scene.state, x) => say(Role::HeldIt);
        scene.state.closing.is_closed => say(Role::Around);
        scene.state.at(x) => say(Role::HereIt);
        is_liquid(x, liquid(rules, scene.state)) && scene.state.at(rules.thing(Named::Bottle))
            => say(Role::HereIt);
        is_liquid(x, lake(rules, scene.state)) => say(Role::HereIt);
        rules.is(x, Named::Dwarf) && is_dwarf_here(scene.state) => say(Role::HereIt);
        otherwise => task.default(rules);
    }
}

/// INVENTORY without an object.
#[tactic(auto, unfolding(crate::specs::Finding::bare_inventory_rows, crate::specs::Finding::bear_along_rows))]
pub fn inventory<N: RowNotes>(rules: &Rules<'_>, task: Task, scene: &mut Scene<'_, N>) -> Next
    requires { HasRoom parts_of_inventory scene.old }
    ensures row { DoneByRows N.rows (noted table.BareInventory bare_inventory_rows) rules.now
        task scene.old scene.new result }
{
    let listed = listed(rules, scene.state);
    rows! { scene, Table::BareInventory, Next::Stay;
        listed.is_empty() => say(Role::Empty), task.tell_bear(rules);
        otherwise => say(Role::Holding), self::name_them(listed.as_slice()), task.tell_bear(rules);
    }
}

fn is_in_inventory(rules: &Rules<'_>, state: &State, object: Object) -> bool
    ensures { result ≡ is_in_inventory (cave_of rules.now) state.now object }
{
    is_carried(rules, state, object) && !rules.is(object, Named::Bear)
}

/// The objects that the inventory lists, ascending.
#[tactic(auto, using(crate::proofs::Listed::listing))]
fn listed(rules: &Rules<'_>, state: &State) -> ArrayVec<Object, OBJECTS>
    ensures { result.items ≡ listed_up_to (cave_of rules.now) state.now LAST_OBJECT }
{
    let mut listed = ArrayVec::new();
    for before in 0..OBJECTS {
        let object = Object::new(before as u8 + 1);
        if is_in_inventory(rules, state, object) {
            listed.push(object);
        }
    }
    listed
}

impl Task {
    /// Says that the bear follows, if it does.
    #[tactic(auto, unfolding(crate::specs::Finding::bear_along_rows))]
    fn tell_bear<N: RowNotes>(self, rules: &Rules<'_>, scene: &mut Scene<'_, N>)
        requires { HasRoom 1 scene.old }
        ensures rows { Does N.rows (tell_bear ∷ []) 1 rules.now self scene.old scene.new }
    {
        rows! { scene, Table::BearAlong;
            is_carried(rules, scene.state, rules.thing(Named::Bear)) => say(Role::BearFollows);
        }
    }
}

/// Each object is named.
fn name_them<N: RowNotes>(objects: &[Object], scene: &mut Scene<'_, N>)
    requires { HasRoom (length objects.now) scene.old }
    ensures scene { scene_of N.rows scene.new
        ≡ after_naming objects.now (scene_of N.rows scene.old) }
    ensures says { GoesOnSaying (length objects.now) scene.old scene.new }
{
    for object in objects {
        scene.tell(Part::Name(*object));
    }
}
