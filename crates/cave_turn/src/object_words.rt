ghost use Rattle.std.specs.Prelude.{◌≡◌, ◌==◌, ◌∷◌, []};
ghost use Rattle.std.specs.List.{list_any};
ghost use Rattle.turn_scene.specs.Props as defined;
ghost use Rattle.turn_scene.specs.Scene.{cave_of, scene_of};
ghost use Rattle.cave_words.specs.declared.named.Named.TheVariants as name;
ghost use Rattle.cave_verbs.specs.declared.verb.Verb.TheVariants as verb_is;
ghost use Rattle.turn_scene.specs.Rows.{all_hold, deed, PlaysBy};
ghost use Rattle.turn_scene.specs.Tests.{the, either, both, near, is_here, other_prop};
ghost use Rattle.turn_scene.specs.Tests.{in_bottle, in_lake};
ghost use Rattle.cave_turn.specs.ObjectWords.{object, word_names, is_knife_at, is_knife_here};
ghost use Rattle.cave_turn.specs.ObjectWords.{is_verb_of, by_verb, alone, object_word};

use cave_verbs::Verb;
use cave_words::Named;
use cave_world::{Knife, Motion, RowNotes, Table};
use turn_scene::props::PLANT_SMALL;
use turn_scene::{
    Rules, Scene, has_other_prop, is_carried, is_dwarf_here, is_liquid, is_near, lake, liquid, rows,
};
use world_objects::{Object, Place};

/// What a word that names an object says.
#[derive(Clone, Copy, Debug, PartialEq, Eq)]
pub enum ObjectWord {
    /// An object that a verb can be done to.
    Is(Object),
    /// The player travels by a motion.
    Leads(u16),
    /// The knives of the dwarves, which vanished.
    Knives,
    /// The player sees no such object.
    Unseen,
}

/// An object whose word was read.
#[derive(Clone, Copy, Debug, PartialEq, Eq)]
pub struct NamedObject {
    pub object: Object,
    /// The number of the action that was said before.
    pub verb: Option<u16>,
    /// Whether no word follows.
    pub is_alone: bool,
}

/// Whether a number is that of a verb.
pub fn is_verb_of(verb: Verb, number: Option<u16>) -> bool
    ensures { result ≡ is_verb_of verb number }
{
    match number {
        Some(number) => number == verb.number(),
        None => false,
    }
}

fn is_knife_at(here: Place, knife: Knife) -> bool
    ensures { result ≡ is_knife_at here knife }
{
    match knife {
        Knife::At(place) => place == here,
        Knife::Unthrown | Knife::Vanished => false,
    }
}

/// Whether an object is the liquid in a bottle at hand, or that of the lake.
fn is_liquid_here<N: RowNotes>(rules: &Rules<'_>, about: &NamedObject, scene: &Scene<'_, N>) -> bool
    ensures { result ≡ either (both (in_bottle object) (near (the name.Bottle))) (in_lake object)
        (deed (cave_of rules.now) about.now (scene_of N.rows scene.now)) }
{
    (is_liquid(about.object, liquid(rules, scene.state))
        && is_near(rules, scene.state, rules.thing(Named::Bottle)))
        || is_liquid(about.object, lake(rules, scene.state))
}

/// Whether the name of the plant means the plant that grew.
fn is_grown_plant<N: RowNotes>(rules: &Rules<'_>, about: &NamedObject, scene: &Scene<'_, N>) -> bool
    ensures { result ≡ all_hold (word_names name.Plant ∷ is_here (the name.SecondPlant)
        ∷ other_prop (the name.SecondPlant) defined.PLANT_SMALL ∷ [])
        (deed (cave_of rules.now) about.now (scene_of N.rows scene.now)) }
{
    let grown = rules.thing(Named::SecondPlant);
    rules.is(about.object, Named::Plant)
        && (scene.state.at(grown) && has_other_prop(scene.state, grown, PLANT_SMALL))
}

fn is_knife_here<N: RowNotes>(rules: &Rules<'_>, about: &NamedObject, scene: &Scene<'_, N>) -> bool
    ensures { result ≡ all_hold (word_names name.Knife ∷ is_knife_here ∷ [])
        (deed (cave_of rules.now) about.now (scene_of N.rows scene.now)) }
{
    rules.is(about.object, Named::Knife)
        && is_knife_at(scene.state.trail.here, scene.state.dwarves.knife)
}

/// A player can ask for what isn't here.
fn is_sought<N: RowNotes>(rules: &Rules<'_>, about: &NamedObject, scene: &Scene<'_, N>) -> bool
    ensures { result ≡ all_hold
        (either (by_verb verb_is.Find) (by_verb verb_is.Inventory) ∷ alone ∷ [])
        (deed (cave_of rules.now) about.now (scene_of N.rows scene.now)) }
{
    (is_verb_of(Verb::Find, about.verb) || is_verb_of(Verb::Inventory, about.verb))
        && about.is_alone
}

/// Whether a place is on the way to the grate: before the building, in the valley or at the slit.
/// No role names these, since no other rule asks for them.
fn is_before_grate(here: Place) -> bool
    ensures { result ≡ list_any (λ place. here == place) (1 ∷ 4 ∷ 7 ∷ []) }
{
    matches!(here.number(), 1 | 4 | 7)
}

/// What the word of an object says.
#[tactic(auto, unfolding(crate::specs::ObjectWords::object_word))]
pub fn object_word<N: RowNotes>(
    rules: &Rules<'_>,
    about: &NamedObject,
    scene: &mut Scene<'_, N>,
) -> ObjectWord
    ensures row { PlaysBy N.rows object_word 0 rules.now about.now scene.old scene.new result }
{
    let x = about.object;
    let here = scene.state.trail.here.number();
    let is_grate = rules.is(x, Named::Grate);
    rows! { scene, Table::ObjectWord, ObjectWord::Is(x);
        scene.state.at(x) || is_carried(rules, scene.state, x) => {};
        is_grate && is_before_grate(scene.state.trail.here)
            => {} -> ObjectWord::Leads(Motion::Depression.number());
        is_grate && (10 <= here && here <= 14)
            => {} -> ObjectWord::Leads(Motion::Entrance.number());
        rules.is(x, Named::Dwarf) && is_dwarf_here(scene.state) => {};
        is_liquid_here(rules, about, scene) => {};
        is_grown_plant(rules, about, scene)
            => {} -> ObjectWord::Is(rules.thing(Named::SecondPlant));
        is_knife_here(rules, about, scene) => {} -> ObjectWord::Knives;
        let second_rod = rules.thing(Named::SecondRod);
        rules.is(x, Named::Rod) && is_near(rules, scene.state, second_rod)
            => {} -> ObjectWord::Is(second_rod);
        is_sought(rules, about, scene) => {};
        otherwise => {} -> ObjectWord::Unseen;
    }
}
