//! What rules ask of the objects that they name, of the narrow passage and of the hollow voice.

ghost use Rattle.std.specs.Prelude.{◌≡◌, option_map};
ghost use Rattle.cave_words.specs.Lexicon.{IsLexiconOf};
ghost use Rattle.check_doubts.specs.Needs.{has_dwarf, is_bound, is_missing, is_of, is_tool};
ghost use Rattle.check_doubts.specs.Needs.{begins_at, is_squeeze, is_squeezed, need_flaw, needs};
ghost use Rattle.check_doubts.specs.Needs.{passage_flaw, prop_flaw, start_flaw, voice_flaw};
ghost use Rattle.data_rows.specs.RowViews.{going};

use crate::flaw::{CaveFlaw, Subject};
use crate::treasures::{is_placed, is_treasure};
use crate::ways::is_textless_end;
use cave_data::Cave;
use cave_words::{Lexicon, Named};
use check_tables::is_number;
use data_lines::MarkedRow;
use data_lines::mark::any_name;
use data_rows::binding::Key;
use data_rows::{Destination, PlaceRole, Role, Row, Special};

/// What rules ask of an object.
#[derive(Clone, Copy, Debug)]
pub enum Need {
    /// A text for prop 0, if a place has the object as a game begins.
    Placed,
    /// A text for prop 0, if no place has it then: rules bring it.
    Brought(Named),
    /// A text for the prop that a treasure gets as it is found.
    Found(Named, u16),
    /// A text for a prop that rules set, or whose text they print.
    Prop(Named, u16),
    /// A place of the bindings.
    Role(Named, PlaceRole),
}

/// What rules ask of objects, by their numbers.
const NEEDS: [Need; 54] = [
    Need::Placed,
    Need::Brought(Named::SecondRod),
    Need::Brought(Named::Oyster),
    Need::Brought(Named::Axe),
    Need::Brought(Named::SecondTroll),
    Need::Brought(Named::Message),
    Need::Brought(Named::Batteries),
    Need::Brought(Named::Chest),
    Need::Brought(Named::Pearl),
    Need::Prop(Named::Lamp, 1),
    Need::Prop(Named::Grate, 1),
    Need::Role(Named::Rod, PlaceRole::Ne),
    Need::Role(Named::Rod, PlaceRole::Sw),
    Need::Prop(Named::Bird, 1),
    Need::Prop(Named::Door, 1),
    Need::Prop(Named::Fissure, 1),
    Need::Prop(Named::Fissure, 2),
    Need::Prop(Named::Oyster, 1),
    Need::Role(Named::Magazine, PlaceRole::Witt),
    Need::Role(Named::Dwarf, PlaceRole::Dwarf1),
    Need::Role(Named::Dwarf, PlaceRole::Dwarf2),
    Need::Role(Named::Dwarf, PlaceRole::Dwarf3),
    Need::Role(Named::Dwarf, PlaceRole::Dwarf4),
    Need::Role(Named::Dwarf, PlaceRole::Dwarf5),
    Need::Role(Named::Dwarf, PlaceRole::Dwarfalt),
    Need::Prop(Named::Bottle, 1),
    Need::Prop(Named::Bottle, 2),
    Need::Prop(Named::Plant, 1),
    Need::Prop(Named::Plant, 2),
    Need::Prop(Named::Plant, 3),
    Need::Prop(Named::Plant, 4),
    Need::Prop(Named::Plant, 5),
    Need::Prop(Named::SecondPlant, 1),
    Need::Prop(Named::SecondPlant, 2),
    Need::Prop(Named::Axe, 1),
    Need::Prop(Named::Dragon, 1),
    Need::Prop(Named::Dragon, 2),
    Need::Prop(Named::Chasm, 1),
    Need::Prop(Named::Troll, 1),
    Need::Prop(Named::Bear, 1),
    Need::Prop(Named::Bear, 2),
    Need::Prop(Named::Bear, 3),
    Need::Role(Named::Message, PlaceRole::Message),
    Need::Prop(Named::Batteries, 1),
    Need::Role(Named::Chest, PlaceRole::Chest),
    Need::Prop(Named::Eggs, 1),
    Need::Prop(Named::Eggs, 2),
    Need::Prop(Named::Vase, 1),
    Need::Prop(Named::Vase, 2),
    Need::Prop(Named::Vase, 3),
    Need::Role(Named::Pearl, PlaceRole::Culdesac),
    Need::Found(Named::Rug, 1),
    Need::Found(Named::Chain, 1),
    Need::Prop(Named::Chain, 2),
];

/// What rules ask of objects.
#[tactic(auto, unfolding(crate::specs::Needs::needs))]
pub(crate) fn each_need() -> &'static [Need]
    ensures { result.now ≡ needs }
{
    &NEEDS
}

fn is_bound(cave: &Cave, role: PlaceRole) -> bool
    ensures { result ≡ is_bound cave.now role }
{
    cave.place(role).is_some()
}

fn is_of(cave: &Cave, lexicon: &Lexicon, object: u16, named: Named) -> bool
    requires { IsLexiconOf cave.now lexicon.now }
    ensures { result ≡ is_of cave.now object named }
{
    is_number(object, lexicon.named(cave, named))
}

/// What is doubtful about a prop that an object may have.
fn prop_flaw(cave: &Cave, object: u16, prop: u16, may_have: bool) -> Option<CaveFlaw>
    ensures { result ≡ prop_flaw cave.now object prop may_have }
{
    if may_have && !cave.look(object, prop).is_some() {
        Some(CaveFlaw::PropTextless(object, prop))
    } else {
        None
    }
}

/// What an object lacks of what rules ask.
pub(crate) fn need_flaw(cave: &Cave, lexicon: &Lexicon, object: u16, need: Need) -> Option<CaveFlaw>
    requires { IsLexiconOf cave.now lexicon.now }
    ensures { result ≡ need_flaw cave.now object need }
{
    match need {
        Need::Placed => prop_flaw(cave, object, 0, is_placed(cave, object)),
        Need::Brought(named) => {
            let may_have = is_of(cave, lexicon, object, named) && !is_placed(cave, object);
            prop_flaw(cave, object, 0, may_have)
        }
        Need::Found(named, prop) => {
            let may_have = is_of(cave, lexicon, object, named) && is_treasure(object);
            prop_flaw(cave, object, prop, may_have)
        }
        Need::Prop(named, prop) => {
            prop_flaw(cave, object, prop, is_of(cave, lexicon, object, named))
        }
        Need::Role(named, role) if is_of(cave, lexicon, object, named) && !is_bound(cave, role) => {
            Some(CaveFlaw::PlaceUnbound(role.number(), object))
        }
        _ => None,
    }
}

/// Whether a dwarf has a place.
fn has_dwarf(cave: &Cave) -> bool
    ensures { result ≡ has_dwarf cave.now }
{
    is_bound(cave, PlaceRole::Dwarf1)
        || is_bound(cave, PlaceRole::Dwarf2)
        || is_bound(cave, PlaceRole::Dwarf3)
        || is_bound(cave, PlaceRole::Dwarf4)
        || is_bound(cave, PlaceRole::Dwarf5)
}

/// Whether players need an object that no rule brings.
fn is_tool(cave: &Cave, lexicon: &Lexicon, object: u16) -> bool
    requires { IsLexiconOf cave.now lexicon.now }
    ensures { result ≡ is_tool cave.now object }
{
    is_of(cave, lexicon, object, Named::Keys)
        || is_of(cave, lexicon, object, Named::Lamp)
        || is_of(cave, lexicon, object, Named::Bird)
        || (is_of(cave, lexicon, object, Named::Axe) && !has_dwarf(cave))
}

/// Whether a row begins the inventory text of such an object that is nowhere.
pub(crate) fn is_missing(cave: &Cave, lexicon: &Lexicon, object: u16, before: &[MarkedRow]) -> bool
    requires { IsLexiconOf cave.now lexicon.now }
    ensures { result ≡ is_missing cave.now object before.now }
{
    is_tool(cave, lexicon, object) && !any_name(before, object) && !is_placed(cave, object)
}

/// A treasure, or an object that players need, begins at a place without a text.
fn begins_at(object: u16, place: u16) -> CaveFlaw
    ensures { result ≡ begins_at object place }
{
    let subject = if is_treasure(object) {
        Subject::Treasure(object)
    } else {
        Subject::Needed(object)
    };
    CaveFlaw::Textless(subject, place)
}

/// What is doubtful about the first place of an object.
pub(crate) fn start_flaw(cave: &Cave, lexicon: &Lexicon, object: u16) -> Option<CaveFlaw>
    requires { IsLexiconOf cave.now lexicon.now }
    ensures { result ≡ start_flaw cave.now object }
{
    let (first, _) = cave.placement(object);
    let is_needed = is_treasure(object) || is_tool(cave, lexicon, object);
    if is_needed && is_textless_end(cave, first) {
        Some(begins_at(object, first))
    } else {
        None
    }
}

fn is_squeeze(destination: Destination) -> bool
    ensures { result ≡ is_squeeze destination }
{
    matches!(destination, Destination::Special(Special::Squeeze))
}

/// Whether a player gets by a way from the one end of the narrow passage to the other.
fn is_squeezed(way: Option<&Row>) -> bool
    ensures { result ≡ is_squeezed (option_map (λ row. going row.now) way.entry) }
{
    match way {
        Some(row) => is_squeeze(row.destination()),
        None => false,
    }
}

/// What is doubtful about an end of the narrow passage, to which a way may lead.
pub(crate) fn passage_flaw(cave: &Cave, role: PlaceRole, way: Option<&Row>) -> Option<CaveFlaw>
    ensures { result ≡ passage_flaw cave.now role (option_map (λ row. going row.now) way.entry) }
{
    if is_squeezed(way) && !is_bound(cave, role) {
        Some(CaveFlaw::EndUnbound(role.number()))
    } else {
        None
    }
}

/// What is doubtful about where the message of a role is said.
pub(crate) fn voice_flaw(cave: &Cave, key: Key) -> Option<CaveFlaw>
    ensures { result ≡ voice_flaw cave.now key }
{
    match key {
        Key::RoleKey(role) if role == Role::Hollow.number() && !is_bound(cave, PlaceRole::Y2) => {
            Some(CaveFlaw::SaidNowhere(role, PlaceRole::Y2.number()))
        }
        _ => None,
    }
}
