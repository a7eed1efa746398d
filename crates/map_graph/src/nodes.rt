//! The nodes of places.

ghost use Rattle.std.specs.Prelude.{◌≡◌, ◌≤◌, ◌<◌, All, IfOk};
ghost use Rattle.std.specs.List.{flat_map};
ghost use Rattle.base_lines.specs.Numbers.{LAST_PLACE};
ghost use Rattle.base_lines.specs.Numbers as defined;
ghost use Rattle.base_text.specs.Text.{Tells};
ghost use Rattle.data_rows.specs.PlaceRole.{each_place_role};
ghost use Rattle.map_graph.specs.Stops.{stops_of};
ghost use Rattle.map_ways.specs.Labels.{label_of};
ghost use Rattle.map_graph.specs.Places.{begins_at, look_of_place, node, node_end, node_opening};
ghost use Rattle.map_graph.specs.Places.{node_text, nowhere_note, object_label_line};
ghost use Rattle.map_graph.specs.Places.{objects_beginning, role_label_line, stay_text, strength};
ghost use Rattle.map_graph.specs.Places.{title_line, visits_label_line};

use crate::sights::Sights;
use crate::stops::{Stops, is_visited};
use base_lines::numbers::LAST_OBJECT;
use base_text::Text;
use cave_data::Cave;
use cave_world::sight::LIGHT_BIT;
use cave_world::{forced, has_condition};
use check_tables::way_words::{number_of_object, put_word_or_number};
use data_rows::PlaceRole;
use data_rows::place_role::each_place_role;
use map_ways::titles::put_title;
use map_ways::{count_nowhere, put_label};
use std::alloc::{AllocError, Global};
use world_objects::Place;

/// Whether a half of an object is at a place as a game begins.
fn begins_at(cave: &Cave, place: u16, object: u16) -> bool
    ensures { result ≡ begins_at cave.now place object }
{
    let (first, second) = cave.placement(object);
    first == place || i32::from(second) == i32::from(place)
}

#[tactic(auto, using(map_ways::proofs::Rows::in_range), unfolding(crate::specs::Places::objects_beginning))]
fn objects_beginning(alloc: Global, cave: &Cave, place: u16) -> Result<Vec<u16>, AllocError>
    ensures value { IfOk result (λ objects. objects.items ≡ objects_beginning cave.now place) }
    ensures within { IfOk result (λ objects.
        All (λ object. object ≤ defined.LAST_OBJECT) objects.items) }
{
    (1..LAST_OBJECT + 1)
        .filter(|object| begins_at(cave, place, *object))
        .collect(alloc)
}

fn put_object_label_line(cave: &Cave, object: u16, text: &mut Text)
    requires { object ≤ defined.LAST_OBJECT }
    ensures { Tells (object_label_line cave.now object) text.old text.new }
{
    text.put(b"+");
    put_word_or_number(cave, number_of_object(object as u8), text);
    text.put(b"\n");
}

fn put_objects(cave: &Cave, objects: &[u16], text: &mut Text)
    requires { All (λ object. object ≤ defined.LAST_OBJECT) objects.now }
    ensures { Tells (flat_map (object_label_line cave.now) objects.now) text.old text.new }
{
    for object in objects {
        put_object_label_line(cave, *object, text);
    }
}

/// Appends the line of a role, if a place has it.
fn put_role_label_line(cave: &Cave, place: u16, role: PlaceRole, text: &mut Text)
    ensures { Tells (role_label_line cave.now place role) text.old text.new }
{
    match cave.place(role) {
        Some(found) if found == place => {
            text.put(b"= ");
            text.put(role.name().as_bytes());
            text.put(b"\n");
        }
        _ => {}
    }
}

/// Appends the lines of those of these roles that a place has.
fn put_roles(cave: &Cave, place: u16, roles: &[PlaceRole], text: &mut Text)
    ensures { Tells (flat_map (role_label_line cave.now place) roles.now) text.old text.new }
{
    for role in roles {
        put_role_label_line(cave, place, *role, text);
    }
}

fn put_roles_of_place(cave: &Cave, place: u16, text: &mut Text)
    ensures { Tells (flat_map (role_label_line cave.now place) each_place_role) text.old
        text.new }
{
    put_roles(cave, place, each_place_role(), text);
}

fn put_visits_label_line(count: usize, text: &mut Text)
    ensures { Tells (visits_label_line count) text.old text.new }
{
    if count != 0 {
        write!(text, "visits {count}\n");
    }
}

/// Appends the line of a place: its number and its title.
fn put_title_line(cave: &Cave, mapped: &[u16], place: u16, text: &mut Text)
    ensures { Tells (title_line cave.now mapped.now place) text.old text.new }
{
    write!(text, "{place}");
    put_title(cave, mapped, place, text);
    text.put(b"\n");
}

fn put_objects_beginning(cave: &Cave, place: u16, text: &mut Text)
    ensures { Tells (flat_map (object_label_line cave.now) (objects_beginning cave.now place))
        text.old text.new }
{
    match objects_beginning(text.alloc(), cave, place) {
        Ok(objects) => put_objects(cave, &objects, text),
        Err(AllocError) => text.fail(),
    }
}

/// Appends what is written at a place where a player stays.
#[tactic(auto, unfolding(crate::specs::Places::stay_text))]
fn put_stay_text(cave: &Cave, mapped: &[u16], stops: &Stops, place: u16, text: &mut Text)
    ensures { Tells (stay_text cave.now mapped.now (stops_of stops.now) place) text.old text.new }
{
    put_title_line(cave, mapped, place, text);
    put_objects_beginning(cave, place, text);
    put_roles_of_place(cave, place, text);
    put_visits_label_line(stops.visits(place), text);
}

/// Appends what is written at a node, which for a place of a forced motion is only its number.
#[tactic(auto, unfolding(crate::specs::Places::node_text))]
fn put_node_text(cave: &Cave, mapped: &[u16], stops: &Stops, place: u16, text: &mut Text)
    requires { place ≤ LAST_PLACE }
    ensures { Tells (node_text cave.now mapped.now (stops_of stops.now) place) text.old text.new }
{
    if forced(cave, Place::new(place)) {
        write!(text, "{place}");
    } else {
        put_stay_text(cave, mapped, stops, place, text);
    }
}

/// How a place looks: one of a forced motion is a small circle, and one without light is dark.
#[tactic(auto, unfolding(crate::specs::Places::look_of_place))]
fn look_of_place(cave: &Cave, place: u16) -> &'static str
    requires { place ≤ LAST_PLACE }
    ensures { result.now ≡ look_of_place cave.now place }
{
    let place = Place::new(place);
    if forced(cave, place) {
        return ", shape=circle, fixedsize=true, width=0.2, fontsize=7";
    }
    if has_condition(cave, place, LIGHT_BIT) {
        return "";
    }
    ", fillcolor=gray80"
}

/// How thickly something is drawn, after this many logs were played and reached it or didn't.
#[tactic(auto, unfolding(crate::specs::Places::strength))]
pub fn strength(logs: usize, is_reached: bool) -> &'static str
    ensures { result.now ≡ strength logs is_reached }
{
    if logs == 0 {
        return "";
    }
    if is_reached {
        return ", penwidth=2.5";
    }
    ", color=gray65, fontcolor=gray40"
}

/// Appends how many rows lead to no place, if any do.
fn put_nowhere_note(count: usize, text: &mut Text)
    ensures { Tells (nowhere_note count) text.old text.new }
{
    if count != 0 {
        write!(text, " // ways not drawn: {count}");
    }
}

/// Appends how the line of a node begins.
fn put_node_opening(place: u16, text: &mut Text)
    ensures { Tells (node_opening place) text.old text.new }
{
    write!(text, "  {place} [label=");
}

/// Appends the label of a node.
fn put_node_label(cave: &Cave, mapped: &[u16], stops: &Stops, place: u16, text: &mut Text)
    requires { place ≤ LAST_PLACE }
    ensures { Tells (label_of (node_text cave.now mapped.now (stops_of stops.now) place)) text.old text.new }
{
    let mut label = text.beside();
    put_node_text(cave, mapped, stops, place, &mut label);
    put_label(&text.bytes_of(label), text);
}

/// Appends how the line of a node ends, with how many rows lead to no place.
fn put_node_end(count: usize, text: &mut Text)
    ensures { Tells (node_end count) text.old text.new }
{
    text.put(b"];");
    put_nowhere_note(count, text);
    text.put(b"\n");
}

/// Appends the line of a node.
#[tactic(auto, unfolding(crate::specs::Places::node))]
pub fn put_node(cave: &Cave, mapped: &[u16], sights: Sights<'_>, place: u16, text: &mut Text)
    requires { place ≤ LAST_PLACE }
    ensures { Tells (node cave.now mapped.now (stops_of sights.entry.stops.now) sights.entry.logs place)
        text.old text.new }
{
    put_node_opening(place, text);
    put_node_label(cave, mapped, sights.stops, place, text);
    text.put(look_of_place(cave, place).as_bytes());
    text.put(strength(sights.logs, is_visited(cave, sights.stops, place)).as_bytes());
    put_node_end(count_nowhere(cave, place), text);
}
