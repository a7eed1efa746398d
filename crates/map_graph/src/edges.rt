//! The edges of places between which ways lead.

ghost use Rattle.std.specs.Prelude.{◌≡◌, ◌≤◌, ◌++◌};
ghost use Rattle.base_lines.specs.Numbers.{LAST_PLACE};
ghost use Rattle.base_text.specs.Text.{Tells};
ghost use Rattle.map_graph.specs.Stops.{stops_of};
ghost use Rattle.map_ways.specs.Labels.{label_of};
ghost use Rattle.map_graph.specs.Edges.{drawn_edge, edge_opening, edge_parts, edge_strength};
ghost use Rattle.map_graph.specs.Edges.{count_drawn, edge_text, edges, head, head_at, head_back};
ghost use Rattle.map_graph.specs.Edges.{is_crowded, is_drawn_between, is_edge_taken, is_shown};
ghost use Rattle.map_graph.specs.Edges.{is_taken, label_look, labelled_edge, part_from_label};
ghost use Rattle.map_graph.specs.Edges.{part_to_label, plain_edge, plain_opening};

use crate::nodes::strength;
use crate::sights::Sights;
use crate::stops::{Stops, is_way_taken};
use base_text::Text;
use cave_data::Cave;
use map_ways::way_texts::put_way;
use map_ways::{are_joined, ends_of_edges, is_one_of, is_way, put_label};
use std::alloc::AllocError;

/// The most edges of a place at which texts leave room for the places.
const MAX_EDGES_WITH_TEXT: usize = 6;

/// Appends what is written at an edge.
#[tactic(auto, unfolding(crate::specs::Edges::edge_text))]
fn put_edge_text(cave: &Cave, from: u16, to: u16, text: &mut Text)
    requires from { from ≤ LAST_PLACE }
    requires to { to ≤ LAST_PLACE }
    ensures { Tells (edge_text cave.now from to) text.old text.new }
{
    put_way(cave, "", from, to, text);
    if from != to {
        put_way(cave, " /", to, from, text);
    }
}

/// Whether a way leads from one place to another, and plays took it.
fn is_taken(cave: &Cave, stops: &Stops, from: u16, to: u16) -> bool
    ensures { result ≡ is_taken cave.now (stops_of stops.now) from to }
{
    is_way(cave, from, to) && is_way_taken(cave, stops, from, to)
}

/// Whether plays took a way of an edge.
fn is_edge_taken(cave: &Cave, stops: &Stops, from: u16, to: u16) -> bool
    ensures { result ≡ is_edge_taken cave.now (stops_of stops.now) from to }
{
    is_taken(cave, stops, from, to) || is_taken(cave, stops, to, from)
}

/// The head where a way ends, if one does.
#[tactic(auto, unfolding(crate::specs::Edges::head))]
fn head(is_end: bool, is_reached: bool, is_left: bool) -> &'static str
    ensures { result.now ≡ head is_end is_reached is_left }
{
    match (is_end, is_reached, is_left) {
        (false, _, _) => "none",
        (true, false, true) => "empty",
        (true, _, _) => "normal",
    }
}

fn head_at(cave: &Cave, stops: &Stops, from: u16, to: u16) -> &'static str
    ensures { result.now ≡ head_at cave.now (stops_of stops.now) from to }
{
    head(
        is_way(cave, from, to),
        is_taken(cave, stops, from, to),
        is_taken(cave, stops, to, from),
    )
}

/// The head of an edge at its lower place. A way from a place to itself has one head.
fn head_back(cave: &Cave, stops: &Stops, from: u16, to: u16) -> &'static str
    ensures { result.now ≡ head_back cave.now (stops_of stops.now) from to }
{
    if from == to {
        return "none";
    }
    head_at(cave, stops, to, from)
}

/// How thickly an edge is drawn.
fn edge_strength(cave: &Cave, sights: Sights<'_>, from: u16, to: u16) -> &'static str
    ensures { let saw = sights.entry in
        result.now ≡ edge_strength cave.now (stops_of saw.stops.now) saw.logs from to }
{
    strength(sights.logs, is_edge_taken(cave, sights.stops, from, to))
}

/// Appends how the line of an edge with a label begins.
fn put_edge_opening(from: u16, to: u16, text: &mut Text)
    ensures { Tells (edge_opening from to) text.old text.new }
{
    write!(text, "  {from}.{to} [label=");
}

/// Appends the part of an edge from its place to its label.
fn put_part_to_label(from: u16, to: u16, head: &str, strong: &str, text: &mut Text)
    ensures { Tells (part_to_label from to head.now strong.now) text.old text.new }
{
    write!(text, "]; {from} -> {from}.{to} [arrowtail={head}{strong}");
}

/// Appends the part of an edge from its label to the other place.
fn put_part_from_label(from: u16, to: u16, head: &str, strong: &str, text: &mut Text)
    ensures { Tells (part_from_label from to head.now strong.now) text.old text.new }
{
    write!(text, "]; {from}.{to} -> {to} [arrowhead={head}{strong}];\n");
}

/// Appends the parts of an edge.
fn put_edge_parts(cave: &Cave, sights: Sights<'_>, from: u16, to: u16, text: &mut Text)
    ensures { let saw = sights.entry in Tells (edge_parts cave.now (stops_of saw.stops.now) saw.logs from to)
        text.old text.new }
{
    let strong = edge_strength(cave, sights, from, to);
    let (back, there) = (
        head_back(cave, sights.stops, from, to),
        head_at(cave, sights.stops, from, to),
    );
    put_part_to_label(from, to, back, strong, text);
    put_part_from_label(from, to, there, strong, text);
}

/// How a label looks: one without a text takes no room.
fn label_look(label: &[u8]) -> &'static str
    ensures { result.now ≡ label_look label.now }
{
    if label.is_empty() {
        ", shape=point, width=0.01, style=invis"
    } else {
        ""
    }
}

/// Appends the label of an edge.
fn put_edge_label(cave: &Cave, from: u16, to: u16, text: &mut Text)
    requires from { from ≤ LAST_PLACE }
    requires to { to ≤ LAST_PLACE }
    ensures { Tells (label_of (edge_text cave.now from to) ++ label_look (edge_text cave.now from
        to)) text.old text.new }
{
    let mut label = text.beside();
    put_edge_text(cave, from, to, &mut label);
    let label = text.bytes_of(label);
    put_label(&label, text);
    text.put(label_look(&label).as_bytes());
}

/// Appends the line of an edge whose text is drawn.
#[tactic(auto, unfolding(crate::specs::Edges::labelled_edge))]
fn put_labelled_edge(cave: &Cave, sights: Sights<'_>, from: u16, to: u16, text: &mut Text)
    requires from { from ≤ LAST_PLACE }
    requires to { to ≤ LAST_PLACE }
    ensures { let saw = sights.entry in Tells (labelled_edge cave.now (stops_of saw.stops.now) saw.logs from
        to) text.old text.new }
{
    put_edge_opening(from, to, text);
    put_edge_label(cave, from, to, text);
    text.put(edge_strength(cave, sights, from, to).as_bytes());
    put_edge_parts(cave, sights, from, to, text);
}

/// Appends how the line of an edge begins that has its text on hover.
fn put_plain_opening(from: u16, to: u16, tail: &str, head: &str, text: &mut Text)
    ensures { Tells (plain_opening from to tail.now head.now) text.old text.new }
{
    write!(
        text,
        "  {from} -> {to} [len=3, arrowtail={tail}, arrowhead={head}, tooltip="
    );
}

fn put_plain_heads(cave: &Cave, stops: &Stops, ends: (u16, u16), text: &mut Text)
    ensures { Tells (plain_opening ends.0 ends.1 (head_back cave.now (stops_of stops.now) ends.0 ends.1)
        (head_at cave.now (stops_of stops.now) ends.0 ends.1)) text.old text.new }
{
    let (from, to) = ends;
    let back = head_back(cave, stops, from, to);
    put_plain_opening(from, to, back, head_at(cave, stops, from, to), text);
}

fn put_hover_label(cave: &Cave, from: u16, to: u16, text: &mut Text)
    requires from { from ≤ LAST_PLACE }
    requires to { to ≤ LAST_PLACE }
    ensures { Tells (label_of (edge_text cave.now from to)) text.old text.new }
{
    let mut label = text.beside();
    put_edge_text(cave, from, to, &mut label);
    put_label(&text.bytes_of(label), text);
}

/// Appends the line of an edge that has its text on hover.
#[tactic(auto, unfolding(crate::specs::Edges::plain_edge))]
fn put_plain_edge(cave: &Cave, sights: Sights<'_>, from: u16, to: u16, text: &mut Text)
    requires from { from ≤ LAST_PLACE }
    requires to { to ≤ LAST_PLACE }
    ensures { let saw = sights.entry in Tells (plain_edge cave.now (stops_of saw.stops.now) saw.logs from to)
        text.old text.new }
{
    put_plain_heads(cave, sights.stops, (from, to), text);
    put_hover_label(cave, from, to, text);
    text.put(edge_strength(cave, sights, from, to).as_bytes());
    text.put(b"];\n");
}

/// Whether an edge between places that are drawn is drawn too.
fn is_shown(cave: &Cave, sights: Sights<'_>, from: u16, to: u16) -> bool
    ensures { let saw = sights.entry in
        result ≡ is_shown cave.now (stops_of saw.stops.now) saw.is_seen_only from to }
{
    !sights.is_seen_only || is_edge_taken(cave, sights.stops, from, to)
}

/// Whether there is an edge between two places, and if they are drawn it is drawn, too.
#[tactic(auto, unfolding(crate::specs::Edges::is_drawn_between))]
fn is_drawn_between(cave: &Cave, sights: Sights<'_>, place: u16, other: u16) -> bool
    ensures { let saw = sights.entry in
        result ≡ is_drawn_between cave.now (stops_of saw.stops.now) saw.is_seen_only place other }
{
    are_joined(cave, place, other) && is_shown(cave, sights, place, other)
}

fn count_drawn(cave: &Cave, sights: Sights<'_>, place: u16) -> usize
    ensures { let saw = sights.entry in
        result ≡ count_drawn cave.now (stops_of saw.stops.now) saw.is_seen_only saw.places.now place }
{
    sights
        .places
        .iter()
        .filter(|other| is_drawn_between(cave, sights, place, **other))
        .count()
}

/// Whether a place has more edges than leave room for their texts.
fn is_crowded(cave: &Cave, sights: Sights<'_>, place: u16) -> bool
    ensures { let saw = sights.entry in
        result ≡ is_crowded cave.now (stops_of saw.stops.now) saw.is_seen_only saw.places.now place }
{
    count_drawn(cave, sights, place) > MAX_EDGES_WITH_TEXT
}

/// Appends the edge from one place to another, if it is drawn.
fn put_drawn_edge(cave: &Cave, sights: Sights<'_>, from: u16, to: u16, text: &mut Text)
    requires from { from ≤ LAST_PLACE }
    requires to { to ≤ LAST_PLACE }
    ensures { let saw = sights.entry in Tells (drawn_edge cave.now (stops_of saw.stops.now) saw.logs
        saw.is_seen_only saw.places.now from to) text.old text.new }
{
    if !is_one_of(sights.places, to) || !is_shown(cave, sights, from, to) {
        return;
    }
    if is_crowded(cave, sights, from) && is_crowded(cave, sights, to) {
        put_plain_edge(cave, sights, from, to, text);
    } else {
        put_labelled_edge(cave, sights, from, to, text);
    }
}

/// Appends the edges of a place that are drawn.
pub fn put_edges(cave: &Cave, sights: Sights<'_>, from: u16, text: &mut Text)
    requires { from ≤ LAST_PLACE }
    ensures { let saw = sights.entry in Tells (edges cave.now (stops_of saw.stops.now) saw.logs
        saw.is_seen_only saw.places.now from) text.old text.new }
{
    match ends_of_edges(text.alloc(), cave, from) {
        Ok(ends) => {
            for to in &ends {
                put_drawn_edge(cave, sights, from, *to, text);
            }
        }
        Err(AllocError) => text.fail(),
    }
}
