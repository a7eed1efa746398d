//! The map of a cave, and the counts of what plays saw of it.

ghost use Rattle.std.specs.Prelude.{◌≡◌, ◌≤◌, ◌++◌, All, IfOk, OnOk, length};
ghost use Rattle.std.specs.List.{flat_map};
ghost use Rattle.base_lines.specs.Numbers as defined;
ghost use Rattle.base_text.specs.Text.{Tells};
ghost use Rattle.map_graph.specs.Edges.{edges};
ghost use Rattle.map_graph.specs.Map.{count_taken, count_ways, counts_around, ends_taken};
ghost use Rattle.map_graph.specs.Map.{graph_opening, labels_opening, map_of_places};
ghost use Rattle.map_graph.specs.Map.{nodes_and_edges, places_visited, seen_counts, sums};
ghost use Rattle.map_graph.specs.Parts.{drawn_places};
ghost use Rattle.map_graph.specs.Places.{node};
ghost use Rattle.map_graph.specs.Stops.{stops_of};
ghost use Rattle.map_ways.specs.Ways.{mapped_places};

use crate::captions::{SeenCounts, put_caption, put_seen_words};
use crate::edges::put_edges;
use crate::nodes::put_node;
use crate::parts::{DrawnPart, drawn_places};
use crate::sights::Sights;
use crate::stops::{Stops, is_visited, is_way_taken};
use base_lines::numbers::LAST_PLACE;
use base_text::Text;
use cave_data::Cave;
use map_ways::{count_ends_among, is_one_of, is_way, mapped_places, places_around};
use std::alloc::{AllocError, Global};

/// Appends how the graph begins.
#[tactic(auto, unfolding(crate::specs::Map::graph_opening))]
fn put_graph_opening(text: &mut Text)
    ensures { Tells graph_opening text.old text.new }
{
    text.put(
        b"digraph cave {\
        \n  graph [layout=neato, overlap=false, sep=\"+2\", splines=line, bgcolor=white];\
        \n  graph [outputorder=edgesfirst, size=\"16.5,11.6\", margin=0, pad=0.3];\
        \n  node [shape=box, width=0.1, height=0.1, margin=\"0.04,0.03\"];\
        \n  node [style=filled, fillcolor=white, fontname=\"Helvetica\", fontsize=10];\
        \n  edge [dir=both, arrowsize=0.4, arrowtail=none, arrowhead=none];\n",
    );
}

/// Appends how the labels of edges look.
#[tactic(auto, unfolding(crate::specs::Map::labels_opening))]
fn put_labels_opening(text: &mut Text)
    ensures { Tells labels_opening text.old text.new }
{
    text.put(b"  node [shape=plaintext, margin=0];\n");
}

fn put_nodes(cave: &Cave, mapped: &[u16], sights: Sights<'_>, text: &mut Text)
    requires { All (λ place. place ≤ defined.LAST_PLACE) sights.places.now }
    ensures { let saw = sights.entry in Tells (flat_map (node cave.now mapped.now (stops_of saw.stops.now)
        saw.logs) saw.places.now) text.old text.new }
{
    for place in sights.places {
        put_node(cave, mapped, sights, *place, text);
    }
}

fn put_all_edges(cave: &Cave, sights: Sights<'_>, text: &mut Text)
    requires { All (λ place. place ≤ defined.LAST_PLACE) sights.places.now }
    ensures { let saw = sights.entry in Tells (flat_map (edges cave.now (stops_of saw.stops.now) saw.logs
        saw.is_seen_only saw.places.now) saw.places.now) text.old text.new }
{
    for place in sights.places {
        put_edges(cave, sights, *place, text);
    }
}

fn put_nodes_and_edges(cave: &Cave, mapped: &[u16], sights: Sights<'_>, text: &mut Text)
    requires { All (λ place. place ≤ defined.LAST_PLACE) sights.places.now }
    ensures { let saw = sights.entry in Tells (nodes_and_edges cave.now mapped.now (stops_of saw.stops.now)
        saw.logs saw.is_seen_only saw.places.now) text.old text.new }
{
    put_nodes(cave, mapped, sights, text);
    put_labels_opening(text);
    put_all_edges(cave, sights, text);
}

/// How many of these places plays were at.
#[tactic(auto, unfolding(crate::specs::Map::places_visited))]
fn count_visited(cave: &Cave, stops: &Stops, places: &[u16]) -> usize
    ensures { result ≡ length (places_visited cave.now (stops_of stops.now) places.now) }
{
    places
        .iter()
        .filter(|place| is_visited(cave, stops, **place))
        .count()
}

/// To how many of these places plays took a way from one.
#[tactic(auto, unfolding(crate::specs::Map::ends_taken, map_ways::specs::Regions::ends_among, map_ways::specs::Ways::ends_of_ways, map_ways::specs::Ways::place_numbers))]
fn count_ends_taken(cave: &Cave, stops: &Stops, places: &[u16], from: u16) -> usize
    ensures value { result ≡ length (ends_taken cave.now (stops_of stops.now) places.now from) }
    ensures within { result ≤ defined.LAST_PLACE }
{
    (1..LAST_PLACE + 1)
        .filter(|to| is_way(cave, from, *to))
        .filter(|to| is_one_of(places, *to))
        .filter(|to| is_way_taken(cave, stops, from, *to))
        .count()
}

/// How many ways between these places plays took, and how many there are.
#[tactic(auto, unfolding(crate::specs::Map::count_taken, crate::specs::Map::count_ways))]
fn count_taken_and_all(cave: &Cave, stops: &Stops, places: &[u16]) -> (usize, usize)
    requires { length places.now ≤ defined.LAST_PLACE }
    ensures taken { result.0 ≡ count_taken cave.now (stops_of stops.now) places.now }
    ensures all { result.1 ≡ count_ways cave.now places.now }
{
    let (mut taken, mut all) = (0, 0);
    for from in places {
        taken += count_ends_taken(cave, stops, places, *from);
        all += count_ends_among(cave, places, *from);
    }
    (taken, all)
}

/// How many of these places, and of the ways between them, plays saw.
#[tactic(auto, unfolding(crate::specs::Map::seen_counts))]
fn seen_counts(cave: &Cave, stops: &Stops, places: &[u16]) -> SeenCounts
    requires { length places.now ≤ defined.LAST_PLACE }
    ensures { result ≡ seen_counts cave.now (stops_of stops.now) places.now }
{
    let (taken, ways) = count_taken_and_all(cave, stops, places);
    SeenCounts {
        visited: count_visited(cave, stops, places),
        places: places.len(),
        taken,
        ways,
    }
}

/// How many of the places around one, or of all, plays saw.
fn counts_around(
    alloc: Global,
    cave: &Cave,
    mapped: &[u16],
    stops: &Stops,
    part: DrawnPart,
) -> Result<SeenCounts, AllocError>
    requires { mapped.now ≡ mapped_places cave.now }
    ensures { IfOk result (λ counts. counts ≡ counts_around cave.now mapped.now (stops_of stops.now) part) }
{
    let places = places_around(alloc, cave, mapped, part.around)?;
    Ok(seen_counts(cave, stops, &places))
}

/// Appends the line that sums up what plays saw, if there were logs.
fn put_sums(counts: SeenCounts, logs: usize, text: &mut Text)
    ensures { Tells (sums counts logs) text.old text.new }
{
    if logs == 0 {
        return;
    }
    text.put(b"// -- ");
    put_seen_words(counts, logs, text);
    text.put(b"\n");
}

/// Appends the places and edges of a part of a cave, which has these places on its map.
fn put_drawn_nodes_and_edges(
    cave: &Cave,
    mapped: &[u16],
    stops: &Stops,
    drawn: (DrawnPart, usize),
    text: &mut Text,
)
    requires { mapped.now ≡ mapped_places cave.now }
    ensures { Tells (nodes_and_edges cave.now mapped.now (stops_of stops.now) drawn.1 drawn.0.seen
        (drawn_places cave.now (stops_of stops.now) drawn.0 mapped.now)) text.old text.new }
{
    let (part, logs) = drawn;
    match drawn_places(text.alloc(), cave, stops, part, mapped) {
        Ok(places) => {
            let sights = Sights {
                stops,
                logs,
                is_seen_only: part.seen,
                places: &places,
            };
            put_nodes_and_edges(cave, mapped, sights, text);
        }
        Err(AllocError) => text.fail(),
    }
}

/// Appends the map of a cave, or a part of it, which has these places.
#[tactic(auto, unfolding(crate::specs::Map::map_of_places, crate::specs::Map::drawing))]
fn put_map_of_places(
    cave: &Cave,
    mapped: &[u16],
    stops: &Stops,
    drawn: (DrawnPart, usize),
    counts: SeenCounts,
    text: &mut Text,
)
    requires mapped { mapped.now ≡ mapped_places cave.now }
    requires counts { counts ≡ counts_around cave.now mapped.now (stops_of stops.now) drawn.0 }
    ensures { Tells (map_of_places cave.now (stops_of stops.now) drawn.0 drawn.1) text.old text.new }
{
    put_graph_opening(text);
    put_caption(counts, drawn.1, drawn.0, text);
    put_drawn_nodes_and_edges(cave, mapped, stops, drawn, text);
    text.put(b"}\n");
    put_sums(counts, drawn.1, text);
}

/// Appends the map of a cave, or a part of it, if plays of this many logs had these stops.
pub fn push_map(
    alloc: Global,
    cave: &Cave,
    stops: &Stops,
    part: DrawnPart,
    logs: usize,
    text: &mut Vec<u8>,
) -> Result<(), AllocError>
    ensures { OnOk result (text.new.items
        ≡ text.old.items ++ map_of_places cave.now (stops_of stops.now) part logs) }
{
    let mapped = mapped_places(alloc, cave)?;
    let counts = counts_around(alloc, cave, &mapped, stops, part)?;
    let mut map = Text::after(alloc, text);
    put_map_of_places(cave, &mapped, stops, (part, logs), counts, &mut map);
    map.give_to(text)
}
