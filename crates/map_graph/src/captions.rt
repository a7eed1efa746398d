//! What stands above a map: how much of the cave plays saw, which part is drawn, and a legend.

ghost use Rattle.std.specs.Prelude.{◌≡◌, ◌++◌};
ghost use Rattle.base_text.specs.Text.{Tells};
ghost use Rattle.map_graph.specs.Captions.{around_words, caption, caption_opening, cave_legend};
ghost use Rattle.map_graph.specs.Captions.{distance_words, heading, legend_opening, logs_legend};
ghost use Rattle.map_graph.specs.Captions.{part_words, plural, seen_legend, seen_only_words};
ghost use Rattle.map_graph.specs.Captions.{seen_words, title_of_map, words_legend};

use crate::parts::DrawnPart;
use base_text::Text;
use map_ways::Region;

/// How many places and ways there are, and how many of them plays saw.
#[derive(Clone, Copy)]
pub struct SeenCounts {
    pub visited: usize,
    pub places: usize,
    pub taken: usize,
    pub ways: usize,
}

/// The end of what there are this many of.
fn plural(count: usize) -> &'static str
    ensures { result.now ≡ plural count }
{
    if count == 1 { "" } else { "s" }
}

/// Appends how many of the places and ways plays of this many logs saw.
pub fn put_seen_words(counts: SeenCounts, logs: usize, text: &mut Text)
    ensures { Tells (seen_words counts logs) text.old text.new }
{
    let SeenCounts {
        visited,
        places,
        taken,
        ways,
    } = counts;
    write!(
        text,
        "{visited} of {places} place{}, {taken} of {ways} way{} in {logs} log{}",
        plural(places),
        plural(ways),
        plural(logs),
    );
}

fn put_title_of_map(counts: SeenCounts, logs: usize, text: &mut Text)
    ensures { Tells (title_of_map counts logs) text.old text.new }
{
    if logs == 0 {
        let SeenCounts { places, ways, .. } = counts;
        write!(
            text,
            "{places} place{}, {ways} way{}",
            plural(places),
            plural(ways)
        );
    } else {
        put_seen_words(counts, logs, text);
    }
}

/// Appends that places at most this many ways from one are drawn.
fn put_distance(ways: u16, place: u16, text: &mut Text)
    ensures { Tells (distance_words ways place) text.old text.new }
{
    write!(
        text,
        "<BR/>drawn: at most {ways} way{} from place {place}",
        plural(ways as usize),
    );
}

/// Appends which places are drawn, if not all are.
fn put_around_words(around: Option<Region>, text: &mut Text)
    ensures { Tells (around_words around) text.old text.new }
{
    match around {
        Some(Region { place, ways }) => put_distance(ways, place, text),
        None => {}
    }
}

fn seen_only_words(seen: bool) -> &'static str
    ensures { result.now ≡ seen_only_words seen }
{
    if seen {
        "<BR/>drawn: what was seen"
    } else {
        ""
    }
}

fn put_part_words(part: DrawnPart, text: &mut Text)
    ensures { Tells (part_words part) text.old text.new }
{
    put_around_words(part.around, text);
    text.put(seen_only_words(part.seen).as_bytes());
}

/// What lines and colours mean that show what plays saw.
#[tactic(auto, unfolding(crate::specs::Captions::seen_legend))]
fn seen_legend(seen: bool) -> &'static str
    ensures { result.now ≡ seen_legend seen }
{
    if seen {
        "<TD BORDER=\"3\">a log was here</TD><TD>hollow head: no log went there</TD>"
    } else {
        "<TD BORDER=\"3\">a log was here</TD>\
        <TD BORDER=\"1\" COLOR=\"gray65\"><FONT COLOR=\"gray40\">no log was here</FONT></TD>\
        <TD>hollow head: no log went there</TD>"
    }
}

fn logs_legend(logs: usize, seen: bool) -> &'static str
    ensures { result.now ≡ logs_legend logs seen }
{
    if logs == 0 { "" } else { seen_legend(seen) }
}

/// What colours and shapes mean on each map.
#[tactic(auto, unfolding(crate::specs::Captions::cave_legend))]
fn cave_legend() -> &'static str
    ensures { result.now ≡ cave_legend }
{
    "<TD BORDER=\"1\" BGCOLOR=\"gray80\">dark</TD>\
    <TD BORDER=\"1\" STYLE=\"ROUNDED\">circle: leads on by itself</TD>"
}

/// Appends what lines and colours mean.
fn put_legend(logs: usize, seen: bool, text: &mut Text)
    ensures { Tells (logs_legend logs seen ++ cave_legend) text.old text.new }
{
    text.put(logs_legend(logs, seen).as_bytes());
    text.put(cave_legend().as_bytes());
}

/// What words and marks mean, and how the line ends.
#[tactic(auto, unfolding(crate::specs::Captions::words_legend))]
fn words_legend() -> &'static str
    ensures { result.now ≡ words_legend }
{
    "</TR></TABLE></TD></TR><TR><TD>EAST / WEST: to the higher number / to the lower. \
    + begins here, = is this to the rules</TD></TR></TABLE>>];\n"
}

/// How the line begins.
#[tactic(auto, unfolding(crate::specs::Captions::caption_opening))]
fn caption_opening() -> &'static str
    ensures { result.now ≡ caption_opening }
{
    "  graph [labelloc=t, fontname=\"Helvetica\", fontsize=10, label=<<TABLE BORDER=\"0\">\
    <TR><TD><FONT POINT-SIZE=\"16\">"
}

/// What stands between the title and the legend.
#[tactic(auto, unfolding(crate::specs::Captions::legend_opening))]
fn legend_opening() -> &'static str
    ensures { result.now ≡ legend_opening }
{
    "</FONT></TD></TR><TR><TD><TABLE BORDER=\"0\" CELLSPACING=\"6\"><TR>"
}

/// Appends how the line begins, with the title of a map, and which part is drawn.
fn put_heading(counts: SeenCounts, logs: usize, part: DrawnPart, text: &mut Text)
    ensures { Tells (heading counts logs part) text.old text.new }
{
    text.put(caption_opening().as_bytes());
    put_title_of_map(counts, logs, text);
    put_part_words(part, text);
    text.put(legend_opening().as_bytes());
}

/// Appends the line of what stands above a map.
#[tactic(auto, unfolding(crate::specs::Captions::caption))]
pub fn put_caption(counts: SeenCounts, logs: usize, part: DrawnPart, text: &mut Text)
    ensures { Tells (caption counts logs part) text.old text.new }
{
    put_heading(counts, logs, part, text);
    put_legend(logs, part.seen, text);
    text.put(words_legend().as_bytes());
}
