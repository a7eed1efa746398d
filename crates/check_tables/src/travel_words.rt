//! The words of travel rows.

ghost use Rattle.std.specs.Prelude.{◌≡◌, option_map};
ghost use Rattle.std.specs.List.{flat_map, slice_get};
ghost use Rattle.base_text.specs.Text.{Tells};
ghost use Rattle.cave_data.specs.CaveView.{ways_from};
ghost use Rattle.data_rows.specs.RowViews.{going};
ghost use Rattle.check_tables.specs.WayWords.{end_words, row_words, way_words, words_of_way};
ghost use Rattle.check_tables.specs.WayWords.{motion_name};

use crate::known::Entries;
use crate::way_words::{put_condition_mark, put_motion};
use base_text::Text;
use cave_data::Cave;
use data_lines::WayLine;
use data_rows::{Destination, Row, Special};

/// Appends where a row leads.
fn put_end_words(destination: Destination, text: &mut Text)
    ensures { Tells (end_words destination) text.old text.new }
{
    match destination {
        Destination::Place(place) => {
            write!(text, " to {place}");
        }
        Destination::Message(message) => {
            write!(text, " to message {message}");
        }
        Destination::Special(Special::Squeeze) => text.put(b" to the narrow passage"),
        Destination::Special(Special::Bridge) => text.put(b" to the troll's bridge"),
        Destination::PutsEmeraldDown => text.put(b" to put EMERALD down"),
        Destination::NoWay => text.put(b" to no rule"),
    }
}

/// Appends the names of motions.
fn put_motions(cave: &Cave, motions: &[u16], text: &mut Text)
    ensures { Tells (flat_map (motion_name cave.now) motions.now) text.old text.new }
{
    for motion in motions {
        put_motion(cave, *motion, text);
    }
}

/// Appends the words of a row of a place.
fn put_row_words(cave: &Cave, place: u16, row: &Row, text: &mut Text)
    ensures { Tells (row_words cave.now place (going row.now)) text.old text.new }
{
    write!(text, "from {place} by");
    put_motions(cave, &row.motions, text);
    put_end_words(row.destination(), text);
    put_condition_mark(cave, false, row.condition(), text);
}

/// The row at a line of the database.
fn row_of_way<'a>(cave: &'a Cave, way: &WayLine) -> Option<&'a Row>
    ensures { option_map (λ row. going row.now) result
        ≡ slice_get (ways_from cave.now way.now.place) way.now.index }
{
    cave.travel(way.place).get(way.index)
}

/// Appends the words of a row of a place, if there is one.
fn put_words_of_way(cave: &Cave, place: u16, row: Option<&Row>, text: &mut Text)
    ensures { Tells (words_of_way cave.now place (option_map (λ row. going row.now) row.entry))
        text.old text.new }
{
    match row {
        Some(row) => put_row_words(cave, place, row, text),
        None => {}
    }
}

/// Writes the words of the row at a line of the database.
pub fn put_way_words(cave: &Cave, way: &WayLine, text: &mut Text)
    ensures { Tells (way_words cave.now way.now) text.old text.new }
{
    put_words_of_way(cave, way.place, row_of_way(cave, way), text);
}

/// The travel rows of a cave, as lists of what is known have them.
#[derive(Clone, Copy)]
pub struct TravelEntries<'a> {
    pub cave: &'a Cave,
}

impl Entries for TravelEntries<'_> {
    type Thing = WayLine;

    ghost entry = { λ rows. way_words rows.cave.now };

    fn put_entry(&self, way: WayLine, text: &mut Text) {
        put_way_words(self.cave, &way, text);
    }
}
