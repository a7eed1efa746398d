//! The names of rows.

ghost use Rattle.std.specs.Prelude.{◌≡◌, unwrap_or, []};
ghost use Rattle.base_text.specs.Text.{Tells};
ghost use Rattle.cave_data.specs.CaveView.{name_of};
ghost use Rattle.play_tables.specs.ScoreRows.{named_text};

use crate::columns::put_without_tabs;
use base_lines::first_line;
use base_text::Text;
use cave_data::Cave;
use world_objects::Object;

/// Writes the name of something: its kind, its number and the first line of its text.
#[tactic(auto, unfolding(crate::specs::ScoreRows::named_text))]
pub(crate) fn put_named_text(text: &mut Text, kind: &str, number: u16, told: &[u8])
    ensures { Tells (named_text kind.now number told.now) text.old text.new }
{
    write!(text, "{kind}{number}: ");
    put_without_tabs(text, first_line(told));
}

/// The inventory text of an object, or nothing.
pub(crate) fn name_of(cave: &Cave, object: Object) -> &[u8]
    ensures { result.now ≡ unwrap_or (name_of cave.now object) [] }
{
    match cave.name(u16::from(object.number())) {
        Some(name) => name,
        None => b"",
    }
}
