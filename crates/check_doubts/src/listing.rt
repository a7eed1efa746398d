//! The list of what is doubtful about a cave, as a text.

ghost use Rattle.std.specs.Prelude.{◌≡◌};
ghost use Rattle.std.specs.List.{flat_map};
ghost use Rattle.base_text.specs.Text.{Tells};
ghost use Rattle.check_doubts.specs.Listing.{doubt_line, doubts_text, file_of, sum_line};

use crate::flaw::{Doubt, Source};
use base_text::Text;

/// The names of the files that doubts are about, and of the list of those that are known.
#[derive(Clone, Copy)]
pub struct DoubtFiles<'a> {
    pub database: &'a str,
    pub bindings: &'a str,
    pub known: &'a str,
}

fn file_of<'a>(files: &DoubtFiles<'a>, source: Source) -> &'a str
    ensures { result.now ≡ file_of files.now source }
{
    match source {
        Source::Database => files.database,
        Source::Bindings => files.bindings,
    }
}

/// Writes the line of a doubt.
fn put_doubt_line(text: &mut Text, files: &DoubtFiles<'_>, doubt: &Doubt)
    ensures { Tells (doubt_line files.now doubt.now) text.old text.new }
{
    let (file, line, flaw) = (file_of(files, doubt.source), doubt.line, doubt.flaw);
    write!(text, "{file}:{line}: {flaw}\n");
}

fn put_doubt_lines(text: &mut Text, files: &DoubtFiles<'_>, doubts: &[Doubt])
    ensures { Tells (flat_map (doubt_line files.now) doubts.now) text.old text.new }
{
    for doubt in doubts {
        put_doubt_line(text, files, doubt);
    }
}

fn put_sum_line(text: &mut Text, count: usize)
    ensures { Tells (sum_line count) text.old text.new }
{
    if count == 1 {
        text.put(b"-- 1 doubt\n");
    } else {
        write!(text, "-- {count} doubts\n");
    }
}

/// Writes a line for each doubt, and how many there are.
#[tactic(auto, unfolding(crate::specs::Listing::doubts_text))]
pub fn put_doubts(text: &mut Text, files: &DoubtFiles<'_>, doubts: &[Doubt])
    ensures { Tells (doubts_text files.now doubts.now) text.old text.new }
{
    put_doubt_lines(text, files, doubts);
    put_sum_line(text, doubts.len());
}
