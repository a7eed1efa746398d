//! Where a line of a database is among its sections.
ghost use Rattle.std.specs.Prelude.{◌≡◌};
ghost use Rattle.data_rows.specs.Grammar.{section_of, position_after_heading, closes};

use crate::error::Section;
use crate::number::{Number, number_at};
use base_lines::bytes::skip_blanks;

/// Where a line is: outside every section, inside one, or after the end.
#[derive(Clone, Copy, Debug, PartialEq, Eq)]
pub enum Position {
    Outside,
    Inside(Section),
    After,
}

fn section_of(number: u32) -> Option<Section>
    ensures { result ≡ section_of number }
{
    match number {
        1 => Some(Section::LongTexts),
        2 => Some(Section::ShortTexts),
        3 => Some(Section::Travel),
        4 => Some(Section::Words),
        5 => Some(Section::Objects),
        6 => Some(Section::Messages),
        7 => Some(Section::Placements),
        8 => Some(Section::Defaults),
        9 => Some(Section::Conditions),
        10 => Some(Section::Classes),
        11 => Some(Section::Hints),
        12 => Some(Section::Magic),
        _ => None,
    }
}

/// What a line outside every section opens.
#[tactic(auto, unfolding(crate::specs::Grammar::position_after_heading))]
pub fn after_heading(line: &[u8]) -> Option<Position>
    ensures { result ≡ position_after_heading line.now }
{
    match number_at(line) {
        Some((Number::Natural(0), _)) => Some(Position::After),
        Some((Number::Natural(n), _)) => section_of(n).map(Position::Inside),
        _ => None,
    }
}

/// Whether the line ends a section.
#[tactic(auto, using(crate::proofs::Minus::unsigned), unfolding(crate::specs::Grammar::closes))]
pub fn closes(line: &[u8]) -> bool
    ensures { result ≡ closes line.now }
{
    skip_blanks(line).starts_with(b"-") && matches!(number_at(line), Some((Number::Negative(1), _)))
}
