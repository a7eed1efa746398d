//! The report on the texts of a cave, some of which were said.

ghost use Rattle.std.specs.Prelude.{◌≡◌, IfOk, OnOk};
ghost use Rattle.base_text.specs.Text.{Tells};
ghost use Rattle.check_tables.specs.Marks.{is_marked};
ghost use Rattle.play_cover.specs.Reports.{detail_of, text_report, text_sums, texts_left};

use crate::cave_texts::CaveTexts;
use crate::coverage::{Detail, Groups, put_groups, put_in_logs};
use crate::unshown::put_unmet_texts;
use base_text::Text;
use check_tables::known::KnownList;
use check_tables::marks::MarkSet;
use check_tables::text_kinds::{
    KINDS, PROPS_PER_OBJECT, TextKind, heading_of_kind, name_at, put_first_line, text_at,
    word_of_kind,
};
use data_lines::WayLine;
use data_rows::role::ROLE_NAMES;
use play_command::TextView;
use std::alloc::{AllocError, Global};

/// One more than the greatest number that a text may have.
const NUMBERS: usize = 10_000;

/// What is asked about the texts of a cave: what is printed, and the list of what is known.
#[derive(Drop)]
pub struct TextsAsked {
    pub view: TextView,
    pub known: KnownList,
}

impl<'a> Groups for CaveTexts<'a> {
    ghost use Rattle.play_cover.specs.Texts.{cave_texts};

    type Group = TextKind;

    ghost catalogue = { λ texts. cave_texts texts };

    fn groups(&self) -> &[TextKind] {
        &KINDS
    }

    fn number(&self, kind: TextKind) -> usize {
        kind.number()
    }

    fn heading(&self, kind: TextKind) -> &'static str {
        heading_of_kind(kind)
    }

    #[tactic(auto, unfolding(crate::specs::Texts::texts_of_kind))]
    fn present(&self, alloc: Global, kind: TextKind) -> Result<Vec<u16>, AllocError> {
        (0..NUMBERS as u16)
            .filter(|number| self.has(kind, *number))
            .collect(alloc)
    }

    fn put_name(&self, kind: TextKind, number: u16, text: &mut Text) {
        match kind {
            TextKind::Look => {
                let (object, prop) = (number / PROPS_PER_OBJECT, number % PROPS_PER_OBJECT);
                write!(text, " {object}:{prop}");
            }
            TextKind::Role => {
                let name = name_at(&ROLE_NAMES, number);
                write!(text, " {name}");
            }
            _ => {
                write!(text, " {number}");
            }
        }
    }

    fn indent(&self) -> &'static str {
        ""
    }

    fn put_entry(&self, kind: TextKind, number: u16, text: &mut Text) {
        text.put(word_of_kind(kind).as_bytes());
        self.put_name(kind, number, text);
        put_first_line(text_at(self.cave(), kind, number), text);
    }
}

fn detail_of(view: TextView) -> Detail
    ensures { result ≡ detail_of view }
{
    match view {
        TextView::Counts => Detail::Counts,
        TextView::Texts => Detail::Missing,
    }
}

/// Writes the line that sums up.
fn put_text_sums(text: &mut Text, covered: usize, present: usize, logs: usize)
    ensures { Tells (text_sums covered present logs) text.old text.new }
{
    write!(text, "-- {covered} of {present} texts");
    put_in_logs(text, logs);
}

/// Writes what the view asks for about a cave, some of whose texts were said in this many logs,
/// and returns how many are left that a list doesn't know.
#[tactic(auto, unfolding(crate::specs::Reports::text_report))]
pub fn put_text_report(
    text: &mut Text,
    cave: &CaveTexts<'_>,
    ways: &[WayLine],
    said: &MarkSet,
    asked: &TextsAsked,
    logs: usize,
) -> Result<usize, AllocError>
    ensures told { OnOk result (Tells (text_report cave.now (is_marked said.now) asked.now.known
        asked.now.view ways.now logs) text.old text.new) }
    ensures left { IfOk result (λ left.
        left ≡ texts_left cave.now (is_marked said.now) asked.now.known) }
{
    put_unmet_texts(text, &asked.known, cave, ways, said)?;
    let detail = detail_of(asked.view);
    let totals = put_groups(text, cave, said, &asked.known, detail)?;
    put_text_sums(text, totals.covered, totals.present, logs);
    Ok(totals.left)
}
