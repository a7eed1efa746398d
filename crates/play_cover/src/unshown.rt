//! What isn't shown, as a list of what is known has it, and which plays show what.

ghost use Rattle.std.specs.Prelude.{◌++◌, OnOk, map};
ghost use Rattle.base_text.specs.Text.{Tells};
ghost use Rattle.play_cover.specs.Coverage.{unmet_entries};
ghost use Rattle.check_tables.specs.Marks.{Notes, is_marked};
ghost use Rattle.play_cover.specs.RowMarks.{mark_of_row};
ghost use Rattle.play_cover.specs.Texts.{said_by_all};
ghost use Rattle.play_cover.specs.Reports.{none_shown, unshown};

use crate::cave_texts::CaveTexts;
use crate::coverage::put_all_entries;
use crate::parts::note_parts;
use crate::row_report::{CaveWays, RuleTables};
use crate::rule_notes::note_rows;
use crate::travel_report::missing_ways;
use base_text::Text;
use cave_data::Cave;
use cave_play::logs::PlayNotes;
use cave_world::{Part, Question, RuleRow, State, Table};
use check_tables::known::{KnownList, put_entries};
use check_tables::marks::MarkSet;
use check_tables::travel_words::TravelEntries;
use data_lines::{WayLine, way_lines};
use play_machine::{Begun, NotedRows, SeenLine, Watch};
use std::alloc::{AllocError, Global};
use turn_ends::question_row;

/// Writes the entries of all texts that weren't said and of all rows that never applied, a line
/// each.
#[tactic(auto, unfolding(crate::specs::Reports::unshown))]
fn put_unshown(
    text: &mut Text,
    of: &CaveWays<'_>,
    said: &MarkSet,
    noted: &MarkSet,
) -> Result<(), AllocError>
    ensures { OnOk result (Tells (unshown of.now.cave.now of.now.ways.now (is_marked said.now)
        (is_marked noted.now)) text.old text.new) }
{
    let missing = missing_ways(text.alloc(), noted, of.ways)?;
    put_all_entries(text, &CaveTexts::of(of.cave), said)?;
    put_all_entries(text, &RuleTables, noted)?;
    put_entries(text, &TravelEntries { cave: of.cave }, "", &missing);
    Ok(())
}

/// Writes a line for each line of a list that says something, and is the entry neither of a text
/// that wasn't said nor of a row that never applied.
fn put_unmet(
    text: &mut Text,
    known: &KnownList,
    of: &CaveWays<'_>,
    said: &MarkSet,
    noted: &MarkSet,
) -> Result<(), AllocError>
    ensures { OnOk result (Tells (unmet_entries known.now (unshown of.now.cave.now of.now.ways.now
        (is_marked said.now) (is_marked noted.now))) text.old text.new) }
{
    let words = "nothing that is never shown says this";
    let mut entries = text.beside();
    put_unshown(&mut entries, of, said, noted)?;
    known.put_unmet(text, words, &entries.finish()?);
    Ok(())
}

/// The same of texts that weren't said; no entry of a row is told.
fn put_unmet_said(
    text: &mut Text,
    known: &KnownList,
    of: &CaveWays<'_>,
    said: &MarkSet,
) -> Result<(), AllocError>
    ensures { OnOk result (Tells (unmet_entries known.now (unshown of.now.cave.now of.now.ways.now
        (is_marked said.now) none_shown)) text.old text.new) }
{
    let none = MarkSet::new(text.alloc());
    put_unmet(text, known, of, said, &none)
}

/// The same of the texts of a cave.
pub(crate) fn put_unmet_texts(
    text: &mut Text,
    known: &KnownList,
    texts: &CaveTexts<'_>,
    ways: &[WayLine],
    said: &MarkSet,
) -> Result<(), AllocError>
    ensures { OnOk result (Tells (unmet_entries known.now (unshown texts.now ways.now
        (is_marked said.now) none_shown)) text.old text.new) }
{
    let cave = texts.cave();
    put_unmet_said(text, known, &CaveWays { cave, ways }, said)
}

/// The same of rows that never applied; no entry of a text is told.
pub(crate) fn put_unmet_rows(
    text: &mut Text,
    known: &KnownList,
    of: &CaveWays<'_>,
    noted: &MarkSet,
) -> Result<(), AllocError>
    ensures { OnOk result (Tells (unmet_entries known.now (unshown of.now.cave.now of.now.ways.now
        none_shown (is_marked noted.now))) text.old text.new) }
{
    let none = MarkSet::new(text.alloc());
    put_unmet(text, known, of, &none, noted)
}

/// Marks what parts say, and rows.
#[tactic(auto, using(crate::proofs::RowMarkLemmas::both_noted))]
fn note_shown(
    alloc: Global,
    cave: &Cave,
    parts: &[Part],
    rows: &[RuleRow],
    marks: &mut MarkSet,
) -> Result<(), AllocError>
    ensures { OnOk result (Notes (said_by_all cave.now parts.now ++ map mark_of_row rows.now)
        marks.old marks.new) }
{
    note_parts(alloc, marks, cave, parts)?;
    note_rows(alloc, rows, marks)
}

/// The texts that plays say, and the rows that apply in them, or are tried.
#[derive(Drop)]
pub struct ShownThings {
    marks: MarkSet,
}

impl Watch for ShownThings {
    ghost use Rattle.check_tables.specs.Marks.{AreMarksOf};
    ghost use Rattle.play_cover.specs.Plays.{shown_at, shown_at_start};
    ghost use Rattle.check_tables.specs.declared.marks.Mark.{Mark};

    type Before = ();

    type Rows = NotedRows;

    ghost Fact = { Mark };

    ghost kept = { λ _. tt };

    ghost first_facts = { shown_at_start };

    ghost facts = { shown_at };

    ghost HasNoted = { λ marks shown. AreMarksOf marks shown.marks };

    fn before(_: &State) {}

    #[tactic(auto, using(check_tables::proofs::Noting::more_marked))]
    fn start(&mut self, alloc: Global, begun: &Begun<'_>) -> Result<(), AllocError> {
        let rows = [RuleRow::OfTable(Table::Questions, question_row(&Question::Welcome))];
        note_shown(alloc, begun.rules.cave, begun.parts, &rows, &mut self.marks)
    }

    #[tactic(auto, using(check_tables::proofs::Noting::more_marked))]
    fn see(
        &mut self,
        alloc: Global,
        seen: &SeenLine<'_, ()>,
        rows: &NotedRows,
    ) -> Result<(), AllocError> {
        let rows = rows.as_slice()?;
        note_shown(alloc, seen.rules.cave, seen.parts, rows, &mut self.marks)
    }
}

impl PlayNotes for ShownThings {
    ghost use Rattle.play_command.specs.declared.views.CoverView.TheVariants.{Known};
    ghost use Rattle.play_cover.specs.Plays.{left_in_games, report_on_games};

    type View = KnownList;

    type Found = usize;

    ghost report_on = { λ database cave known games.
        report_on_games Known known database cave games };

    ghost found_on = { λ database cave known games.
        left_in_games Known known database cave games };

    #[tactic(auto, using(check_tables::proofs::Noting::none_marked))]
    fn none(alloc: Global) -> Result<ShownThings, AllocError> {
        Ok(ShownThings {
            marks: MarkSet::new(alloc),
        })
    }

    fn push_report(
        &self,
        alloc: Global,
        database: &[u8],
        cave: &Cave,
        _known: &KnownList,
        _logs: usize,
        text: &mut Vec<u8>,
    ) -> Result<usize, AllocError> {
        let ways = way_lines(alloc, database)?;
        let of = CaveWays { cave, ways: &ways };
        let mut told = Text::after(alloc, text);
        put_unshown(&mut told, &of, &self.marks, &self.marks)?;
        told.give_to(text)?;
        Ok(0)
    }
}
