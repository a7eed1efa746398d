//! Which rows apply in plays.

ghost use Rattle.std.specs.Prelude.{OnOk, map};
ghost use Rattle.check_tables.specs.Marks.{Notes};
ghost use Rattle.play_cover.specs.RowMarks.{mark_of_row};

use crate::row_report::{CaveWays, put_row_report};
use crate::rule_tables::row_mark;
use base_text::Text;
use cave_data::Cave;
use cave_play::logs::PlayNotes;
use cave_world::{Question, RuleRow, State, Table};
use check_tables::known::KnownList;
use check_tables::marks::MarkSet;
use data_lines::way_lines;
use play_machine::{Begun, NotedRows, SeenLine, Watch};
use std::alloc::{AllocError, Global};
use turn_ends::question_row;

/// Marks rows.
pub fn note_rows(alloc: Global, rows: &[RuleRow], marks: &mut MarkSet) -> Result<(), AllocError>
    ensures { OnOk result (Notes (map mark_of_row rows.now) marks.old marks.new) }
{
    for row in rows {
        marks.note(alloc, row_mark(*row))?;
    }
    Ok(())
}

/// The rows that apply in plays, or are tried.
#[derive(Drop)]
pub struct RuleNotes {
    marks: MarkSet,
}

impl Watch for RuleNotes {
    ghost use Rattle.check_tables.specs.Marks.{AreMarksOf};
    ghost use Rattle.play_cover.specs.Plays.{rows_at, rows_at_start};
    ghost use Rattle.check_tables.specs.declared.marks.Mark.{Mark};

    type Before = ();

    type Rows = NotedRows;

    ghost Fact = { Mark };

    ghost kept = { λ _. tt };

    ghost first_facts = { rows_at_start };

    ghost facts = { rows_at };

    ghost HasNoted = { λ marks notes. AreMarksOf marks notes.marks };

    fn before(_: &State) {}

    #[tactic(auto, using(check_tables::proofs::Noting::more_marked))]
    fn start(&mut self, alloc: Global, _: &Begun<'_>) -> Result<(), AllocError> {
        let row = RuleRow::OfTable(Table::Questions, question_row(&Question::Welcome));
        self.marks.note(alloc, row_mark(row))
    }

    #[tactic(auto, using(check_tables::proofs::Noting::more_marked))]
    fn see(
        &mut self,
        alloc: Global,
        _: &SeenLine<'_, ()>,
        rows: &NotedRows,
    ) -> Result<(), AllocError> {
        note_rows(alloc, rows.as_slice()?, &mut self.marks)
    }
}

impl PlayNotes for RuleNotes {
    ghost use Rattle.play_command.specs.declared.views.CoverView.TheVariants.{Rules};
    ghost use Rattle.play_cover.specs.Plays.{left_in_games, report_on_games};

    type View = KnownList;

    type Found = usize;

    ghost report_on = { λ database cave known games.
        report_on_games Rules known database cave games };

    ghost found_on = { λ database cave known games.
        left_in_games Rules known database cave games };

    #[tactic(auto, using(check_tables::proofs::Noting::none_marked))]
    fn none(alloc: Global) -> Result<RuleNotes, AllocError> {
        Ok(RuleNotes {
            marks: MarkSet::new(alloc),
        })
    }

    fn push_report(
        &self,
        alloc: Global,
        database: &[u8],
        cave: &Cave,
        known: &KnownList,
        logs: usize,
        text: &mut Vec<u8>,
    ) -> Result<usize, AllocError> {
        let ways = way_lines(alloc, database)?;
        let of = CaveWays { cave, ways: &ways };
        let mut told = Text::after(alloc, text);
        let left = put_row_report(&mut told, &self.marks, &of, known, logs)?;
        told.give_to(text)?;
        Ok(left)
    }
}
