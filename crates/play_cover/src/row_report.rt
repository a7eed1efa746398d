//! The report on the rules, some of whose rows applied.

ghost use Rattle.std.specs.Prelude.{◌≡◌, IfOk, OnOk};
ghost use Rattle.base_text.specs.Text.{Tells};
ghost use Rattle.check_tables.specs.Marks.{is_marked};
ghost use Rattle.play_cover.specs.Reports.{row_report, row_sums, rows_left};

use crate::coverage::{CoverTotals, Detail, Groups, put_groups, put_in_logs};
use crate::each_table::each_table;
use crate::rule_tables::{row_count, row_group, table_name, words_of_row};
use crate::travel_report::{count_noted_ways, put_travel};
use crate::unshown::put_unmet_rows;
use base_text::Text;
use cave_data::Cave;
use cave_world::Table;
use check_tables::known::KnownList;
use check_tables::marks::MarkSet;
use data_lines::WayLine;
use std::alloc::{AllocError, Global};

/// The tables of the rules.
#[derive(Clone, Copy)]
pub(crate) struct RuleTables;

impl Groups for RuleTables {
    ghost use Rattle.play_cover.specs.RowMarks.{rule_rows};

    type Group = Table;

    ghost catalogue = { λ _. rule_rows };

    fn groups(&self) -> &[Table] {
        each_table()
    }

    fn number(&self, table: Table) -> usize {
        row_group(table)
    }

    fn heading(&self, table: Table) -> &'static str {
        table_name(table)
    }

    #[tactic(auto, using(check_tables::proofs::Numbers::numbers_more))]
    fn present(&self, alloc: Global, table: Table) -> Result<Vec<u16>, AllocError> {
        let mut numbers = Vec::new(alloc);
        for before in 0..row_count(table) {
            numbers.push(before + 1)?;
        }
        Ok(numbers)
    }

    fn put_name(&self, _table: Table, number: u16, text: &mut Text) {
        write!(text, " {number}");
    }

    fn indent(&self) -> &'static str {
        "    "
    }

    fn put_entry(&self, table: Table, number: u16, text: &mut Text) {
        let (name, words) = (table_name(table), words_of_row(table, number));
        write!(text, "{name} {number}  {words}");
    }
}

/// Writes the line that sums up: how many of the rows, and of the travel rows, applied, and how
/// many there are.
fn put_row_sums(text: &mut Text, rows: CoverTotals, taken: usize, all: usize, logs: usize)
    ensures { Tells (row_sums rows.covered rows.present taken all logs) text.old text.new }
{
    let (covered, present) = (rows.covered, rows.present);
    write!(
        text,
        "-- {covered} of {present} rows and {taken} of {all} travel rows"
    );
    put_in_logs(text, logs);
}

/// The travel rows of a cave, with their lines in its database.
#[derive(Clone, Copy)]
pub struct CaveWays<'a> {
    pub cave: &'a Cave,
    pub ways: &'a [WayLine],
}

/// Writes the report on the rules, and on the travel rows of a cave, some of which were noted in
/// this many logs, and returns how many are left that a list doesn't know.
#[tactic(auto, unfolding(crate::specs::Reports::row_report))]
pub fn put_row_report(
    text: &mut Text,
    noted: &MarkSet,
    of: &CaveWays<'_>,
    known: &KnownList,
    logs: usize,
) -> Result<usize, AllocError>
    ensures told { OnOk result (Tells (row_report (is_marked noted.now) of.now.cave.now known.now
        of.now.ways.now logs) text.old text.new) }
    ensures left { IfOk result (λ left. left ≡ rows_left (is_marked noted.now) of.now.cave.now
        known.now of.now.ways.now) }
{
    let CaveWays { cave, ways } = *of;
    put_unmet_rows(text, known, of, noted)?;
    let rows = put_groups(text, &RuleTables, noted, known, Detail::Both)?;
    let left = put_travel(text, noted, cave, known, ways)?;
    let taken = count_noted_ways(noted, ways, true);
    put_row_sums(text, rows, taken, ways.len(), logs);
    Ok(rows.left + left)
}
