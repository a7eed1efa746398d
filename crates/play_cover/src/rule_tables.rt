//! The tables of the rules, by number and name, and the rows of each by their numbers.

ghost use Rattle.std.specs.Prelude.{◌≡◌, ◌<◌};
ghost use Rattle.play_cover.specs.RowMarks.{mark_of_row, row_group};
ghost use Rattle.play_cover.specs.RuleTables.{row_count, table_name, table_number, words_of_row};
ghost use Rattle.play_cover.specs.RuleTables as defined;

use crate::each_table::table_name_and_words;
use cave_world::{RuleRow, Table};
use check_tables::marks::Mark;
use check_tables::text_kinds::KINDS;

/// The place of a table among all of them, from 0.
pub fn table_number(table: Table) -> usize
    ensures value { result ≡ table_number table }
    ensures within { result < defined.TABLE_COUNT }
{
    table as usize
}

/// The name of a table.
pub fn table_name(table: Table) -> &'static str
    ensures { result.now ≡ table_name table }
{
    table_name_and_words(table).0
}

/// How many rows a table has.
pub fn row_count(table: Table) -> u16
    ensures value { result ≡ row_count table }
    ensures within { result < defined.ROW_END }
{
    table_name_and_words(table).1.len() as u16
}

/// When a row of a table applies, in words. There are none for a row that the table doesn't have.
pub fn words_of_row(table: Table, number: u16) -> &'static str
    ensures { result.now ≡ words_of_row table number }
{
    let words = table_name_and_words(table).1;
    match words.get((number as usize).saturating_sub(1)) {
        Some(words) => *words,
        None => "",
    }
}

/// The groups of rows come after those of texts, of which there are as many as kinds.
const TEXT_GROUPS: usize = KINDS.len();

/// The group of the rows of a table.
pub fn row_group(table: Table) -> usize
    ensures { result ≡ row_group table }
{
    TEXT_GROUPS + 3 * table_number(table)
}

/// The mark of a row.
pub fn row_mark(row: RuleRow) -> Mark
    ensures { result ≡ mark_of_row row }
{
    match row {
        RuleRow::OfTable(table, number) => Mark {
            group: row_group(table),
            number: number as usize,
        },
        RuleRow::OfPlace(place, index, applies) => Mark {
            group: TEXT_GROUPS + (3 * place as usize + 1 + usize::from(applies)),
            number: index,
        },
    }
}
