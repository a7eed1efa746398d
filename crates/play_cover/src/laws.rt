//! Laws about the tables of the rules, and about what is written of the plays of logs. Each is the
//! contract of a function that does nothing.

ghost use Rattle.play_cover.specs.MoreLogs.{MoreLogsListNoMore};
ghost use Rattle.play_cover.specs.Plays.{AgainIsNothing, OneCoveredOutput, OrderIsNothing};
ghost use Rattle.play_cover.specs.RowMarks.{EachRowHasItsMark, NoRowIsText};
ghost use Rattle.play_cover.specs.RuleTables.{TablesAreInOrder};

/// The order of the logs changes no byte of the output.
pub fn order_is_nothing()
    ensures { OrderIsNothing }
{}

/// A log that is given once more changes nothing in the output except the number of logs.
pub fn again_is_nothing()
    ensures { AgainIsNothing }
{}

/// A database with its bindings, logs and a seed have at most one output.
pub fn one_covered_output()
    ensures { OneCoveredOutput }
{}

/// What is listed as never said, applied or taken of logs and more of them is part of what is
/// listed of the first.
pub fn more_logs_list_no_more()
    ensures { MoreLogsListNoMore }
{}

/// Rows with the same mark are the same row.
pub fn each_row_has_its_mark()
    ensures { EachRowHasItsMark }
{}

/// No row has the mark of a text.
pub fn no_row_is_text()
    ensures { NoRowIsText }
{}

/// Each table stands in the list at the place of its variant, and each variant has its table.
pub fn tables_are_in_order()
    ensures { TablesAreInOrder }
{}
