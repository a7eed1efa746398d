//! Laws of rows. Each is the contract of a function that does nothing.

ghost use Rattle.turn_scene.specs.RowLaws.{FirstFittingApplies, NotedByNumber, NoneFittingDoesNothing};
ghost use Rattle.turn_scene.specs.RowLaws.{DrawsComeLast, LastRowIsNoted, NotedInOrder};
ghost use Rattle.turn_scene.specs.RowLaws.{NotesARowOrNone};

/// A row that fits applies if none before it does, whichever rows come after it.
pub fn first_fitting_applies<C, F>()
    ensures { FirstFittingApplies C F }
{}

/// A table whose rows are noted notes the number of the row that applies.
pub fn noted_by_number<C, F>()
    ensures { NotedByNumber C F }
{}

/// Each row of such a table is noted by its number, from 1 to the count of rows.
pub fn noted_in_order<C, F>()
    ensures { NotedInOrder C F }
{}

/// In such a table either a row applies, and its number is noted, or none fits, and none is noted.
pub fn a_row_or_none_is_noted<C, F>()
    ensures { NotesARowOrNone C F }
{}

/// A last row that applies if no other does is one more row of the table.
pub fn last_row_is_noted<C, F>()
    ensures { LastRowIsNoted C F }
{}

/// If no row fits, only what is meant for that case is done.
pub fn none_fitting_does_nothing<C, F>()
    ensures { NoneFittingDoesNothing C F }
{}

/// If a test of a row fails, the row doesn't apply, and makes no draw.
pub fn draws_come_last<C, F>()
    ensures { DrawsComeLast C F }
{}
