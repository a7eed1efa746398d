//! Notes on the rows of the rules that apply in a turn, or none.
ghost use Rattle.std.specs.Prelude.{◌≡◌, List, ◌++◌, ◌∷◌, []};
ghost use Rattle.cave_world.specs.declared.tables.RuleRow.{RuleRow};

use crate::ghost_rows::GhostRows;
use crate::tables::RuleRow;

/// Notes on the rows of the rules.
pub trait RowNotes: Drop {
    /// The noted rows, in order.
    ghost rows: { Self → List RuleRow };

    /// Notes a row.
    fn note(&mut self, row: RuleRow)
        ensures { rows self.new ≡ rows self.old ++ row ∷ [] };
}

/// Notes that keep nothing, and take no memory.
#[derive(Drop)]
pub struct Unnoted {
    noted: GhostRows,
}

impl Unnoted {
    /// No notes yet.
    pub fn new() -> Unnoted
        ensures { result.noted.rows ≡ [] }
    {
        Unnoted {
            noted: GhostRows::new(),
        }
    }
}

impl RowNotes for Unnoted {
    ghost rows = { λ n. n.noted.rows };

    fn note(&mut self, row: RuleRow) {
        self.noted = self.noted.and(row);
    }
}
