//! Rows that only proofs read.
ghost use Rattle.std.specs.Prelude.{◌≡◌, List, [], ◌∷◌, ◌++◌};
ghost use Rattle.std.specs.Borrow.{ftrue};
ghost use Rattle.cave_world.specs.declared.tables.RuleRow.{RuleRow};

use crate::tables::RuleRow;
use std::marker::Model;

/// Rows in order, only for contracts: they take no memory, and do nothing when the program runs.
#[derive(Drop)]
pub struct GhostRows {
    pub ghost rows: { List RuleRow },
}

impl Model for GhostRows {
    ghost also_owns = { λ _. ftrue };
}

impl GhostRows {
    /// No rows.
    pub fn new() -> GhostRows
        ensures { result.rows ≡ [] }
    {
        GhostRows {}
    }

    /// These rows, and one more.
    pub fn and(&self, row: RuleRow) -> GhostRows
        ensures { result.rows ≡ self.now.rows ++ row ∷ [] }
    {
        GhostRows {}
    }
}
