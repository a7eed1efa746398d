//! The rows that are noted on a line, for what watches a play.

ghost use Rattle.std.specs.Prelude.{◌≡◌, IfOk, None};

use crate::watch::LineRows;
use cave_world::{GhostRows, RowNotes, RuleRow};
use std::alloc::{AllocError, Global};

/// The rows of a line, in order.
#[derive(Drop)]
pub struct NotedRows {
    rows: Vec<RuleRow>,
    /// The error, if memory ran out and some rows are missing.
    failed: Option<AllocError>,
    all: GhostRows,
    ghost kept: { failed ≡ None → rows.items ≡ all.rows },
}

impl NotedRows {
    /// The rows, if none is missing.
    pub fn as_slice(&self) -> Result<&[RuleRow], AllocError>
        ensures { IfOk result (λ rows. rows.now ≡ self.now.all.rows) }
    {
        match self.failed {
            Some(error) => Err(error),
            None => Ok(&self.rows),
        }
    }
}

impl RowNotes for NotedRows {
    ghost rows = { λ n. n.all.rows };

    fn note(&mut self, row: RuleRow) {
        if let Err(error) = self.rows.push(row) {
            self.failed = Some(error.into());
        }
        self.all = self.all.and(row);
    }
}

impl LineRows for NotedRows {
    fn none(alloc: Global) -> NotedRows {
        NotedRows {
            rows: Vec::new(alloc),
            failed: None,
            all: GhostRows::new(),
        }
    }

    fn clear(&mut self) {
        self.rows.clear();
        self.failed = None;
        self.all = GhostRows::new();
    }
}
