//! The classes of a database: a store of bytes, and the rows in the order of the file.
ghost use Rattle.std.specs.Prelude.{◌≡◌, ◌++◌, ◌∷◌, [], OnOk, length, map, option_map};
ghost use Rattle.cave_data.specs.CaveView.{class_from};
ghost use Rattle.cave_data.specs.Printing.{rating, printed_class};

use crate::span::{NumberedSpan, add_row};
use crate::store::Store;
use crate::texts::printed;
use std::alloc::{AllocError, Global};
use std::marker::Model;

/// The most classes.
pub const MAX_CLASSES: usize = 50;

/// The class of a score: the number of its row from 1, its bound, its text, and whether a row
/// follows.
#[derive(Clone, Copy, Debug)]
pub struct Rating<'a> {
    pub row: usize,
    pub bound: u16,
    pub text: &'a [u8],
    pub is_followed: bool,
}

/// Classes in the order of the file: the bound of each, and its text.
#[derive(Drop)]
pub struct Classes {
    store: Store,
    rows: Vec<NumberedSpan>,
}

impl Model for Classes {
    ghost use Rattle.std.specs.Prelude.{List, map, All};
    ghost use Rattle.std.specs.Coded.{coded_list};
    ghost use Rattle.cave_data.specs.CaveView.{ClassEntry, class_code};

    ghost Value = { List ClassEntry };

    ghost coded = { coded_list class_code };

    ghost use Rattle.cave_data.specs.Spans.{class_of_span, RowWithin};

    ghost view = { λ c. map (class_of_span c.store) c.rows.items };

    ghost invariant = { λ c. All (RowWithin c.store) c.rows.items };
}

impl Classes {
    /// No classes.
    pub fn new(alloc: Global) -> Self
        ensures { result ≡ [] }
    {
        Self {
            store: Store::new(alloc),
            rows: Vec::new(alloc),
        }
    }

    /// How many there are.
    pub fn len(&self) -> usize
        ensures { result ≡ length self.now }
    {
        self.rows.len()
    }

    /// Adds a class whose text is the line.
    pub fn push(&mut self, bound: u16, line: &[u8]) -> Result<(), AllocError>
        ensures { OnOk result (self.new
            ≡ self.old ++ record { bound = bound; text = line.now ++ 10 ∷ [] } ∷ []) }
    {
        let start = self.store.len();
        let span = self.store.add_line(start, line)?;
        let added = NumberedSpan {
            number: bound,
            span,
        };
        add_row(&mut self.rows, MAX_CLASSES, added)?;
        Ok(())
    }

    /// The class of the score: the first row whose bound is not below the score.
    pub fn class_of(&self, score: u32) -> Option<Rating<'_>>
        ensures { option_map rating result ≡ class_from 1 score (map printed_class self.now) }
    {
        let count = self.rows.len();
        for (number, row) in self.rows.iter().enumerate() {
            if score <= u32::from(row.number) {
                return Some(Rating {
                    row: number + 1,
                    bound: row.number,
                    text: printed(self.store.text(row.span)),
                    is_followed: number + 1 < count,
                });
            }
        }
        None
    }
}
