//! The words of a database: a store of bytes, and the rows in the order of the file.
ghost use Rattle.std.specs.Prelude.{◌≡◌, ◌<◌, ◌++◌, ◌∷◌, [], OnOk, Some, length, slice_get};
ghost use Rattle.std.specs.Prelude.{option_map};
ghost use Rattle.cave_data.specs.CaveView.{first_word};
ghost use Rattle.data_rows.specs.RowViews.{word_entry};

use crate::span::{NumberedSpan, add_row};
use crate::store::Store;
use data_rows::WordRow;
use std::alloc::{AllocError, Global};
use std::marker::Model;

/// The most words.
pub const MAX_WORDS: usize = 1000;

/// Words with their numbers, in the order of the file.
#[derive(Drop)]
pub struct WordTable {
    store: Store,
    rows: Vec<NumberedSpan>,
}

impl Model for WordTable {
    ghost use Rattle.std.specs.Prelude.{List, map, All};
    ghost use Rattle.std.specs.Coded.{coded_list};
    ghost use Rattle.data_rows.specs.Rows.{WordEntry};
    ghost use Rattle.cave_data.specs.CaveView.{word_code};

    ghost Value = { List WordEntry };

    ghost coded = { coded_list word_code };

    ghost use Rattle.cave_data.specs.Spans.{word_of_span, RowWithin};

    ghost view = { λ w. map (word_of_span w.store) w.rows.items };

    ghost invariant = { λ w. All (RowWithin w.store) w.rows.items };
}

impl WordTable {
    /// No words.
    pub(crate) fn new(alloc: Global) -> Self
        ensures { result ≡ [] }
    {
        Self {
            store: Store::new(alloc),
            rows: Vec::new(alloc),
        }
    }

    /// How many there are.
    pub fn len(&self) -> usize
        ensures { result ≡ length self.now }
    {
        self.rows.len()
    }

    /// Adds a word.
    pub(crate) fn push(&mut self, row: WordRow<'_>) -> Result<(), AllocError>
        ensures { OnOk result (self.new ≡ self.old ++ word_entry row.entry ∷ []) }
    {
        let span = self.store.add(row.word)?;
        let added = NumberedSpan {
            number: row.number,
            span,
        };
        add_row(&mut self.rows, MAX_WORDS, added)?;
        Ok(())
    }

    /// The word of the row, from 0 in the order of the file.
    pub fn row(&self, index: usize) -> WordRow<'_>
        requires { index < length self.now }
        ensures { slice_get self.now index ≡ Some (word_entry result) }
    {
        let row = self.rows[index];
        WordRow {
            number: row.number,
            word: self.store.text(row.span),
        }
    }

    /// The first of the words that has the number.
    pub fn first_word(&self, number: u16) -> Option<&[u8]>
        ensures { option_map (λ word. word.now) result ≡ first_word self.now number }
    {
        for index in 0..self.len() {
            let row = self.row(index);
            if row.number == number {
                return Some(row.word);
            }
        }
        None
    }
}
