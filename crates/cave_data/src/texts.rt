//! The texts of a section: a store of bytes, and where in it the text of each number is.
ghost use Rattle.std.specs.Prelude.{◌≡◌, ◌≤◌, None, OnOk, IfSome, option_map, unwrap_or};
ghost use Rattle.std.specs.Prelude.{if◌then◌else◌};
ghost use Rattle.std.specs.FinMap.{get, empty};
ghost use Rattle.cave_data.specs.Printing.{printed_text};
ghost use Rattle.cave_data.specs.Tables.{is_same_number, with_line};

use crate::slots::Slots;
use crate::span::TextSpan;
use crate::store::Store;
use std::alloc::{AllocError, Global};
use std::marker::Model;

/// Texts by number, and the number of the last line, whose text goes to the end of the store.
#[derive(Drop)]
pub struct Texts {
    store: Store,
    spans: Slots<TextSpan>,
    last: Option<u16>,
}

impl Model for Texts {
    ghost use Rattle.cave_data.specs.Slots.{by_number};
    ghost use Rattle.cave_data.specs.Tables.{TextsSoFar, texts_so_far_code};

    ghost Value = { TextsSoFar };

    ghost coded = { texts_so_far_code };

    ghost use Rattle.cave_data.specs.Spans.{text_of_span, AreWithin, LastEnds};

    ghost view = { λ t. record {
      texts = by_number (text_of_span t.store) t.spans.items.items;
      last = t.last;
    } };

    ghost invariant = { λ t. AreWithin t.store t.spans.items.items
        × LastEnds t.store t.spans.items.items t.last };
}

/// Whether the last line had the number.
fn is_last(last: Option<u16>, number: u16) -> bool
    ensures { result ≡ is_same_number last number }
{
    match last {
        Some(last) => last == number,
        None => false,
    }
}

/// Where the text to which a line is added begins, in a store of this many bytes.
fn start_of(span: Option<TextSpan>, continues: bool, end: usize) -> usize
    requires { IfSome span (λ span. span.start ≤ end) }
    ensures value { result ≡ (if continues
        then unwrap_or (option_map (λ span. span.start) span) end
        else end) }
    ensures within { result ≤ end }
{
    match span {
        Some(span) if continues => span.start as usize,
        _ => end,
    }
}

/// A text as it is printed.
#[tactic(auto, unfolding(crate::specs::Printing::printed_text))]
pub fn printed(text: &[u8]) -> &[u8]
    ensures { result.now ≡ printed_text text.now }
{
    if text == NOTHING { &[] } else { text }
}

/// The text that means that nothing is printed.
const NOTHING: &[u8] = b">$<\n";

impl Texts {
    /// No texts. The first one takes room for the numbers up to the last.
    pub fn with_room(alloc: Global, last: u16) -> Self
        ensures { result ≡ record { texts = empty; last = None } }
    {
        Self {
            store: Store::new(alloc),
            spans: Slots::with_room(alloc, last),
            last: None,
        }
    }

    /// Adds a line to the text of the number, or begins that text again.
    pub fn add_line(&mut self, number: u16, line: &[u8]) -> Result<(), AllocError>
        ensures { OnOk result (self.new
            ≡ with_line self.old (record { number = number; text = line.now })) }
    {
        let continues = is_last(self.last, number);
        let found = self.spans.get(number).copied();
        let start = start_of(found, continues, self.store.len());
        self.last = None;
        let span = self.store.add_line(start, line)?;
        self.spans.put(number, span)?;
        self.last = Some(number);
        Ok(())
    }

    /// The text of the number, as it is printed.
    pub fn printed(&self, number: u16) -> Option<&[u8]>
        ensures { option_map (λ x. x.now) result
            ≡ option_map printed_text (get self.now.texts number) }
    {
        match self.spans.get(number) {
            Some(span) => Some(printed(self.store.text(*span))),
            None => None,
        }
    }
}
