//! How lists of what is known have doubts.

ghost use Rattle.std.specs.Prelude.{◌≡◌};
ghost use Rattle.check_doubts.specs.Known.{doubt_entry, source_name};

use crate::flaw::{Doubt, Source};
use base_text::Text;
use check_tables::known::Entries;

/// What entries call the input that a doubt is about.
fn source_name(source: Source) -> &'static str
    ensures { result.now ≡ source_name source }
{
    match source {
        Source::Database => "cave",
        Source::Bindings => "bindings",
    }
}

/// Doubts, as lists of what is known have them.
#[derive(Clone, Copy)]
pub struct DoubtEntries;

impl Entries for DoubtEntries {
    type Thing = Doubt;

    ghost entry = { λ _. doubt_entry };

    fn put_entry(&self, doubt: Doubt, text: &mut Text) {
        let (name, flaw) = (source_name(doubt.source), doubt.flaw);
        write!(text, "{name}: {flaw}");
    }
}
