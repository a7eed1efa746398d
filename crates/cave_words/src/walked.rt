//! The object of a name, for those who have a cave and no lexicon: its words are gone through.
ghost use Rattle.std.specs.Prelude.{◌≡◌};
ghost use Rattle.data_rows.specs.RowViews.{word_entry};
ghost use Rattle.cave_words.specs.Meanings.{is_word_in};
ghost use Rattle.cave_words.specs.Words as defined;
ghost use Rattle.cave_words.specs.declared.meaning.Class.TheVariants.{Object};
ghost use Rattle.cave_words.specs.Named.{object_of_word, object_named, object_by_name};

use crate::meaning::{Class, Meaning};
use crate::named::Named;
use crate::word::{NAME_LETTERS, Word};
use base_lines::numbers::LAST_OBJECT;
use cave_data::Cave;
use data_rows::WordRow;

/// The object of a name, if its word names `object`: that one, or the one after it.
pub(crate) fn object_by_name(object: Option<u16>, name: Named) -> Option<u16>
    ensures { result ≡ object_by_name name object }
{
    let object = object?;
    if !name.is_second() {
        return Some(object);
    }
    if object < LAST_OBJECT {
        Some(object + 1)
    } else {
        None
    }
}

/// Whether a row is an object's, and its word has these five letters.
fn is_object_word(row: &WordRow<'_>, word: Word) -> bool
    ensures { result ≡ is_word_in defined.NAME_LETTERS word Object (word_entry row.now) }
{
    Word::of(row.word, NAME_LETTERS) == word && Meaning::of(row.number).class == Class::Object
}

/// The object that a word names, by its first five letters.
#[tactic(auto, unfolding(crate::specs::Named::object_of_word))]
fn object_of_word(cave: &Cave, written: &[u8]) -> Option<u16>
    ensures { result ≡ object_of_word cave.now written.now }
{
    let word = Word::of(written, NAME_LETTERS);
    let words = cave.words();
    for at in 0..words.len() {
        let row = words.row(at);
        if is_object_word(&row, word) {
            return Some(Meaning::of(row.number).number);
        }
    }
    None
}

/// The object of a name that rules write out, as a lexicon's `named` answers it.
#[tactic(auto, unfolding(crate::specs::Named::object_named))]
pub fn object_named(cave: &Cave, name: Named) -> Option<u16>
    ensures { result ≡ object_named cave.now name }
{
    object_by_name(object_of_word(cave, name.word()), name)
}
