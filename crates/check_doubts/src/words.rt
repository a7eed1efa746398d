//! Words that an earlier row of the same word hides.

ghost use Rattle.std.specs.Prelude.{◌≡◌, Some, length};
ghost use Rattle.std.specs.List.{filter, slice_get};
ghost use Rattle.cave_words.specs.Lexicon.{IsLexiconOf};
ghost use Rattle.data_rows.specs.RowViews.{word_entry};
ghost use Rattle.data_lines.specs.Marks.{is_word_row};
ghost use Rattle.check_doubts.specs.Words.{are_named, is_found, is_hidden, is_hidden_word};
ghost use Rattle.check_doubts.specs.Words.{is_looked_up, is_meant, is_pair, is_second_of};
ghost use Rattle.check_doubts.specs.Words.{word_of_row};

use cave_data::Cave;
use cave_words::{Class, Lexicon, Meaning, Named, Word};
use check_tables::is_number;
use data_lines::MarkedRow;
use data_rows::WordRow;

fn is_meant(found: Option<Meaning>, meaning: Meaning) -> bool
    ensures { result ≡ is_meant found meaning }
{
    match found {
        Some(found) => found.class == meaning.class && found.number == meaning.number,
        None => false,
    }
}

/// Whether rules also look up words of a class by that class.
fn is_looked_up(class: Class) -> bool
    ensures { result ≡ is_looked_up class }
{
    matches!(class, Class::Object | Class::Special)
}

/// Whether looking up a row's word finds what the row means.
fn is_found(cave: &Cave, lexicon: &Lexicon, word: Word, means: Meaning) -> bool
    requires { IsLexiconOf cave.now lexicon.now }
    ensures { result ≡ is_found cave.now word means }
{
    is_meant(lexicon.find(word), means)
        || (is_looked_up(means.class) && is_meant(lexicon.find_in(word, means.class), means))
}

/// Whether two objects have these names.
fn are_named(
    cave: &Cave,
    lexicon: &Lexicon,
    one: u16,
    other: u16,
    first: Named,
    second: Named,
) -> bool
    requires { IsLexiconOf cave.now lexicon.now }
    ensures { result ≡ are_named cave.now one other first second }
{
    is_number(one, lexicon.named(cave, first)) && is_number(other, lexicon.named(cave, second))
}

/// Whether the one object is that of ROD, PLANT or TROLL, and the other the next one.
fn is_pair(cave: &Cave, lexicon: &Lexicon, one: u16, other: u16) -> bool
    requires { IsLexiconOf cave.now lexicon.now }
    ensures { result ≡ is_pair cave.now one other }
{
    are_named(cave, lexicon, one, other, Named::Rod, Named::SecondRod)
        || are_named(cave, lexicon, one, other, Named::Plant, Named::SecondPlant)
        || are_named(cave, lexicon, one, other, Named::Troll, Named::SecondTroll)
}

/// Whether a row means the second object of such a pair, and its word the first.
fn is_second_of(cave: &Cave, lexicon: &Lexicon, found: Option<Meaning>, means: Meaning) -> bool
    requires { IsLexiconOf cave.now lexicon.now }
    ensures { result ≡ is_second_of cave.now found means }
{
    match found {
        Some(found) => {
            means.class == Class::Object && is_pair(cave, lexicon, found.number, means.number)
        }
        None => false,
    }
}

/// Whether a word that a row gives a meaning has another one.
fn is_hidden_word(cave: &Cave, lexicon: &Lexicon, word: Word, means: Meaning) -> bool
    requires { IsLexiconOf cave.now lexicon.now }
    ensures { result ≡ is_hidden_word cave.now word means }
{
    !is_found(cave, lexicon, word, means)
        && !is_second_of(cave, lexicon, lexicon.find_in(word, Class::Object), means)
}

/// Whether the word of a row means something else.
fn is_hidden_row(cave: &Cave, lexicon: &Lexicon, row: WordRow<'_>) -> bool
    requires { IsLexiconOf cave.now lexicon.now }
    ensures { result ≡ is_hidden cave.now (Some (word_entry row.entry)) }
{
    let word = Word::of(row.word, cave.letters());
    is_hidden_word(cave, lexicon, word, Meaning::of(row.number))
}

/// Whether the word at an index means something else.
#[tactic(auto, using(crate::proofs::WordLemmas::hidden_past))]
fn is_hidden_at(cave: &Cave, lexicon: &Lexicon, index: usize) -> bool
    requires { IsLexiconOf cave.now lexicon.now }
    ensures { result ≡ is_hidden cave.now (slice_get cave.now.words index) }
{
    let words = cave.words();
    if index < words.len() {
        is_hidden_row(cave, lexicon, words.row(index))
    } else {
        false
    }
}

/// Which of the words a row is, by the rows before it.
fn word_index(before: &[MarkedRow]) -> usize
    ensures { result ≡ length (filter is_word_row before.now) }
{
    before.iter().filter(|row| row.is_word()).count()
}

/// Whether the row has a word that means something else.
pub(crate) fn is_hidden(cave: &Cave, lexicon: &Lexicon, before: &[MarkedRow]) -> bool
    requires { IsLexiconOf cave.now lexicon.now }
    ensures { result ≡ is_hidden cave.now (word_of_row cave.now before.now) }
{
    is_hidden_at(cave, lexicon, word_index(before))
}
