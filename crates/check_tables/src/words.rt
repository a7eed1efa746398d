//! The table of the words of a cave, by what they mean.

ghost use Rattle.std.specs.Prelude.{◌≡◌, ◌++◌, IfOk, OnOk};
ghost use Rattle.std.specs.List.{flat_map};
ghost use Rattle.base_text.specs.Text.{Tells};
ghost use Rattle.check_tables.specs.Words.{class_name, is_meant, meant_numbers, word_column};
ghost use Rattle.check_tables.specs.Words.{word_columns, words_header, words_row, words_table};
ghost use Rattle.data_rows.specs.RowViews.{word_entry};

use base_text::Text;
use cave_data::{Cave, WordTable};
use data_rows::{WORDS_PER_CLASS, WordRow};
use std::alloc::{AllocError, Global};

/// The numbers of words are below this one.
const WORD_NUMBERS: u16 = 4 * WORDS_PER_CLASS;

/// What words with a number are.
fn class_name(number: u16) -> &'static str
    ensures { result.now ≡ class_name number }
{
    if number < WORDS_PER_CLASS {
        "motion"
    } else if number < 2 * WORDS_PER_CLASS {
        "object"
    } else if number < 3 * WORDS_PER_CLASS {
        "action"
    } else {
        "special"
    }
}

/// Whether some word has a number.
fn is_meant(cave: &Cave, number: u16) -> bool
    ensures { result ≡ is_meant cave.now number }
{
    cave.words().first_word(number).is_some()
}

/// The numbers that words have.
#[tactic(auto, unfolding(crate::specs::Words::meant_numbers, crate::specs::Words::word_numbers))]
fn meant_numbers(alloc: Global, cave: &Cave) -> Result<Vec<u16>, AllocError>
    ensures { IfOk result (λ numbers. numbers.items ≡ meant_numbers cave.now) }
{
    (0..WORD_NUMBERS)
        .filter(|number| is_meant(cave, *number))
        .collect(alloc)
}

/// Writes the column of a word, if it has the number.
fn put_word_column(text: &mut Text, row: WordRow<'_>, number: u16)
    ensures { Tells (word_column number (word_entry row.entry)) text.old text.new }
{
    if row.number == number {
        text.put(b"\t");
        text.put(row.word);
    }
}

/// Writes a column for each word that has the number.
fn put_word_columns(text: &mut Text, words: &WordTable, number: u16)
    ensures { Tells (word_columns number words.now) text.old text.new }
{
    for index in 0..words.len() {
        put_word_column(text, words.row(index), number);
    }
}

/// Writes the row of a number.
fn put_words_row(text: &mut Text, cave: &Cave, number: u16)
    ensures { Tells (words_row cave.now number) text.old text.new }
{
    let (class, place) = (class_name(number), number % WORDS_PER_CLASS);
    write!(text, "{class}\t{place}");
    put_word_columns(text, cave.words(), number);
    text.put(b"\n");
}

/// Writes the rows of some numbers.
fn put_words_rows(text: &mut Text, cave: &Cave, numbers: &[u16])
    ensures { Tells (flat_map (words_row cave.now) numbers.now) text.old text.new }
{
    for number in numbers {
        put_words_row(text, cave, *number);
    }
}

/// Writes the names of the columns.
#[tactic(auto, unfolding(crate::specs::Words::words_header))]
fn put_header(text: &mut Text)
    ensures { Tells words_header text.old text.new }
{
    text.put(b"class\tnumber\twords\n");
}

/// Appends a row for each thing that words mean.
#[tactic(auto, unfolding(crate::specs::Words::words_table))]
pub fn push_words(alloc: Global, cave: &Cave, text: &mut Vec<u8>) -> Result<(), AllocError>
    ensures { OnOk result (text.new.items ≡ text.old.items ++ words_table cave.now) }
{
    let numbers = meant_numbers(alloc, cave)?;
    let mut table = Text::after(alloc, text);
    put_header(&mut table);
    put_words_rows(&mut table, cave, &numbers);
    table.give_to(text)
}
