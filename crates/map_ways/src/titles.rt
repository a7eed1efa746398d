//! The title of a place: the first words of its text, as many as tell it from other places.

ghost use Rattle.std.specs.Prelude.{◌≡◌, ◌≤◌};
ghost use Rattle.base_text.specs.Text.{Tells};
ghost use Rattle.map_ways.specs.Titles.{count_shared, first_words, greater_of, or_other};
ghost use Rattle.map_ways.specs.Titles.{parts_from, text_for_title, title, title_source};
ghost use Rattle.map_ways.specs.Titles.{word_start, words_as_shown, words_of_line, words_telling};
ghost use Rattle.map_ways.specs.Titles.{words_telling_all};

use base_lines::bytes::{skip_blanks, split_word};
use base_lines::first_line;
use base_text::Text;
use cave_data::Cave;

/// How many words a title has, if these tell it from the others.
const WORDS_SHOWN: usize = 8;

/// How many words of a line are looked at.
const MAX_TITLE_WORDS: usize = 40;

/// The most words of a title on a line.
const WORDS_PER_LINE: usize = 3;

fn or_other<'a>(text: &'a [u8], other: &'a [u8]) -> &'a [u8]
    ensures { result.now ≡ or_other text.now other.now }
{
    if text.is_empty() { other } else { text }
}

/// The short text of a place, or its long one if it has no short one, or one that prints nothing.
fn text_for_title(cave: &Cave, place: u16) -> &[u8]
    ensures { result.now ≡ text_for_title cave.now place }
{
    let short = cave.short(place).unwrap_or(&[]);
    or_other(short, cave.long(place).unwrap_or(&[]))
}

/// The line that a title is taken from: the first of that text.
#[tactic(auto, unfolding(crate::specs::Titles::title_source))]
fn title_source(cave: &Cave, place: u16) -> &[u8]
    ensures { result.now ≡ title_source cave.now place }
{
    first_line(text_for_title(cave, place))
}

/// What comes before a word that follows this many others.
fn word_start(shown: usize) -> &'static str
    ensures { result.now ≡ word_start shown }
{
    if shown != 0 && shown % WORDS_PER_LINE == 0 {
        "\n"
    } else {
        " "
    }
}

/// Appends the first words of a line, at most this many. Blanks between them are one.
fn put_first_words(line: &[u8], most: usize, text: &mut Text)
    ensures { Tells (words_as_shown 0 (first_words most line.now)) text.old text.new }
{
    let mut rest = line;
    for shown in 0..most {
        let (word, after) = split_word(skip_blanks(rest));
        if word.is_empty() {
            return;
        }
        text.put(word_start(shown).as_bytes());
        text.put(word);
        rest = after;
    }
}

/// Whether there is no word, or it isn't the other one.
fn parts_from(word: &[u8], other: &[u8]) -> bool
    ensures { result ≡ parts_from word.now other.now }
{
    word.is_empty() || word != other
}

/// With how many of the same words two lines begin.
#[tactic(auto, unfolding(crate::specs::Titles::words_of_line))]
fn count_shared(line: &[u8], other: &[u8]) -> usize
    ensures value { result ≡ count_shared (words_of_line line.now) (words_of_line other.now) }
    ensures within { result ≤ 40 }
{
    let (mut rest, mut rest_of_other) = (line, other);
    for shared in 0..MAX_TITLE_WORDS {
        let (word, after) = split_word(skip_blanks(rest));
        let (word_of_other, after_other) = split_word(skip_blanks(rest_of_other));
        if parts_from(word, word_of_other) {
            return shared;
        }
        rest = after;
        rest_of_other = after_other;
    }
    MAX_TITLE_WORDS
}

/// How many words tell a place from another: one more than both begin with.
fn words_telling(cave: &Cave, place: u16, other: u16) -> usize
    ensures { result ≡ words_telling cave.now place other }
{
    if place == other {
        return 0;
    }
    count_shared(title_source(cave, place), title_source(cave, other)) + 1
}

fn greater_of(one: usize, other: usize) -> usize
    ensures { result ≡ greater_of one other }
{
    if one < other { other } else { one }
}

/// How many words tell a place from each of others, and at least as many as a title has.
fn words_telling_all(cave: &Cave, place: u16, others: &[u16]) -> usize
    ensures { result ≡ words_telling_all cave.now place 8 others.now }
{
    let mut least = WORDS_SHOWN;
    for other in others {
        least = greater_of(least, words_telling(cave, place, *other));
    }
    least
}

/// Appends the title of a place among others.
#[tactic(auto, unfolding(crate::specs::Titles::title))]
pub fn put_title(cave: &Cave, places: &[u16], place: u16, text: &mut Text)
    ensures { Tells (title cave.now places.now place) text.old text.new }
{
    let most = words_telling_all(cave, place, places);
    put_first_words(title_source(cave, place), most, text);
}
