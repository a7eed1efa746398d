//! Rows of a section, read from the fields of a line.
ghost use Rattle.std.specs.Prelude.{◌≡◌, ◌≤◌, ◌<◌, [], ◌∷◌, length, MatchOption, IfOk, IfSome};
ghost use Rattle.std.specs.Prelude.{IsTrue};
ghost use Rattle.data_rows.specs.Fields.{fields};
ghost use Rattle.data_rows.specs.Answers.{Answers};
ghost use Rattle.data_rows.specs.Lists.{list_or_cause, with_number, list_within, some_listed};
ghost use Rattle.data_rows.specs.RowViews.{text_line_of, going, word_entry};
ghost use Rattle.data_rows.specs.Rows.{number_or_cause, within, is_zero, text_or_cause, text_line};
ghost use Rattle.data_rows.specs.Rows.{object_or_prop, object_line, way_row, is_word_number};
ghost use Rattle.data_rows.specs.Rows.{word_number, word_or_cause, word_row, number_or_zero};
ghost use Rattle.data_rows.specs.Rows.{second_place, placement_row, default_row, condition_row};
ghost use Rattle.data_rows.specs.Rows.{hint_row};
ghost use Rattle.data_rows.specs.Rows as defined;
ghost use Rattle.base_lines.specs.Numbers as defined_numbers;

use crate::error::Cause;
use crate::number::{Number, number_at, number_of_field};
use crate::rows::{Hint, MAX_LIST, Placement, Row, WORDS_PER_CLASS, WordRow};
use arrayvec::ArrayVec;
use base_lines::bytes::{skip_blanks, split_word};
use base_lines::numbers::{
    LAST_ACTION, LAST_HINT, LAST_MESSAGE, LAST_NAMED, LAST_OBJECT, LAST_PLACE, LAST_PROP,
};

/// The greatest length of a line of a text.
const MAX_TEXT: usize = 255;

/// The last number of a motion.
const LAST_MOTION: u16 = WORDS_PER_CLASS - 1;

/// The words of objects come after this number, each of them its object's number later.
const OBJECT_WORDS: u32 = WORDS_PER_CLASS as u32;

/// The last number of the word of an object.
const LAST_OBJECT_WORD: u32 = OBJECT_WORDS + LAST_OBJECT as u32;

/// The words of actions come after this number, each of them its action's number later.
const ACTION_WORDS: u32 = 2 * WORDS_PER_CLASS as u32;

/// The last number of the word of an action.
const LAST_ACTION_WORD: u32 = ACTION_WORDS + LAST_ACTION as u32;

/// The special words come after this number, each of them its message's number later.
const SPECIAL_WORDS: u32 = 3 * WORDS_PER_CLASS as u32;

/// The last number of a special word.
const LAST_SPECIAL_WORD: u32 = SPECIAL_WORDS + LAST_MESSAGE as u32;

/// The last number of a target of a way, with its condition.
const LAST_TARGET: u32 = 999_999;

/// A line of a text of an object begins with this number times a prop, or with an object.
const PROP_STEP: u32 = 100;

/// The last number that a line of a text of an object begins with.
const LAST_PROP_LINE: u32 = PROP_STEP * LAST_PROP as u32;

/// The first field and what follows it.
#[tactic(auto, using(crate::proofs::FieldLemmas::fields_of_first))]
pub(crate) fn next_field(bytes: &[u8]) -> Option<(&[u8], &[u8])>
    ensures value { MatchOption result (fields bytes.now ≡ [])
        (λ found. fields bytes.now ≡ found.0.now ∷ fields found.1.now) }
    ensures shorter { IfSome result (λ found. length found.1.now < length bytes.now) }
{
    let bytes = skip_blanks(bytes);
    if bytes.is_empty() {
        None
    } else {
        Some(split_word(bytes))
    }
}

/// The number in the first field and what follows it.
fn number_or_cause(bytes: &[u8]) -> Result<(Number, &[u8]), Cause>
    ensures { Answers (λ found. (found.0, found.1.now)) result (number_or_cause bytes.now) }
{
    number_at(bytes).ok_or(Cause::BadNumber)
}

/// The number, if it is in the range.
fn wide_within(number: Number, low: u32, high: u32) -> Result<u32, Cause>
    ensures { result ≡ within low high number }
{
    match number {
        Number::Natural(n) if low <= n && n <= high => Ok(n),
        _ => Err(Cause::OutOfRange),
    }
}

/// The number, if it is in the range.
fn within(number: Number, low: u16, high: u16) -> Result<u16, Cause>
    ensures value { result ≡ within low high number }
    ensures range { IfOk result (λ n. n ≤ high) }
{
    match number {
        Number::Natural(n) if u32::from(low) <= n && n <= u32::from(high) => Ok(n as u16),
        _ => Err(Cause::OutOfRange),
    }
}

/// Whether the number ends a list.
fn is_zero(number: Number) -> bool
    ensures { result ≡ is_zero number }
{
    matches!(number, Number::Natural(0))
}

/// The numbers of a list, or what is wrong with them: one is out of range, or there are too many.
type List = Result<ArrayVec<u16, MAX_LIST>, Cause>;

/// The list with one more number. A number out of range is reported before too many numbers are.
fn with_number(list: List, number: Result<u16, Cause>) -> List
    ensures { list_or_cause result ≡ with_number (list_or_cause list) number }
{
    let number = number?;
    let mut numbers = list?;
    if numbers.is_full() {
        return Err(Cause::TooManyRows);
    }
    numbers.push(number);
    Ok(numbers)
}

/// The numbers up to a 0 or to the end of the line, each of which must be in the range.
fn list_in(bytes: &[u8], low: u16, high: u16) -> Result<List, Cause>
    ensures { Answers list_or_cause result (list_within low high bytes.now) }
{
    let mut list = Ok(ArrayVec::new());
    let mut rest = bytes;
    while let Some((field, after)) = next_field(rest) {
        let Some(number) = number_of_field(field) else {
            return Err(Cause::BadNumber);
        };
        if is_zero(number) {
            return Ok(list);
        }
        list = with_number(list, within(number, low, high));
        rest = after;
    }
    Ok(list)
}

/// The text after a number: what follows one blank.
fn text_in(bytes: &[u8]) -> Result<&[u8], Cause>
    ensures { Answers (λ text. text.now) result (text_or_cause bytes.now) }
{
    let text = match bytes {
        [_, text @ ..] => text,
        [] => bytes,
    };
    if text.len() <= MAX_TEXT {
        Ok(text)
    } else {
        Err(Cause::OutOfRange)
    }
}

/// A line of a text under a number in the range.
#[tactic(auto, unfolding(crate::specs::Rows::text_line))]
pub fn text_line(line: &[u8], low: u16, high: u16) -> Result<(u16, &[u8]), Cause>
    ensures { Answers text_line_of result (text_line low high line.now) }
{
    let (number, rest) = number_or_cause(line)?;
    let number = within(number, low, high)?;
    let text = text_in(rest)?;
    Ok((number, text))
}

/// An object, or a hundred times a prop of the object before.
fn object_or_prop(number: Number) -> Result<u16, Cause>
    ensures value { result ≡ object_or_prop number }
    ensures range { IfOk result (λ n. n ≤ defined.LAST_PROP_LINE) }
{
    match number {
        Number::Natural(n)
            if n <= u32::from(LAST_NAMED) || (n <= LAST_PROP_LINE && n % PROP_STEP == 0) => Ok(
            n as u16,
        ),
        _ => Err(Cause::OutOfRange),
    }
}

/// A line of a text of an object.
#[tactic(auto, unfolding(crate::specs::Rows::object_line))]
pub fn object_line(line: &[u8]) -> Result<(u16, &[u8]), Cause>
    ensures value { Answers text_line_of result (object_line line.now) }
    ensures range { IfOk result (λ row. row.0 ≤ defined.LAST_PROP_LINE) }
{
    let (number, rest) = number_or_cause(line)?;
    let number = object_or_prop(number)?;
    let text = text_in(rest)?;
    Ok((number, text))
}

/// The list, if it has any number.
fn some_of(list: List) -> Result<List, Cause>
    ensures { Answers list_or_cause result (some_listed (list_or_cause list)) }
{
    match list {
        Ok(numbers) if numbers.is_empty() => Err(Cause::BadNumber),
        _ => Ok(list),
    }
}

/// A row of the ways out of places.
#[tactic(auto, unfolding(crate::specs::Rows::way_row))]
pub fn way_row(line: &[u8]) -> Result<Row, Cause>
    ensures { Answers (λ row. (row.place, going row)) result (way_row line.now) }
{
    let (place, rest) = number_or_cause(line)?;
    let (target, rest) = number_or_cause(rest)?;
    let motions = some_of(list_in(rest, 1, LAST_MOTION)?)?;
    let place = within(place, 1, LAST_PLACE)?;
    let target = wide_within(target, 0, LAST_TARGET)?;
    Ok(Row::new(place, target, motions?))
}

/// Whether the number is one of a class of words.
fn is_word_number(n: u32) -> bool
    ensures value { result ≡ is_word_number n }
    ensures range { IsTrue result → n ≤ defined.LAST_SPECIAL_WORD }
{
    n % WORDS_PER_CLASS as u32 >= 1
        && (n <= LAST_MOTION as u32
            || (OBJECT_WORDS <= n && n <= LAST_OBJECT_WORD)
            || (ACTION_WORDS <= n && n <= LAST_ACTION_WORD)
            || (SPECIAL_WORDS <= n && n <= LAST_SPECIAL_WORD))
}

/// The number, if it is one of a class of words.
fn word_number(number: Number) -> Result<u16, Cause>
    ensures { result ≡ word_number number }
{
    match number {
        Number::Natural(n) if is_word_number(n) => Ok(n as u16),
        _ => Err(Cause::OutOfRange),
    }
}

/// The first field that is left.
fn word_in(bytes: &[u8]) -> Result<&[u8], Cause>
    ensures { Answers (λ word. word.now) result (word_or_cause bytes.now) }
{
    let (word, _) = split_word(skip_blanks(bytes));
    if word.is_empty() {
        Err(Cause::BadNumber)
    } else {
        Ok(word)
    }
}

/// A row of the words.
#[tactic(auto, unfolding(crate::specs::Rows::word_row))]
pub fn word_row(line: &[u8]) -> Result<WordRow<'_>, Cause>
    ensures { Answers word_entry result (word_row line.now) }
{
    let (number, rest) = number_or_cause(line)?;
    let word = word_in(rest)?;
    let number = word_number(number)?;
    Ok(WordRow { number, word })
}

/// The next number, or 0 if it is left out.
fn number_or_zero(bytes: &[u8]) -> Result<(Number, &[u8]), Cause>
    ensures { Answers (λ found. (found.0, found.1.now)) result (number_or_zero bytes.now) }
{
    if skip_blanks(bytes).is_empty() {
        Ok((Number::Natural(0), &[]))
    } else {
        number_or_cause(bytes)
    }
}

/// A second place, or 0 or -1.
fn second_place(number: Number) -> Result<i16, Cause>
    ensures { result ≡ second_place number }
{
    match number {
        Number::Natural(n) if n <= u32::from(LAST_PLACE) => Ok(n as i16),
        Number::Negative(1) => Ok(-1),
        _ => Err(Cause::OutOfRange),
    }
}

/// A row of the objects' places.
#[tactic(auto, unfolding(crate::specs::Rows::placement_row))]
pub fn placement_row(line: &[u8]) -> Result<(u16, Placement), Cause>
    ensures { Answers (λ row. row) result (placement_row line.now) }
{
    let (object, rest) = number_or_cause(line)?;
    let (first, rest) = number_or_zero(rest)?;
    let (second, _) = number_or_zero(rest)?;
    let object = within(object, 1, LAST_OBJECT)?;
    let first = within(first, 0, LAST_PLACE)?;
    let second = second_place(second)?;
    Ok((object, Placement { first, second }))
}

/// A row of the actions' messages.
#[tactic(auto, unfolding(crate::specs::Rows::default_row))]
pub fn default_row(line: &[u8]) -> Result<(u16, u16), Cause>
    ensures { Answers (λ row. row) result (default_row line.now) }
{
    let (action, rest) = number_or_cause(line)?;
    let (message, _) = number_or_cause(rest)?;
    let action = within(action, 1, LAST_ACTION)?;
    let message = within(message, 0, LAST_MESSAGE)?;
    Ok((action, message))
}

/// A row of the places' bits.
#[tactic(auto, unfolding(crate::specs::Rows::condition_row))]
pub fn condition_row(line: &[u8]) -> Result<(u16, ArrayVec<u16, MAX_LIST>), Cause>
    ensures value { Answers (λ row. (row.0, row.1.items)) result (condition_row line.now) }
    ensures range { IfOk result (λ row. row.0 ≤ defined_numbers.LAST_HINT) }
{
    let (bit, rest) = number_or_cause(line)?;
    let places = list_in(rest, 1, LAST_PLACE)?;
    let bit = within(bit, 0, LAST_HINT)?;
    Ok((bit, places?))
}

/// A row of the hints.
#[tactic(auto, unfolding(crate::specs::Rows::hint_row))]
pub fn hint_row(line: &[u8]) -> Result<(u16, Hint), Cause>
    ensures { Answers (λ row. row) result (hint_row line.now) }
{
    let (hint, rest) = number_or_cause(line)?;
    let (turns, rest) = number_or_cause(rest)?;
    let (points, rest) = number_or_cause(rest)?;
    let (question, rest) = number_or_cause(rest)?;
    let (text, _) = number_or_cause(rest)?;
    let hint = within(hint, 1, LAST_HINT)?;
    let row = Hint {
        turns: within(turns, 0, 9999)?,
        points: within(points, 0, 100)?,
        question: within(question, 0, LAST_MESSAGE)?,
        text: within(text, 0, LAST_MESSAGE)?,
    };
    Ok((hint, row))
}
