ghost use Rattle.std.specs.Prelude.{◌≡◌, ◌++◌, take, vec_len, OnOk};
ghost use Rattle.turn_text.specs.OwnLines.{number_between, score_line, word_between, number_line};
ghost use Rattle.turn_text.specs.OwnLines.{word_line, final_line, points_end, more_points};
ghost use Rattle.turn_text.specs.OwnLines.{turn_count};

use cave_words::Word;
use cave_world::{NumberLine, WordLine};
use itoa::Buffer;
use std::alloc::AllocError;

/// Appends a number between two texts.
fn push_number(
    text: &mut Vec<u8>,
    before: &[u8],
    number: u32,
    after: &[u8],
) -> Result<(), AllocError>
    ensures ok { OnOk result (text.new.items ≡ text.old.items
        ++ number_between before.now number after.now) }
    ensures front { take (vec_len text.old) text.new.items ≡ text.old.items }
{
    let mut buffer = Buffer::new();
    text.extend_from_slice(before)?;
    text.extend_from_slice(buffer.format(number).as_bytes())?;
    text.extend_from_slice(after)
}

/// Appends a word between two texts.
fn push_word(text: &mut Vec<u8>, before: &[u8], word: Word, after: &[u8]) -> Result<(), AllocError>
    ensures ok { OnOk result
        (text.new.items ≡ text.old.items ++ word_between before.now word after.now) }
    ensures front { take (vec_len text.old) text.new.items ≡ text.old.items }
{
    text.extend_from_slice(before)?;
    text.extend_from_slice(word.letters())?;
    text.extend_from_slice(after)
}

fn points_end(number: u32) -> &'static [u8]
    ensures { result.now ≡ points_end number }
{
    if number == 1 {
        b" point.\n"
    } else {
        b" points.\n"
    }
}

fn more_points(number: u32) -> &'static [u8]
    ensures { result.now ≡ more_points number }
{
    if number == 1 {
        b" more point.\n"
    } else {
        b" more points.\n"
    }
}

fn turn_count(number: u32) -> &'static [u8]
    ensures { result.now ≡ turn_count number }
{
    if number == 1 {
        b" turn.\n"
    } else {
        b" turns.\n"
    }
}

/// Appends a score and the greatest one between two texts.
fn push_score(
    text: &mut Vec<u8>,
    before: &[u8],
    score: u32,
    most: u32,
    after: &[u8],
) -> Result<(), AllocError>
    ensures ok { OnOk result (text.new.items ≡ text.old.items
        ++ score_line before.now score most after.now) }
    ensures front { take (vec_len text.old) text.new.items ≡ text.old.items }
{
    push_number(text, before, score, b" out of a possible ")?;
    push_number(text, b"", most, after)
}

/// Appends a line with a number.
#[tactic(auto, unfolding(crate::specs::OwnLines::number_line))]
pub fn push_number_line(
    text: &mut Vec<u8>,
    line: NumberLine,
    number: u32,
    most: u32,
) -> Result<(), AllocError>
    ensures ok { OnOk result (text.new.items ≡ text.old.items ++ number_line line number most) }
    ensures front { take (vec_len text.old) text.new.items ≡ text.old.items }
{
    match line {
        NumberLine::DwarvesHere => push_number(
            text,
            b"There are ",
            number,
            b" threatening little dwarves in the room with you.\n",
        ),
        NumberLine::KnivesThrown => push_number(
            text,
            b"",
            number,
            b" of them throw knives at you!\n",
        ),
        NumberLine::KnivesHit => push_number(text, b"", number, b" of them get you!\n"),
        NumberLine::HintCosts => push_number(
            text,
            b"I am prepared to give you a hint, but it will cost you ",
            number,
            points_end(number),
        ),
        NumberLine::ScoreNow => push_score(
            text,
            b"If you were to quit now, you would score ",
            number,
            most,
            b".\n",
        ),
        NumberLine::PointsWanted => push_number(
            text,
            b"To achieve the next higher rating, you need ",
            number,
            more_points(number),
        ),
    }
}

/// Appends a line that repeats a word.
#[tactic(auto, unfolding(crate::specs::OwnLines::word_line))]
pub fn push_word_line(text: &mut Vec<u8>, line: WordLine, word: Word) -> Result<(), AllocError>
    ensures ok { OnOk result (text.new.items ≡ text.old.items ++ word_line line word) }
    ensures front { take (vec_len text.old) text.new.items ≡ text.old.items }
{
    match line {
        WordLine::NotSeen => push_word(text, b"I see no ", word, b" here.\n"),
        WordLine::WhatToDo => push_word(text, b"What do you want to do with the ", word, b"?\n"),
        WordLine::Okay => push_word(text, b"Okay, \"", word, b"\".\n"),
        WordLine::What => push_word(text, b"", word, b" what?\n"),
    }
}

/// Appends the line that ends a game.
#[tactic(auto, unfolding(crate::specs::OwnLines::final_line))]
pub fn push_final_line(
    text: &mut Vec<u8>,
    score: u32,
    most: u32,
    turns: u32,
) -> Result<(), AllocError>
    ensures ok { OnOk result (text.new.items ≡ text.old.items ++ final_line score most turns) }
    ensures front { take (vec_len text.old) text.new.items ≡ text.old.items }
{
    push_score(text, b"You scored ", score, most, b", using ")?;
    push_number(text, b"", turns, turn_count(turns))
}
