//! What is wrong with a line of a script that isn't an edit.

ghost use Rattle.std.specs.Prelude.{◌≡◌, ◌≤◌, drop, length};
ghost use Rattle.std.specs.List.{prefix_len};
ghost use Rattle.replay_scripts.specs.EditFlaw.{begins_blank, edit_flaw_of, flaw_after_digits};
ghost use Rattle.replay_scripts.specs.EditFlaw.{flaw_after_number, flaw_after_word};
ghost use Rattle.replay_scripts.specs.EditFlaw.{flaw_before_number, flaw_of_joined, flaw_of_word};
ghost use Rattle.replay_scripts.specs.EditFlaw.{is_no_digit, is_sign, joined_script_word};
ghost use Rattle.replay_scripts.specs.EditFlaw.{near_script_word, number_flaw};
ghost use Rattle.replay_scripts.specs.EditFlaw.{script_word_named, script_word_text};

use base_lines::bytes::{is_all_blank, is_blank, split_digits, split_word};
use base_lines::limits::is_long_number;
use base_lines::{has_byte_order_mark, near_name};
use std::fmt;

/// A word with which a line of a script begins.
#[derive(Clone, Copy, Debug, PartialEq, Eq)]
pub enum ScriptWord {
    Insert,
    Delete,
    Replace,
    Seed,
    Begin,
    End,
    Expect,
}

/// The words of scripts.
const SCRIPT_WORDS: [&str; 7] = [
    "insert", "delete", "replace", "seed", "begin", "end", "expect",
];

fn count_before_digits(text: &[u8]) -> usize
    ensures { result ≡ prefix_len is_no_digit text.now }
{
    text.iter()
        .take_while(|byte| !byte.is_ascii_digit())
        .count()
}

impl ScriptWord {
    /// The word of this text, if it is one.
    fn named(text: &[u8]) -> Option<ScriptWord>
        ensures { result ≡ script_word_named text.now }
    {
        if text == b"insert".as_slice() {
            Some(ScriptWord::Insert)
        } else if text == b"delete".as_slice() {
            Some(ScriptWord::Delete)
        } else if text == b"replace".as_slice() {
            Some(ScriptWord::Replace)
        } else if text == b"seed".as_slice() {
            Some(ScriptWord::Seed)
        } else if text == b"begin".as_slice() {
            Some(ScriptWord::Begin)
        } else if text == b"end".as_slice() {
            Some(ScriptWord::End)
        } else if text == b"expect".as_slice() {
            Some(ScriptWord::Expect)
        } else {
            None
        }
    }

    /// The word that stands before the first digit of this text, if one does.
    #[tactic(auto, using(base_lines::proofs::Prefixes::prefixes))]
    fn joined(text: &[u8]) -> Option<ScriptWord>
        ensures { result ≡ joined_script_word text.now }
    {
        let (before, _) = text.split_at(count_before_digits(text));
        ScriptWord::named(before)
    }

    /// The only word that this text is near to, if just one is.
    fn near(text: &[u8]) -> Option<ScriptWord>
        ensures { result ≡ near_script_word text.now }
    {
        match near_name(text, &SCRIPT_WORDS) {
            Some(name) => ScriptWord::named(name.as_bytes()),
            None => None,
        }
    }

    fn text(self) -> &'static str
        ensures text { result.now ≡ script_word_text self }
        ensures short { length result.now ≤ 7 }
    {
        match self {
            ScriptWord::Insert => "insert",
            ScriptWord::Delete => "delete",
            ScriptWord::Replace => "replace",
            ScriptWord::Seed => "seed",
            ScriptWord::Begin => "begin",
            ScriptWord::End => "end",
            ScriptWord::Expect => "expect",
        }
    }

    /// What follows the word on its line.
    fn rest(self) -> &'static str {
        match self {
            ScriptWord::Insert | ScriptWord::Replace | ScriptWord::Expect => " N TEXT",
            ScriptWord::Delete | ScriptWord::Seed => " N",
            ScriptWord::Begin | ScriptWord::End => "",
        }
    }
}

/// A line with the word, as pages spell it.
impl fmt::Display for ScriptWord {
    fn fmt<W: fmt::Write>(&self, f: &mut fmt::Formatter<W>) -> fmt::Result {
        let (word, rest) = (self.text(), self.rest());
        write!(f, "`{word}{rest}`")
    }
}

/// Why a line of a script isn't an edit.
#[derive(Clone, Copy, Debug, PartialEq, Eq)]
pub enum EditFlaw {
    /// It begins with a byte order mark.
    ByteOrderMark,
    /// It begins with a blank.
    Indented,
    /// It begins with a word that a digit follows, where a blank should be.
    NoBlank(ScriptWord),
    /// It begins with none of the words, and exactly one is near.
    NearWord(ScriptWord),
    /// It begins with none of the words.
    NoWord,
    /// It ends where the number should be.
    NoNumber(ScriptWord),
    /// Another blank follows the one after the word.
    TwoBlanks(ScriptWord),
    /// The number has a sign.
    Signed,
    /// The number has this many digits.
    LongNumber(usize),
    /// The number is the first of a range.
    Range,
    /// The number has this byte, which isn't a digit, in this column, from 1.
    NoDigit(u8, usize),
    /// Something follows that isn't blank.
    MoreText(ScriptWord),
    /// It is a guard, in a script in which no line may be one.
    Guard,
}

impl fmt::Display for EditFlaw {
    fn fmt<W: fmt::Write>(&self, f: &mut fmt::Formatter<W>) -> fmt::Result {
        match *self {
            EditFlaw::ByteOrderMark => {
                write!(
                    f,
                    "the line begins with a byte order mark: save the script without one"
                )
            }
            EditFlaw::Indented => write!(f, "the line begins with a blank: begin it with its word"),
            EditFlaw::NoBlank(word) => {
                write!(f, "a blank is missing after the word: expected {word}")
            }
            EditFlaw::NearWord(word) => write!(f, "unknown word: did you mean {word}?"),
            EditFlaw::NoWord => write!(
                f,
                "unknown word: expected `insert N TEXT`, `delete N`, `replace N TEXT`, \
                 `seed N`, `begin`, `end` or, as a guard, `expect N TEXT`"
            ),
            EditFlaw::NoNumber(word) => write!(f, "a number is missing: expected {word}"),
            EditFlaw::TwoBlanks(word) => {
                write!(f, "two blanks follow the word: expected {word}")
            }
            EditFlaw::Signed => write!(f, "N has a sign: expected 1 to 10 digits"),
            EditFlaw::LongNumber(digits) => { write!(f, "N has {digits} digits: expected 1 to 10") }
            EditFlaw::Range => write!(f, "N is a range: expected one number"),
            EditFlaw::NoDigit(byte, column) => write!(
                f,
                "the byte in column {column} is {byte}: expected a digit of N"
            ),
            EditFlaw::MoreText(word) => write!(f, "text follows {word}: nothing may follow it"),
            EditFlaw::Guard => write!(
                f,
                "`expect N TEXT` is a guard, and this script may have none"
            ),
        }
    }
}

fn begins_blank(text: &[u8]) -> bool
    ensures { result ≡ begins_blank text.now }
{
    match text {
        [byte, ..] => is_blank(*byte),
        [] => false,
    }
}

fn is_sign(byte: u8) -> bool
    ensures { result ≡ is_sign byte }
{
    byte == b'+' || byte == b'-'
}

/// What is wrong with a line whose word and number are right.
fn flaw_after_number(word: ScriptWord) -> EditFlaw
    ensures { result ≡ flaw_after_number word }
{
    match word {
        ScriptWord::Expect => EditFlaw::Guard,
        _ => EditFlaw::MoreText(word),
    }
}

/// What is wrong with a line of this word, from what follows the leading digits of its number.
fn flaw_after_digits(word: ScriptWord, digits: &[u8], rest: &[u8]) -> EditFlaw
    requires { length digits.now ≤ 10 }
    ensures { result ≡ flaw_after_digits word digits.now rest.now }
{
    match rest {
        [byte, ..] if is_blank(*byte) => flaw_after_number(word),
        [byte, ..] if digits.is_empty() && is_sign(*byte) => EditFlaw::Signed,
        [b'-', ..] => EditFlaw::Range,
        [byte, ..] => EditFlaw::NoDigit(*byte, word.text().len() + digits.len() + 2),
        [] => flaw_after_number(word),
    }
}

/// What is wrong with a line of this word, from what follows the one blank after it.
fn number_flaw(word: ScriptWord, text: &[u8]) -> EditFlaw
    ensures { result ≡ number_flaw word text.now }
{
    let (digits, rest) = split_digits(text);
    if is_long_number(digits.len()) {
        return EditFlaw::LongNumber(digits.len());
    }
    flaw_after_digits(word, digits, rest)
}

/// What follows the first byte.
fn after_first(text: &[u8]) -> &[u8]
    ensures { result.now ≡ drop 1 text.now }
{
    match text {
        [_, rest @ ..] => rest,
        [] => &[],
    }
}

/// What is wrong with a line of this word, which has a number, from what follows the word.
fn flaw_before_number(word: ScriptWord, rest: &[u8]) -> EditFlaw
    ensures { result ≡ flaw_before_number word rest.now }
{
    if is_all_blank(rest) {
        return EditFlaw::NoNumber(word);
    }
    let text = after_first(rest);
    if begins_blank(text) {
        return EditFlaw::TwoBlanks(word);
    }
    number_flaw(word, text)
}

/// What is wrong with a line of this word, from what follows the word.
fn flaw_after_word(word: ScriptWord, rest: &[u8]) -> EditFlaw
    ensures { result ≡ flaw_after_word word rest.now }
{
    match word {
        ScriptWord::Begin | ScriptWord::End => EditFlaw::MoreText(word),
        _ => flaw_before_number(word, rest),
    }
}

/// What is wrong with a line of this word, which a digit follows without a blank between them.
fn flaw_of_joined(word: ScriptWord) -> EditFlaw
    ensures { result ≡ flaw_of_joined word }
{
    match word {
        ScriptWord::Begin | ScriptWord::End => EditFlaw::MoreText(word),
        _ => EditFlaw::NoBlank(word),
    }
}

/// What is wrong with a line that begins with this word, without a blank before it.
fn flaw_of_word(word: &[u8], rest: &[u8]) -> EditFlaw
    ensures { result ≡ flaw_of_word word.now rest.now }
{
    if let Some(named) = ScriptWord::named(word) {
        return flaw_after_word(named, rest);
    }
    match (ScriptWord::joined(word), ScriptWord::near(word)) {
        (Some(joined), _) => flaw_of_joined(joined),
        (None, Some(near)) => EditFlaw::NearWord(near),
        (None, None) => EditFlaw::NoWord,
    }
}

/// What is wrong with a line that isn't an edit.
#[tactic(auto, unfolding(crate::specs::EditFlaw::edit_flaw_of))]
pub(crate) fn edit_flaw_of(line: &[u8]) -> EditFlaw
    ensures { result ≡ edit_flaw_of line.now }
{
    if has_byte_order_mark(line) {
        return EditFlaw::ByteOrderMark;
    }
    if begins_blank(line) {
        return EditFlaw::Indented;
    }
    let (word, rest) = split_word(line);
    flaw_of_word(word, rest)
}
