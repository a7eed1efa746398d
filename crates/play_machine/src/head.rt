//! The head of a log: what its first line says of how the log is played.

ghost use Rattle.std.specs.Prelude.{◌≡◌, ◌<◌, [], ◌∷◌, IfSome, MatchOption, length, option_map};
ghost use Rattle.data_rows.specs.Fields.{fields};
ghost use Rattle.play_machine.specs.Head.{first_file, head_of, value_in_word, value_of};

use base_lines::bytes::{skip_blanks, split_word};
use base_lines::{check_line, split_line};

/// What the head of a log says, if its first line is one that a log may have and a head.
#[tactic(auto, unfolding(crate::specs::Head::head_of))]
pub fn head_of(log: &[u8]) -> Option<&[u8]>
    ensures { option_map (λ text. text.now) result ≡ head_of log.now }
{
    let (line, _) = split_line(log)?;
    if check_line(line).is_err() {
        return None;
    }
    line.strip_prefix(b"# cave:")
}

/// The first word of a text, and what follows it.
#[tactic(auto, using(data_rows::proofs::FieldLemmas::fields_of_first))]
fn next_word(text: &[u8]) -> Option<(&[u8], &[u8])>
    ensures value { MatchOption result (fields text.now ≡ [])
        (λ found. fields text.now ≡ found.0.now ∷ fields found.1.now) }
    ensures shorter { IfSome result (λ found. length found.1.now < length text.now) }
{
    let text = skip_blanks(text);
    if text.is_empty() {
        None
    } else {
        Some(split_word(text))
    }
}

/// The database of a head: its first word, unless that is an option.
pub fn first_file(text: &[u8]) -> Option<&[u8]>
    ensures { option_map (λ word. word.now) result ≡ first_file (fields text.now) }
{
    match next_word(text) {
        None | Some(([b'-', ..], _)) => None,
        Some((word, _)) => Some(word),
    }
}

/// The value of an option in its own word, if it has one there.
fn value_in_word<'a>(name: &[u8], letter: &[u8], word: &'a [u8]) -> Option<&'a [u8]>
    ensures { option_map (λ value. value.now) result
        ≡ value_in_word name.now letter.now word.now }
{
    if let Some(rest) = word.strip_prefix(name) {
        if let Some(value) = rest.strip_prefix(b"=") {
            return Some(value);
        }
    }
    let value = word.strip_prefix(letter)?;
    Some(value.strip_prefix(b"=").unwrap_or(value))
}

/// The value of an option among the words of a head.
pub fn value_of<'a>(name: &[u8], letter: &[u8], text: &'a [u8]) -> Option<&'a [u8]>
    ensures { option_map (λ value. value.now) result
        ≡ value_of name.now letter.now (fields text.now) }
{
    let mut rest = text;
    while let Some((word, after)) = next_word(rest) {
        if word == name || word == letter {
            let (value, _) = next_word(after)?;
            return Some(value);
        }
        if let Some(value) = value_in_word(name, letter, word) {
            return Some(value);
        }
        rest = after;
    }
    None
}
