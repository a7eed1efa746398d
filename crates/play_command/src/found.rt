//! What the parser found for the arguments of a command: texts, numbers and files.

ghost use Rattle.std.specs.Prelude.{◌≡◌, ◌≤◌, IfOk, MatchOption, None, Some, map, option_map};
ghost use Rattle.std.specs.List.{flat_map};
ghost use Rattle.clap.specs.Words.{all_of, first_of};
ghost use Rattle.play_command.specs.Asked.{files_at, is_given, is_set, named_file, number_of};
ghost use Rattle.play_command.specs.Asked.{number_row, number_said, number_written, output_of};
ghost use Rattle.play_command.specs.Asked.{rows_in, with_text};

use crate::fault::Misuse;
use crate::line::{Input, NamedFile};
use base_lines::bytes::{number_of, split_digits};
use base_lines::limits::{MAX_EVERY, MAX_SEED, is_long_number};
use base_lines::numbers::LAST_PLACE;
use clap::ArgMatches;
use std::alloc::{AllocError, Global};

/// All that was found for an argument.
#[tactic(auto, using(crate::proofs::Values::values))]
pub(crate) fn values_in<'a, 'm>(found: &'m ArgMatches<'a>, id: &str) -> Option<&'m [&'a str]>
    ensures { option_map (λ texts. map (λ text. text.now) texts.now) result
        ≡ all_of id.now (rows_in found.now) }
{
    found.get_strs(id)
}

/// What was found for an argument.
#[tactic(auto, using(crate::proofs::Values::values))]
pub(crate) fn value_in<'a>(found: &ArgMatches<'a>, id: &str) -> Option<&'a str>
    ensures { MatchOption result (first_of id.now (rows_in found.now) ≡ None)
        (λ text. first_of id.now (rows_in found.now) ≡ Some text.now) }
{
    found.get_str(id)
}

/// Whether something was found for an argument.
pub(crate) fn is_given(found: &ArgMatches<'_>, id: &str) -> bool
    ensures { result ≡ is_given id.now (rows_in found.now) }
{
    value_in(found, id).is_some()
}

/// Whether an option without a value was given.
pub(crate) fn is_set(found: &ArgMatches<'_>, id: &str) -> bool
    ensures { result ≡ is_set id.now (rows_in found.now) }
{
    value_in(found, id) == Some("true")
}

/// An option whose value is a number.
#[derive(Clone, Copy, Debug, PartialEq, Eq)]
pub enum NumberOption {
    Seed,
    Every,
    From,
    Within,
}

impl NumberOption {
    /// Its name, and the least and the most that the number may be. No place is more ways from
    /// another than there are places.
    pub(crate) fn row(self) -> (&'static str, u32, u32)
        ensures { (result.0.now, result.1, result.2) ≡ number_row self }
    {
        match self {
            NumberOption::Seed => ("seed", 0, MAX_SEED),
            NumberOption::Every => ("every", 1, MAX_EVERY),
            NumberOption::From => ("from", 1, u32::from(LAST_PLACE)),
            NumberOption::Within => ("within", 0, u32::from(LAST_PLACE)),
        }
    }
}

/// The number that a text writes in 1 to 10 digits and nothing else.
#[tactic(auto, unfolding(crate::specs::Asked::number_written))]
pub fn number_written(text: &[u8]) -> Option<u64>
    ensures { result ≡ number_written text.now }
{
    let (digits, rest) = split_digits(text);
    if !rest.is_empty() || digits.is_empty() || is_long_number(digits.len()) {
        return None;
    }
    Some(number_of(digits))
}

/// The number that a text writes, if an option may have it.
pub(crate) fn number_said(option: NumberOption, text: &str) -> Result<u32, Misuse>
    ensures number { result ≡ number_said option text.now }
    ensures most { IfOk result (λ number. number ≤ (number_row option).2) }
{
    let (_, least, most) = option.row();
    match number_written(text.as_bytes()) {
        Some(number) if u64::from(least) <= number && number <= u64::from(most) => {
            Ok(number as u32)
        }
        _ => Err(Misuse::BadNumber(option)),
    }
}

/// The number that was found for an option, or the usual one.
#[tactic(auto, unfolding(crate::specs::Asked::number_of))]
pub(crate) fn number_in(
    found: &ArgMatches<'_>,
    option: NumberOption,
    usual: u32,
) -> Result<u32, Misuse>
    requires { usual ≤ (number_row option).2 }
    ensures number { result ≡ number_of option usual (rows_in found.now) }
    ensures most { IfOk result (λ number. number ≤ (number_row option).2) }
{
    match value_in(found, option.row().0) {
        None => Ok(usual),
        Some(text) => number_said(option, text),
    }
}

/// The arguments that are files to read, in the order in which these are opened.
pub(crate) const FILES: [(&str, Input); 8] = [
    ("cave", Input::Cave),
    ("bind", Input::Bindings),
    ("old", Input::Log),
    ("log", Input::Log),
    ("script", Input::Script),
    ("new", Input::NewLog),
    ("to", Input::NewLog),
    ("known", Input::Known),
];

/// The files to read that the parser found for some arguments.
pub(crate) fn files_in<'a>(
    alloc: Global,
    found: &ArgMatches<'a>,
    arguments: &[(&str, Input)],
) -> Result<Vec<NamedFile<'a>>, AllocError>
    ensures { IfOk result (λ files. map named_file files.items
        ≡ flat_map (files_at (rows_in found.now)) (map with_text arguments.now)) }
{
    let mut files = Vec::new(alloc);
    for (id, input) in arguments {
        if let Some(names) = values_in(found, id) {
            for name in names {
                files.push(NamedFile {
                    input: *input,
                    name: *name,
                })?;
            }
        }
    }
    Ok(files)
}

/// The file of the output: the log in place, or the one that was found, if one was.
pub(crate) fn output_in<'a>(found: &ArgMatches<'a>) -> Option<&'a str>
    ensures { option_map (λ file. file.now) result ≡ output_of (rows_in found.now) }
{
    let id = if is_set(found, "in-place") {
        "log"
    } else {
        "output"
    };
    value_in(found, id)
}
