//! Which run the words ask for.

ghost use Rattle.std.specs.Prelude.{◌≡◌, map};
ghost use Rattle.clap.specs.Words.{HasKind, Kinds, subcommand_rows_of};
ghost use Rattle.play_command.specs.Commands.{has_files, needed_in};
ghost use Rattle.play_command.specs.Asked.{rows_in};
ghost use Rattle.play_command.specs.Line.{IsAnswer, IsErrorAnswer, IsRunAnswer, asked_by};

use crate::app::cave_app;
use crate::asked::what_in;
use crate::commands::{Argument, COMMANDS, Form, meant_command};
use crate::fault::{CommandFault, Misuse};
use crate::found::{FILES, files_in, is_given, is_set, output_in, value_in, values_in};
use crate::line::{Line, Request, What};
use crate::views::named;
use clap::error::ErrorKind;
use clap::{ArgMatches, Error};
use replay_scripts::text_of_lines;
use std::alloc::Global;
use std::convert::AsStr;

/// What the words of a command line ask for. The first word is the program's name.
pub fn command_line<'a, S: AsStr>(
    alloc: Global,
    words: &'a [S],
) -> Result<Line<'a>, CommandFault<'a>>
    ensures { IsAnswer (map S.text words.entry.now) result }
{
    let command = cave_app(alloc)?;
    match command.try_get_matches_from(words) {
        Ok(matches) => answer_met(alloc, &matches),
        Err(error) => answer_to(error, words),
    }
}

/// What an error of the parser leads to: a text to print, or a fault.
fn answer_to<'a, S: AsStr>(error: Error, words: &'a [S]) -> Result<Line<'a>, CommandFault<'a>>
    ensures { (kinds : Kinds) → HasKind kinds error
        → IsErrorAnswer (map S.text words.now) kinds result }
{
    match error.kind() {
        ErrorKind::DisplayHelp | ErrorKind::DisplayVersion => Ok(Line::Text(error)),
        ErrorKind::OutOfMemory => Err(CommandFault::Memory),
        ErrorKind::InvalidSubcommand => match words.get(1) {
            Some(word) => match meant_command(word.as_str()) {
                Some(command) => Err(CommandFault::OtherName(word.as_str(), command)),
                None => Err(CommandFault::Usage(error)),
            },
            None => Err(CommandFault::Usage(error)),
        },
        _ => Err(CommandFault::Usage(error)),
    }
}

/// The run of the command that the parser met, or how its arguments are misused.
fn answer_met<'a>(alloc: Global, matches: &ArgMatches<'a>) -> Result<Line<'a>, CommandFault<'a>>
    ensures { IsRunAnswer (subcommand_rows_of matches.now) result }
{
    let Some((name, found)) = matches.subcommand() else {
        return Err(CommandFault::Misuse(Misuse::Incomplete, ""));
    };
    match asked_by(name, found) {
        Err(misuse) => {
            let given = match misuse {
                Misuse::BadNumber(option) => value_in(found, option.row().0).unwrap_or(""),
                _ => "",
            };
            Err(CommandFault::Misuse(misuse, given))
        }
        Ok(what) => Ok(Line::Run(Request {
            files: files_in(alloc, found, &FILES)?,
            typed: match values_in(found, "edit") {
                Some(lines) => Some(text_of_lines(alloc, lines)?),
                None => None,
            },
            output: output_in(found),
            quiet: is_set(found, "quiet"),
            what,
        })),
    }
}

/// What the command of a name asks, if all the files that it needs were found.
fn asked_by(name: &str, found: &ArgMatches<'_>) -> Result<What, Misuse>
    ensures { result ≡ asked_by name.now (rows_in found.now) }
{
    match named(&COMMANDS, name) {
        Some(row) if has_files(row.arguments, found) => what_in(row.command, found),
        _ => Err(Misuse::Incomplete),
    }
}

/// Whether all the files that a command needs were found.
fn has_files(arguments: &[Argument], found: &ArgMatches<'_>) -> bool
    ensures { result ≡ has_files (needed_in arguments.now) (rows_in found.now) }
{
    for argument in arguments {
        let is_needed = matches!(&argument.form, Form::NeededFile | Form::NeededFiles);
        if is_needed && !is_given(found, argument.id) {
            return false;
        }
    }
    true
}
