//! The program's command, as the parser knows it.

ghost use Rattle.std.specs.Prelude.{◌≡◌, IfOk, false, fold, map};
ghost use Rattle.clap.specs.Words.{app_of, rule_of, with_rule};
ghost use Rattle.clap.specs.declared.builder.command.Command.TheViews.{out-Command};
ghost use Rattle.play_command.specs.Commands.{IsCave, IsLocal, argument_rule, plain_app};
ghost use Rattle.play_command.specs.Commands.{plain_argument, shape_of_row, with_command};

use crate::commands::{Argument, COMMANDS, CommandRow, Form};
use clap::builder::ValueParser;
use clap::{Arg, ArgAction, Command};
use std::alloc::{AllocError, Global};

/// The version of the program. It is written only here.
const VERSION: &str = "1.0";

/// What stands below the help of the program.
const STATUSES: &str = "Exit status:
  0  done, even if edits were refused
  1  the cave or its bindings are refused, or --strict finds something left
  2  the command line is wrong
  3  the log is refused
  4  the script is refused, or an edit under --strict
  5  a file can't be opened or read
  6  the output can't be written
  7  memory ran out";

/// An argument that is given so, without its letter.
fn plain_argument<'a>(alloc: Global, argument: &Argument) -> Arg<'a>
    ensures rule { rule_of result ≡ plain_argument argument.now.form argument.now.id.now }
    ensures local { result.global ≡ false }
{
    let (id, value) = (argument.id, argument.value);
    let arg = Arg::new(alloc, id).help(argument.help);
    match argument.form {
        Form::NeededFile => arg.required(true).value_name(value),
        Form::NeededFiles => arg
            .required(true)
            .action(ArgAction::Append)
            .value_name(value),
        Form::File => arg.value_name(value),
        Form::Files => arg.action(ArgAction::Append).value_name(value),
        Form::Value => arg.long(id).value_name(value),
        Form::Values => arg.long(id).action(ArgAction::Append).value_name(value),
        Form::View(names) => arg
            .long(id)
            .value_name(value)
            .value_parser(ValueParser::Names(names))
            .hide_possible_values(true),
        Form::Report(names) => arg
            .long(id)
            .value_name(value)
            .value_parser(ValueParser::Names(names))
            .hide_possible_values(true)
            .num_args(0..=1)
            .default_missing_value("reports"),
        Form::Flag => arg.long(id).action(ArgAction::SetTrue),
    }
}

/// Adds arguments to a command.
fn with_arguments<'a>(
    alloc: Global,
    command: Command<'a>,
    arguments: &[Argument],
) -> Result<Command<'a>, AllocError>
    requires { (out-Command command).has_globals ≡ false }
    ensures { IfOk result
        (IsLocal (fold with_rule (app_of command.entry) (map argument_rule arguments.now))) }
{
    let mut made = command;
    for argument in arguments {
        let arg = plain_argument(alloc, argument);
        made = made.arg(match argument.letter {
            Some(letter) => arg.short(letter),
            None => arg,
        })?;
    }
    Ok(made)
}

/// Adds a command to the program's.
fn with_command<'a>(
    alloc: Global,
    program: Command<'a>,
    name: &'static str,
    row: &CommandRow,
) -> Result<Command<'a>, AllocError>
    ensures { IfOk result (λ whole. app_of whole
        ≡ with_command (app_of program.entry) (shape_of_row (name.entry, row.now))) }
{
    let command = Command::new(alloc, name)
        .about(row.about)
        .after_help(row.after_help);
    program.subcommand(with_arguments(alloc, command, row.arguments)?)
}

/// Adds commands to the program's.
fn with_commands<'a>(
    alloc: Global,
    program: Command<'a>,
    rows: &[(&'static str, CommandRow)],
) -> Result<Command<'a>, AllocError>
    requires { app_of program ≡ plain_app }
    ensures { IfOk result (λ whole. app_of whole
        ≡ fold with_command plain_app (map shape_of_row rows.now)) }
{
    let mut made = program;
    for (name, row) in rows {
        made = with_command(alloc, made, name, row)?;
    }
    Ok(made)
}

/// The program's command, with its subcommands.
pub fn cave_app<'a>(alloc: Global) -> Result<Command<'a>, AllocError>
    ensures { IfOk result IsCave }
{
    let program = Command::new(alloc, "cave")
        .about(
            "Plays logs of a text adventure, edits and replays them, and reports what they never \
            show",
        )
        .version(VERSION)
        .after_help(STATUSES)
        .subcommand_required(true)
        .arg_required_else_help(true);
    with_commands(alloc, program, &COMMANDS)
}
