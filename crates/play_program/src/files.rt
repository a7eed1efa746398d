//! The files of a run, and over which of them its output may go.

ghost use Rattle.std.specs.Prelude.{◌≡◌, ◌↔◌, All, IfSome, IsTrue, MatchResult, map, option_map};
ghost use Rattle.play_command.specs.Asked.{named_file};
ghost use Rattle.play_program.specs.Calls.{told_by};
ghost use Rattle.play_program.specs.Files.{IsApart, IsClash, MayReplace, file_of, files_in};
ghost use Rattle.play_program.specs.Files.{log_count, name_at, output_of, view_over};

use crate::message::Message;
use crate::system::System;
use play_command::{EditView, Input, NamedFile, Request, What};

/// The name of a file of an input: of several the one at a place.
fn name_at<'a>(files: &[NamedFile<'a>], input: Input, place: usize) -> Option<&'a str>
    ensures { option_map (λ name. name.now) result
        ≡ name_at input (map named_file files.now) place }
{
    let mut left = place;
    for file in files {
        if file.input == input {
            if left == 0 {
                return Some(file.name);
            }
            left -= 1;
        }
    }
    None
}

/// How a message calls an input: by its file, of several logs by that of the one at a place, or by
/// what else has the lines of a script: the option, if they were typed, or the log that the script
/// is to make.
pub(crate) fn file_of<'a>(request: &Request<'a>, input: Input, place: usize) -> Option<&'a str>
    ensures { option_map (λ name. name.now) result ≡ file_of request.now input place }
{
    match (name_at(&request.files, input, place), input, &request.typed) {
        (Some(name), _, _) => Some(name),
        (None, Input::Script, Some(_)) => Some("--edit"),
        (None, Input::Script, None) => name_at(&request.files, Input::NewLog, 0),
        _ => None,
    }
}

/// How many of the files are logs.
pub(crate) fn log_count(files: &[NamedFile<'_>]) -> usize
    ensures { result ≡ log_count (map named_file files.now) }
{
    let mut count = 0;
    for file in files {
        if file.input == Input::Log {
            count += 1;
        }
    }
    count
}

/// Whether the output of an edit may go over an input, since it is of the same kind: the edited log
/// over the log, and the script with guards over the script.
fn may_replace(what: What, input: Input) -> bool
    ensures { IsTrue result ↔ MayReplace what input }
{
    match (what, input) {
        (What::Edit(asked), Input::Log) => asked.editing.view == EditView::Log,
        (What::Edit(asked), Input::Script) => asked.editing.view == EditView::Guarded,
        _ => false,
    }
}

/// The name of the view whose output may go over an input, if there is one: that of `may_replace`.
fn view_over(what: What, input: Input) -> Option<&'static str>
    ensures { option_map (λ name. name.now) result ≡ view_over what input }
{
    match (what, input) {
        (What::Edit(_), Input::Log) => Some("log"),
        (What::Edit(_), Input::Script) => Some("guarded"),
        _ => None,
    }
}

/// Checks that the output of a request goes over no file that it reads, or over one that it may
/// replace.
pub(crate) fn check_output<'a, S: System>(
    system: &S,
    request: &Request<'a>,
) -> Result<(), Message<'a>>
    ensures { MatchResult (told_by result)
        (λ _. IfSome (output_of request.now) (λ output.
        All (IsApart (S.one_file system.now) request.now.what output) (files_in request.now)))
        (IsClash (S.one_file system.now) request.now.what (output_of request.now)
        (files_in request.now)) }
{
    let Some(output) = request.output else {
        return Ok(());
    };
    for file in &request.files {
        if may_replace(request.what, file.input) {
            continue;
        }
        match system.is_one_file(output, file.name) {
            Ok(false) => {}
            Ok(true) => {
                return Err(Message::Clash(file.name, view_over(request.what, file.input)));
            }
            Err(_) => return Err(Message::memory()),
        }
    }
    Ok(())
}
