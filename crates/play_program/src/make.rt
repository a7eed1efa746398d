//! What the run of a request makes of its inputs.

ghost use Rattle.std.specs.Prelude.{◌≡◌, ℕ, List, IfOk, length, map};
ghost use Rattle.std.specs.List.{AllZip};
ghost use Rattle.cave_play.specs.Sources.{InputTexts, Says, AreHeld, Leads};
ghost use Rattle.play_command.specs.Asked.{named_file};
ghost use Rattle.play_program.specs.Files.{log_count};
ghost use Rattle.play_program.specs.Ends.{AreListed, HasReadAll, IsMadeBy};

use crate::files::{file_of, log_count};
use cave_play::inputs::Sources;
use cave_play::output::Reported;
use cave_play::run::{first_doubt, make_check, make_doubts, make_edit, make_play};
use cave_play::two_logs::{make_edit_to, make_script};
use cave_play::{LogsFault, PlayFault};
use check_doubts::DoubtFiles;
use play_command::{EditsFrom, Input, Request, What};
use play_cover::run::{CoverAsked, make_cover};
use play_edits::EditRun;
use play_map::run::make_map;
use std::alloc::Global;

/// What the run of a request makes of its inputs.
#[derive(Drop)]
pub(crate) struct Made {
    pub(crate) output: Vec<u8>,
    /// What edits return beside it.
    pub(crate) edits: Option<EditRun>,
    /// What is left all the same, for which a strict run fails.
    pub(crate) left: Option<PlayFault>,
}

impl Made {
    /// A text, with what edits return, and what is left.
    fn of(output: Vec<u8>, edits: Option<EditRun>, left: Option<PlayFault>) -> Made
        ensures { result ≡ record { output = output; edits = edits; left = left } }
    {
        Made {
            output,
            edits,
            left,
        }
    }
}

/// The files that doubts are about, and that of the list of known ones.
fn doubt_files<'a>(request: &Request<'a>) -> DoubtFiles<'a>
    ensures { AreListed request.now result }
{
    DoubtFiles {
        database: file_of(request, Input::Cave, 0).unwrap_or(""),
        bindings: file_of(request, Input::Bindings, 0).unwrap_or(""),
        known: file_of(request, Input::Known, 0).unwrap_or(""),
    }
}

/// What the run of a request makes of its inputs. It asks for each when its turn comes.
pub(crate) fn make<I: Sources>(
    alloc: Global,
    inputs: &mut I,
    request: &Request<'_>,
) -> Result<Made, LogsFault>
    requires { log_count (map named_file request.now.files.items)
        ≡ length (I.held inputs.old).logs }
    ensures judged { (texts : InputTexts) × (logs : List (List ℕ))
        × AreHeld (I.held inputs.old) texts
        × AllZip Says (I.held inputs.old).logs logs
        × IsMadeBy request.now.what request.now texts logs result }
    ensures all { IfOk result (λ _. HasReadAll request.now.what (I.held inputs.new).logs) }
    ensures leads { Leads I.Reads inputs.old inputs.new }
{
    let logs = log_count(&request.files);
    match request.what {
        What::Check(view) => Ok(Made::of(make_check(alloc, inputs, view)?.text, None, None)),
        What::Doubts { strict } => {
            let files = doubt_files(request);
            let Reported { text, found } = make_doubts(alloc, inputs, &files)?;
            Ok(Made::of(text, None, first_doubt(strict, &found)))
        }
        What::Play { seed, view } => {
            Ok(Made::of(make_play(alloc, inputs, seed, view)?.text, None, None))
        }
        What::Edit(asked) => match asked.edits_from {
            EditsFrom::Script => {
                let edited = make_edit(alloc, inputs, asked.editing, asked.report)?;
                Ok(Made::of(edited.text, Some(edited.found), None))
            }
            EditsFrom::NewLog => {
                let edited = make_edit_to(alloc, inputs, asked.editing, asked.report)?;
                Ok(Made::of(edited.text, Some(edited.found), None))
            }
        },
        What::Script(form) => Ok(Made::of(make_script(alloc, inputs, form)?.text, None, None)),
        What::Cover { seed, view, strict } => {
            let known = file_of(request, Input::Known, 0).unwrap_or("");
            let asked = CoverAsked { seed, view, known };
            let Reported { text, found } = make_cover(alloc, inputs, logs, &asked)?;
            let left = (strict && found > 0).then_some(PlayFault::Unshown(found));
            Ok(Made::of(text, None, left))
        }
        What::Map { seed, part } => {
            Ok(Made::of(make_map(alloc, inputs, logs, seed, part)?.text, None, None))
        }
    }
}
