//! Runs over two logs: the edits that make one of the other, and what they lead to.

ghost use Rattle.std.specs.Prelude.{◌≡◌, ℕ, List, [], ◌∷◌};
ghost use Rattle.std.specs.Str.Lines.{lines};
ghost use Rattle.replay_edits.specs.Edit.{log_of};
ghost use Rattle.cave_play.specs.Sources.{AreTextsOf, InputTexts, Says, AreHeld};
ghost use Rattle.cave_play.specs.Sources.{next_log, Leads};
ghost use Rattle.cave_play.specs.Stages.{Judges, judging_stage, lines_fault};
ghost use Rattle.cave_play.specs.Output.{IsCompared, JudgesEditTo, JudgesScript, ReadsWith};
ghost use Rattle.cave_play.specs.Output.{RunsEditTo, RunsScript, new_log_fault, two_logs_stages};
ghost use Rattle.cave_play.specs.Output.{with_compared};

use crate::fault::PlayFault;
use crate::inputs::{Inputs, OneLog, Sources, read};
use crate::output::{Reported, write_report};
use crate::run::make_edit;
use base_lines::limits::{USUAL_EVERY, is_large_input};
use cave_replay::log::read_lines;
use play_command::{Editing, Input, ReportView};
use play_edits::EditRun;
use replay_difference::script::{ScriptForm, push_difference};
use replay_edits::LineText;
use std::alloc::Global;
use std::io::{Read, Write};

/// A log, and the script of the edits that make another one of it.
#[derive(Drop)]
pub(crate) struct Compared {
    pub(crate) log: Vec<u8>,
    pub(crate) script: Vec<u8>,
}

/// The lines of a log.
fn log_lines(alloc: Global, log: &[u8]) -> Result<Vec<LineText>, PlayFault>
    ensures judged { Judges (judging_stage (lines_fault (lines log.now)) ∷ [])
        (λ copies. log_of copies.items ≡ lines log.now) result }
{
    let lines = read_lines(alloc, USUAL_EVERY, log, 0)?;
    Ok(lines)
}

/// The fault of the log that edits are to make.
fn new_log_fault(fault: PlayFault) -> PlayFault
    ensures { result ≡ new_log_fault fault }
{
    match fault {
        PlayFault::Log(refused) => PlayFault::NewLog(refused),
        other => other,
    }
}

/// Reads two logs, and finds the edits that make the second one of the first.
fn compare<I: Sources>(
    alloc: Global,
    inputs: &mut I,
    form: ScriptForm,
) -> Result<Compared, PlayFault>
    ensures judged { (old : List ℕ) × (made : List ℕ)
        × Says (next_log (I.held inputs.old).logs) old × Says (I.held inputs.old).new_log made
        × Judges (two_logs_stages old made) (IsCompared form old made) result }
    ensures cave { (I.held inputs.new).cave ≡ (I.held inputs.old).cave }
    ensures bindings { (I.held inputs.new).bindings ≡ (I.held inputs.old).bindings }
    ensures leads { Leads I.Reads inputs.old inputs.new }
{
    let log = inputs.read(alloc, Input::Log)?;
    let old = log_lines(alloc, &log)?;
    let new_log = inputs.read(alloc, Input::NewLog)?;
    let made = match log_lines(alloc, &new_log) {
        Ok(lines) => lines,
        Err(fault) => return Err(new_log_fault(fault)),
    };
    let mut script = Vec::new(alloc);
    push_difference(alloc, &mut script, &old, &made, form)?;
    Ok(Compared { log, script })
}

/// Makes the script of the edits that make one log of another, unless it is larger than a script may
/// be.
pub fn make_script<I: Sources>(
    alloc: Global,
    inputs: &mut I,
    form: ScriptForm,
) -> Result<Reported<()>, PlayFault>
    ensures judged { (texts : InputTexts) × AreHeld (I.held inputs.old) texts
        × JudgesScript form texts result }
    ensures leads { Leads I.Reads inputs.old inputs.new }
{
    let compared = compare(alloc, inputs, form)?;
    let Compared { script, .. } = compared;
    if is_large_input(script.len()) {
        return Err(PlayFault::LargeScript);
    }
    let (text, found) = (script, ());
    Ok(Reported { text, found })
}

/// A log that was read, and its script, in the place of those that a run has.
#[derive(Drop)]
struct WithCompared<'a, I> {
    inputs: &'a mut I,
    compared: &'a Compared,
    /// Whether the log was asked for.
    is_read: bool,
}

impl<I: Sources> Sources for WithCompared<'_, I> {
    ghost held = { with_compared I.held };

    ghost Reads = { ReadsWith I.Reads };

    #[tactic(auto, using(crate::proofs::SourceLemmas::readings))]
    fn read(&mut self, alloc: Global, input: Input) -> Result<Vec<u8>, PlayFault> {
        match input {
            Input::Log if self.is_read => Ok(Vec::new(alloc)),
            Input::Log => {
                self.is_read = true;
                read(alloc, input, &mut self.compared.log.as_slice())
            }
            Input::Script => read(alloc, input, &mut self.compared.script.as_slice()),
            _ => self.inputs.read(alloc, input),
        }
    }
}

/// Edits a log by the edits that make another one of it, and makes what is asked for. Both logs are
/// judged before anything else.
pub fn make_edit_to<I: Sources>(
    alloc: Global,
    inputs: &mut I,
    editing: Editing,
    report: Option<ReportView>,
) -> Result<Reported<EditRun>, PlayFault>
    ensures judged { (texts : InputTexts) × AreHeld (I.held inputs.old) texts
        × JudgesEditTo texts editing report result }
    ensures leads { Leads I.Reads inputs.old inputs.new }
{
    let form = ScriptForm {
        guarded: editing.guarded,
        grouped: false,
    };
    let compared = compare(alloc, inputs, form)?;
    let mut inputs = WithCompared {
        inputs,
        compared: &compared,
        is_read: false,
    };
    make_edit(alloc, &mut inputs, editing, report)
}

/// Writes the script of the edits that make one log of another, unless it is larger than a script
/// may be. The script's reader has the new log.
pub fn run_script<C: Read, B: Read, L: Read, S: Read, W: Write>(
    alloc: Global,
    inputs: &mut Inputs<C, B, L, S>,
    form: ScriptForm,
    output: &mut W,
) -> Result<(), PlayFault>
    ensures runs { (texts : InputTexts)
        × AreTextsOf C.remaining B.remaining L.remaining S.remaining inputs.old texts
        × RunsScript form texts (W.contents output.old) (W.contents output.new) result }
{
    let made = make_script(alloc, &mut OneLog::of(inputs), form);
    write_report(made, output)
}

/// Edits a log by the edits that make another one of it, and writes what is asked for. The script's
/// reader has the new log.
pub fn run_edit_to<C: Read, B: Read, L: Read, S: Read, W: Write>(
    alloc: Global,
    inputs: &mut Inputs<C, B, L, S>,
    editing: Editing,
    report: Option<ReportView>,
    output: &mut W,
) -> Result<EditRun, PlayFault>
    ensures runs { (texts : InputTexts)
        × AreTextsOf C.remaining B.remaining L.remaining S.remaining inputs.old texts
        × RunsEditTo texts editing report (W.contents output.old) (W.contents output.new) result }
{
    let made = make_edit_to(alloc, &mut OneLog::of(inputs), editing, report);
    write_report(made, output)
}
