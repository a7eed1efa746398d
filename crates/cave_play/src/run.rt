//! What runs over at most one log make of their inputs, and the runs: from the inputs to a writer of
//! the output. What a run makes is whole before it writes.

ghost use Rattle.std.specs.Prelude.{◌≡◌, ℕ, List, [], ◌∷◌, None, length};
ghost use Rattle.std.specs.Str.Lines.{lines};
ghost use Rattle.replay_checkpoints.specs.Spacing.{IsSpaced};
ghost use Rattle.replay_edits.specs.Edit.{IsGame, game_of};
ghost use Rattle.cave_play.specs.Sources.{Says, InputTexts, AreTextsOf, AreHeld, next_log, Leads};
ghost use Rattle.cave_play.specs.Stages.{large_seed, every_fault, Judges, Runs, RunsWith};
ghost use Rattle.cave_play.specs.Stages.{cave_stages, log_stage, script_stage, strict_stage};
ghost use Rattle.cave_play.specs.Stages.{doubts_stages, play_stages, edit_stages};
ghost use Rattle.cave_play.specs.Output.{IsChecked, IsPlayed, IsEditRun, FinishesEdit, IsMadeEdit};
ghost use Rattle.cave_play.specs.Output.{AreLeftIn, RunsDoubts, first_doubt};
ghost use Rattle.play_edits.specs.Views.{IsMadeOf};
ghost use Rattle.play_edits.specs.Ends.{log_ends};

use crate::fault::PlayFault;
use crate::inputs::{Inputs, OneLog, Sources};
use crate::judge::{check_every, check_seed, read_cave, read_script};
use crate::output::{Reported, write_report};
use crate::views::{check_text, left_in, play_view_text};
use base_lines::Meter;
use base_lines::limits::is_large_input;
use cave_data::Cave;
use cave_replay::Session;
use cave_words::Lexicon;
use check_doubts::{Doubt, DoubtFiles};
use play_command::{CheckView, EditView, Editing, Input, PlayView, ReportView};
use play_edits::{EditRun, LogEnds, MadeEdit, apply_items};
use play_machine::CaveMachine;
use std::alloc::Global;
use std::io::{Read, Write};

// A cave is dropped by a call, and not at the end of a block, because then the checker goes through
// its tables once, and not in each function that has a cave. So nothing fails between its reading
// and that call.

/// Checks a database and its bindings, and says so if they are a cave.
pub fn make_check<I: Sources>(
    alloc: Global,
    inputs: &mut I,
    view: CheckView,
) -> Result<Reported<()>, PlayFault>
    ensures judged { (texts : InputTexts) × AreHeld (I.held inputs.old) texts
        × Judges (cave_stages texts.database texts.bindings)
        (λ made. IsChecked view texts.database texts.bindings made.text.items) result }
    ensures leads { Leads I.Reads inputs.old inputs.new }
{
    let read = read_cave(alloc, inputs)?;
    let made = check_text(alloc, &read, view);
    drop(read);
    made
}

/// Reads a cave and the list of known doubts, and finds the others, each with the name of its file
/// and its line.
pub fn make_doubts<I: Sources>(
    alloc: Global,
    inputs: &mut I,
    files: &DoubtFiles<'_>,
) -> Result<Reported<Vec<Doubt>>, PlayFault>
    ensures judged { (texts : InputTexts) × AreHeld (I.held inputs.old) texts
        × Judges (doubts_stages texts.database texts.bindings texts.known)
        (AreLeftIn files.now texts.database texts.bindings texts.known) result }
    ensures leads { Leads I.Reads inputs.old inputs.new }
{
    let read = read_cave(alloc, inputs)?;
    let listed = inputs.read(alloc, Input::Known)?;
    let found = left_in(alloc, &read, files, listed)?;
    Ok(found)
}

/// Plays a log, and makes of it what the view asks for: the transcript, the table of its lines, the
/// same as JSON, the table of its score, or the state to which the log leads.
pub fn make_play<I: Sources>(
    alloc: Global,
    inputs: &mut I,
    seed: u32,
    view: PlayView,
) -> Result<Reported<()>, PlayFault>
    ensures judged { (texts : InputTexts) × AreHeld (I.held inputs.old) texts
        × Judges (play_stages texts.database texts.bindings texts.log seed)
        (λ made. IsPlayed texts.database texts.bindings texts.log seed view made.text.items) result }
    ensures leads { Leads I.Reads inputs.old inputs.new }
{
    check_seed(seed)?;
    let read = read_cave(alloc, inputs)?;
    let made = play_view_text(alloc, &read.cave, inputs, seed, view);
    drop(read);
    made
}

/// Edits a log by a script, and makes what the view asks for: a report on each item of the script
/// and then the transcript of the edited log, that log, what each item replayed, the table of the
/// edited log's lines, the same as JSON, the table of its score, or the state that it leads to. Each
/// line of the edited log has the end that it has in the log.
pub fn make_edit<I: Sources>(
    alloc: Global,
    inputs: &mut I,
    editing: Editing,
    report: Option<ReportView>,
) -> Result<Reported<EditRun>, PlayFault>
    ensures judged { (texts : InputTexts) × AreHeld (I.held inputs.old) texts
        × Judges (edit_stages texts.database texts.bindings texts.log texts.script editing)
        (IsMadeEdit texts editing report) result }
    ensures leads { Leads I.Reads inputs.old inputs.new }
{
    check_seed(editing.seed)?;
    check_every(editing.every)?;
    let read = read_cave(alloc, inputs)?;
    let made = edit_in_cave(alloc, &read.cave, inputs, editing, report);
    drop(read);
    finish_edit(editing.view, made)
}

/// What a view asks for of a script in a cave.
fn edit_in_cave<I: Sources>(
    alloc: Global,
    cave: &Cave,
    inputs: &mut I,
    editing: Editing,
    report: Option<ReportView>,
) -> Result<MadeEdit, PlayFault>
    requires seed_fits { large_seed editing.seed ≡ None }
    requires every_fits { every_fault editing.every ≡ None }
    ensures judged { (moves : List ℕ) × (edits : List ℕ)
        × Says (next_log (I.held inputs.old).logs) moves × Says (I.held inputs.old).script edits
        × Judges (log_stage moves ∷ script_stage editing.guarded edits
        ∷ strict_stage editing.strict (game_of editing.seed (lines moves)) editing.guarded edits
        ∷ [])
        (IsMadeOf editing.view report cave.now editing.every (game_of editing.seed (lines moves))
        editing.guarded edits (log_ends moves edits)) result }
    ensures leads { Leads I.Reads inputs.old inputs.new }
{
    let lexicon = Lexicon::build(alloc, cave)?;
    let machine = CaveMachine::new(cave, &lexicon);
    let bytes = inputs.read(alloc, Input::Log)?;
    let Editing { seed, every, .. } = editing;
    let mut meter = Meter::new();
    let mut session = Session::open(alloc, machine, seed, &bytes, every, &mut meter)?;
    let made = edit_session(alloc, &mut session, &bytes, inputs, editing, report);
    drop(session);
    made
}

/// What a script makes when it is applied to a session of the machine, over a log of these bytes.
fn edit_session<I: Sources>(
    alloc: Global,
    session: &mut Session<CaveMachine<'_>>,
    log: &[u8],
    inputs: &mut I,
    editing: Editing,
    report: Option<ReportView>,
) -> Result<MadeEdit, PlayFault>
    requires spaced { IsSpaced session.old.every session.old.checkpoints
        (length session.old.game.log) }
    requires game { IsGame session.old.game }
    ensures judged { (edits : List ℕ) × Says (I.held inputs.old).script edits
        × Judges (script_stage editing.guarded edits
        ∷ strict_stage editing.strict session.old.game editing.guarded edits ∷ [])
        (IsMadeOf editing.view report session.old.machine.rules.cave.now session.old.every
        session.old.game editing.guarded edits (log_ends log.now edits)) result }
    ensures leads { Leads I.Reads inputs.old inputs.new }
{
    let read = read_script(alloc, inputs, editing.guarded)?;
    let ends = LogEnds::of(alloc, log, &read.text)?;
    match apply_items(alloc, session, &read.script.items, editing, report, ends)? {
        Ok(made) => Ok(made),
        Err(refusal) => Err(PlayFault::Refused(refusal)),
    }
}

/// What edits made, unless that is a log or a script that no run could read again.
fn finish_edit(
    view: EditView,
    made: Result<MadeEdit, PlayFault>,
) -> Result<Reported<EditRun>, PlayFault>
    ensures { FinishesEdit view made result }
{
    let MadeEdit { text, run } = made?;
    let is_large = is_large_input(text.len());
    match view {
        EditView::Log if is_large => Err(PlayFault::LargeLog),
        EditView::Undo | EditView::Guarded if is_large => Err(PlayFault::LargeScript),
        _ => Ok(Reported { text, found: run }),
    }
}

/// The fault of a strict run in a doubtful cave.
pub fn first_doubt(strict: bool, left: &[Doubt]) -> Option<PlayFault>
    ensures { result ≡ first_doubt strict left.now }
{
    match left {
        [first, ..] if strict => Some(PlayFault::Doubt(*first)),
        _ => None,
    }
}

/// Checks a database and its bindings, and says so if they are a cave. Its inputs determine what it
/// writes, as in other runs: see `one_checked_output` in `play_laws`.
pub fn run_check<C: Read, B: Read, L: Read, S: Read, W: Write>(
    alloc: Global,
    inputs: &mut Inputs<C, B, L, S>,
    view: CheckView,
    output: &mut W,
) -> Result<(), PlayFault>
    ensures runs { (texts : InputTexts)
        × AreTextsOf C.remaining B.remaining L.remaining S.remaining inputs.old texts
        × Runs (cave_stages texts.database texts.bindings)
        (IsChecked view texts.database texts.bindings)
        (W.contents output.old) (W.contents output.new) result }
{
    let made = make_check(alloc, &mut OneLog::of(inputs), view);
    write_report(made, output)
}

/// Lists what is doubtful about a cave and isn't known, each with the name of its file and its
/// line. A strict run then fails with the first of these doubts. The script's reader has the list of
/// known ones.
pub fn run_doubts<C: Read, B: Read, L: Read, S: Read, W: Write>(
    alloc: Global,
    inputs: &mut Inputs<C, B, L, S>,
    files: &DoubtFiles<'_>,
    strict: bool,
    output: &mut W,
) -> Result<(), PlayFault>
    ensures runs { (texts : InputTexts)
        × AreTextsOf C.remaining B.remaining L.remaining S.remaining inputs.old texts
        × RunsDoubts strict files.now texts (W.contents output.old) (W.contents output.new)
        result }
{
    let made = make_doubts(alloc, &mut OneLog::of(inputs), files);
    let left = write_report(made, output)?;
    match first_doubt(strict, &left) {
        Some(fault) => Err(fault),
        None => Ok(()),
    }
}

/// Plays a log and writes what the view asks for.
pub fn run_play<C: Read, B: Read, L: Read, S: Read, W: Write>(
    alloc: Global,
    inputs: &mut Inputs<C, B, L, S>,
    seed: u32,
    view: PlayView,
    output: &mut W,
) -> Result<(), PlayFault>
    ensures runs { (texts : InputTexts)
        × AreTextsOf C.remaining B.remaining L.remaining S.remaining inputs.old texts
        × Runs (play_stages texts.database texts.bindings texts.log seed)
        (IsPlayed texts.database texts.bindings texts.log seed view)
        (W.contents output.old) (W.contents output.new) result }
{
    let made = make_play(alloc, &mut OneLog::of(inputs), seed, view);
    write_report(made, output)
}

/// Edits a log by a script, and writes what the view asks for. Returns how many lines were played
/// for the items: the sum of what was played for each, which is within the bound of its replay; why
/// items were refused, if some were; the report, if one is asked for; and the seed that is left.
pub fn run_edit<C: Read, B: Read, L: Read, S: Read, W: Write>(
    alloc: Global,
    inputs: &mut Inputs<C, B, L, S>,
    editing: Editing,
    report: Option<ReportView>,
    output: &mut W,
) -> Result<EditRun, PlayFault>
    ensures runs { (texts : InputTexts)
        × AreTextsOf C.remaining B.remaining L.remaining S.remaining inputs.old texts
        × RunsWith (edit_stages texts.database texts.bindings texts.log texts.script editing)
        (IsEditRun texts.database texts.bindings texts.log texts.script editing report)
        (W.contents output.old) (W.contents output.new) result }
{
    let made = make_edit(alloc, &mut OneLog::of(inputs), editing, report);
    write_report(made, output)
}
