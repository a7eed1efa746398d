//! Reading the inputs of a run, each of which is judged before the next.

ghost use Rattle.std.specs.Prelude.{◌≡◌, ◌⊎◌, ℕ, ◌^◌, ◌<◌, List, [], ◌∷◌, None, Some, Ok, IfOk};
ghost use Rattle.std.specs.Prelude.{MatchResult, length};
ghost use Rattle.std.specs.Str.Lines.{lines};
ghost use Rattle.replay_edits.specs.Edit.{game_of};
ghost use Rattle.replay_scripts.specs.Guards.{IsScriptBy, script_by};
ghost use Rattle.replay_scripts.specs.Views.{IsFaultOf, items_of};
ghost use Rattle.cave_play.specs.Sources.{Says, IsTaken, next_log, without_cave, Leads};
ghost use Rattle.cave_play.specs.Stages.{large_seed, every_fault, cave_refusal, Judges};
ghost use Rattle.cave_play.specs.Stages.{cave_stages, log_stage, script_stage};
ghost use Rattle.cave_play.specs.Output.{IsReadOf};
ghost use Rattle.play_machine.specs.Moments.{noted_of};
ghost use Rattle.play_machine.specs.Watch.{IsEndOf, NotesMore};

use crate::fault::PlayFault;
use crate::inputs::Sources;
use base_lines::limits::{is_bad_every, is_large_seed};
use cave_data::Cave;
use check_tables::clue_of;
use data_rows::{Cause, CaveError};
use play_command::Input;
use play_machine::{CaveMachine, PlayEnd, Watch, watch_log};
use replay_scripts::{Script, ScriptRefusal};
use std::alloc::Global;

/// Whether a game may begin with the seed.
pub(crate) fn check_seed(seed: u32) -> Result<(), PlayFault>
    ensures { MatchResult result (λ _. large_seed seed ≡ None)
        (λ found. large_seed seed ≡ Some found) }
{
    if is_large_seed(u64::from(seed)) {
        return Err(PlayFault::Seed);
    }
    Ok(())
}

/// Whether a session may have this distance of checkpoints.
pub(crate) fn check_every(every: u32) -> Result<(), PlayFault>
    ensures { MatchResult result (λ _. every_fault every ≡ None)
        (λ found. every_fault every ≡ Some found) }
{
    if is_bad_every(every) {
        return Err(PlayFault::Every);
    }
    Ok(())
}

/// The fault of a run whose cave is refused.
fn cave_refusal(alloc: Global, error: CaveError, database: &[u8], bindings: &[u8]) -> PlayFault
    ensures memory { error.cause ≡ Cause.Memory → result ≡ PlayFault.Memory }
    ensures told { (result ≡ PlayFault.Memory)
        ⊎ (result ≡ cave_refusal database.now bindings.now error) }
{
    if error.cause == Cause::Memory {
        return PlayFault::Memory;
    }
    match clue_of(alloc, error, database, bindings) {
        Ok(clue) => PlayFault::Cave(error, clue),
        Err(_) => PlayFault::Memory,
    }
}

/// A cave with the texts from which it was read.
#[derive(Drop)]
pub struct ReadCave {
    pub cave: Cave,
    pub database: Vec<u8>,
    pub bindings: Vec<u8>,
}

/// Reads a database and its bindings, and keeps them.
pub(crate) fn read_cave<I: Sources>(alloc: Global, inputs: &mut I) -> Result<ReadCave, PlayFault>
    ensures judged { (database : List ℕ) × (bindings : List ℕ)
        × Says (I.held inputs.old).cave database × Says (I.held inputs.old).bindings bindings
        × Judges (cave_stages database bindings) (IsReadOf database bindings) result }
    ensures others { without_cave (I.held inputs.new) ≡ without_cave (I.held inputs.old) }
    ensures leads { Leads I.Reads inputs.old inputs.new }
{
    let database = inputs.read(alloc, Input::Cave)?;
    let bindings = inputs.read(alloc, Input::Bindings)?;
    match Cave::read(alloc, &database, &bindings) {
        Ok(cave) => Ok(ReadCave {
            cave,
            database,
            bindings,
        }),
        Err(error) => Err(cave_refusal(alloc, error, &database, &bindings)),
    }
}

/// Reads the next log and plays it in a cave, for a watch to see.
pub(crate) fn watch_play<W: Watch, I: Sources>(
    alloc: Global,
    machine: CaveMachine<'_>,
    inputs: &mut I,
    seed: u32,
    watch: &mut W,
) -> Result<PlayEnd, PlayFault>
    requires { large_seed seed ≡ None }
    ensures judged { (bytes : List ℕ) × Says (next_log (I.held inputs.old).logs) bytes
        × Judges (log_stage bytes ∷ [])
        (λ end. NotesMore W.HasNoted (noted_of W.first_facts W.facts machine.entry.rules.cave.now
        (game_of seed (lines bytes))) watch.old watch.new
        × IsEndOf machine.entry.rules.cave.now (game_of seed (lines bytes)) end) result }
    ensures taken { IsTaken Input.Log (I.held inputs.old) (I.held inputs.new) }
    ensures leads { Leads I.Reads inputs.old inputs.new }
{
    let log = inputs.read(alloc, Input::Log)?;
    let end = watch_log(alloc, machine, &log, seed, watch)?;
    Ok(end)
}

/// A script with the text from which it was read.
#[derive(Drop)]
pub(crate) struct ReadScript {
    pub(crate) script: Script,
    pub(crate) text: Vec<u8>,
}

/// Reads a script, some of whose lines may be guards.
pub(crate) fn read_script<I: Sources>(
    alloc: Global,
    inputs: &mut I,
    guarded: bool,
) -> Result<ReadScript, PlayFault>
    ensures judged { (bytes : List ℕ) × Says (I.held inputs.old).script bytes
        × Judges (script_stage guarded bytes ∷ [])
        (λ read. IsScriptBy guarded bytes (items_of read.script.items)
        × (length read.script.items.items < 2 ^ 32)
        × (script_by guarded bytes ≡ Ok (items_of read.script.items))
        × (read.text.items ≡ bytes)) result }
    ensures leads { Leads I.Reads inputs.old inputs.new }
{
    let text = inputs.read(alloc, Input::Script)?;
    let script = script_in(alloc, &text, guarded)?;
    Ok(ReadScript { script, text })
}

/// The script of a text, some of whose lines may be guards.
fn script_in(alloc: Global, text: &[u8], guarded: bool) -> Result<Script, ScriptRefusal>
    ensures script { MatchResult result
        (λ script. script_by guarded text.now ≡ Ok (items_of script.items))
        (λ fault. IsFaultOf fault (script_by guarded text.now)) }
    ensures grammar { IfOk result
        (λ script. IsScriptBy guarded text.now (items_of script.items)) }
{
    if guarded {
        Script::read_guarded(alloc, text)
    } else {
        Script::read(alloc, text)
    }
}
