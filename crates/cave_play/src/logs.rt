//! Runs over several logs, each of which is played by itself from its first line.

ghost use Rattle.std.specs.Prelude.{◌≡◌, ℕ, List, [], IfOk, None, length, ◌++◌};
ghost use Rattle.std.specs.List.{AllZip};
ghost use Rattle.cave_play.specs.Output.{IsReadOf};
ghost use Rattle.cave_play.specs.Sources.{Says, Leads};
ghost use Rattle.cave_play.specs.Stages.{large_seed, Judges};
ghost use Rattle.cave_play.specs.Logs.{IsMadeReport, IsReportOn, IsReported, JudgesLogs, at_none};
ghost use Rattle.cave_play.specs.Logs.{first_stages, games_of, noted_of_all};
ghost use Rattle.cave_data.specs.CaveView.{CaveView};
ghost use Rattle.replay_edits.specs.Edit.{Game};
ghost use Rattle.cave_play.specs.declared.fault.PlayFault.TheVariants.{Memory};

use crate::fault::PlayFault;
use crate::inputs::Sources;
use crate::judge::{ReadCave, check_seed, read_cave, watch_play};
use crate::output::Reported;
use cave_data::Cave;
use cave_words::Lexicon;
use play_machine::{CaveMachine, Watch};
use std::alloc::{AllocError, Global};

/// A fault of a run over several logs, and the log at which it is met, from 0, if it is met at one.
#[derive(Clone, Copy, Debug, PartialEq, Eq)]
pub struct LogsFault {
    pub fault: PlayFault,
    pub log: Option<usize>,
}

impl From<PlayFault> for LogsFault {
    ghost from_gives = { λ fault found. found ≡ at_none fault };

    fn from(fault: PlayFault) -> LogsFault {
        LogsFault { fault, log: None }
    }
}

impl From<AllocError> for LogsFault {
    ghost from_gives = { λ _ found. found ≡ at_none Memory };

    fn from(_: AllocError) -> LogsFault {
        LogsFault::from(PlayFault::Memory)
    }
}

/// Notes on the plays of games in a cave, from which a report is written.
pub trait PlayNotes: Watch {
    /// What may be asked of the report.
    type View;

    /// What is returned with the report.
    type Found: Copy;

    /// The report on the plays of games in the cave of a database.
    ghost report_on: { List ℕ → CaveView → Self.View → List Game → List ℕ };

    /// What is returned with it.
    ghost found_on: { List ℕ → CaveView → Self.View → List Game → Self.Found };

    /// Notes on no play.
    fn none(alloc: Global) -> Result<Self, AllocError>
        ensures { IfOk result (λ notes. Self.HasNoted [] notes) };

    /// Appends the report on the plays of this many logs.
    fn push_report(
        &self,
        alloc: Global,
        database: &[u8],
        cave: &Cave,
        view: &Self::View,
        logs: usize,
        text: &mut Vec<u8>,
    ) -> Result<Self::Found, AllocError>
        ensures { IfOk result (λ found. (games : List Game)
            → Self.HasNoted (noted_of_all Self.first_facts Self.facts cave.now games) self.now
            → logs ≡ length games
            → (text.new.items
            ≡ text.old.items ++ report_on database.now cave.now view.now games)
            × (found ≡ found_on database.now cave.now view.now games)) };
}

/// Plays this many logs, and makes the report on what is noted of their plays.
pub fn make_report<N: PlayNotes, I: Sources>(
    alloc: Global,
    inputs: &mut I,
    logs: usize,
    seed: u32,
    view: &N::View,
) -> Result<Reported<N::Found>, LogsFault>
    requires { logs ≡ length (I.held inputs.old).logs }
    ensures judged { (database : List ℕ) × (bindings : List ℕ) × (moves : List (List ℕ))
        × Says (I.held inputs.old).cave database × Says (I.held inputs.old).bindings bindings
        × AllZip Says (I.held inputs.old).logs moves
        × JudgesLogs (first_stages database bindings seed) moves
        (IsMadeReport (IsReported N.report_on N.found_on database bindings moves seed view.now))
        result }
    ensures all { IfOk result (λ _. (I.held inputs.new).logs ≡ []) }
    ensures leads { Leads I.Reads inputs.old inputs.new }
{
    let read = read_for_logs(alloc, inputs, seed)?;
    let made = report_in_cave::<N, I>(alloc, &read, inputs, logs, seed, view);
    // By a call, as in other runs, so the checker goes through the tables of a cave in one place.
    drop(read);
    made
}

/// Judges the seed with which logs are played, and reads their cave.
pub fn read_for_logs<I: Sources>(
    alloc: Global,
    inputs: &mut I,
    seed: u32,
) -> Result<ReadCave, PlayFault>
    ensures judged { (database : List ℕ) × (bindings : List ℕ)
        × Says (I.held inputs.old).cave database × Says (I.held inputs.old).bindings bindings
        × Judges (first_stages database bindings seed) (IsReadOf database bindings) result }
    ensures logs { (I.held inputs.new).logs ≡ (I.held inputs.old).logs }
    ensures leads { Leads I.Reads inputs.old inputs.new }
{
    check_seed(seed)?;
    read_cave(alloc, inputs)
}

/// Plays this many logs in a cave, each by itself, and makes the report on what is noted of their
/// plays. One log at a time is held.
pub fn report_in_cave<N: PlayNotes, I: Sources>(
    alloc: Global,
    read: &ReadCave,
    inputs: &mut I,
    logs: usize,
    seed: u32,
    view: &N::View,
) -> Result<Reported<N::Found>, LogsFault>
    requires fits { large_seed seed ≡ None }
    requires many { logs ≡ length (I.held inputs.old).logs }
    ensures judged { (moves : List (List ℕ)) × AllZip Says (I.held inputs.old).logs moves
        × JudgesLogs [] moves
        (IsMadeReport (IsReportOn N.report_on N.found_on read.now.database.items read.now.cave
        view.now (games_of seed moves))) result }
    ensures all { IfOk result (λ _. (I.held inputs.new).logs ≡ []) }
    ensures leads { Leads I.Reads inputs.old inputs.new }
{
    let cave = &read.cave;
    let lexicon = Lexicon::build(alloc, cave)?;
    let machine = CaveMachine::new(cave, &lexicon);
    let mut notes = N::none(alloc)?;
    for place in 0..logs {
        match watch_play(alloc, machine, inputs, seed, &mut notes) {
            Ok(_) => {}
            Err(fault) => {
                let log = Some(place);
                return Err(LogsFault { fault, log });
            }
        }
    }
    let mut text = Vec::new(alloc);
    let found = notes.push_report(alloc, &read.database, cave, view, logs, &mut text)?;
    Ok(Reported { text, found })
}
