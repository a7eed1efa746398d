//! What the run that draws a map makes of its inputs, and the run.

ghost use Rattle.std.specs.Prelude.{◌≡◌, ℕ, List, [], ◌∷◌, IfOk, None, length, map};
ghost use Rattle.std.specs.List.{AllZip};
ghost use Rattle.cave_play.specs.Logs.{IsMadeReport, JudgesLogs, games_of};
ghost use Rattle.play_map.specs.Parts.{place_stage};
ghost use Rattle.play_map.specs.Plays.{JudgesMap, RunsMap, map_of_games};
ghost use Rattle.cave_play.specs.Sources.{Says, Leads};
ghost use Rattle.cave_play.specs.Stages.{large_seed};

use crate::part::{check_place, drawn_part};
use crate::plays::StopNotes;
use cave_data::Cave;
use cave_play::inputs::{Readers, Sources};
use cave_play::judge::ReadCave;
use cave_play::logs::{PlayNotes, read_for_logs, report_in_cave};
use cave_play::output::{Reported, write_report};
use cave_play::{CaveReaders, LogsFault};
use map_graph::map::push_map;
use map_graph::stops::Stops;
use play_command::MapPart;
use std::alloc::{AllocError, Global};
use std::io::{Read, Write};

impl PlayNotes for StopNotes {
    ghost use Rattle.play_map.specs.Plays.{map_of_games};

    type View = MapPart;

    type Found = ();

    ghost report_on = { λ _ cave part games. map_of_games cave part games };

    ghost found_on = { λ _ _ _ _. tt };

    fn none(alloc: Global) -> Result<StopNotes, AllocError> {
        Ok(StopNotes {
            stops: Stops::new(alloc),
        })
    }

    fn push_report(
        &self,
        alloc: Global,
        _database: &[u8],
        cave: &Cave,
        part: &MapPart,
        logs: usize,
        text: &mut Vec<u8>,
    ) -> Result<(), AllocError> {
        push_map(alloc, cave, &self.stops, drawn_part(*part), logs, text)
    }
}

/// Judges the place in the middle of a part of a cave. Then it plays this many logs there, and makes
/// the map of that part.
fn map_games_in_cave<I: Sources>(
    alloc: Global,
    read: &ReadCave,
    inputs: &mut I,
    logs: usize,
    seed: u32,
    part: MapPart,
) -> Result<Reported<()>, LogsFault>
    requires fits { large_seed seed ≡ None }
    requires many { logs ≡ length (I.held inputs.old).logs }
    ensures judged { (moves : List (List ℕ)) × AllZip Says (I.held inputs.old).logs moves
        × JudgesLogs (place_stage read.now.cave part ∷ []) moves
        (IsMadeReport (λ _ text. text ≡ map_of_games read.now.cave part (games_of seed moves)))
        result }
    ensures all { IfOk result (λ _. (I.held inputs.new).logs ≡ []) }
    ensures leads { Leads I.Reads inputs.old inputs.new }
{
    check_place(&read.cave, part.around)?;
    report_in_cave::<StopNotes, I>(alloc, read, inputs, logs, seed, &part)
}

/// Plays this many logs, each by itself from its first line, and makes the map of a part of the cave
/// with what their plays saw of it. Without logs it is just the map.
pub fn make_map<I: Sources>(
    alloc: Global,
    inputs: &mut I,
    logs: usize,
    seed: u32,
    part: MapPart,
) -> Result<Reported<()>, LogsFault>
    requires { logs ≡ length (I.held inputs.old).logs }
    ensures judged { (database : List ℕ) × (bindings : List ℕ) × (moves : List (List ℕ))
        × Says (I.held inputs.old).cave database × Says (I.held inputs.old).bindings bindings
        × AllZip Says (I.held inputs.old).logs moves
        × JudgesMap database bindings moves seed part result }
    ensures all { IfOk result (λ _. (I.held inputs.new).logs ≡ []) }
    ensures leads { Leads I.Reads inputs.old inputs.new }
{
    let read = read_for_logs(alloc, inputs, seed)?;
    let made = map_games_in_cave(alloc, &read, inputs, logs, seed, part);
    // By a call, as in other runs, so the checker goes through the tables of a cave in one place.
    drop(read);
    made
}

/// Plays logs, each by itself from its first line, and writes the map of a part of the cave with
/// what their plays saw of it. Without logs it is just the map.
pub fn run_map<C: Read, B: Read, L: Read, W: Write>(
    alloc: Global,
    cave: &mut CaveReaders<C, B>,
    logs: &mut [L],
    seed: u32,
    part: MapPart,
    output: &mut W,
) -> Result<(), LogsFault>
    ensures runs { (database : List ℕ) × (bindings : List ℕ) × (moves : List (List ℕ))
        × Says (C.remaining cave.old.database) database
        × Says (B.remaining cave.old.bindings) bindings
        × AllZip Says (map L.remaining logs.old) moves
        × RunsMap database bindings moves seed part
        (W.contents output.old) (W.contents output.new) result }
{
    let count = logs.len();
    let mut nothing: &[u8] = &[];
    let mut readers = Readers::of(cave, logs, &mut nothing);
    let made = make_map(alloc, &mut readers, count, seed, part);
    write_report(made, output)
}
