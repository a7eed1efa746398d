//! What the run that reports which texts logs show makes of its inputs, and the run.

ghost use Rattle.std.specs.Prelude.{◌≡◌, ℕ, List, [], ◌∷◌, IfOk, length, map};
ghost use Rattle.std.specs.List.{AllZip};
ghost use Rattle.check_tables.specs.Known.{known_entries};
ghost use Rattle.play_cover.specs.Plays.{IsCovered, cover_stages};
ghost use Rattle.cave_play.specs.Sources.{Says, IsTaken, Leads};
ghost use Rattle.cave_play.specs.Logs.{IsMadeReport, JudgesLogs, RunsLogs};
ghost use Rattle.cave_play.specs.Stages.{Judges, known_stage};

use crate::rule_notes::RuleNotes;
use crate::said::SaidTexts;
use crate::text_report::TextsAsked;
use crate::unshown::ShownThings;
use cave_play::inputs::{Readers, Sources};
use cave_play::logs::make_report;
use cave_play::output::{Reported, write_report};
use cave_play::{CaveReaders, LogsFault, PlayFault};
use check_tables::known::KnownList;
use play_command::{CoverView, Input};
use std::alloc::Global;
use std::io::{Read, Write};

/// What is asked of the coverage of logs.
#[derive(Clone, Copy)]
pub struct CoverAsked<'a> {
    pub seed: u32,
    pub view: CoverView,
    /// The name of the file of the list of what is known; empty if there is none.
    pub known: &'a str,
}

/// Reads the list of what is known, which is in a file.
fn read_known<I: Sources>(alloc: Global, file: &str, inputs: &mut I) -> Result<KnownList, PlayFault>
    ensures judged { (list : List ℕ) × Says (I.held inputs.old).known list
        × Judges (known_stage list ∷ []) (λ known. known ≡ known_entries file.now list) result }
    ensures taken { IsTaken Input.Known (I.held inputs.old) (I.held inputs.new) }
    ensures leads { Leads I.Reads inputs.old inputs.new }
{
    let list = inputs.read(alloc, Input::Known)?;
    let known = KnownList::of(alloc, file, list)?;
    Ok(known)
}

/// Plays this many logs, each by itself from its first line, and makes the report on how many of the
/// cave's texts they say, and which ones they never say, or the same about the rows of the rules.
/// What a list knows is left out. With the report is found how much is left.
pub fn make_cover<I: Sources>(
    alloc: Global,
    inputs: &mut I,
    logs: usize,
    asked: &CoverAsked<'_>,
) -> Result<Reported<usize>, LogsFault>
    requires { logs ≡ length (I.held inputs.old).logs }
    ensures judged { (database : List ℕ) × (bindings : List ℕ) × (list : List ℕ)
        × (moves : List (List ℕ))
        × Says (I.held inputs.old).cave database × Says (I.held inputs.old).bindings bindings
        × Says (I.held inputs.old).known list × AllZip Says (I.held inputs.old).logs moves
        × JudgesLogs (cover_stages database bindings list asked.now.seed) moves
        (IsMadeReport (IsCovered database bindings (known_entries asked.now.known.now list) moves
        asked.now.seed asked.now.view)) result }
    ensures all { IfOk result (λ _. (I.held inputs.new).logs ≡ []) }
    ensures leads { Leads I.Reads inputs.old inputs.new }
{
    let known = read_known(alloc, asked.known, inputs)?;
    match asked.view {
        CoverView::Said(view) => {
            let texts = TextsAsked { view, known };
            make_report::<SaidTexts, I>(alloc, inputs, logs, asked.seed, &texts)
        }
        CoverView::Rules => make_report::<RuleNotes, I>(alloc, inputs, logs, asked.seed, &known),
        CoverView::Known => make_report::<ShownThings, I>(alloc, inputs, logs, asked.seed, &known),
    }
}

/// Plays logs, each by itself from its first line, and writes how many of the cave's texts they
/// say, and which ones they never say, or the same about the rows of the rules. What a list knows
/// is left out. Returns how much is left.
pub fn run_cover<C: Read, B: Read, K: Read, L: Read, W: Write>(
    alloc: Global,
    cave: &mut CaveReaders<C, B>,
    known: &mut K,
    logs: &mut [L],
    asked: &CoverAsked<'_>,
    output: &mut W,
) -> Result<usize, LogsFault>
    ensures runs { (database : List ℕ) × (bindings : List ℕ) × (list : List ℕ)
        × (moves : List (List ℕ))
        × Says (C.remaining cave.old.database) database
        × Says (B.remaining cave.old.bindings) bindings
        × Says (K.remaining known.old) list
        × AllZip Says (map L.remaining logs.old) moves
        × RunsLogs (cover_stages database bindings list asked.now.seed) moves
        (IsCovered database bindings (known_entries asked.now.known.now list) moves
        asked.now.seed asked.now.view)
        (W.contents output.old) (W.contents output.new) result }
{
    let count = logs.len();
    let mut readers = Readers::of(cave, logs, known);
    let made = make_cover(alloc, &mut readers, count, asked);
    write_report(made, output)
}
