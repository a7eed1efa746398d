//! What views ask for of a cave, and of a play in it.

ghost use Rattle.std.specs.Prelude.{◌≡◌, ℕ, List, [], ◌∷◌, None, IfOk, MatchResult};
ghost use Rattle.std.specs.Str.Lines.{lines};
ghost use Rattle.check_doubts.specs.Doubts.{doubts};
ghost use Rattle.replay_edits.specs.Edit.{game_of};
ghost use Rattle.cave_play.specs.Sources.{Says, next_log, Leads};
ghost use Rattle.cave_play.specs.Stages.{large_seed, Judges, log_stage};
ghost use Rattle.cave_play.specs.Output.{AreLeft, check_text, play_view_text};

use crate::fault::PlayFault;
use crate::inputs::Sources;
use crate::judge::{ReadCave, watch_play};
use crate::output::Reported;
use base_text::Text;
use cave_data::Cave;
use cave_words::Lexicon;
use check_doubts::{Doubt, DoubtEntries, DoubtFiles, doubts, put_doubts};
use check_tables::known::{KnownList, put_entries};
use check_tables::{push_bindings, push_names, push_unused, push_words};
use play_command::{CheckView, PlayView};
use play_machine::{
    CaveMachine, StepTable, Transcript, Unwatched, WalkLines, push_play_end, push_state_after,
};
use play_tables::push_score_table;
use std::alloc::{AllocError, Global};
use turn_ends::max_score;

pub(crate) fn check_text(
    alloc: Global,
    read: &ReadCave,
    view: CheckView,
) -> Result<Reported<()>, PlayFault>
    ensures told { MatchResult result (λ made. made.text.items
        ≡ check_text view read.now.cave read.now.database.items read.now.bindings.items)
        (λ fault. fault ≡ PlayFault.Memory) }
{
    let cave = &read.cave;
    let mut text = Vec::new(alloc);
    match view {
        CheckView::Maximum => {
            let line = format!(in alloc; "cave ok, maximum {}\n", max_score(cave))?;
            text.extend_from_slice(line.as_bytes())?;
        }
        CheckView::Bindings => push_bindings(alloc, cave, &mut text)?,
        CheckView::Names => push_names(alloc, cave, &mut text)?,
        CheckView::Unused => push_unused(alloc, cave, &mut text)?,
        CheckView::Words => push_words(alloc, cave, &mut text)?,
        CheckView::Known => {
            let found = doubts(alloc, cave, &read.database, &read.bindings)?;
            let mut known = Text::after(alloc, &mut text);
            put_entries(&mut known, &DoubtEntries, "", &found);
            known.give_to(&mut text)?;
        }
    }
    Ok(Reported { text, found: () })
}

/// The doubts of a cave that a list doesn't know, with what is said of them and of the list.
pub(crate) fn left_in(
    alloc: Global,
    read: &ReadCave,
    files: &DoubtFiles<'_>,
    list: Vec<u8>,
) -> Result<Reported<Vec<Doubt>>, AllocError>
    ensures left { let all = doubts read.now.cave read.now.database.items read.now.bindings.items in
        IfOk result (AreLeft files.now list.items all) }
{
    let all = doubts(alloc, &read.cave, &read.database, &read.bindings)?;
    let known = KnownList::of(alloc, files.known, list)?;
    let found = known.unknown(alloc, &DoubtEntries, &all)?;
    let mut entries = Text::new(alloc);
    put_entries(&mut entries, &DoubtEntries, "", &all);
    let entries = entries.finish()?;
    let mut text = Text::new(alloc);
    known.put_unmet(&mut text, "no doubt says this", &entries);
    put_doubts(&mut text, files, &found);
    let text = text.finish()?;
    Ok(Reported { text, found })
}

/// What a view asks for of the play of a log that is read.
pub(crate) fn play_view_text<I: Sources>(
    alloc: Global,
    cave: &Cave,
    inputs: &mut I,
    seed: u32,
    view: PlayView,
) -> Result<Reported<()>, PlayFault>
    requires { large_seed seed ≡ None }
    ensures judged { (moves : List ℕ) × Says (next_log (I.held inputs.old).logs) moves
        × Judges (log_stage moves ∷ [])
        (λ made. made.text.items ≡ play_view_text view cave.now (game_of seed (lines moves))) result }
    ensures leads { Leads I.Reads inputs.old inputs.new }
{
    let lexicon = Lexicon::build(alloc, cave)?;
    let machine = CaveMachine::new(cave, &lexicon);
    let mut text = Vec::new(alloc);
    match view {
        PlayView::Transcript => {
            let mut transcript = Transcript { text };
            let end = watch_play(alloc, machine, inputs, seed, &mut transcript)?;
            push_play_end(alloc, machine, &end.state, end.turns, &mut transcript.text)?;
            let text = transcript.text;
            Ok(Reported { text, found: () })
        }
        PlayView::Steps => {
            let mut table = StepTable { text };
            watch_play(alloc, machine, inputs, seed, &mut table)?;
            let text = table.text;
            Ok(Reported { text, found: () })
        }
        PlayView::Walk => {
            let mut walk = WalkLines::after(alloc, text);
            watch_play(alloc, machine, inputs, seed, &mut walk)?;
            let text = walk.text;
            Ok(Reported { text, found: () })
        }
        PlayView::Score => {
            let end = watch_play(alloc, machine, inputs, seed, &mut Unwatched)?;
            push_score_table(alloc, &mut text, &machine.rules(), &end.state)?;
            Ok(Reported { text, found: () })
        }
        PlayView::FinalState => {
            let end = watch_play(alloc, machine, inputs, seed, &mut Unwatched)?;
            push_state_after(alloc, machine, &end.state, end.turns, &mut text)?;
            Ok(Reported { text, found: () })
        }
    }
}
