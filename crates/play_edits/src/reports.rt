//! What is written of the items of a script, in words and as the rows of a table.

ghost use Rattle.std.specs.Prelude.{◌≡◌};
ghost use Rattle.base_text.specs.Text.{Tells};
ghost use Rattle.replay_scripts.specs.Views.{applied_item};
ghost use Rattle.play_edits.specs.Accounts.{account_by, ending_text, expected_text, expected_words};
ghost use Rattle.play_edits.specs.Accounts.{last_state, refusal_said, refusal_text, replay_text};
ghost use Rattle.play_edits.specs.Accounts.{row_by, standing_text, totals_line};
ghost use Rattle.play_edits.specs.Items.{item_report_by};
ghost use Rattle.play_edits.specs.Outcome.{refusal_in, standing_of};

use crate::outcome::{Standing, Totals, standing_of};
use crate::refusal::{EditWords, ExpectedLine, LineCopy, Refusal};
use base_text::Text;
use cave_replay::{GroupReport, Session};
use cave_world::{Ending, State};
use play_machine::CaveMachine;
use play_state_text::words::ending_word;
use play_tables::{
    put_item_columns, put_met_column, put_refused_row, put_replay_columns, put_state_columns,
};
use replay_scripts::Item;

/// Writes how many lines were played for all items.
pub(crate) fn put_totals(text: &mut Text, totals: Totals)
    ensures { Tells (totals_line totals.played totals.lines) text.old text.new }
{
    let Totals { played, lines } = totals;
    write!(text, "replayed {played} lines instead of {lines}\n");
}

/// Reports on an item: that it was accepted, or why it was refused.
pub(crate) fn put_report(text: &mut Text, item: &Item, outcome: &Result<GroupReport, Refusal>)
    ensures { Tells (item_report_by (applied_item item.now) (refusal_in outcome.now)) text.old
        text.new }
{
    match outcome {
        Ok(_) => {
            let line = item.line;
            write!(text, "line {line}: ok\n");
        }
        Err(refusal) => {
            let (line, number) = (refusal.line(), refusal.number());
            write!(text, "line {line}: refused {number}\n");
        }
    }
}

/// Writes how a game has ended, if it has.
fn put_ending(text: &mut Text, ending: Option<Ending>)
    ensures { Tells (ending_text ending) text.old text.new }
{
    if let Some(ending) = ending {
        let word = ending_word(ending);
        write!(text, ", ended: {word}");
    }
}

/// Writes where a game is after its last line.
fn put_standing(text: &mut Text, standing: Standing)
    ensures { Tells (standing_text standing) text.old text.new }
{
    let Standing {
        score,
        most,
        turns,
        place,
        ending,
    } = standing;
    write!(text, ", score {score} of {most}, turns {turns}, at {place}");
    put_ending(text, ending);
}

/// Writes what an item replayed and where the game then is, or why it was refused.
pub(crate) fn put_account(
    text: &mut Text,
    session: &Session<CaveMachine<'_>>,
    item: &Item,
    outcome: &Result<GroupReport, Refusal>,
)
    ensures { let standing = standing_of session.now.machine.rules.cave.now session.now.game in
        Tells (account_by (applied_item item.now) outcome.now standing) text.old text.new }
{
    match outcome {
        Ok(done) => {
            put_replay(text, item, done);
            put_standing(text, standing_of(session));
            text.put(b"\n");
        }
        Err(refusal) => put_refusal(text, refusal),
    }
}

/// Writes what an item replayed.
fn put_replay(text: &mut Text, item: &Item, done: &GroupReport)
    ensures { Tells (replay_text (applied_item item.now) done.now) text.old text.new }
{
    let (line, from, played, lines) = (item.line, done.from, done.played, done.lines);
    write!(text, "line {line}: ok, from {from}, met ");
    put_met_column(text, done.met);
    write!(text, ", played {played} of {lines}");
}

/// Writes which line a guard expects.
fn put_expected_words(text: &mut Text, line: &LineCopy)
    ensures { Tells (expected_words line.now) text.old text.new }
{
    text.put(b"; expected ");
    text.put(line.as_slice());
}

/// Writes which line a guard expects, and where the log has it.
fn put_expected(text: &mut Text, expected: &ExpectedLine)
    ensures { Tells (expected_text expected.now) text.old text.new }
{
    match expected {
        ExpectedLine::Impossible => text.put(b"; expected a line that no log may have"),
        ExpectedLine::Nowhere(line) => {
            put_expected_words(text, line);
            text.put(b", which is nowhere");
        }
        ExpectedLine::At(line, place) => {
            put_expected_words(text, line);
            write!(text, ", which is at {place}");
        }
    }
}

/// Writes what is said of a refusal after its number.
fn put_said(text: &mut Text, refusal: &Refusal)
    ensures { Tells (refusal_said refusal.now) text.old text.new }
{
    match refusal {
        Refusal::Edit(_, fault) => {
            let words = EditWords { fault: *fault };
            write!(text, "{words}");
        }
        Refusal::NoLine(_, lines, expected) => {
            write!(text, "no line: the log has {lines}");
            put_expected(text, expected);
        }
        Refusal::OtherLine(_, line, expected) => {
            text.put(b"another line: ");
            text.put(line.as_slice());
            put_expected(text, expected);
        }
    }
}

/// Writes why an item was refused.
fn put_refusal(text: &mut Text, refusal: &Refusal)
    ensures { Tells (refusal_text refusal.now) text.old text.new }
{
    let (line, number) = (refusal.line(), refusal.number());
    write!(text, "line {line}: refused {number}, ");
    put_said(text, refusal);
    text.put(b"\n");
}

/// The state after the last line of the held game.
pub(crate) fn last_state<'a>(session: &'a Session<CaveMachine<'_>>) -> &'a State
    ensures { result.now ≡ last_state session.now.machine.rules.cave.now session.now.game }
{
    session.state()
}

/// Writes the row of an item that was applied, with the state before it.
#[tactic(auto, unfolding(play_tables::specs::ItemRow::accepted_row))]
pub(crate) fn put_row(
    text: &mut Text,
    session: &Session<CaveMachine<'_>>,
    item: &Item,
    outcome: &Result<GroupReport, Refusal>,
    before: &State,
)
    ensures { let cave = session.now.machine.rules.cave.now in
        Tells (row_by (applied_item item.now) outcome.now before.now
        (standing_of cave session.now.game) (last_state cave session.now.game)) text.old text.new }
{
    match outcome {
        Ok(done) => {
            let Standing { score, turns, .. } = standing_of(session);
            put_item_columns(text, item.line, &item.edits, &done.inverse);
            put_replay_columns(text, done.from, done.met, done.played);
            put_state_columns(text, score, turns, before, last_state(session));
        }
        Err(refusal) => put_refused_row(text, refusal.line(), &item.edits, refusal.number()),
    }
}
