//! The scripts of the accepted items of a script: what takes them back, and the items with guards.

ghost use Rattle.std.specs.Prelude.{◌≡◌, ◌++◌, IfOk, None, OnOk, map, option_map, take};
ghost use Rattle.base_text.specs.Text.{Tells};
ghost use Rattle.replay_edits.specs.Draft.{IsDraft, edits_in, log_before, made_in};
ghost use Rattle.replay_edits.specs.Edit.{change_of, changes_of, log_of};
ghost use Rattle.replay_edits.specs.Faults.{fault_of_all, log_after_all};
ghost use Rattle.replay_scripts.specs.ScriptText.{backs_in, groups_in};
ghost use Rattle.play_edits.specs.Undo.{back_by, backs_by, expected_at, expected_lines, expecting};
ghost use Rattle.play_edits.specs.Undo.{lines_in, without_guard};
ghost use Rattle.play_edits.specs.Undo.{guarded_group, text_if_done};

use crate::refusal::Refusal;
use base_text::Text;
use cave_replay::{GroupReport, Session};
use play_machine::CaveMachine;
use replay_checkpoints::Blocks;
use replay_edits::plan::plan_edits;
use replay_edits::{Draft, Edit, LineText};
use replay_scripts::{BackEdit, push_script};
use std::alloc::{AllocError, Global};

/// Keeps what takes an item back, if the item was accepted.
pub(crate) fn keep_back(
    alloc: Global,
    session: &Session<CaveMachine<'_>>,
    guarded: bool,
    outcome: &Result<GroupReport, Refusal>,
    backs: &mut Vec<Vec<BackEdit>>,
) -> Result<(), AllocError>
    requires { IfOk outcome.now (λ done.
        fault_of_all (changes_of done.inverse.items) session.now.game.log 0 ≡ None) }
    ensures { OnOk result (groups_in backs.new.items ≡ groups_in backs.old.items
        ++ back_by guarded outcome.now session.now.game.log) }
{
    match outcome {
        Ok(done) => {
            let back = backs_of(alloc, &done.inverse, session.log(), guarded)?;
            backs.push(back)?;
            Ok(())
        }
        Err(_) => Ok(()),
    }
}

/// The edits of a log, each with a guard of the line at its place if that is asked for.
fn backs_of(
    alloc: Global,
    edits: &[Edit],
    log: &Blocks<LineText>,
    guarded: bool,
) -> Result<Vec<BackEdit>, AllocError>
    requires { fault_of_all (changes_of edits.now) (log_of log.now.items) 0 ≡ None }
    ensures { IfOk result (λ backs. backs_in backs.items
        ≡ backs_by guarded (changes_of edits.now) (log_of log.now.items)) }
{
    let copies = copy_changes(alloc, edits)?;
    if guarded {
        let lines = expected_lines(alloc, edits, log)?;
        expecting(alloc, copies, lines)
    } else {
        without_guards(alloc, copies)
    }
}

fn without_guards(alloc: Global, edits: Vec<Edit>) -> Result<Vec<BackEdit>, AllocError>
    ensures { IfOk result (λ backs. backs_in backs.items
        ≡ map without_guard (changes_of edits.items)) }
{
    edits
        .into_iter()
        .map(|edit| BackEdit {
            edit,
            expected: None,
        })
        .collect(alloc)
}

/// Edits, each with the line expected at its place, if any is.
fn expecting(
    alloc: Global,
    edits: Vec<Edit>,
    lines: Vec<Option<LineText>>,
) -> Result<Vec<BackEdit>, AllocError>
    ensures { IfOk result (λ backs. backs_in backs.items
        ≡ expecting (changes_of edits.items) (lines_in lines.items)) }
{
    edits
        .into_iter()
        .zip(lines)
        .map(|(edit, expected)| BackEdit { edit, expected })
        .collect(alloc)
}

/// The line at the place of each edit, if there is one, in the log that the edits before it leave.
fn expected_lines(
    alloc: Global,
    edits: &[Edit],
    log: &Blocks<LineText>,
) -> Result<Vec<Option<LineText>>, AllocError>
    requires { fault_of_all (changes_of edits.now) (log_of log.now.items) 0 ≡ None }
    ensures { IfOk result (λ lines. lines_in lines.items
        ≡ expected_lines (changes_of edits.now) (log_of log.now.items)) }
{
    let mut lines = Vec::with_capacity(alloc, edits.len())?;
    let mut draft = Draft::new(alloc, edits, log)?;
    for edit in edits {
        lines.push(expected_line(alloc, edit, &draft)?)?;
        draft.make_next(alloc)?;
    }
    Ok(lines)
}

/// The line at the place of an edit, if there is one.
fn expected_line(
    alloc: Global,
    edit: &Edit,
    draft: &Draft<'_>,
) -> Result<Option<LineText>, AllocError>
    requires { IsDraft (edits_in draft.now) (log_before draft.now) (made_in draft.now) draft.now }
    ensures { let before = take (made_in draft.now) (changes_of (edits_in draft.now)) in
        let log = log_after_all before (log_of (log_before draft.now)) in
        IfOk result (λ line. option_map (λ line. line.items) line
        ≡ expected_at (change_of edit.now) log) }
{
    let place = match edit {
        Edit::Insert(place, _) | Edit::Replace(place, _) => *place,
        Edit::Delete(place) => *place,
        Edit::Reseed(_) => return Ok(None),
    };
    match draft.line(place as usize) {
        Some(line) => Ok(Some(LineText::from_slice(alloc, line)?)),
        None => Ok(None),
    }
}

fn copy_change(alloc: Global, edit: &Edit) -> Result<Edit, AllocError>
    ensures { IfOk result (λ copy. change_of copy ≡ change_of edit.now) }
{
    let copy = match edit {
        Edit::Insert(place, line) => Edit::Insert(*place, LineText::from_slice(alloc, line)?),
        Edit::Delete(place) => Edit::Delete(*place),
        Edit::Replace(place, line) => Edit::Replace(*place, LineText::from_slice(alloc, line)?),
        Edit::Reseed(seed) => Edit::Reseed(*seed),
    };
    Ok(copy)
}

fn copy_changes(alloc: Global, edits: &[Edit]) -> Result<Vec<Edit>, AllocError>
    ensures { IfOk result (λ copies. changes_of copies.items ≡ changes_of edits.now) }
{
    let mut copies = Vec::with_capacity(alloc, edits.len())?;
    for edit in edits {
        copies.push(copy_change(alloc, edit)?)?;
    }
    Ok(copies)
}

/// The text of edits that are made as a whole in a log, each with a guard of the line at its place,
/// or nothing if one of them is refused there.
pub(crate) fn guarded_group(
    alloc: Global,
    edits: &[Edit],
    log: &Blocks<LineText>,
) -> Result<Vec<u8>, AllocError>
    ensures { IfOk result (λ text. text.items
        ≡ guarded_group (changes_of edits.now) (log_of log.now.items)) }
{
    let mut text = Vec::new(alloc);
    if plan_edits(edits, log.len()).is_err() {
        return Ok(text);
    }
    let backs = backs_of(alloc, edits, log, true)?;
    let mut groups = Vec::with_capacity(alloc, 1)?;
    groups.push(backs)?;
    push_script(alloc, &mut text, &groups)?;
    Ok(text)
}

/// Writes the text of an item, unless the item was refused.
pub(crate) fn put_if_done(text: &mut Text, outcome: &Result<GroupReport, Refusal>, item: &[u8])
    ensures { Tells (text_if_done outcome.now item.now) text.old text.new }
{
    if outcome.is_ok() {
        text.put(item);
    }
}
