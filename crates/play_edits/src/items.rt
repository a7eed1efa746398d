//! Applying the items of a script to a session, while they are watched.

ghost use Rattle.std.specs.Prelude.{◌≡◌, ◌<◌, ◌^◌, ◌++◌, IfOk, MatchResult, None, OnOk, Some};
ghost use Rattle.std.specs.Prelude.{length, map, option_map};
ghost use Rattle.play_command.specs.Asked.{edit_view_of};
ghost use Rattle.replay_scripts.specs.Views.{applied_item};
ghost use Rattle.play_edits.specs.Edits.{Applies, IsMade, ending_refusal, if_strict};
ghost use Rattle.play_edits.specs.Items.{refusal_list};
ghost use Rattle.play_edits.specs.Ends.{shown_ends};
ghost use Rattle.play_edits.specs.Outcome.{refusal_in};

use crate::ends::LogEnds;
use crate::guards::unmet_guard;
use crate::item_watch::ItemWatch;
use crate::outcome::Totals;
use crate::refusal::{Refusal, edit_refusal};
use base_lines::Meter;
use cave_replay::{GroupReport, Session};
use play_command::{EditView, Editing, ReportView};
use play_machine::CaveMachine;
use replay_edits::EditFault;
use replay_scripts::Item;
use std::alloc::{AllocError, Global};

/// What a run of edits returns beside its output: how many lines were played for the items, why
/// those of them were refused that were, in their order, the report that was asked for, and the
/// seed of the game that is left.
#[derive(Debug, Drop)]
pub struct EditRun {
    pub played: u64,
    pub refused: Vec<Refusal>,
    pub report: Vec<u8>,
    pub seed: u32,
}

/// What a run of edits makes: its output, and what is returned beside that.
#[derive(Drop)]
pub struct MadeEdit {
    pub run: EditRun,
    pub text: Vec<u8>,
}

/// Applies the items of a script to the held game, each to what those before it left, and returns
/// what they made of a log whose lines end like this. If `editing` is strict, they end with the
/// first one that is refused, and this returns why.
pub fn apply_items(
    alloc: Global,
    session: &mut Session<CaveMachine<'_>>,
    items: &[Item],
    editing: Editing,
    report: Option<ReportView>,
    ends: LogEnds,
) -> Result<Result<MadeEdit, Refusal>, AllocError>
    requires { length items.now < 2 ^ 32 }
    ensures made { IfOk result (λ outcome. IfOk outcome (IsMade editing report
        (map applied_item items.now) session.old (shown_ends ends))) }
    ensures refused { let refused = ending_refusal editing.strict (map applied_item items.now)
        session.old.game in
        IfOk result (λ outcome. MatchResult outcome (λ _. refused ≡ None)
        (λ refusal. refused ≡ Some refusal)) }
{
    let Editing { view, guarded, .. } = editing;
    let mut view_watch = ItemWatch::start(alloc, Some(view), guarded, ends)?;
    let no_ends = LogEnds::of(alloc, b"", b"")?;
    let mut report_watch = ItemWatch::start(alloc, edit_view_of(report), guarded, no_ends)?;
    let mut totals = Totals {
        played: 0,
        lines: 0,
    };
    let mut refused = Vec::new(alloc);
    for item in items {
        view_watch.before(alloc, session, item)?;
        report_watch.before(alloc, session, item)?;
        let outcome = apply_item(alloc, session, item)?;
        if let Some(refusal) = if_strict(editing.strict, &outcome) {
            return Ok(Err(refusal));
        }
        view_watch.after(alloc, session, item, &outcome)?;
        report_watch.after(alloc, session, item, &outcome)?;
        totals = totals.with(&outcome);
        note_refusal(&mut refused, &outcome)?;
    }
    let text = view_watch.end(alloc, session, totals)?;
    let report = report_watch.end(alloc, session, totals)?;
    let run = EditRun {
        played: totals.played,
        refused,
        report,
        seed: session.seed(),
    };
    Ok(Ok(MadeEdit { run, text }))
}

/// The view that prints a report alone, if one is asked for.
fn edit_view_of(report: Option<ReportView>) -> Option<EditView>
    ensures { result ≡ option_map edit_view_of report }
{
    match report {
        Some(view) => Some(view.edit_view()),
        None => None,
    }
}

/// Applies an item to the held game, all of it or nothing, and returns what it did, or why it is
/// refused.
fn apply_item(
    alloc: Global,
    session: &mut Session<CaveMachine<'_>>,
    item: &Item,
) -> Result<Result<GroupReport, Refusal>, AllocError>
    ensures { IfOk result (Applies (applied_item item.now) session.old session.new) }
{
    if let Some(refusal) = unmet_guard(alloc, session, item)? {
        return Ok(Err(refusal));
    }
    let mut meter = Meter::new();
    let fault = match session.edit_group(&item.edits, &mut meter) {
        Ok(done) => return Ok(Ok(done)),
        Err(fault) => fault,
    };
    match fault.cause {
        EditFault::Memory => Err(AllocError),
        _ => Ok(Err(edit_refusal(item, fault))),
    }
}

/// The refusal of an item with which a strict run ends, if it ends with it.
fn if_strict(strict: bool, outcome: &Result<GroupReport, Refusal>) -> Option<Refusal>
    ensures { result ≡ if_strict strict (refusal_in outcome.now) }
{
    match outcome {
        Err(refusal) if strict => Some(*refusal),
        _ => None,
    }
}

/// Notes why an item was refused, if it was.
fn note_refusal(
    refused: &mut Vec<Refusal>,
    outcome: &Result<GroupReport, Refusal>,
) -> Result<(), AllocError>
    ensures { OnOk result (refused.new.items
        ≡ refused.old.items ++ refusal_list (refusal_in outcome.now)) }
{
    match outcome {
        Ok(_) => Ok(()),
        Err(refusal) => {
            refused.push(*refusal)?;
            Ok(())
        }
    }
}
