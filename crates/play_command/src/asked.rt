//! What each command asks, by what the parser found.

ghost use Rattle.std.specs.Prelude.{◌≡◌, map};
ghost use Rattle.play_command.specs.Asked.{around_of, check_of, cover_of, edit_of};
ghost use Rattle.play_command.specs.Asked.{edits_from_of, judges_left, part_of, report_of, view_of};
ghost use Rattle.play_command.specs.Asked.{what_of, rows_in, with_text};

use crate::commands::CommandName;
use crate::fault::Misuse;
use crate::found::{
    NumberOption, is_given, is_set, number_in, number_said, output_in, value_in, values_in,
};
use crate::line::{EditAsked, Editing, EditsFrom, MapPart, Surroundings, What};
use crate::views::{
    CHECK_VIEWS, COVER_VIEWS, CoverView, EDIT_VIEWS, EditView, PLAY_VIEWS, REPORT_VIEWS,
    ReportView, TextView, named,
};
use base_lines::limits::USUAL_EVERY;
use clap::ArgMatches;
use replay_difference::script::ScriptForm;

/// The seed if none is given.
const USUAL_SEED: u32 = 0;

/// The most ways from a place, if none are asked for.
const USUAL_WAYS: u32 = 2;

/// The view that was found, or the usual one.
fn view_in<V: Copy>(found: &ArgMatches<'_>, views: &[(&str, V)], usual: V) -> Result<V, Misuse>
    ensures { result ≡ view_of (map with_text views.now) usual (rows_in found.now) }
{
    match value_in(found, "print") {
        None => Ok(usual),
        Some(name) => named(views, name).ok_or(Misuse::Incomplete),
    }
}

/// Whether what is doubtful, or never shown, is to be judged or left out.
fn judges_left(found: &ArgMatches<'_>) -> bool
    ensures { result ≡ judges_left (rows_in found.now) }
{
    is_set(found, "strict") || is_given(found, "known")
}

fn check_in(found: &ArgMatches<'_>) -> Result<What, Misuse>
    ensures { result ≡ check_of (rows_in found.now) }
{
    let is_judged = judges_left(found);
    let usual = if is_judged { None } else { CHECK_VIEWS[0].1 };
    match view_in(found, CHECK_VIEWS, usual)? {
        None => Ok(What::Doubts {
            strict: is_set(found, "strict"),
        }),
        Some(_) if is_judged => Err(Misuse::DoubtsAlone),
        Some(view) => Ok(What::Check(view)),
    }
}

/// What the edits of a log are read from: one of the three.
fn edits_from_in(found: &ArgMatches<'_>) -> Result<EditsFrom, Misuse>
    ensures { result ≡ edits_from_of (rows_in found.now) }
{
    let lines = values_in(found, "edit").is_some();
    match (is_given(found, "script"), lines, is_given(found, "to")) {
        (true, false, false) | (false, true, false) => Ok(EditsFrom::Script),
        (false, false, true) => Ok(EditsFrom::NewLog),
        (false, false, false) => Err(Misuse::NoScript),
        _ => Err(Misuse::TwoScripts),
    }
}

/// The report that the parser found, if it found one. It goes to standard output, so the output has
/// to go into a file.
fn report_in(found: &ArgMatches<'_>) -> Result<Option<ReportView>, Misuse>
    ensures { result ≡ report_of (rows_in found.now) }
{
    let Some(name) = value_in(found, "report") else {
        return Ok(None);
    };
    if output_in(found).is_none() {
        return Err(Misuse::ReportAlone);
    }
    Ok(Some(named(&REPORT_VIEWS, name).ok_or(Misuse::Incomplete)?))
}

/// What an edit asks. In place it has its own file and its own view, the log, so it is given
/// neither.
#[tactic(auto, unfolding(crate::specs::Asked::edit_of))]
fn edit_in(found: &ArgMatches<'_>) -> Result<EditAsked, Misuse>
    ensures { result ≡ edit_of (rows_in found.now) }
{
    let in_place = is_set(found, "in-place");
    if in_place && (is_given(found, "output") || is_given(found, "print")) {
        return Err(Misuse::TwoOutputs);
    }
    let editing = Editing {
        seed: number_in(found, NumberOption::Seed, USUAL_SEED)?,
        every: number_in(found, NumberOption::Every, USUAL_EVERY)?,
        view: if in_place {
            EditView::Log
        } else {
            view_in(found, EDIT_VIEWS, EDIT_VIEWS[0].1)?
        },
        strict: is_set(found, "strict"),
        guarded: is_set(found, "guarded"),
    };
    let edits_from = edits_from_in(found)?;
    let report = report_in(found)?;
    let has_reports = matches!(
        (editing.view, report),
        (_, Some(ReportView::Reports)) | (EditView::Transcript | EditView::Reports, _)
    );
    Ok(EditAsked {
        edits_from,
        editing,
        report,
        refusals: !is_set(found, "quiet") && !has_reports,
    })
}

/// The places that a map draws, if it doesn't draw all.
#[tactic(auto, unfolding(crate::specs::Asked::around_of))]
fn around_in(found: &ArgMatches<'_>) -> Result<Option<Surroundings>, Misuse>
    ensures { result ≡ around_of (rows_in found.now) }
{
    let Some(text) = value_in(found, "from") else {
        if is_given(found, "within") {
            return Err(Misuse::WithinAlone);
        }
        return Ok(None);
    };
    let place = number_said(NumberOption::From, text)?;
    let ways = number_in(found, NumberOption::Within, USUAL_WAYS)?;
    Ok(Some(Surroundings {
        place: place as u16,
        ways: ways as u16,
    }))
}

/// The part of a cave that a map draws.
#[tactic(auto, unfolding(crate::specs::Asked::part_of))]
fn part_in(found: &ArgMatches<'_>) -> Result<MapPart, Misuse>
    ensures { result ≡ part_of (rows_in found.now) }
{
    let seen = is_set(found, "seen");
    let is_logless = values_in(found, "log").is_none();
    if is_logless && seen {
        return Err(Misuse::SeenAlone);
    }
    if is_logless && is_given(found, "seed") {
        return Err(Misuse::SeedAlone);
    }
    let around = around_in(found)?;
    Ok(MapPart { seen, around })
}

fn cover_in(found: &ArgMatches<'_>) -> Result<What, Misuse>
    ensures { result ≡ cover_of (rows_in found.now) }
{
    let is_judged = judges_left(found);
    let usual = if is_judged {
        CoverView::Said(TextView::Texts)
    } else {
        COVER_VIEWS[0].1
    };
    let seed = number_in(found, NumberOption::Seed, USUAL_SEED)?;
    let view = view_in(found, COVER_VIEWS, usual)?;
    if is_judged && matches!(view, CoverView::Known) {
        return Err(Misuse::ListAlone);
    }
    let strict = is_set(found, "strict");
    Ok(What::Cover { seed, view, strict })
}

/// What a command asks.
pub(crate) fn what_in(command: CommandName, found: &ArgMatches<'_>) -> Result<What, Misuse>
    ensures { result ≡ what_of command (rows_in found.now) }
{
    match command {
        CommandName::Check => check_in(found),
        CommandName::Play => Ok(What::Play {
            seed: number_in(found, NumberOption::Seed, USUAL_SEED)?,
            view: view_in(found, PLAY_VIEWS, PLAY_VIEWS[0].1)?,
        }),
        CommandName::Edit => Ok(What::Edit(edit_in(found)?)),
        CommandName::Script => Ok(What::Script(ScriptForm {
            guarded: is_set(found, "guarded"),
            grouped: is_set(found, "group"),
        })),
        CommandName::Cover => cover_in(found),
        CommandName::Map => Ok(What::Map {
            seed: number_in(found, NumberOption::Seed, USUAL_SEED)?,
            part: part_in(found)?,
        }),
    }
}
