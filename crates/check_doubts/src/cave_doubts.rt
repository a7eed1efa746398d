//! All that is doubtful about a cave.

ghost use Rattle.std.specs.Prelude.{◌≡◌, ◌++◌, IfOk, OnOk, []};
ghost use Rattle.std.specs.List.{flat_map};
ghost use Rattle.std.specs.Str.Lines.{lines};
ghost use Rattle.turn_scene.specs.Scene.{cave_of};
ghost use Rattle.check_doubts.specs.Doubts.{doubt_of, doubts, doubts_from, doubts_of_binding};
ghost use Rattle.check_doubts.specs.Doubts.{doubts_of_lines, doubts_of_needs, doubts_of_passage};
ghost use Rattle.check_doubts.specs.Doubts.{doubts_of_row};
ghost use Rattle.check_doubts.specs.Ways.{way_of_row};
ghost use Rattle.check_doubts.specs.Needs.{need_flaw};

use crate::bound::{BoundRow, bound_flaw, bound_rows};
use crate::flaw::{CaveFlaw, Doubt, Source};
use crate::needs::{Need, each_need, need_flaw, passage_flaw, voice_flaw};
use crate::row_flaws::{first_flaw, second_flaw};
use crate::ways::way_of_row;
use crate::written::{position_after_line, written_flaw_at};
use base_lines::split_line;
use cave_data::Cave;
use cave_words::Lexicon;
use data_lines::mark::any_name;
use data_lines::{MarkedRow, RowMark, marked_rows};
use data_rows::{PlaceRole, Position};
use std::alloc::{AllocError, Global};
use turn_scene::Rules;

/// Adds a doubt, if there is one.
fn push_doubt(
    source: Source,
    line: usize,
    found: Option<CaveFlaw>,
    doubts: &mut Vec<Doubt>,
) -> Result<(), AllocError>
    ensures { OnOk result (doubts.new.items ≡ doubts.old.items ++ doubt_of source line found) }
{
    match found {
        Some(flaw) => {
            doubts.push(Doubt { source, line, flaw })?;
            Ok(())
        }
        None => Ok(()),
    }
}

/// Adds what an object lacks of what rules ask.
fn push_object_doubts(
    rules: &Rules<'_>,
    line: usize,
    object: u16,
    needs: &[Need],
    doubts: &mut Vec<Doubt>,
) -> Result<(), AllocError>
    ensures { let cave = cave_of rules.now in
        OnOk result (doubts.new.items ≡ doubts.old.items
        ++ flat_map (λ need. doubt_of Source.Database line (need_flaw cave object need))
        needs.now) }
{
    for need in needs {
        let found = need_flaw(rules.cave, rules.lexicon, object, *need);
        push_doubt(Source::Database, line, found, doubts)?;
    }
    Ok(())
}

/// Adds which ends the narrow passage lacks, if the way of a row may lead there.
fn push_passage_doubts(
    cave: &Cave,
    place: u16,
    before: &[MarkedRow],
    line: usize,
    doubts: &mut Vec<Doubt>,
) -> Result<(), AllocError>
    ensures { OnOk result (doubts.new.items ≡ doubts.old.items
        ++ doubts_of_passage cave.now line (way_of_row cave.now place before.now)) }
{
    let way = way_of_row(cave, place, before);
    let (first, last) = (PlaceRole::Alcove, PlaceRole::Plover);
    push_doubt(
        Source::Database,
        line,
        passage_flaw(cave, first, way),
        doubts,
    )?;
    push_doubt(
        Source::Database,
        line,
        passage_flaw(cave, last, way),
        doubts,
    )
}

/// Adds what an object lacks, at the first line of its inventory text, or the passage of a way.
fn push_needs_doubts(
    rules: &Rules<'_>,
    before: &[MarkedRow],
    row: &MarkedRow,
    doubts: &mut Vec<Doubt>,
) -> Result<(), AllocError>
    ensures { OnOk result (doubts.new.items ≡ doubts.old.items
        ++ doubts_of_needs (cave_of rules.now) before.now row.now.line row.now.mark) }
{
    match row.mark {
        RowMark::Name(object) if !any_name(before, object) => {
            push_object_doubts(rules, row.line, object, each_need(), doubts)
        }
        RowMark::Way(place) => push_passage_doubts(rules.cave, place, before, row.line, doubts),
        _ => Ok(()),
    }
}

/// Adds what is doubtful about a row, after the rows before it.
fn push_row_doubts(
    rules: &Rules<'_>,
    before: &[MarkedRow],
    row: &MarkedRow,
    doubts: &mut Vec<Doubt>,
) -> Result<(), AllocError>
    ensures { OnOk result (doubts.new.items
        ≡ doubts.old.items ++ doubts_of_row (cave_of rules.now) before.now row.now) }
{
    push_doubt(
        Source::Database,
        row.line,
        first_flaw(rules, before, row.mark),
        doubts,
    )?;
    push_doubt(
        Source::Database,
        row.line,
        second_flaw(rules, before, row.mark),
        doubts,
    )?;
    push_needs_doubts(rules, before, row, doubts)
}

/// Adds what is doubtful about the first rows of a database.
#[tactic(auto, using(crate::proofs::Steps::doubts_more))]
fn push_rows_doubts(
    rules: &Rules<'_>,
    rows: &[MarkedRow],
    doubts: &mut Vec<Doubt>,
) -> Result<(), AllocError>
    ensures { OnOk result (doubts.new.items
        ≡ doubts.old.items ++ doubts_from (cave_of rules.now) [] rows.now) }
{
    for index in 0..rows.len() {
        push_row_doubts(rules, &rows[..index], &rows[index], doubts)?;
    }
    Ok(())
}

/// Adds what is doubtful about how the lines of a database are written.
fn push_lines_doubts(
    cave: &Cave,
    database: &[u8],
    doubts: &mut Vec<Doubt>,
) -> Result<(), AllocError>
    ensures { OnOk result (doubts.new.items ≡ doubts.old.items
        ++ doubts_of_lines cave.now 1 Position.Outside (lines database.now)) }
{
    let mut position = Position::Outside;
    let mut rest = database;
    let mut number = 0usize;
    while let Some((line, after)) = split_line(rest) {
        number += 1;
        if let Some(flaw) = written_flaw_at(cave, position, line) {
            doubts.push(Doubt {
                source: Source::Database,
                line: number,
                flaw,
            })?;
        }
        position = position_after_line(position, line);
        rest = after;
    }
    Ok(())
}

/// Adds what is doubtful about a binding.
fn push_binding_doubts(
    cave: &Cave,
    row: &BoundRow,
    doubts: &mut Vec<Doubt>,
) -> Result<(), AllocError>
    ensures { OnOk result
        (doubts.new.items ≡ doubts.old.items ++ doubts_of_binding cave.now row.now) }
{
    push_doubt(Source::Bindings, row.line, bound_flaw(cave, row), doubts)?;
    push_doubt(
        Source::Bindings,
        row.line,
        voice_flaw(cave, row.binding.key),
        doubts,
    )
}

/// Adds what is doubtful about these bindings.
fn push_bindings_doubts(
    cave: &Cave,
    rows: &[BoundRow],
    doubts: &mut Vec<Doubt>,
) -> Result<(), AllocError>
    ensures { OnOk result (doubts.new.items
        ≡ doubts.old.items ++ flat_map (doubts_of_binding cave.now) rows.now) }
{
    for row in rows {
        push_binding_doubts(cave, row, doubts)?;
    }
    Ok(())
}

/// What is doubtful about a cave that was read from a database and bindings, in their order.
#[tactic(auto, unfolding(crate::specs::Doubts::doubts))]
pub fn doubts(
    alloc: Global,
    cave: &Cave,
    database: &[u8],
    bindings: &[u8],
) -> Result<Vec<Doubt>, AllocError>
    ensures { IfOk result
        (λ found. found.items ≡ doubts cave.now database.now bindings.now) }
{
    let mut found = Vec::new(alloc);
    let lexicon = Lexicon::build(alloc, cave)?;
    let rules = Rules::of(cave, &lexicon);
    let rows = marked_rows(alloc, database)?;
    push_rows_doubts(&rules, &rows, &mut found)?;
    push_lines_doubts(cave, database, &mut found)?;
    let bound = bound_rows(alloc, bindings)?;
    push_bindings_doubts(cave, &bound, &mut found)?;
    Ok(found)
}
