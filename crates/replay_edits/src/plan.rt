ghost use Rattle.std.specs.Prelude.{◌≡◌, ℕ, List, length};
ghost use Rattle.replay_edits.specs.Edit.{change_of, changes_of, margins_after};
ghost use Rattle.replay_edits.specs.Faults.{fault_of_all, group_fault, IsLinesOrFault};
ghost use Rattle.replay_edits.specs.Faults.{IsPlanOrFault};

use crate::edit::Edit;
use crate::fault::{EditFault, GroupFault};
use crate::margins::Margins;
use base_lines::check_line;
use base_lines::limits::{is_full_log, is_large_seed};

/// What edits do to a log: how many lines it then has, and what they leave alone.
#[derive(Clone, Copy)]
pub struct Plan {
    pub lines: usize,
    pub margins: Margins,
}

/// What a group of edits does to a log of `lines` lines, or the first fault of the group other than
/// running out of memory. The meter has `left` steps left.
pub fn plan_group(edits: &[Edit], lines: usize, left: u64) -> Result<Plan, GroupFault>
    ensures { let changes = changes_of edits.now in
        (log : List (List ℕ)) → length log ≡ lines
        → IsPlanOrFault changes log (group_fault changes log left) result }
{
    if edits.is_empty() {
        return Err(GroupFault {
            cause: EditFault::EmptyGroup,
            at: 0,
        });
    }
    let plan = plan_edits(edits, lines)?;
    if left < plan.lines as u64 {
        return Err(GroupFault {
            cause: EditFault::MeterFull,
            at: 0,
        });
    }
    Ok(plan)
}

/// What the edits do to a log of `lines` lines, or the first fault that one of them meets.
pub fn plan_edits(edits: &[Edit], lines: usize) -> Result<Plan, GroupFault>
    ensures { let changes = changes_of edits.now in
        (log : List (List ℕ)) → length log ≡ lines
        → IsPlanOrFault changes log (fault_of_all changes log 0) result }
{
    let mut after = lines;
    let mut margins = Margins {
        head: lines,
        tail: lines,
    };
    for (number, edit) in edits.iter().enumerate() {
        match lines_after(edit, after) {
            Ok(more) => {
                margins = narrow(edit, after, margins);
                after = more;
            }
            Err(cause) => {
                return Err(GroupFault { cause, at: number });
            }
        }
    }
    Ok(Plan {
        lines: after,
        margins,
    })
}

/// How many lines a log of `lines` lines has after the edit, or the first fault that the edit meets
/// there.
#[tactic(auto, unfolding(base_lines::specs::Line::line_fault))]
pub(crate) fn lines_after(edit: &Edit, lines: usize) -> Result<usize, EditFault>
    ensures { (log : List (List ℕ)) → length log ≡ lines
        → IsLinesOrFault (change_of edit.now) log result }
{
    match edit {
        Edit::Insert(place, line) => {
            if *place as usize > lines {
                return Err(EditFault::NoSuchPlace(lines));
            }
            check_line(line).map_err(EditFault::BadLine)?;
            if is_full_log(lines) {
                return Err(EditFault::LogFull);
            }
            Ok(lines + 1)
        }
        Edit::Delete(place) => {
            if *place as usize >= lines {
                return Err(EditFault::NoSuchPlace(lines));
            }
            Ok(lines - 1)
        }
        Edit::Replace(place, line) => {
            if *place as usize >= lines {
                return Err(EditFault::NoSuchPlace(lines));
            }
            check_line(line).map_err(EditFault::BadLine)?;
            Ok(lines)
        }
        Edit::Reseed(seed) => {
            if is_large_seed(u64::from(*seed)) {
                return Err(EditFault::BadSeed);
            }
            Ok(lines)
        }
    }
}

/// What the edit of a log of `lines` lines leaves of margins.
fn narrow(edit: &Edit, lines: usize, margins: Margins) -> Margins
    ensures { result ≡ margins_after (change_of edit.now) lines margins }
{
    match edit {
        Edit::Insert(place, _) => {
            margins.narrow(*place as usize, lines.saturating_sub(*place as usize))
        }
        Edit::Delete(place) | Edit::Replace(place, _) => margins.narrow(
            *place as usize,
            lines.saturating_sub(*place as usize).saturating_sub(1),
        ),
        Edit::Reseed(_) => margins.narrow(0, margins.tail),
    }
}
