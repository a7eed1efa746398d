//! Which ways of a place a journey by a motion can reach.

ghost use Rattle.std.specs.Prelude.{◌≡◌, [], None, IfOk, map};
ghost use Rattle.std.specs.List.{list_any};
ghost use Rattle.data_rows.specs.RowViews.{going};
ghost use Rattle.cave_world.specs.Travel.{lists_motion};
ghost use Rattle.check_tables.specs.Reach.{begins_journey, comes_to, ends_journey, ends_there};
ghost use Rattle.check_tables.specs.Reach.{failed_after, failed_from, goes_on_to, is_certain};
ghost use Rattle.check_tables.specs.Reach.{is_other, may_be_taken, motions_again, motions_begun};

use cave_world::travel_rows::lists_motion;
use data_rows::{Condition, Destination, Row};
use std::alloc::{AllocError, Global};

/// Whether one of these ways lists a motion.
fn any_lists_motion(rows: &[Row], motion: u16) -> bool
    ensures { result ≡ list_any (lists_motion motion) (map going rows.now) }
{
    rows.iter().any(|row| lists_motion(row, motion))
}

/// Whether a motion begins with a way, after others.
fn begins_journey(before: &[Row], row: &Row) -> bool
    ensures { result ≡ begins_journey (map going before.now) (going row.now) }
{
    row.motions
        .iter()
        .any(|&motion| !any_lists_motion(before, motion))
}

fn is_certain(condition: Condition) -> bool
    ensures { result ≡ is_certain condition }
{
    match condition {
        Condition::Always | Condition::NotForDwarves => true,
        _ => false,
    }
}

fn ends_there(destination: Destination) -> bool
    ensures { result ≡ ends_there destination }
{
    match destination {
        Destination::PutsEmeraldDown => false,
        _ => true,
    }
}

/// Whether each journey that reaches a way ends with it.
fn ends_journey(row: &Row) -> bool
    ensures { result ≡ ends_journey (going row.now) }
{
    is_certain(row.condition()) && ends_there(row.destination())
}

fn is_other(target: u32, failed: Option<u32>) -> bool
    ensures { result ≡ is_other target failed }
{
    match failed {
        Some(failed) => failed != target,
        None => false,
    }
}

/// Whether a journey reaches a way, after others.
fn comes_to(before: &[Row], failed: Option<u32>, row: &Row) -> bool
    ensures { result ≡ comes_to (map going before.now) failed (going row.now) }
{
    begins_journey(before, row) || is_other(row.target, failed)
}

/// The target at which a journey that goes on after a way may have failed.
fn failed_after(before: &[Row], failed: Option<u32>, row: &Row) -> Option<u32>
    ensures { result ≡ failed_after (map going before.now) failed (going row.now) }
{
    if !comes_to(before, failed, row) {
        return failed;
    }
    if ends_journey(row) {
        None
    } else {
        Some(row.target)
    }
}

/// The target at which a journey that goes on after all these ways may have failed.
fn failed_at_end(rows: &[Row]) -> Option<u32>
    ensures { result ≡ failed_from [] None (map going rows.now) }
{
    let mut failed = None;
    for index in 0..rows.len() {
        failed = failed_after(&rows[..index], failed, &rows[index]);
    }
    failed
}

/// Whether some journey reaches a way since it fails at one of those before it.
pub fn goes_on_to(before: &[Row], row: &Row) -> bool
    ensures { result ≡ goes_on_to (map going before.now) (going row.now) }
{
    is_other(row.target, failed_at_end(before))
}

/// Whether a motion leads a player to a way, after others.
pub fn may_be_taken(before: &[Row], row: &Row) -> bool
    ensures { result ≡ may_be_taken (map going before.now) (going row.now) }
{
    begins_journey(before, row) || goes_on_to(before, row)
}

/// The motions of a way that begin with it, since no way before it lists them.
#[tactic(auto, unfolding(crate::specs::Reach::motions_begun))]
pub fn motions_begun(alloc: Global, before: &[Row], row: &Row) -> Result<Vec<u16>, AllocError>
    ensures { IfOk result (λ motions. motions.items
        ≡ motions_begun (map going before.now) (going row.now)) }
{
    row.motions
        .iter()
        .filter(|motion| !any_lists_motion(before, **motion))
        .copied()
        .collect(alloc)
}

/// The motions of a way that ways before it list.
#[tactic(auto, unfolding(crate::specs::Reach::motions_again))]
pub fn motions_again(alloc: Global, before: &[Row], row: &Row) -> Result<Vec<u16>, AllocError>
    ensures { IfOk result (λ motions. motions.items
        ≡ motions_again (map going before.now) (going row.now)) }
{
    row.motions
        .iter()
        .filter(|motion| any_lists_motion(before, **motion))
        .copied()
        .collect(alloc)
}
