ghost use Rattle.std.specs.Prelude.{◌≡◌, ◌≤◌, ◌↔◌, IsTrue, length};
ghost use Rattle.base_lines.specs.Numbers.{LAST_PLACE};
ghost use Rattle.play_machine.specs.Machine.{IsUnvisitedAfter, unvisited_block, visits_from};

use cave_world::{Count, Visits};
use world_objects::place::PLACES;

/// How many places are looked at together.
const BLOCK: usize = 30;

/// The visits of the first places, without blocks at the end in which no place was described.
pub(crate) fn visited(visits: &[Visits]) -> &[Visits]
    ensures rest { IsUnvisitedAfter visits.now result.now }
    ensures few { length result.now ≤ length visits.now }
{
    let mut first = visits;
    'blocks: while let Some((before, block)) = first.split_last_chunk::<BLOCK>() {
        if !is_unvisited(block) {
            return first;
        }
        first = before;
    }
    first
}

/// Whether none of the places was described.
fn is_unvisited(block: &[Visits; BLOCK]) -> bool
    ensures { IsTrue result ↔ (block.now ≡ unvisited_block) }
{
    *block == [Count::new(0); BLOCK]
}

/// The visits of all places, if those after the first ones were never described.
pub(crate) fn all_visits(first: &[Visits]) -> [Visits; PLACES]
    requires { length first.now ≤ LAST_PLACE }
    ensures { result ≡ visits_from first.now LAST_PLACE }
{
    let mut visits = [Count::new(0); PLACES];
    visits[..first.len()].copy_from_slice(first);
    visits
}
