//! Laws about edits and replays. Each is the contract of a function that does nothing.

ghost use Rattle.std.specs.Prelude.{◌≡◌, ◌↔◌, IsTrue};
ghost use Rattle.cave_replay.specs.Agreement.{BoundedByFirst};
ghost use Rattle.cave_replay.specs.Table.{ByTable};
ghost use Rattle.cave_replay.specs.Tails.{AgreedTails, HaveEqualTails, PrefixesPlayAlike};

use crate::machine::Playable;

/// What a group of one edit leaves alone is what the table says of its kind.
pub fn by_table()
    ensures { ByTable }
{}

/// If each place at which two plays agree bounds the steps, so does the first of these places, or
/// the end if there is none.
pub fn bounded_by_first<S, T>()
    ensures { BoundedByFirst S T }
{}

/// Whether two states of a machine are equal. From equal states any lines lead to equal states, get
/// the same answers and tick alike.
pub fn equal_states_have_equal_tails<M: Playable>(
    machine: &M,
    one: &M::State,
    other: &M::State,
) -> bool
    requires one { M.is_state one.now }
    requires other { M.is_state other.now }
    ensures same { IsTrue result ↔ (M.meaning one.now ≡ M.meaning other.now) }
    ensures tails { IsTrue result
        → HaveEqualTails (M.rules machine.now) (M.meaning one.now) (M.meaning other.now) }
{
    *one == *other
}

/// If the plays of two games agree at a place, they have equal tails there, for any number of
/// earlier turns in each.
pub fn agreed_tails<S, T>()
    ensures { AgreedTails S T }
{}

/// Lines are played alike for any lines after them, and those go on from where these lead.
pub fn prefixes_play_alike<S, T>()
    ensures { PrefixesPlayAlike S T }
{}
