//! The kinds of facts in which two states differ, as a column.

ghost use Rattle.std.specs.Prelude.{◌≡◌};
ghost use Rattle.std.specs.List.{flat_map};
ghost use Rattle.base_text.specs.Text.{Tells};
ghost use Rattle.play_tables.specs.Differences.{difference_text, differences_text, without_separator};

use base_text::Text;
use cave_world::State;
use play_state_text::kind::{FactKind, each_kind, is_same_in, kind_name};

/// Writes the name of a kind after a comma, if the states differ in it.
#[tactic(auto, unfolding(crate::specs::Differences::difference_text))]
fn put_difference(text: &mut Text, before: &State, after: &State, kind: FactKind)
    ensures { Tells (difference_text before.now after.now kind) text.old text.new }
{
    if !is_same_in(kind, before, after) {
        text.put(b", ");
        text.put(kind_name(kind).as_bytes());
    }
}

/// Writes the names of those of these kinds in which the states differ, each after a comma.
fn put_each_difference(text: &mut Text, before: &State, after: &State, kinds: &[FactKind])
    ensures { Tells (flat_map (difference_text before.now after.now) kinds.now) text.old text.new }
{
    for kind in kinds {
        put_difference(text, before, after, *kind);
    }
}

/// The names without the comma and the blank before the first, or a dash if there are none.
fn without_separator(names: &[u8]) -> &[u8]
    ensures { result.now ≡ without_separator names.now }
{
    match names {
        [_, _, rest @ ..] => rest,
        _ => b"-",
    }
}

/// Writes the names of the kinds in which the states differ, with commas between them.
#[tactic(auto, unfolding(crate::specs::Differences::differences_text))]
pub(crate) fn put_differences(text: &mut Text, before: &State, after: &State)
    ensures { Tells (differences_text before.now after.now) text.old text.new }
{
    let mut names = text.beside();
    put_each_difference(&mut names, before, after, &each_kind());
    let names = text.bytes_of(names);
    text.put(without_separator(&names));
}
