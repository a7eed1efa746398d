//! Lines for hints.

ghost use Rattle.std.specs.Prelude.{◌≤◌};
ghost use Rattle.base_lines.specs.Numbers.{LAST_HINT};
ghost use Rattle.base_text.specs.Text.{Tells};
ghost use Rattle.play_state_text.specs.Facts.{AllHints};
ghost use Rattle.play_state_text.specs.Things.{hint_line, item_at, text_up_to};
ghost use Rattle.play_state_text.specs.Within.{AreHintsWithin, IsWide};

use crate::value::{FactValue, Setting, has_all, yes_or_no};
use base_text::Text;
use cave_world::Hints;
use cave_world::hints::HINTS;

/// Writes the line of a hint, if it was waited for or taken.
#[tactic(auto, unfolding(crate::specs::Things::hint_line, crate::specs::Things::hint_text))]
fn put_hint(text: &mut Text, hints: &Hints, hint: u8)
    requires some { 1 ≤ hint }
    requires within { hint ≤ LAST_HINT }
    ensures { Tells (hint_line hints.now hint) text.old text.new }
{
    let turns = hints.turns[usize::from(hint) - 1].number();
    let is_taken = hints.is_taken[usize::from(hint) - 1];
    if turns == 0 && !is_taken {
        return;
    }
    let taken = yes_or_no(is_taken);
    write!(text, "hint {hint}: waited {turns}, taken {taken}\n");
}

/// Writes the lines of hints that were waited for or taken.
#[tactic(auto, using(crate::proofs::EntryLemmas::no_lines))]
fn put_hints(text: &mut Text, hints: &Hints)
    ensures { Tells (text_up_to (hint_line hints.now) LAST_HINT) text.old text.new }
{
    for before in 0..HINTS as u8 {
        put_hint(text, hints, before + 1);
    }
}

fn is_hint_within(hints: &Hints, hint: u8)
    requires some { 1 ≤ hint }
    requires within { hint ≤ LAST_HINT }
    ensures { IsWide (item_at 0 hints.now.turns hint) }
{
    let _ = hints.turns[usize::from(hint) - 1].number();
}

fn are_hints_within(hints: &Hints)
    ensures { AreHintsWithin hints.now }
{
    has_all(&hints.turns);
    has_all(&hints.is_taken);
    for before in 0..HINTS as u8 {
        is_hint_within(hints, before + 1);
    }
}

impl FactValue for Hints {
    ghost fact = { λ hints. AllHints hints };

    fn put(&self, text: &mut Text, setting: Setting<'_>, name: &str) {
        put_hints(text, self);
    }

    fn is_within(&self) {
        are_hints_within(self);
    }
}
