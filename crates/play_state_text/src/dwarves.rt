//! Lines for dwarves.

ghost use Rattle.std.specs.Prelude.{◌≤◌};
ghost use Rattle.base_text.specs.Text.{Tells};
ghost use Rattle.cave_world.specs.Limits.{dwarf_count};
ghost use Rattle.cave_world.specs.State.{no_dwarf};
ghost use Rattle.play_state_text.specs.Facts.{AllDwarves};
ghost use Rattle.play_state_text.specs.Things.{dwarf_line, item_at, text_up_to};
ghost use Rattle.play_state_text.specs.Within.{AreDwarvesWithin, IsDwarfWithin};

use crate::value::{FactValue, Setting, has_all, yes_or_no};
use base_text::Text;
use cave_world::{DWARVES, Dwarf};

/// Writes the line of the dwarf with a number.
#[tactic(auto, unfolding(crate::specs::Things::dwarf_line, crate::specs::Things::dwarf_text))]
fn put_dwarf(text: &mut Text, dwarves: &[Dwarf; DWARVES], number: u8)
    requires some { 1 ≤ number }
    requires within { number ≤ dwarf_count }
    ensures { Tells (dwarf_line dwarves.now number) text.old text.new }
{
    let dwarf = dwarves[usize::from(number) - 1];
    let (place, last) = (dwarf.place.number(), dwarf.last.number());
    let seen = yes_or_no(dwarf.has_seen);
    write!(
        text,
        "dwarf {number}: at {place}, was at {last}, has seen the player {seen}\n"
    );
}

/// Writes the line of each dwarf.
#[tactic(auto, using(crate::proofs::EntryLemmas::no_lines))]
fn put_dwarves(text: &mut Text, dwarves: &[Dwarf; DWARVES])
    ensures { Tells (text_up_to (dwarf_line dwarves.now) dwarf_count) text.old text.new }
{
    for before in 0..DWARVES as u8 {
        put_dwarf(text, dwarves, before + 1);
    }
}

fn is_dwarf_within(dwarves: &[Dwarf; DWARVES], number: u8)
    requires some { 1 ≤ number }
    requires within { number ≤ dwarf_count }
    ensures { IsDwarfWithin (item_at no_dwarf dwarves.now number) }
{
    let dwarf = dwarves[usize::from(number) - 1];
    let _ = (dwarf.place.number(), dwarf.last.number());
}

fn are_dwarves_within(dwarves: &[Dwarf; DWARVES])
    ensures { AreDwarvesWithin dwarves.now }
{
    has_all(dwarves);
    for before in 0..DWARVES as u8 {
        is_dwarf_within(dwarves, before + 1);
    }
}

impl FactValue for [Dwarf; DWARVES] {
    ghost fact = { λ dwarves. AllDwarves dwarves };

    fn put(&self, text: &mut Text, setting: Setting<'_>, name: &str) {
        put_dwarves(text, self);
    }

    fn is_within(&self) {
        are_dwarves_within(self);
    }
}
