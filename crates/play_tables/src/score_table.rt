//! The table.

ghost use Rattle.std.specs.Prelude.{◌≡◌, ◌++◌, OnOk};
ghost use Rattle.std.specs.List.{flat_map};
ghost use Rattle.base_text.specs.Text.{Tells};
ghost use Rattle.turn_scene.specs.Scene.{cave_of};
ghost use Rattle.play_tables.specs.ScoreRows.{table_rows, AddUp};
ghost use Rattle.play_tables.specs.ScoreTable.{score_head_row, row_text, score_table};

use crate::score_ends::put_end;
use crate::score_rows::{put_hints, put_others, put_treasures};
use base_text::Text;
use cave_world::State;
use std::alloc::{AllocError, Global};
use turn_ends::{Scorer, score_by};
use turn_scene::Rules;

/// Writes the names of the columns.
#[tactic(auto, unfolding(crate::specs::ScoreTable::score_head_row))]
fn put_score_head_row(text: &mut Text)
    ensures { Tells score_head_row text.old text.new }
{
    text.put(b"what\tfound\thome\tpoints\tof\n");
}

#[tactic(auto, using(crate::proofs::Summing::in_three))]
fn put_rows(text: &mut Text, rules: &Rules<'_>, state: &State)
    ensures { Tells (flat_map row_text (table_rows (cave_of rules.now) state.now)) text.old
        text.new }
{
    put_treasures(text, rules, state);
    put_others(text, rules, state);
    put_hints(text, rules.cave, state);
}

/// Appends the score of a state as a table, whose rows add up to it.
#[tactic(auto, using(crate::proofs::Summing::summing), unfolding(crate::specs::ScoreTable::score_table))]
pub fn push_score_table(
    alloc: Global,
    text: &mut Vec<u8>,
    rules: &Rules<'_>,
    state: &State,
) -> Result<(), AllocError>
    ensures told { OnOk result (text.new.items ≡ text.old.items
        ++ score_table (cave_of rules.now) state.now) }
    ensures adds_up { AddUp (cave_of rules.now) state.now }
{
    let mut table = Text::after(alloc, text);
    put_score_head_row(&mut table);
    put_rows(&mut table, rules, state);
    put_end(&mut table, rules, score_by(&Scorer::of(rules), state));
    table.give_to(text)
}
