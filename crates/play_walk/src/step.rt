//! The row of a line of a log in the table of lines.

ghost use Rattle.std.specs.Prelude.{◌≡◌, ◌++◌, OnOk};
ghost use Rattle.turn_scene.specs.Scene.{cave_of};
ghost use Rattle.play_walk.specs.Step.{step_head_row, step_row};

use crate::figures::{Form, StepRow, put_figures};
use crate::json::put_number;
use base_text::Text;
use play_tables::columns::put_without_tabs;
use std::alloc::{AllocError, Global};
use turn_scene::Rules;

/// Appends the names of the columns.
#[tactic(auto, unfolding(crate::specs::Step::step_head_row))]
pub fn push_step_head_row(text: &mut Vec<u8>) -> Result<(), AllocError>
    ensures { OnOk result (text.new.items ≡ text.old.items ++ step_head_row) }
{
    text.extend_from_slice(
        b"place\tline\tfrom\tto\tturns\tscore\tlamp\tcarried\tdraws\tstream\tquestion\tended\t",
    )?;
    text.extend_from_slice(b"happened\n")
}

/// Appends the row of a line that was played in the cave.
#[tactic(auto, unfolding(crate::specs::Step::step_row))]
pub fn push_step_row(
    alloc: Global,
    text: &mut Vec<u8>,
    rules: &Rules<'_>,
    step: &StepRow<'_>,
) -> Result<(), AllocError>
    ensures { OnOk result (text.new.items ≡ text.old.items
        ++ step_row (cave_of rules.now) step.now.place step.now.line.now step.now.turns
        step.now.before.now step.now.after.now) }
{
    let mut row = Text::after(alloc, text);
    put_number(&mut row, step.place);
    row.put(b"\t");
    put_without_tabs(&mut row, step.line);
    put_figures(Form::Columns, &mut row, rules, step);
    row.put(b"\n");
    row.give_to(text)
}
