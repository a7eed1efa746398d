//! A line of a log, or the opening, as an object of JSON.

ghost use Rattle.std.specs.Prelude.{◌≡◌, ◌++◌, OnOk, codes, decimal};
ghost use Rattle.std.specs.List.{flat_map};
ghost use Rattle.base_text.specs.Text.{Tells};
ghost use Rattle.turn_scene.specs.Scene.{cave_of};
ghost use Rattle.play_walk.specs.Json.{first_member, json_string, next_member};
ghost use Rattle.play_walk.specs.Walk.{text_members, walk_line, walk_opening};

use crate::figures::{Form, StepRow, put_figures};
use crate::json::{put_json_string, put_next_key, put_number};
use crate::objects::put_moved;
use base_text::Text;
use cave_world::State;
use std::alloc::{AllocError, Global};
use turn_scene::Rules;
use world_objects::Objects;

/// Appends the place of a line, its text, and what was said at it.
#[tactic(auto, unfolding(crate::specs::Walk::text_members))]
fn put_line_text(text: &mut Text, place: u32, line: &[u8], said: &[u8])
    ensures { Tells (first_member (codes "place", decimal place) ++ flat_map next_member
        (text_members (json_string line.now) said.now)) text.old text.new }
{
    text.put(b"{\"place\":");
    put_number(text, place);
    put_next_key(text, "line");
    put_json_string(text, line);
    put_next_key(text, "said");
    put_json_string(text, said);
}

/// Appends that the opening has no place and no text, and what is said there.
#[tactic(auto, unfolding(crate::specs::Walk::text_members))]
fn put_opening_text(text: &mut Text, said: &[u8])
    ensures { Tells (first_member (codes "place", codes "null") ++ flat_map next_member
        (text_members (codes "null") said.now)) text.old text.new }
{
    text.put(b"{\"place\":null,\"line\":null,\"said\":");
    put_json_string(text, said);
}

/// Appends a line that was played, and what was said at it.
#[tactic(auto, using(crate::proofs::WalkLemmas::members_in_three), unfolding(crate::specs::Walk::walk_line))]
pub fn push_walk_line(
    alloc: Global,
    text: &mut Vec<u8>,
    rules: &Rules<'_>,
    step: &StepRow<'_>,
    said: &[u8],
) -> Result<(), AllocError>
    ensures { OnOk result (text.new.items ≡ text.old.items
        ++ walk_line (cave_of rules.now) step.now.place step.now.line.now said.now step.now.turns
        step.now.before.now step.now.after.now) }
{
    let mut walk = Text::after(alloc, text);
    put_line_text(&mut walk, step.place, step.line, said);
    put_figures(Form::Members, &mut walk, rules, step);
    put_moved(
        &mut walk,
        rules.cave,
        &step.before.objects,
        &step.after.objects,
    );
    walk.put(b"}\n");
    walk.give_to(text)
}

/// Appends the opening, with the first state, and what is said there.
#[tactic(auto, using(crate::proofs::WalkLemmas::members_in_three), unfolding(crate::specs::Walk::walk_opening))]
pub fn push_walk_opening(
    alloc: Global,
    text: &mut Vec<u8>,
    rules: &Rules<'_>,
    said: &[u8],
    state: &State,
) -> Result<(), AllocError>
    ensures { OnOk result (text.new.items ≡ text.old.items
        ++ walk_opening (cave_of rules.now) said.now state.now) }
{
    let mut walk = Text::after(alloc, text);
    put_opening_text(&mut walk, said);
    let nothing_changes = StepRow {
        place: 0,
        line: &[],
        turns: 0,
        before: state,
        after: state,
    };
    put_figures(Form::Members, &mut walk, rules, &nothing_changes);
    put_moved(&mut walk, rules.cave, &Objects::unplaced(), &state.objects);
    walk.put(b"}\n");
    walk.give_to(text)
}
