//! The text of a script that takes edits back.

ghost use Rattle.std.specs.Prelude.{◌≡◌, ◌∷◌, ◌++◌, [], IfOk, OnOk, map, option_map};
ghost use Rattle.std.specs.Prelude.{string_bytes};
ghost use Rattle.std.specs.List.{flat_map};
ghost use Rattle.base_text.specs.Text.{Tells};
ghost use Rattle.replay_edits.specs.Edit.{change_of};
ghost use Rattle.replay_scripts.specs.ScriptText.{back_in, back_lines, backs_in, change_line};
ghost use Rattle.replay_scripts.specs.ScriptText.{group_text, groups_in, guard_lines, number_in};
ghost use Rattle.replay_scripts.specs.ScriptText.{script_text, text_of_lines};

use base_text::Text;
use replay_edits::{Edit, LineText};
use std::alloc::{AllocError, Global};

/// An edit that takes another one back, and the line expected at its place before it is made, if
/// any is.
#[derive(Debug, Drop)]
pub struct BackEdit {
    pub edit: Edit,
    pub expected: Option<LineText>,
}

/// The number of an edit.
fn number_in(edit: &Edit) -> u32
    ensures { result ≡ number_in (change_of edit.now) }
{
    match edit {
        Edit::Insert(place, _) | Edit::Replace(place, _) => *place,
        Edit::Delete(place) => *place,
        Edit::Reseed(seed) => *seed,
    }
}

/// Writes the guard of a place, if a line is expected there.
fn put_guard(text: &mut Text, place: u32, expected: &Option<LineText>)
    ensures { let line = option_map (λ line. line.items) expected.now in
        Tells (text_of_lines (guard_lines place line)) text.old text.new }
{
    if let Some(line) = expected {
        write!(text, "expect {place} ");
        text.put(line);
        text.put(b"\n");
    }
}

/// Writes an edit, as a line of a script.
fn put_edit(text: &mut Text, edit: &Edit)
    ensures { Tells (text_of_lines (change_line (change_of edit.now) ∷ [])) text.old text.new }
{
    match edit {
        Edit::Insert(place, line) => {
            write!(text, "insert {place} ");
            text.put(line);
        }
        Edit::Delete(place) => write!(text, "delete {place}"),
        Edit::Replace(place, line) => {
            write!(text, "replace {place} ");
            text.put(line);
        }
        Edit::Reseed(seed) => write!(text, "seed {seed}"),
    }
    text.put(b"\n");
}

/// Writes an edit, after its guard, if it has one.
fn put_back(text: &mut Text, back: &BackEdit)
    ensures { Tells (text_of_lines (back_lines (back_in back.now))) text.old text.new }
{
    put_guard(text, number_in(&back.edit), &back.expected);
    put_edit(text, &back.edit);
}

/// Writes edits, each after its guard.
fn put_backs(text: &mut Text, backs: &[BackEdit])
    ensures { Tells (text_of_lines (flat_map back_lines (backs_in backs.now))) text.old text.new }
{
    for back in backs {
        put_back(text, back);
    }
}

/// Writes edits that are made as a whole: just one, or a group.
fn put_group(text: &mut Text, backs: &[BackEdit])
    ensures { Tells (group_text (backs_in backs.now)) text.old text.new }
{
    match backs {
        [back] => put_back(text, back),
        _ => {
            text.put(b"begin\n");
            put_backs(text, backs);
            text.put(b"end\n");
        }
    }
}

/// Writes groups, one after another.
fn put_groups(text: &mut Text, groups: &[Vec<BackEdit>])
    ensures { Tells (script_text (groups_in groups.now)) text.old text.new }
{
    for backs in groups {
        put_group(text, backs);
    }
}

/// Appends the script that makes the edits of each list as a whole, one list after another.
pub fn push_script(
    alloc: Global,
    text: &mut Vec<u8>,
    groups: &[Vec<BackEdit>],
) -> Result<(), AllocError>
    ensures { OnOk result
        (text.new.items ≡ text.old.items ++ script_text (groups_in groups.now)) }
{
    let mut script = Text::after(alloc, text);
    put_groups(&mut script, groups);
    script.give_to(text)
}

/// The text that has these lines.
pub fn text_of_lines(alloc: Global, lines: &[&str]) -> Result<String, AllocError>
    ensures { IfOk result (λ text.
        string_bytes text ≡ text_of_lines (map (λ line. line.now) lines.now)) }
{
    let mut text = String::new(alloc);
    for line in lines {
        text.push_str(line)?;
        text.push_str("\n")?;
    }
    Ok(text)
}
