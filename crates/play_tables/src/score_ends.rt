//! What the rows add up to.

ghost use Rattle.std.specs.Prelude.{◌≡◌, option_map};
ghost use Rattle.base_text.specs.Text.{Tells};
ghost use Rattle.cave_data.specs.Printing.{rating};
ghost use Rattle.turn_scene.specs.Scene.{cave_of};
ghost use Rattle.play_tables.specs.ScoreTable.{class_line, class_name, end_text, next_class_text};
ghost use Rattle.play_tables.specs.ScoreTable.{points_wanted};

use crate::score_names::put_named_text;
use crate::score_rows::put_other;
use base_text::Text;
use cave_data::Rating;
use turn_ends::max_score;
use turn_scene::Rules;

fn put_class_name(text: &mut Text, class: Option<Rating<'_>>)
    ensures { Tells (class_name (option_map rating class.entry)) text.old text.new }
{
    match class {
        None => text.put(b"no class"),
        Some(class) => put_named_text(text, "class ", class.bound, class.text),
    }
}

#[tactic(auto, unfolding(crate::specs::ScoreTable::class_line))]
fn put_class(text: &mut Text, class: Option<Rating<'_>>)
    ensures { Tells (class_line (option_map rating class.entry)) text.old text.new }
{
    put_class_name(text, class);
    text.put(b"\t-\t-\t-\t-\n");
}

/// The points that are missing for the next class, if there is one.
fn points_wanted(score: u32, class: Option<Rating<'_>>) -> Option<u32>
    ensures { result ≡ points_wanted score (option_map rating class.entry) }
{
    let class = class?;
    if class.is_followed {
        Some((u32::from(class.bound) + 1).saturating_sub(score))
    } else {
        None
    }
}

#[tactic(auto, unfolding(crate::specs::ScoreTable::next_class_text))]
fn put_next_class(text: &mut Text, wanted: Option<u32>)
    ensures { Tells (next_class_text wanted) text.old text.new }
{
    match wanted {
        None => text.put(b"next class\t-\t-\t-\t-\n"),
        Some(wanted) => write!(text, "next class\t-\t-\t{wanted}\t-\n"),
    }
}

/// Writes the score, its class, and what is missing for the next one.
#[tactic(auto, unfolding(crate::specs::ScoreTable::end_text))]
pub(crate) fn put_end(text: &mut Text, rules: &Rules<'_>, score: u32)
    ensures { Tells (end_text (cave_of rules.now) score) text.old text.new }
{
    put_other(text, "score", score, max_score(rules.cave));
    let class = rules.cave.class_of(score);
    put_class(text, class);
    put_next_class(text, points_wanted(score, class));
}
