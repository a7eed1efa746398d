ghost use Rattle.std.specs.Prelude.{◌≡◌, ◌≤◌, [], ◌∷◌, IsTrue, Some};
ghost use Rattle.cave_data.specs.Printing.{rating};
ghost use Rattle.cave_world.specs.State.{takes_no_command};
ghost use Rattle.turn_scene.specs.Bounds.{GoesOnSaying, HasRoom, parts_of_end};
ghost use Rattle.turn_scene.specs.Scene.{scene_of, cave_of};
ghost use Rattle.turn_ends.specs.Score.{score_of};
ghost use Rattle.cave_world.specs.declared.tables.Table.TheVariants as table;
ghost use Rattle.turn_scene.specs.Rows.{Does, by_table};
ghost use Rattle.turn_ends.specs.Endings.{points_wanted, class_rows, tell_score, with_ending};
ghost use Rattle.turn_ends.specs.Endings.{after_end};

use crate::scorer::Scorer;
use crate::scores::{max_score_by, score_by};
use cave_data::Rating;
use cave_world::{Ending, NumberLine, Part, RowNotes, State, Table};
use data_rows::Role;
use turn_scene::{Rules, Scene, rows};

/// The game ends, and its score is printed.
#[tactic(auto, unfolding(crate::specs::Endings::after_end))]
pub fn end_as<N: RowNotes>(rules: &Rules<'_>, ending: Ending, scene: &mut Scene<'_, N>)
    requires { HasRoom parts_of_end scene.old }
    ensures scene { scene_of N.rows scene.new
        ≡ after_end (cave_of rules.now) ending (scene_of N.rows scene.old) }
    ensures says { GoesOnSaying parts_of_end scene.old scene.new }
    ensures over { IsTrue (takes_no_command scene.new.state.now) }
{
    set_ending(ending, scene.state);
    tell_score(rules, scene);
}

/// Prints the score.
#[tactic(auto, unfolding(crate::specs::Endings::tell_score))]
fn tell_score<N: RowNotes>(rules: &Rules<'_>, scene: &mut Scene<'_, N>)
    requires { HasRoom parts_of_end scene.old }
    ensures scene { Does N.rows tell_score parts_of_end rules.now tt scene.old scene.new }
    ensures state { scene.new.state.now ≡ scene.old.state.now }
{
    let scorer = Scorer::of(rules);
    let score = score_by(&scorer, scene.state);
    scene.tell(Part::Turns(score, max_score_by(&scorer)));
    tell_class(rules, score, scene);
}

/// Prints the class of a score, and how many points are missing for the next one.
#[tactic(auto, using(crate::proofs::Reach::classes), unfolding(crate::specs::Endings::class_rows))]
fn tell_class<N: RowNotes>(rules: &Rules<'_>, score: u32, scene: &mut Scene<'_, N>)
    requires room { HasRoom 2 scene.old }
    requires score { score ≡ score_of (cave_of rules.now) scene.old.state.now }
    ensures rows { Does N.rows (by_table table.Classes class_rows ∷ []) 2 rules.now tt
        scene.old scene.new }
    ensures state { scene.new.state.now ≡ scene.old.state.now }
{
    match rules.cave.class_of(score) {
        Some(class) => rows! { scene, Table::Classes;
            class.is_followed => tell(Part::Class(score)),
                tell(Part::Number(NumberLine::PointsWanted, points_wanted(score, &class), 0));
            otherwise => tell(Part::Class(score)), say(Role::TopClass);
        },
        None => rows! { scene, Table::Classes;
            from 3;
            otherwise => say(Role::OffScale);
        },
    }
}

/// How many points are missing to pass the bound of a class.
fn points_wanted(score: u32, class: &Rating<'_>) -> u32
    requires { score ≤ class.now.bound }
    ensures { result ≡ points_wanted score (Some (rating class.now)) }
{
    u32::from(class.bound) + 1 - score
}

#[tactic(auto, using(crate::proofs::Over::over))]
fn set_ending(ending: Ending, state: &mut State)
    ensures value { state.new ≡ with_ending ending state.old }
    ensures over { IsTrue (takes_no_command state.new) }
{
    state.ending = Some(ending);
}
