ghost use Rattle.std.specs.Prelude.{◌≡◌, [], ◌∷◌, IsTrue};
ghost use Rattle.std.specs.FinMap.{get};
ghost use Rattle.cave_world.specs.State.{takes_no_command};
ghost use Rattle.cave_world.specs.declared.ending.Question.TheVariants as question_is;
ghost use Rattle.turn_scene.specs.Bounds.{GoesOnSaying, HasRoom, parts_of_question};
ghost use Rattle.cave_world.specs.declared.part.NumberLine.TheVariants as line;
ghost use Rattle.cave_world.specs.declared.part.Part.TheVariants as part;
ghost use Rattle.turn_scene.specs.Scene.{after_telling, scene_of, cave_of};
ghost use Rattle.turn_ends.specs.Score.{score_of, max_score_of};
ghost use Rattle.cave_world.specs.declared.tables.Table.TheVariants as table;
ghost use Rattle.turn_scene.specs.Rows.{Does, by_table};
ghost use Rattle.turn_ends.specs.Questions.{asking_rows, die_rows, after_offer, after_question};
ghost use Rattle.turn_ends.specs.Questions.{with_question, after_ask, question_row};

use crate::scorer::Scorer;
use crate::scores::{max_score_by, score_by};
use cave_data::Cave;
use cave_world::{HintNumber, NumberLine, Part, Question, RowNotes, State, Table};
use data_rows::Role;
use turn_scene::{Rules, Scene, rows};

fn offer_hint<N: RowNotes>(cave: &Cave, hint: HintNumber, scene: &mut Scene<'_, N>)
    requires { HasRoom 1 scene.old }
    ensures scene { scene_of N.rows scene.new
        ≡ after_offer (get cave.now.hints hint) (scene_of N.rows scene.old) }
    ensures says { GoesOnSaying 1 scene.old scene.new }
{
    if let Some(row) = cave.hint(u16::from(hint.number())) {
        scene.tell(Part::Message(row.question));
    }
}

/// The place of a value among patterns of which one fits, the first of which has the number given.
macro_rules! place_of {
    ($value:expr, $number:expr; $last:pat,) => { $number };
    ($value:expr, $number:expr; $first:pat, $($rest:tt)+) => {
        if matches!($value, $first) { $number } else { place_of!($value, $number + 1; $($rest)+) }
    };
}

/// The row of a question in the tables of questions and of answers.
pub fn question_row(question: &Question) -> u8
    ensures { result ≡ question_row question.now }
{
    place_of! {
        question, 1;
        Question::Welcome,
        Question::Quit,
        Question::ScoreQuit,
        Question::Die,
        Question::Hint(_),
        Question::Take(_),
        Question::Oyster,
        Question::Dragon,
    }
}

/// Prints the score up to now, and the greatest score.
fn tell_score_now<N: RowNotes>(rules: &Rules<'_>, scene: &mut Scene<'_, N>)
    requires { HasRoom 1 scene.old }
    ensures scene { scene_of N.rows scene.new ≡ after_telling (part.Number line.ScoreNow
        (score_of (cave_of rules.now) scene.old.state.now) (max_score_of (cave_of rules.now)))
        (scene_of N.rows scene.old) }
    ensures says { GoesOnSaying 1 scene.old scene.new }
{
    let scorer = Scorer::of(rules);
    let score = score_by(&scorer, scene.state);
    scene.tell(Part::Number(NumberLine::ScoreNow, score, max_score_by(&scorer)));
}

/// Prints the message of a question, and the score before the question that is about it.
#[tactic(auto, unfolding(crate::specs::Questions::asking_rows))]
fn begin_asking<N: RowNotes>(rules: &Rules<'_>, question: &Question, scene: &mut Scene<'_, N>)
    requires { HasRoom parts_of_question scene.old }
    ensures rows { Does N.rows (by_table table.Asking asking_rows ∷ []) parts_of_question
        rules.now question.now scene.old scene.new }
{
    rows! { scene, Table::Asking;
        let Question::ScoreQuit = question => self::tell_score_now(rules), self::pose(rules, question);
        otherwise => self::pose(rules, question);
    }
}

/// Prints the message of a question.
pub fn pose<N: RowNotes>(rules: &Rules<'_>, question: &Question, scene: &mut Scene<'_, N>)
    requires { HasRoom 1 scene.old }
    ensures scene { scene_of N.rows scene.new
        ≡ after_question (cave_of rules.now) question.now (scene_of N.rows scene.old) }
    ensures says { GoesOnSaying 1 scene.old scene.new }
{
    rows! { scene, Table::Questions;
        let Question::Welcome = question => say(Role::Welcome);
        let Question::Quit = question => say(Role::Quit);
        let Question::ScoreQuit = question => say(Role::ScoreQuit);
        let Question::Die = question => self::tell_die(rules);
        let Question::Hint(hint) = question => self::offer_hint(rules.cave, *hint);
        let Question::Take(_) = question => say(Role::HintTake);
        let Question::Oyster = question => say(Role::OysterAsk);
        let Question::Dragon = question => say(Role::WithWhat);
    }
}

/// A player who has died is asked whether to come back.
#[tactic(auto, unfolding(crate::specs::Questions::die_rows))]
fn tell_die<N: RowNotes>(rules: &Rules<'_>, scene: &mut Scene<'_, N>)
    requires { HasRoom 1 scene.old }
    ensures rows { Does N.rows (by_table table.Die die_rows ∷ []) 1
        rules.now question_is.Die scene.old scene.new }
{
    let deaths = scene.state.tallies.deaths.number();
    rows! { scene, Table::Die;
        deaths == 0 => say(Role::Die1);
        deaths == 1 => say(Role::Die2);
        otherwise => say(Role::Die3);
    }
}

/// Asks a question, which the next line answers.
#[tactic(auto, unfolding(crate::specs::Questions::after_ask, crate::specs::Questions::ask_question, cave_world::specs::State::takes_no_command))]
pub fn ask<N: RowNotes>(rules: &Rules<'_>, question: &Question, scene: &mut Scene<'_, N>)
    requires { HasRoom parts_of_question scene.old }
    ensures scene { scene_of N.rows scene.new
        ≡ after_ask (cave_of rules.now) question.now (scene_of N.rows scene.old) }
    ensures says { GoesOnSaying parts_of_question scene.old scene.new }
    ensures over { IsTrue (takes_no_command scene.new.state.now) }
{
    begin_asking(rules, question, scene);
    set_question(question, scene.state);
}

fn set_question(question: &Question, state: &mut State)
    ensures { state.new ≡ with_question question.now state.old }
{
    state.question = Some(*question);
}
