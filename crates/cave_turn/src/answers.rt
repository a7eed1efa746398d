ghost use Rattle.std.specs.Prelude.{◌≡◌, ◌+◌, ◌<◌, ◌≤◌, []};
ghost use Rattle.arrayvec.specs.ArrayVec.{array_vec_len};
ghost use Rattle.turn_scene.specs.Bounds.{GoesOnSaying, HasRoom, MovesOnSaying, parts_of_arrival};
ghost use Rattle.turn_scene.specs.Bounds.{parts_of_answer, parts_of_finish, parts_of_question};
ghost use Rattle.turn_scene.specs.Scene.{scene_of, cave_of};
ghost use Rattle.turn_ends.specs.Questions.{is_dragon};
ghost use Rattle.cave_turn.specs.Answers.{answer_of, answer_in, after_yes, after_no};
ghost use Rattle.cave_turn.specs.Answers.{after_reply, is_of_hint, after_end_of_answer};
ghost use Rattle.cave_turn.specs.Answers.{after_answer, answers, without_question, is_yes};

use crate::finish::end_turn;
use crate::{dragon, revival};
use cave_words::Word;
use cave_world::{
    CLUE_HINT, Charge, Ending, HintNumber, INSTRUCTIONS_HINT, Out, Question, RowNotes, State, Table,
};
use data_rows::Role;
use turn_scene::{Rules, Scene, rows, start_place};

/// What a line answers to a question.
#[derive(Clone, Copy, Debug, PartialEq, Eq)]
pub enum Answer {
    Yes,
    No,
    Neither,
}

/// How many turns the lamp burns for a player who asked for the instructions.
const INSTRUCTED_CHARGE: i32 = 1000;

/// Takes a line as the answer to the open question.
#[tactic(auto, unfolding(crate::specs::Answers::after_answer))]
#[inline(never)]
pub fn take_answer<N: RowNotes>(
    rules: &Rules<'_>,
    question: &Question,
    line: &[u8],
    state: &mut State,
    out: &mut Out,
    notes: &mut N,
)
    requires parts { out.old.items ≡ [] }
    requires rows { N.rows notes.old ≡ [] }
    ensures state { (after_answer (cave_of rules.now) question.now line.now state.old).state
        ≡ state.new }
    ensures parts { (after_answer (cave_of rules.now) question.now line.now state.old).parts
        ≡ out.new.items }
    ensures rows { (after_answer (cave_of rules.now) question.now line.now state.old).rows
        ≡ N.rows notes.new }
    ensures few { array_vec_len out.new ≤ parts_of_answer }
{
    let answer = answer_in(rules, line);
    let mut scene = Scene::open(state, out, notes, false);
    take_reply(rules, question, answer, &mut scene);
    end_answer(rules, question, &mut scene);
}

fn answer_of(word: Word) -> Answer
    ensures { result ≡ answer_of word }
{
    if word.is(b"Y") || word.is(b"YES") {
        Answer::Yes
    } else if word.is(b"N") || word.is(b"NO") {
        Answer::No
    } else {
        Answer::Neither
    }
}

/// What a line answers to a question. Only its first word counts.
#[tactic(auto, unfolding(crate::specs::Answers::answer_in))]
pub fn answer_in(rules: &Rules<'_>, line: &[u8]) -> Answer
    ensures { result ≡ answer_in (cave_of rules.now) line.now }
{
    match rules.words_of(line).first {
        Some(word) => answer_of(word),
        None => Answer::Neither,
    }
}

/// Answers the question.
pub fn close_question(state: &mut State)
    ensures { state.new ≡ without_question state.old }
{
    state.question = None;
}

#[tactic(auto, unfolding(crate::specs::Answers::reply_rows))]
fn take_reply<N: RowNotes>(
    rules: &Rules<'_>,
    question: &Question,
    answer: Answer,
    scene: &mut Scene<'_, N>,
)
    requires { HasRoom (parts_of_arrival scene.old.left + 1) scene.old }
    ensures scene { scene_of N.rows scene.new
        ≡ after_reply (cave_of rules.now) question.now answer (scene_of N.rows scene.old) }
    ensures says { MovesOnSaying (parts_of_arrival scene.old.left + 1) scene.old scene.new }
{
    rows! { scene, Table::Replies;
        is_yes(answer) => {
            close_question(scene.state);
            do_yes(rules, question, scene);
        };
        matches!(answer, Answer::No) => {
            close_question(scene.state);
            do_no(rules, question, scene);
        };
        otherwise => say(Role::Answer), turn_ends::pose(rules, question);
    }
}

#[tactic(auto, unfolding(crate::specs::Answers::give_instructions, crate::specs::Answers::quit))]
fn do_yes<N: RowNotes>(rules: &Rules<'_>, question: &Question, scene: &mut Scene<'_, N>)
    requires { HasRoom (parts_of_arrival scene.old.left + 1) scene.old }
    ensures scene { scene_of N.rows scene.new
        ≡ after_yes (cave_of rules.now) question.now (scene_of N.rows scene.old) }
    ensures says { MovesOnSaying (parts_of_arrival scene.old.left + 1) scene.old scene.new }
{
    rows! { scene, Table::Yes;
        let Question::Welcome = question => say(Role::Instructions),
            take_hint(HintNumber::new(INSTRUCTIONS_HINT)),
            set_charge(Charge::new(INSTRUCTED_CHARGE)),
            turn_moves::arrive(rules, start_place(rules.cave));
        let Question::Quit = question => say(Role::Ok), turn_ends::end_as(rules, Ending::Quit);
        let Question::ScoreQuit = question => say(Role::Ok), turn_ends::end_as(rules, Ending::Quit);
        let Question::Die = question => revival::come_back(rules);
        let Question::Hint(number) = question => turn_clocks::price(rules, *number);
        let Question::Take(number) = question => turn_clocks::give_hint(rules, *number);
        let Question::Oyster = question
            => say(Role::OysterHint), take_hint(HintNumber::new(CLUE_HINT));
        let Question::Dragon = question => dragon::fight(rules);
    }
}

fn do_no<N: RowNotes>(rules: &Rules<'_>, question: &Question, scene: &mut Scene<'_, N>)
    requires { HasRoom (parts_of_arrival scene.old.left + 1) scene.old }
    ensures scene { scene_of N.rows scene.new
        ≡ after_no (cave_of rules.now) question.now (scene_of N.rows scene.old) }
    ensures says { MovesOnSaying (parts_of_arrival scene.old.left + 1) scene.old scene.new }
{
    rows! { scene, Table::No;
        let Question::Welcome = question => turn_moves::arrive(rules, start_place(rules.cave));
        let Question::Quit = question => say(Role::Ok);
        let Question::ScoreQuit = question => say(Role::Ok);
        let Question::Die = question => revival::bury(rules);
        let Question::Hint(_) = question => say(Role::Ok);
        let Question::Take(_) = question => say(Role::Ok);
        let Question::Oyster = question => say(Role::Ok);
        let Question::Dragon = question => {};
    }
}

fn is_of_hint(question: &Question) -> bool
    ensures { result ≡ is_of_hint question.now }
{
    matches!(question, Question::Hint(_) | Question::Take(_))
}

/// The turn ends, except after an answer about a hint.
fn end_answer<N: RowNotes>(rules: &Rules<'_>, question: &Question, scene: &mut Scene<'_, N>)
    requires { HasRoom (parts_of_finish + parts_of_question) scene.old }
    ensures scene { scene_of N.rows scene.new
        ≡ after_end_of_answer (cave_of rules.now) question.now (scene_of N.rows scene.old) }
    ensures says { GoesOnSaying parts_of_finish scene.old scene.new }
{
    if !is_of_hint(question) {
        end_turn(rules, scene);
    }
}

/// Whether a line answers a question, and isn't a command. To the question whether to fight the
/// dragon with bare hands any line except yes is a command.
pub fn answers(rules: &Rules<'_>, line: &[u8], question: &Question) -> bool
    ensures { result ≡ answers (cave_of rules.now) line.now question.now }
{
    !is_dragon(question) || is_yes(answer_in(rules, line))
}

fn is_dragon(question: &Question) -> bool
    ensures { result ≡ is_dragon question.now }
{
    matches!(question, Question::Dragon)
}

fn is_yes(answer: Answer) -> bool
    ensures { result ≡ is_yes answer }
{
    matches!(answer, Answer::Yes)
}
