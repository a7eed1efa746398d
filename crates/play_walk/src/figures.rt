//! The figures of a line, as columns of a table or as members of an object of JSON.

ghost use Rattle.std.specs.Prelude.{◌≡◌, codes, drop, None, option_map};
ghost use Rattle.std.specs.List.{flat_map};
ghost use Rattle.base_text.specs.Text.{Tells};
ghost use Rattle.turn_scene.specs.Scene.{cave_of};
ghost use Rattle.world_objects.specs.Objects.{objects_in_hands};
ghost use Rattle.play_state_text.specs.Words.{ending_word, question_word};
ghost use Rattle.play_walk.specs.Figures.{Count, OneWord, Signed, SomeObjects, SomeWords};
ghost use Rattle.play_walk.specs.Figures.{chance_figures, count_figures, figure_in};
ghost use Rattle.play_walk.specs.Figures.{figures, happened_words, key_in, listed_in, next_event};
ghost use Rattle.play_walk.specs.Figures.{outcome_figures, place_figures, word_in};
ghost use Rattle.play_walk.specs.Figures.{word_or_none};
ghost use Rattle.play_walk.specs.Json.{next_value};
ghost use Rattle.play_walk.specs.Objects.{listed_object};

use crate::json::{put_next_key, put_number, put_signed};
use crate::objects::put_object_list;
use base_text::Text;
use cave_data::Cave;
use cave_world::{Ending, Question, State};
use play_state_text::words::{ending_word, put_question_word};
use play_tables::draws::draws_at;
use play_tables::events::{Event, each_event, event_name, happens};
use turn_ends::{Scorer, score_by};
use turn_scene::Rules;

/// A played line of a log: where it is in the log, the turns up to and including it, and the states
/// before and after it.
#[derive(Clone, Copy)]
pub struct StepRow<'a> {
    pub place: u32,
    pub line: &'a [u8],
    pub turns: u32,
    pub before: &'a State,
    pub after: &'a State,
}

/// How figures are written.
#[derive(Clone, Copy, Debug, PartialEq, Eq)]
pub enum Form {
    /// As columns of a table, each after a tab.
    Columns,
    /// As members of an object, each with its key after a comma.
    Members,
}

fn put_key(form: Form, text: &mut Text, key: &str)
    ensures { Tells (key_in form key.now) text.old text.new }
{
    match form {
        Form::Columns => text.put(b"\t"),
        Form::Members => put_next_key(text, key),
    }
}

fn put_word(form: Form, text: &mut Text, word: &[u8])
    ensures { Tells (word_in form word.now) text.old text.new }
{
    match form {
        Form::Columns => text.put(word),
        Form::Members => {
            text.put(b"\"");
            text.put(word);
            text.put(b"\"");
        }
    }
}

fn put_word_or_none(form: Form, text: &mut Text, word: Option<&[u8]>)
    ensures { Tells (word_or_none form (option_map (λ it. it.now) word.entry)) text.old text.new }
{
    match (form, word) {
        (Form::Columns, None) => text.put(b"-"),
        (Form::Members, None) => text.put(b"null"),
        (_, Some(word)) => put_word(form, text, word),
    }
}

/// Appends words that have commas between them.
fn put_listed(form: Form, text: &mut Text, words: &[u8])
    ensures { Tells (listed_in form words.now) text.old text.new }
{
    match (form, words) {
        (Form::Columns, []) => text.put(b"-"),
        (Form::Columns, _) => text.put(words),
        (Form::Members, _) => {
            text.put(b"[");
            text.put(words);
            text.put(b"]");
        }
    }
}

#[tactic(auto, unfolding(crate::specs::Figures::figure_in))]
fn put_count(form: Form, text: &mut Text, key: &str, count: u32)
    ensures { Tells (figure_in form (key.now, Count count)) text.old text.new }
{
    put_key(form, text, key);
    put_number(text, count);
}

/// Appends the turns for which the lamp still burns.
#[tactic(auto, unfolding(crate::specs::Figures::figure_in))]
fn put_lamp(form: Form, text: &mut Text, charge: i32)
    ensures { Tells (figure_in form (codes "lamp", Signed charge)) text.old text.new }
{
    put_key(form, text, "lamp");
    put_signed(text, charge);
}

/// Appends what is in the hands; to a table, how many objects that are.
#[tactic(auto, unfolding(crate::specs::Figures::figure_in))]
fn put_carried(form: Form, text: &mut Text, cave: &Cave, state: &State)
    ensures { let held = objects_in_hands state.now.objects in
        Tells (figure_in form (codes "carried", SomeObjects (listed_object cave.now None) held))
        text.old text.new }
{
    put_key(form, text, "carried");
    match form {
        Form::Columns => {
            let count = state.holding();
            write!(text, "{count}");
        }
        Form::Members => {
            let carried = state.in_hands();
            put_object_list(text, cave, None, carried.as_slice());
        }
    }
}

/// Appends the question that is open.
#[tactic(auto, unfolding(crate::specs::Figures::figure_in))]
fn put_question(form: Form, text: &mut Text, question: Option<Question>)
    ensures { Tells (figure_in form (codes "question", OneWord (option_map question_word question)))
        text.old text.new }
{
    put_key(form, text, "question");
    match question {
        None => put_word_or_none(form, text, None),
        Some(asked) => {
            let mut word = text.beside();
            put_question_word(&mut word, asked);
            let word = text.bytes_of(word);
            put_word(form, text, &word);
        }
    }
}

/// Appends how the game has ended.
#[tactic(auto, unfolding(crate::specs::Figures::figure_in))]
fn put_ended(form: Form, text: &mut Text, ending: Option<Ending>)
    ensures { Tells (figure_in form (codes "ended", OneWord (option_map ending_word ending)))
        text.old text.new }
{
    put_key(form, text, "ended");
    match ending {
        None => put_word_or_none(form, text, None),
        Some(ended) => put_word(form, text, ending_word(ended).as_bytes()),
    }
}

/// Appends the name of an event after a comma, if it happened.
#[tactic(auto, unfolding(crate::specs::Figures::next_event))]
fn put_next_event(
    form: Form,
    text: &mut Text,
    rules: &Rules<'_>,
    before: &State,
    after: &State,
    event: Event,
)
    ensures { Tells (next_event form (cave_of rules.now) before.now after.now event)
        text.old text.new }
{
    if !happens(rules, before, after, event) {
        return;
    }
    text.put(b",");
    put_word(form, text, event_name(event).as_bytes());
}

/// Appends the names of those of these events that happened, each after a comma.
fn put_more_events(
    form: Form,
    text: &mut Text,
    rules: &Rules<'_>,
    before: &State,
    after: &State,
    events: &[Event],
)
    ensures { Tells (flat_map (next_event form (cave_of rules.now) before.now after.now) events.now)
        text.old text.new }
{
    for event in events {
        put_next_event(form, text, rules, before, after, *event);
    }
}

/// The names without the comma before the first.
fn without_comma(names: &[u8]) -> &[u8]
    ensures { result.now ≡ drop 1 names.now }
{
    match names {
        [] => &[],
        [_, rest @ ..] => rest,
    }
}

/// Appends the names of the events that happened, each after a comma.
#[tactic(auto, using(crate::proofs::WalkLemmas::listing_events))]
fn put_event_names(form: Form, text: &mut Text, rules: &Rules<'_>, before: &State, after: &State)
    ensures { let happened = happened_words (cave_of rules.now) before.now after.now in Tells
        (flat_map (next_value (word_in form)) happened) text.old text.new }
{
    put_more_events(form, text, rules, before, after, &each_event());
}

/// Appends what happened. If nothing did, the text that is kept for a moment takes no memory.
#[tactic(auto, unfolding(crate::specs::Figures::figure_in))]
fn put_happened(form: Form, text: &mut Text, rules: &Rules<'_>, before: &State, after: &State)
    ensures { let happened = happened_words (cave_of rules.now) before.now after.now in Tells
        (figure_in form (codes "happened", SomeWords happened)) text.old text.new }
{
    let mut names = text.beside();
    put_event_names(form, &mut names, rules, before, after);
    put_key(form, text, "happened");
    let names = text.bytes_of(names);
    put_listed(form, text, without_comma(&names));
}

#[tactic(auto, unfolding(crate::specs::Figures::place_figures))]
fn put_place_figures(form: Form, text: &mut Text, before: &State, after: &State)
    ensures { Tells (flat_map (figure_in form) (place_figures before.now after.now)) text.old
        text.new }
{
    put_count(form, text, "from", u32::from(before.trail.here.number()));
    put_count(form, text, "to", u32::from(after.trail.here.number()));
}

#[tactic(auto, unfolding(crate::specs::Figures::count_figures))]
fn put_count_figures(form: Form, text: &mut Text, rules: &Rules<'_>, turns: u32, after: &State)
    ensures { Tells (flat_map (figure_in form) (count_figures (cave_of rules.now) turns after.now))
        text.old text.new }
{
    put_count(form, text, "turns", turns);
    put_count(form, text, "score", score_by(&Scorer::of(rules), after));
    put_lamp(form, text, after.lamp.charge.turns());
    put_carried(form, text, rules.cave, after);
}

#[tactic(auto, unfolding(crate::specs::Figures::chance_figures))]
fn put_chance_figures(form: Form, text: &mut Text, step: &StepRow<'_>)
    ensures { Tells (flat_map (figure_in form) (chance_figures step.now.line.now
        step.now.before.now step.now.after.now)) text.old text.new }
{
    let drawn = draws_at(step.line, step.before.stream, step.after.stream);
    put_count(form, text, "draws", drawn);
    put_count(form, text, "stream", step.after.stream.position());
}

#[tactic(auto, unfolding(crate::specs::Figures::outcome_figures))]
fn put_outcome_figures(
    form: Form,
    text: &mut Text,
    rules: &Rules<'_>,
    before: &State,
    after: &State,
)
    ensures { Tells (flat_map (figure_in form) (outcome_figures (cave_of rules.now) before.now
        after.now)) text.old text.new }
{
    put_question(form, text, after.question);
    put_ended(form, text, after.ending);
    put_happened(form, text, rules, before, after);
}

/// Appends the figures of a line.
#[tactic(auto, using(crate::proofs::WalkLemmas::figures_in_four))]
pub(crate) fn put_figures(form: Form, text: &mut Text, rules: &Rules<'_>, step: &StepRow<'_>)
    ensures { Tells (flat_map (figure_in form) (figures (cave_of rules.now) step.now.line.now
        step.now.turns step.now.before.now step.now.after.now)) text.old text.new }
{
    put_place_figures(form, text, step.before, step.after);
    put_count_figures(form, text, rules, step.turns, step.after);
    put_chance_figures(form, text, step);
    put_outcome_figures(form, text, rules, step.before, step.after);
}
