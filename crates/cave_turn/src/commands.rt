ghost use Rattle.std.specs.Prelude.{◌≡◌, ◌+◌, ◌<◌, ◌≤◌, [], ◌∷◌};
ghost use Rattle.arrayvec.specs.ArrayVec.{array_vec_len};
ghost use Rattle.turn_scene.specs.Bounds.{GoesOnSaying, HasRoom, MovesOnSaying, parts_of_journey};
ghost use Rattle.turn_scene.specs.Bounds.{parts_of_arrival, parts_of_command, room_of_request};
ghost use Rattle.turn_scene.specs.Bounds.{parts_of_request, parts_of_timed_request};
ghost use Rattle.turn_scene.specs.Bounds.{room_of_timed_request};
ghost use Rattle.turn_scene.specs.Scene.{scene_of, cave_of};
ghost use Rattle.cave_turn.specs.Commands.{with_magic_waiting, is_elsewhere, forget_knife_rows};
ghost use Rattle.cave_turn.specs.Commands.{after_travel, after_unknown_word, after_vanished_knives};
ghost use Rattle.cave_turn.specs.Commands.{after_next, followed, keep_half_command, do_verb};
ghost use Rattle.cave_turn.specs.Commands.{do_request, after_remembering, after_keeping};
ghost use Rattle.cave_turn.specs.Commands.{after_understood, after_words, after_unread};
ghost use Rattle.cave_turn.specs.Commands.{after_clocks, after_timed_words, after_command};
ghost use Rattle.cave_turn.specs.Commands.{do_action, verb_that_asks};
ghost use Rattle.cave_verbs.specs.Verbs.{verb_of};
ghost use Rattle.turn_scene.specs.Rows.{act_of, deed, Does, by_table};
ghost use Rattle.cave_world.specs.declared.tables.Table.TheVariants as table;
ghost use Rattle.cave_data.specs.CaveView.{CaveView};

use crate::finish::end_turn;
use crate::half_command::HalfCommand;
use crate::request::{Request, Understood, read_words};
use cave_verbs::{Next, Task, Verb, act_in_scene, tell_default};
use cave_words::{Named, Word, Words};
use cave_world::{Ending, Knife, Magic, Out, Part, RowNotes, State, Table, WordLine};
use data_rows::Role;
use turn_clocks::{Clocks, run_clocks};
use turn_ends::{ask, end_as};
use turn_moves::{arrive, describe_here, journey_by_request};
use turn_scene::{Rules, Scene, rows};
use world_objects::{Object, Place};

/// Does what a command line says.
#[tactic(auto, unfolding(crate::specs::Commands::after_command, crate::specs::Commands::begin_command))]
pub fn command<N: RowNotes>(
    rules: &Rules<'_>,
    line: &[u8],
    state: &mut State,
    out: &mut Out,
    notes: &mut N,
)
    requires parts { out.old.items ≡ [] }
    requires rows { N.rows notes.old ≡ [] }
    ensures state { (after_command (cave_of rules.now) line.now state.old).state ≡ state.new }
    ensures parts { (after_command (cave_of rules.now) line.now state.old).parts ≡ out.new.items }
    ensures rows { (after_command (cave_of rules.now) line.now state.old).rows ≡ N.rows notes.new }
    ensures few { array_vec_len out.new ≤ parts_of_command }
{
    wait_for_magic(state);
    let was_dark = state.dark(rules.cave, rules.thing(Named::Lamp));
    let words = rules.words_of(line);
    let mut scene = Scene::open(state, out, notes, was_dark);
    forget_knife(rules, &mut scene);
    do_timed_words(rules, words, &mut scene);
    end_turn(rules, &mut scene);
}

/// A magic word waits for the next command. If that says none, the words begin again.
fn wait_for_magic(state: &mut State)
    ensures { state.new ≡ with_magic_waiting state.old }
{
    let magic = state.talk.magic.value();
    state.talk.magic = Magic::new((-magic).min(0));
}

/// Whether a knife lies at another place than this.
fn is_elsewhere(here: Place, knife: Knife) -> bool
    ensures { result ≡ is_elsewhere here knife }
{
    match knife {
        Knife::At(place) => place != here,
        Knife::Unthrown | Knife::Vanished => false,
    }
}

/// Forgets a knife that was thrown elsewhere.
#[tactic(auto, unfolding(crate::specs::Commands::forget_knife_rows))]
fn forget_knife<N: RowNotes>(rules: &Rules<'_>, scene: &mut Scene<'_, N>)
    ensures rows { Does N.rows (by_table table.KnifeForgotten forget_knife_rows ∷ []) 0 rules.now tt
        scene.old scene.new }
{
    rows! { scene, Table::KnifeForgotten;
        is_elsewhere(scene.state.trail.here, scene.state.dwarves.knife)
            => { scene.state.dwarves.knife = Knife::Unthrown; };
    }
}

#[tactic(auto, unfolding(crate::specs::Commands::after_travel))]
fn travel_by<N: RowNotes>(rules: &Rules<'_>, motion: u16, scene: &mut Scene<'_, N>)
    requires { HasRoom (parts_of_arrival scene.old.left + parts_of_journey) scene.old }
    ensures scene { scene_of N.rows scene.new
        ≡ after_travel (cave_of rules.now) motion (scene_of N.rows scene.old) }
    ensures says { MovesOnSaying (parts_of_arrival scene.old.left + parts_of_journey) scene.old
        scene.new }
{
    let place = journey_by_request(rules, motion, scene);
    arrive(rules, place, scene);
}

/// Says that the cave doesn't have the word.
#[tactic(auto, unfolding(crate::specs::Commands::after_unknown_word, crate::specs::Commands::unknown_word_rows))]
fn tell_unknown_word<N: RowNotes>(rules: &Rules<'_>, scene: &mut Scene<'_, N>)
    requires { HasRoom 1 scene.old }
    ensures scene { scene_of N.rows scene.new
        ≡ after_unknown_word (cave_of rules.now) (scene_of N.rows scene.old) }
    ensures says { GoesOnSaying 1 scene.old scene.new }
{
    let first = scene.happens(20);
    let second = scene.happens(20);
    rows! { scene, Table::UnknownWord;
        second => say(Role::NoWord3);
        first => say(Role::NoWord2);
        otherwise => say(Role::NoWord);
    }
}

/// Says that the knives vanished.
fn tell_vanished_knives<N: RowNotes>(scene: &mut Scene<'_, N>)
    requires { HasRoom 1 scene.old }
    ensures scene { scene_of N.rows scene.new ≡ after_vanished_knives (scene_of N.rows scene.old) }
    ensures says { GoesOnSaying 1 scene.old scene.new }
{
    scene.state.dwarves.knife = Knife::Vanished;
    scene.say(Role::Knife);
}

/// Does what a verb left to the turn.
fn do_next<N: RowNotes>(rules: &Rules<'_>, next: &Next, scene: &mut Scene<'_, N>)
    requires { HasRoom (parts_of_arrival scene.old.left) scene.old }
    ensures scene { scene_of N.rows scene.new
        ≡ after_next (cave_of rules.now) next.now (scene_of N.rows scene.old) }
    ensures says { MovesOnSaying (parts_of_arrival scene.old.left) scene.old scene.new }
{
    match next {
        Next::Stay | Next::Keep => {}
        Next::Describe => describe_here(rules, scene),
        Next::Arrive(place) => arrive(rules, *place, scene),
        Next::Ask(question) => ask(rules, question, scene),
        Next::End(ending) => end_as(rules, *ending, scene),
    }
}

/// Does a verb by the first of its rows that fits, and then what follows, which is returned.
#[tactic(auto, unfolding(crate::specs::Commands::do_verb))]
fn do_verb<N: RowNotes>(rules: &Rules<'_>, task: Task, scene: &mut Scene<'_, N>) -> Next
    requires { HasRoom (room_of_request scene.old.left) scene.old }
    ensures scene { act_of (scene_of N.rows scene.new) result
        ≡ do_verb (cave_of rules.now) task (scene_of N.rows scene.old) }
    ensures says { MovesOnSaying (parts_of_request scene.old.left) scene.old scene.new }
{
    let next = act_in_scene(rules, task, scene);
    do_next(rules, &next, scene);
    next
}

/// Does an action by its rules, if it has any; otherwise says what the cave says of it.
fn do_action<N: RowNotes>(
    rules: &Rules<'_>,
    number: u16,
    object: Object,
    word: Word,
    scene: &mut Scene<'_, N>,
) -> Next
    requires { HasRoom (room_of_request scene.old.left) scene.old }
    ensures scene { act_of (scene_of N.rows scene.new) result
        ≡ do_action (cave_of rules.now) (verb_of number) number object word
        (scene_of N.rows scene.old) }
    ensures says { MovesOnSaying (parts_of_request scene.old.left) scene.old scene.new }
{
    match Verb::try_from(number) {
        Ok(verb) => do_verb(rules, Task::of(verb, object, word), scene),
        Err(_) => {
            tell_default(rules, number, scene);
            Next::Stay
        }
    }
}

/// Does what was read. Returns what a verb leaves to the turn.
fn do_request<N: RowNotes>(rules: &Rules<'_>, request: &Request, scene: &mut Scene<'_, N>) -> Next
    requires { HasRoom (room_of_request scene.old.left) scene.old }
    ensures scene { act_of (scene_of N.rows scene.new) result
        ≡ do_request (cave_of rules.now) request.now (scene_of N.rows scene.old) }
    ensures says { MovesOnSaying (parts_of_request scene.old.left) scene.old scene.new }
{
    match request {
        Request::Unknown => {
            tell_unknown_word(rules, scene);
            Next::Stay
        }
        Request::Motion(motion) => {
            travel_by(rules, *motion, scene);
            Next::Stay
        }
        Request::Tell(part) => {
            scene.tell(*part);
            Next::Stay
        }
        Request::Knives => {
            tell_vanished_knives(scene);
            Next::Stay
        }
        Request::Act(number, object, word) => do_action(rules, *number, *object, *word, scene),
        Request::WhatToDo(word) => {
            scene.tell(Part::Word(WordLine::WhatToDo, *word));
            Next::Stay
        }
    }
}

/// The number of the verb that asks for its object, if one does.
fn verb_that_asks(request: &Request, next: &Next) -> Option<u16>
    ensures { result ≡ verb_that_asks request.now next.now }
{
    match (request, next) {
        (Request::Act(number, _, _), Next::Keep) => Some(*number),
        _ => None,
    }
}

/// What is kept for the next command: the verb that asks for its object, or what was said so far.
#[tactic(auto, unfolding(crate::specs::Commands::keep_half_command))]
fn keep_half_command<N: RowNotes>(
    understood: &Understood,
    next: &Next,
    scene: &mut Scene<'_, N>,
) -> Option<HalfCommand>
    ensures kept { (cave : CaveView) → act_of (scene_of N.rows scene.new) result
        ≡ keep_half_command
        (deed cave (followed understood.now next.now) (scene_of N.rows scene.old)) }
    ensures says { GoesOnSaying 0 scene.old scene.new }
{
    let verb = verb_that_asks(&understood.request, next);
    let verb_alone = HalfCommand {
        verb,
        object: Object::none(),
    };
    rows! { scene, Table::HalfCommand, None;
        verb.is_some() => {} -> Some(verb_alone);
        matches!(understood.request, Request::WhatToDo(_)) => {} -> Some(understood.half);
        matches!(understood.request, Request::Unknown) => {} -> Some(understood.half);
        otherwise => {};
    }
}

/// Remembers what is kept. If nothing is, the object that was read becomes the last object.
fn remember_command(kept: Option<HalfCommand>, object: Object, state: &mut State)
    ensures { state.new ≡ after_remembering kept object state.old }
{
    match kept {
        Some(half) => {
            state.talk.verb = half.verb;
            state.talk.object = half.object;
        }
        None => {
            state.talk.verb = None;
            state.talk.object = Object::none();
            state.talk.last = object;
        }
    }
}

/// Does what was read, and remembers what is left of it.
#[tactic(auto, unfolding(crate::specs::Commands::after_understood, crate::specs::Commands::after_keeping))]
fn do_understood<N: RowNotes>(rules: &Rules<'_>, understood: &Understood, scene: &mut Scene<'_, N>)
    requires { HasRoom (room_of_request scene.old.left) scene.old }
    ensures scene { scene_of N.rows scene.new
        ≡ after_understood (cave_of rules.now) understood.now (scene_of N.rows scene.old) }
    ensures says { MovesOnSaying (parts_of_request scene.old.left) scene.old scene.new }
{
    let next = do_request(rules, &understood.request, scene);
    let kept = keep_half_command(understood, &next, scene);
    remember_command(kept, understood.half.object, scene.state);
}

/// Does what the words of a line say.
fn do_words<N: RowNotes>(rules: &Rules<'_>, words: Words, scene: &mut Scene<'_, N>)
    requires { HasRoom (room_of_request scene.old.left) scene.old }
    ensures scene { scene_of N.rows scene.new
        ≡ after_words (cave_of rules.now) words.first words.second (scene_of N.rows scene.old) }
    ensures says { MovesOnSaying (parts_of_request scene.old.left) scene.old scene.new }
{
    match words.first {
        None => {}
        Some(word) => {
            let understood = read_words(rules, word, words.second, scene);
            do_understood(rules, &understood, scene);
        }
    }
}

/// A command that isn't read leaves nothing for the next line.
#[tactic(auto, unfolding(crate::specs::Commands::after_keeping))]
fn leave_unread<N: RowNotes>(scene: &mut Scene<'_, N>)
    ensures scene { scene_of N.rows scene.new ≡ after_unread (scene_of N.rows scene.old) }
    ensures says { GoesOnSaying 0 scene.old scene.new }
{
    remember_command(None, Object::none(), scene.state);
}

/// Does what the clocks leave of a command.
fn go_on_after_clocks<N: RowNotes>(
    rules: &Rules<'_>,
    words: Words,
    clocks: Clocks,
    scene: &mut Scene<'_, N>,
)
    requires { HasRoom (room_of_request scene.old.left) scene.old }
    ensures scene { scene_of N.rows scene.new
        ≡ after_clocks (cave_of rules.now) words clocks (scene_of N.rows scene.old) }
    ensures says { MovesOnSaying (parts_of_request scene.old.left) scene.old scene.new }
{
    match clocks {
        Clocks::GoOn => do_words(rules, words, scene),
        Clocks::GaveUp => {
            end_as(rules, Ending::Quit, scene);
            leave_unread(scene);
        }
        Clocks::Closed(place) => {
            arrive(rules, place, scene);
            leave_unread(scene);
        }
    }
}

/// Runs the clocks, and does what the words of the line say.
#[tactic(auto, unfolding(crate::specs::Commands::after_timed_words))]
fn do_timed_words<N: RowNotes>(rules: &Rules<'_>, words: Words, scene: &mut Scene<'_, N>)
    requires { HasRoom (room_of_timed_request scene.old.left) scene.old }
    ensures scene { scene_of N.rows scene.new
        ≡ after_timed_words (cave_of rules.now) words (scene_of N.rows scene.old) }
    ensures says { MovesOnSaying (parts_of_timed_request scene.old.left) scene.old scene.new }
{
    let clocks = run_clocks(rules, scene);
    go_on_after_clocks(rules, words, clocks, scene);
}
