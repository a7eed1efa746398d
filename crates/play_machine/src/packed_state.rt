ghost use Rattle.std.specs.Prelude.{◌≡◌, ◌↔◌, IfOk, IsTrue};

use crate::visited::{all_visits, visited};
use cave_words::Stream;
use cave_world::{
    Closing, Dwarves, Ending, Hints, Lamp, Question, State, Talk, Tallies, Trail, Visits,
};
use replay_checkpoints::KeptState;
use std::alloc::{AllocError, Global};
use std::marker::Model;
use std::rc::Rc;
use world_objects::Objects;

/// The fields of a state. It shares its objects with the state kept before, if they are the same.
/// The places after those whose visits are here were never described.
#[derive(Drop)]
struct Fields {
    objects: Rc<Objects>,
    visits: Vec<Visits>,
    trail: Trail,
    lamp: Lamp,
    closing: Closing,
    tallies: Tallies,
    talk: Talk,
    dwarves: Dwarves,
    hints: Hints,
    question: Option<Question>,
    ending: Option<Ending>,
    stream: Stream,
}

// With `--every 1` there is one for each line.
const _: () = prove!(size_of::<Fields>() <= 192);

/// A state in little memory.
#[derive(Drop)]
pub struct PackedState {
    fields: Box<Fields>,
}

impl Model for PackedState {
    ghost use Rattle.std.specs.Prelude.{◌≤◌, length};
    ghost use Rattle.base_lines.specs.Numbers.{LAST_PLACE};
    ghost use Rattle.cave_world.specs.declared.state.State.{State};
    ghost use Rattle.play_machine.specs.Machine.{state_of_fields};

    ghost Value = { State };

    ghost view = { λ p. state_of_fields p.fields.value };

    ghost invariant = { λ p. length p.fields.value.visits.items ≤ LAST_PLACE };
}

fn are_same(objects: &Objects, others: &Objects) -> bool
    ensures { IsTrue result ↔ (objects.now ≡ others.now) }
{
    *objects == *others
}

impl PackedState {
    /// The objects, shared with those of the state kept before if they are the same.
    fn share(
        alloc: Global,
        objects: &Objects,
        last: Option<&PackedState>,
    ) -> Result<Rc<Objects>, AllocError>
        ensures { IfOk result (λ shared. shared.value ≡ objects.now) }
    {
        if let Some(last) = last {
            let known = &last.fields.objects;
            if are_same(known, objects) {
                let shared = known.clone()?;
                return Ok(shared);
            }
        }
        Ok(Rc::new(alloc, *objects)?)
    }
}

impl KeptState for PackedState {
    type State = State;

    ghost state_of = { λ packed. packed };

    fn keep(
        alloc: Global,
        state: &State,
        last: Option<&PackedState>,
    ) -> Result<PackedState, AllocError> {
        let fields = Fields {
            objects: PackedState::share(alloc, &state.objects, last)?,
            visits: Vec::from_slice(alloc, visited(&state.visits))?,
            trail: state.trail,
            lamp: state.lamp,
            closing: state.closing,
            tallies: state.tallies,
            talk: state.talk,
            dwarves: state.dwarves,
            hints: state.hints,
            question: state.question,
            ending: state.ending,
            stream: state.stream,
        };
        Ok(PackedState {
            fields: Box::new(alloc, fields)?,
        })
    }

    fn state(&self) -> State {
        let fields = &*self.fields;
        State {
            trail: fields.trail,
            objects: *fields.objects,
            visits: all_visits(&fields.visits),
            lamp: fields.lamp,
            closing: fields.closing,
            tallies: fields.tallies,
            talk: fields.talk,
            dwarves: fields.dwarves,
            hints: fields.hints,
            question: fields.question,
            ending: fields.ending,
            stream: fields.stream,
        }
    }
}
