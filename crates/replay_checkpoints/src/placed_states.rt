ghost use Rattle.std.specs.Prelude.{◌≡◌, ◌+◌, ◌-◌, ℕ, ◌<◌, ◌≤◌, ◌^◌, [], ◌∷◌, ◌++◌, if◌then◌else◌};
ghost use Rattle.std.specs.Prelude.{length, map, take, slice_index, slice_get, Some, IfOk, OnOk};
ghost use Rattle.std.specs.List.{splice};
ghost use Rattle.replay_checkpoints.specs.Marks.{is_far, after_shift};

use crate::kept_state::{KeptState, keep_again};
use crate::shift::shift_from;
use crate::stretch::splice;
use std::alloc::{AllocError, Global};
use std::marker::Model;

/// Places, and the state at each of them, which stays where it is as others come and go.
#[derive(Drop)]
pub struct PlacedStates<K: KeptState> {
    places: Vec<u32>,
    states: Vec<K>,
}

impl<K: KeptState> Model for PlacedStates<K> {
    ghost use Rattle.std.specs.Prelude.{◌≡◌, length, map, min, vec_capacity};
    ghost use Rattle.replay_checkpoints.specs.Marks.{PlacedView};

    ghost Value = { PlacedView K.State };

    ghost view = { λ p. record {
      places = p.places.items;
      states = map K.state_of p.states.items;
      room = min (vec_capacity p.places) (vec_capacity p.states);
    } };

    ghost invariant = { λ p. length p.places.items ≡ length p.states.items };
}

impl<K: KeptState> PlacedStates<K> {
    /// No places yet, with room for enough of them that no `push` can be refused.
    pub fn with_room(alloc: Global, room: usize) -> Result<Self, AllocError>
        ensures places { IfOk result (λ made. made.places ≡ []) }
        ensures states { IfOk result (λ made. made.states ≡ []) }
        ensures room { IfOk result (λ made. room ≤ made.room) }
    {
        Ok(PlacedStates {
            places: Vec::with_capacity(alloc, room)?,
            states: Vec::with_capacity(alloc, room)?,
        })
    }

    /// How many places there are.
    pub fn len(&self) -> usize
        ensures len { result ≡ length self.now.places }
        ensures even { length self.now.states ≡ length self.now.places }
        ensures few { result < 2 ^ 62 }
    {
        self.places.as_slice().len()
    }

    /// The places, in their order.
    pub fn places(&self) -> &[u32]
        ensures { result.now ≡ self.now.places }
    {
        self.places.as_slice()
    }

    /// The place of this index.
    pub fn place(&self, index: usize) -> u32
        requires { index < length self.now.places }
        ensures { result ≡ slice_index self.now.places index }
    {
        self.places[index]
    }

    /// The state at the place of this index.
    pub fn state(&self, index: usize) -> K::State
        requires { index < length self.now.places }
        ensures { slice_get self.now.states index ≡ Some result }
    {
        self.kept(index).state()
    }

    /// The state at the place of this index, as it is kept.
    pub fn kept(&self, index: usize) -> &K
        requires { index < length self.now.places }
        ensures { slice_get self.now.states index ≡ Some (K.state_of result.now) }
    {
        &self.states[index]
    }

    /// Keeps a state that may follow the last one here.
    pub fn keep(&self, alloc: Global, state: &K::State) -> Result<K, AllocError>
        ensures { IfOk result (λ kept. K.state_of kept ≡ state.now) }
    {
        K::keep(alloc, state, self.states.last())
    }

    /// Reserves room for this many more.
    pub fn reserve(&mut self, additional: usize) -> Result<(), AllocError>
        ensures places { self.new.places ≡ self.old.places }
        ensures states { self.new.states ≡ self.old.states }
        ensures room { OnOk result (length self.new.places + additional ≤ self.new.room) }
        ensures more { self.old.room ≤ self.new.room }
    {
        self.places.reserve(additional)?;
        self.states.reserve(additional)?;
        Ok(())
    }

    /// Adds a place with its state, for which there is room.
    pub fn push(&mut self, place: u32, state: K)
        requires { length self.old.places < self.old.room }
        ensures places { self.new.places ≡ self.old.places ++ place ∷ [] }
        ensures states { self.new.states ≡ self.old.states ++ K.state_of state ∷ [] }
        ensures room { self.new.room ≡ self.old.room }
    {
        self.places.push_reserved(place);
        self.states.push_reserved(state);
    }

    /// Whether `following` lies more than `every` past the last place here.
    pub fn is_far(&self, every: u32, following: u32) -> bool
        requires some { 0 < length self.now.places }
        requires ordered { slice_index self.now.places (length self.now.places - 1) ≤ following }
        ensures { result ≡ is_far every self.now.places following }
    {
        let last = self.place(self.len() - 1);
        following - last > every
    }

    /// Adds this place if `following` lies more than `every` past the last one here.
    pub fn push_before(&mut self, place: u32, state: K, every: u32, following: u32)
        requires some { 0 < length self.old.places }
        requires ordered { slice_index self.old.places (length self.old.places - 1) ≤ following }
        requires room { slice_index self.old.places (length self.old.places - 1) + every < following
            → length self.old.places < self.old.room }
        ensures places { self.new.places ≡ (if is_far every self.old.places following
            then self.old.places ++ place ∷ [] else self.old.places) }
        ensures states { self.new.states ≡ (if is_far every self.old.places following
            then self.old.states ++ K.state_of state ∷ [] else self.old.states) }
        ensures room { self.new.room ≡ self.old.room }
    {
        if self.is_far(every, following) {
            self.push(place, state);
        }
    }

    /// Replaces the places from the index `from` up to `to` by `middle`.
    pub fn splice(&mut self, from: usize, to: usize, mut middle: PlacedStates<K>)
        requires ordered { from ≤ to }
        requires within { to ≤ length self.old.places }
        requires room { length self.old.places + length middle.places
            ≤ self.old.room + (to - from) }
        ensures places { self.new.places ≡ splice self.old.places from to middle.places }
        ensures states { self.new.states ≡ splice self.old.states from to middle.states }
        ensures room { self.old.room ≤ self.new.room }
    {
        splice(&mut self.places, from, to, &mut middle.places);
        splice(&mut self.states, from, to, &mut middle.states);
    }

    /// Moves the places from the index `from` on as `old` moves to `new`.
    pub fn shift(&mut self, from: usize, old: u32, new: u32)
        requires within { from ≤ length self.old.places }
        requires after { (i : ℕ) → from ≤ i → i < length self.old.places
            → old ≤ slice_index self.old.places i }
        requires fits { (i : ℕ) → from ≤ i → i < length self.old.places
            → slice_index self.old.places i - old + new < 2 ^ 32 }
        ensures places { self.new.places ≡ take from self.old.places
            ++ after_shift self.old.places from old new }
        ensures states { self.new.states ≡ self.old.states }
        ensures even { length self.new.states ≡ length self.new.places }
        ensures room { self.new.room ≡ self.old.room }
    {
        shift_from(&mut self.places, from, old, new);
    }

    /// A copy: these places, with copies of their states.
    pub fn copy(&self, alloc: Global) -> Result<Self, AllocError>
        ensures places { IfOk result (λ copied. copied.places ≡ self.now.places) }
        ensures states { IfOk result (λ copied. copied.states ≡ self.now.states) }
    {
        Ok(PlacedStates {
            places: Vec::from_slice(alloc, self.places.as_slice())?,
            states: copy_states(alloc, &self.states)?,
        })
    }
}

/// The same states, kept once more.
fn copy_states<K: KeptState>(alloc: Global, states: &[K]) -> Result<Vec<K>, AllocError>
    ensures { IfOk result (λ copy. map K.state_of copy.items ≡ map K.state_of states.now) }
{
    let mut copy = Vec::with_capacity(alloc, states.len())?;
    for state in states {
        copy.push(keep_again(alloc, state)?)?;
    }
    Ok(copy)
}
