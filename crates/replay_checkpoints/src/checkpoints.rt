ghost use Rattle.std.specs.Prelude.{◌≡◌, ◌+◌, ◌-◌, ◌<◌, ◌≤◌, [], ◌∷◌, length, slice_index};
ghost use Rattle.std.specs.Prelude.{slice_get, Some, IfOk, OnOk};
ghost use Rattle.replay_checkpoints.specs.Marks.{IsBegunAt};
ghost use Rattle.replay_checkpoints.specs.Spacing.{IsSpaced, most_spaced};

mod join;

use crate::kept_state::KeptState;
use crate::marks::{Mark, Marks};
use crate::placed_states::PlacedStates;
use std::alloc::{AllocError, Global};
use std::marker::Model;

/// The checkpoints of a log: spaced places, whose states are kept.
#[derive(Drop)]
pub struct Checkpoints<K: KeptState> {
    every: u32,
    lines: u32,
    kept: PlacedStates<K>,
}

impl<K: KeptState> Model for Checkpoints<K> {
    ghost use Rattle.std.specs.Prelude.{length};
    ghost use Rattle.replay_checkpoints.specs.Marks.{CheckpointsView, AreCheckpoints};

    ghost Value = { CheckpointsView K.State };

    ghost view = { λ c. record {
      every = c.every;
      lines = c.lines;
      places = c.kept.places;
      states = c.kept.states;
      room = c.kept.room;
    } };

    ghost invariant = { λ c. AreCheckpoints c.every c.lines c.kept.places (length c.kept.states) };
}

impl<K: KeptState> Checkpoints<K> {
    /// The checkpoints of a log whose last place was reached last.
    pub fn of(marks: Marks<K>) -> Self
        requires begun { slice_index marks.places 0 ≡ 0 }
        requires done { marks.next ≡ marks.end }
        ensures settings { (result.every ≡ marks.every) × (result.lines ≡ marks.end) }
        ensures places { result.places ≡ marks.places }
        ensures states { result.states ≡ marks.states }
        ensures spaced { IsSpaced result.every result.places result.lines }
    {
        let every = marks.every();
        let lines = marks.end();
        Checkpoints {
            every,
            lines,
            kept: marks.finish(),
        }
    }

    /// The greatest distance between neighbours.
    pub fn every(&self) -> u32
        ensures { result ≡ self.now.every }
    {
        self.every
    }

    /// How many lines the log has.
    pub fn lines(&self) -> u32
        ensures lines { result ≡ self.now.lines }
        ensures spaced { IsSpaced self.now.every self.now.places self.now.lines }
    {
        self.lines
    }

    /// The places of the checkpoints, in ascending order.
    pub fn places(&self) -> &[u32]
        ensures places { result.now ≡ self.now.places }
        ensures spaced { IsSpaced self.now.every self.now.places self.now.lines }
        ensures few { length self.now.places ≤ most_spaced self.now.every self.now.lines }
        ensures even { length self.now.states ≡ length self.now.places }
    {
        self.kept.places()
    }

    /// The state at the checkpoint of this index.
    pub fn state(&self, index: usize) -> K::State
        requires { index < length self.now.places }
        ensures { slice_get self.now.states index ≡ Some result }
    {
        self.kept.state(index)
    }

    /// Reserves room for this many more.
    pub fn reserve(&mut self, additional: usize) -> Result<(), AllocError>
        ensures settings { (self.new.every ≡ self.old.every) × (self.new.lines ≡ self.old.lines) }
        ensures places { self.new.places ≡ self.old.places }
        ensures states { self.new.states ≡ self.old.states }
        ensures room { OnOk result (length self.new.places + additional ≤ self.new.room) }
    {
        self.kept.reserve(additional)
    }

    /// Begins the marks of an edited log of `end` lines at the checkpoint of the index `at`. The
    /// one before it is kept where it is; `at` itself stays open.
    pub fn marks(&self, alloc: Global, at: usize, end: u32) -> Result<Marks<K>, AllocError>
        requires among { at < length self.now.places }
        requires within { slice_index self.now.places at ≤ end }
        ensures begun { IfOk result (IsBegunAt self.now at) }
        ensures end { IfOk result (λ marks. marks.end ≡ end) }
        ensures even { IfOk result (λ marks. length marks.states ≡ length marks.places) }
        ensures kept { IfOk result (λ marks.
            (marks.places ≡ slice_index self.now.places (at - 1) ∷ [])
            × (slice_get self.now.states (at - 1) ≡ slice_get marks.states 0)) }
        ensures open { IfOk result (λ marks. (marks.next ≡ slice_index self.now.places at)
            × (slice_get self.now.states at ≡ Some marks.state)) }
    {
        let start = self.mark(at.saturating_sub(1));
        let from = self.mark(at);
        Marks::begin(alloc, self.every, end, start, from)
    }

    /// The checkpoint of this index.
    fn mark(&self, index: usize) -> Mark<'_, K>
        requires { index < length self.now.places }
        ensures place { result.place ≡ slice_index self.now.places index }
        ensures state { slice_get self.now.states index ≡ Some (K.state_of result.kept.now) }
    {
        Mark {
            place: self.kept.place(index),
            kept: self.kept.kept(index),
        }
    }

    /// Checkpoints at the same places, with the same states.
    pub fn copy(&self, alloc: Global) -> Result<Self, AllocError>
        ensures settings { IfOk result (λ copied. (copied.every ≡ self.now.every)
            × (copied.lines ≡ self.now.lines)) }
        ensures places { IfOk result (λ copied. copied.places ≡ self.now.places) }
        ensures states { IfOk result (λ copied. copied.states ≡ self.now.states) }
    {
        Ok(Checkpoints {
            every: self.every,
            lines: self.lines,
            kept: self.kept.copy(alloc)?,
        })
    }
}
