ghost use Rattle.std.specs.Prelude.{◌≡◌, ℕ, ◌+◌, ◌-◌, ◌<◌, ◌≤◌, ◌^◌, ◌++◌, length, take, drop};
ghost use Rattle.std.specs.Prelude.{slice_index};
ghost use Rattle.replay_checkpoints.specs.Marks.{IsBegunAt, next_place, places_met, states_met};
ghost use Rattle.replay_checkpoints.specs.Marks.{IsThinned, IsRest, after_shift};

use super::Checkpoints;
use crate::kept_state::KeptState;
use crate::marks::Marks;
use crate::placed_states::PlacedStates;

/// Where new checkpoints join the old ones: those before the index `at` stay, and those from the
/// index `rest` on move as the place `old` moves to `new`.
#[derive(Clone, Copy)]
struct Seam {
    at: usize,
    rest: usize,
    old: u32,
    new: u32,
}

impl<K: KeptState> Checkpoints<K> {
    /// Takes over marks of the edited log that ended at the checkpoint of the index `met`: those
    /// before `at` stay, and those after `met` move with it. `state` is kept for their open place.
    pub fn meet(&mut self, marks: Marks<K>, state: K, at: usize, met: usize)
        requires state { K.state_of state ≡ marks.state }
        requires begun { IsBegunAt self.old at marks }
        requires ordered { at ≤ met }
        requires met { met < length self.old.places }
        requires end { self.old.lines - slice_index self.old.places met + marks.next ≡ marks.end }
        requires room { length self.old.places + length marks.places + (at - 1)
            ≤ self.old.room + met }
        ensures settings { (self.new.every ≡ self.old.every) × (self.new.lines ≡ marks.end) }
        ensures places { self.new.places ≡ places_met self.old marks at met }
        ensures states { self.new.states ≡ states_met self.old marks at met }
    {
        let old = self.kept.place(met);
        let new = marks.next();
        let end = marks.end();
        let place = self.next_place(met, new, end);
        let rest = met + 1;
        self.join(marks.close(state, place), Seam { at, rest, old, new }, end);
    }

    /// What follows the checkpoint of the index `met` as that moves to `new`: the next one, or the
    /// end.
    fn next_place(&self, met: usize, new: u32, end: u32) -> u32
        requires met { met < length self.now.places }
        requires end { self.now.lines - slice_index self.now.places met + new ≡ end }
        ensures place { let old = slice_index self.now.places met in
            result ≡ next_place self.now.places (met + 1) old new end }
        ensures later { new ≤ result }
        ensures near { result ≤ new + self.now.every }
        ensures within { result ≤ end }
        ensures rest { let old = slice_index self.now.places met in
            IsRest self.now.every self.now.places self.now.lines old (met + 1) }
        ensures small { met + 1 < 2 ^ 64 }
    {
        let count = self.kept.len();
        let old = self.kept.place(met);
        if met + 1 < count {
            return self.kept.place(met + 1) - old + new;
        }
        end
    }

    /// Takes over marks of the edited log that went to its end: those before `at` stay.
    pub fn replace_from(&mut self, marks: Marks<K>, at: usize)
        requires begun { IsBegunAt self.old at marks }
        requires done { marks.next ≡ marks.end }
        requires room { length marks.places + (at - 1) ≤ self.old.room }
        ensures settings { (self.new.every ≡ self.old.every) × (self.new.lines ≡ marks.end) }
        ensures places { self.new.places ≡ take (at - 1) self.old.places ++ marks.places }
        ensures states { self.new.states ≡ take (at - 1) self.old.states ++ marks.states }
    {
        let rest = self.kept.len();
        let old = self.lines;
        let end = marks.end();
        let new = end;
        self.join(marks.finish(), Seam { at, rest, old, new }, end);
    }

    /// Puts `middle` at the seam; the log then ends at `end`.
    fn join(&mut self, middle: PlacedStates<K>, seam: Seam, end: u32)
        requires among { seam.at < length self.old.places }
        requires ordered { seam.at ≤ seam.rest }
        requires rest { IsRest self.old.every self.old.places self.old.lines seam.old seam.rest }
        requires thinned { let start = slice_index self.old.places (seam.at - 1) in
            let from = slice_index self.old.places seam.at in
            let next = next_place self.old.places seam.rest seam.old seam.new end in
            IsThinned start from self.old.every middle.places next }
        requires low { (i : ℕ) → i + 1 ≡ length middle.places
            → slice_index middle.places i ≤ seam.new }
        requires even { length middle.states ≡ length middle.places }
        requires end { self.old.lines - seam.old + seam.new ≡ end }
        requires room { length self.old.places + length middle.places + (seam.at - 1)
            ≤ self.old.room + seam.rest }
        ensures settings { (self.new.every ≡ self.old.every) × (self.new.lines ≡ end) }
        ensures places { self.new.places ≡ take (seam.at - 1) self.old.places ++ (middle.places
            ++ after_shift self.old.places seam.rest seam.old seam.new) }
        ensures states { self.new.states ≡ take (seam.at - 1) self.old.states ++ (middle.states
            ++ drop seam.rest self.old.states) }
    {
        let head = seam.at.saturating_sub(1);
        let after = self.kept.len() - seam.rest;
        self.kept.splice(head, seam.rest, middle);
        let tail = self.kept.len() - after;
        self.kept.shift(tail, seam.old, seam.new);
        self.lines = end;
    }
}
