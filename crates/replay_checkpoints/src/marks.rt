ghost use Rattle.std.specs.Prelude.{◌≡◌, ℕ, ◌+◌, ◌-◌, ◌<◌, ◌≤◌, ◌^◌, [], ◌∷◌, length, slice_index};
ghost use Rattle.std.specs.Prelude.{IfOk, OnOk, OnErr};
ghost use Rattle.replay_checkpoints.specs.Marks.{places_before, states_before, IsThinned};
ghost use Rattle.replay_checkpoints.specs.Spacing.{most_spaced};

use crate::kept_state::{KeptState, keep_again};
use crate::placed_states::PlacedStates;
use std::alloc::{AllocError, Global};
use std::marker::Model;

/// A place, and the kept state at it.
#[derive(Drop)]
pub(crate) struct Mark<'a, K: KeptState> {
    pub(crate) place: u32,
    pub(crate) kept: &'a K,
}

/// Places in ascending order. Those that a log's checkpoints need are kept.
///
/// The place reached last stays open: it is kept only if the next one lies more than `every` past
/// the last one kept. There is always room to keep the open one.
#[derive(Drop)]
pub struct Marks<K: KeptState> {
    every: u32,
    end: u32,
    from: u32,
    kept: PlacedStates<K>,
    next: u32,
    state: Box<K::State>,
}

impl<K: KeptState> Model for Marks<K> {
    ghost use Rattle.std.specs.Prelude.{length};
    ghost use Rattle.replay_checkpoints.specs.Marks.{MarksView, IsSound};

    ghost Value = { MarksView K.State };

    ghost view = { λ m. record {
      every = m.every;
      end = m.end;
      from = m.from;
      places = m.kept.places;
      states = m.kept.states;
      next = m.next;
      state = m.state.value;
    } };

    ghost invariant = { λ m.
        IsSound m.every m.end m.from m.kept.places (length m.kept.states) m.next m.kept.room };
}

impl<K: KeptState> Marks<K> {
    ghost use Rattle.std.specs.Borrow.{Lends, sem};
    ghost use Rattle.replay_checkpoints.specs.contracts.marks.Marks.{the_row};
    ghost use Rattle.replay_checkpoints.specs.Marks.{marks_with_state};

    /// Begins with the start of a log of `end` lines, with room for all the places that may be
    /// kept.
    pub fn open(alloc: Global, every: u32, end: u32, state: K::State) -> Result<Self, AllocError>
        ensures settings { IfOk result (λ marks. (marks.every ≡ every) × (marks.end ≡ end)) }
        ensures begins { IfOk result (λ marks. (marks.from ≡ 0) × (marks.next ≡ 0)
            × (marks.state ≡ state)) }
        ensures kept { IfOk result (λ marks. (marks.places ≡ 0 ∷ [])
            × (marks.states ≡ state ∷ [])) }
    {
        let mut kept = PlacedStates::with_room(alloc, most_spaced(every, end))?;
        let first = kept.keep(alloc, &state)?;
        kept.push(0, first);
        Ok(Marks {
            every,
            end,
            from: 0,
            kept,
            next: 0,
            state: Box::new(alloc, state)?,
        })
    }

    /// Begins with a kept checkpoint, `start`, and the one after it, `from`, which is still open.
    pub(crate) fn begin(
        alloc: Global,
        every: u32,
        end: u32,
        start: Mark<'_, K>,
        from: Mark<'_, K>,
    ) -> Result<Self, AllocError>
        requires ordered { start.place ≤ from.place }
        requires near { from.place ≤ start.place + every }
        requires within { from.place ≤ end }
        ensures settings { IfOk result (λ marks. (marks.every ≡ every) × (marks.end ≡ end)) }
        ensures begins { IfOk result (λ marks. (marks.from ≡ from.entry.place)
            × (marks.next ≡ from.entry.place) × (marks.state ≡ K.state_of from.entry.kept.now)) }
        ensures kept { IfOk result (λ marks. (marks.places ≡ start.entry.place ∷ [])
            × (marks.states ≡ K.state_of start.entry.kept.now ∷ [])) }
    {
        let mut kept = PlacedStates::with_room(alloc, 2)?;
        kept.push(start.place, keep_again(alloc, start.kept)?);
        Ok(Marks {
            every,
            end,
            from: from.place,
            kept,
            next: from.place,
            state: Box::new(alloc, from.kept.state())?,
        })
    }

    /// Goes on to the next place. The one before it, which was open until now, is kept if it has to
    /// be. The caller also finds its state at the next place, and changes it there.
    pub fn advance(&mut self, place: u32) -> Result<(), AllocError>
        requires later { self.old.next < place }
        requires near { place ≤ self.old.next + self.old.every }
        requires within { place ≤ self.old.end }
        ensures places { OnOk result (self.new.places ≡ places_before self.old place) }
        ensures states { OnOk result (self.new.states ≡ states_before self.old place) }
        ensures start { slice_index self.new.places 0 ≡ slice_index self.old.places 0 }
        ensures open { OnOk result (self.new.next ≡ place) }
        ensures state { self.new.state ≡ self.old.state }
        ensures settings { (self.new.every ≡ self.old.every) × (self.new.end ≡ self.old.end)
            × (self.new.from ≡ self.old.from) }
        ensures refused { OnErr result (self.new ≡ self.old) }
    {
        if self.kept.is_far(self.every, place) {
            let open = self.keep_open()?;
            self.kept.reserve(2)?;
            self.kept.push(self.next, open);
        }
        self.next = place;
        Ok(())
    }

    /// Keeps the state at the place reached last, which stays open.
    pub fn keep_open(&self) -> Result<K, AllocError>
        ensures { IfOk result (λ kept. K.state_of kept ≡ self.now.state) }
    {
        self.kept.keep(*Box::allocator(&self.state), &self.state)
    }

    /// The state at the place reached last, for the caller to change.
    pub fn state_mut(&mut self) -> &mut K::State
        ensures* lends { sem 𝓛 (Lends (the_row K.row K.State.row K.KeptState) K.State.row
            self.entry result (marks_with_state self.old)) }
        ensures value { result.now ≡ self.old.state }
    {
        &mut self.state
    }

    /// How many are kept, without the open one.
    pub fn len(&self) -> usize
        ensures len { result ≡ length self.now.places }
        ensures few { result < 2 ^ 62 }
    {
        self.kept.len()
    }

    /// The place reached last.
    pub fn next(&self) -> u32
        ensures next { result ≡ self.now.next }
        ensures within { result ≤ self.now.end }
    {
        self.next
    }

    /// The state at the place reached last.
    pub fn state(&self) -> &K::State
        ensures { result.now ≡ self.now.state }
    {
        &self.state
    }

    /// The most lines between two neighbours.
    pub(crate) fn every(&self) -> u32
        ensures { result ≡ self.now.every }
    {
        self.every
    }

    /// How many lines the log has.
    pub(crate) fn end(&self) -> u32
        ensures { result ≡ self.now.end }
    {
        self.end
    }

    /// What is kept if `place` follows the open place, whose `state` is already kept.
    pub(crate) fn close(self, state: K, place: u32) -> PlacedStates<K>
        requires state { K.state_of state ≡ self.state }
        requires after { self.next ≤ place }
        requires near { place ≤ self.next + self.every }
        requires within { place ≤ self.end }
        ensures places { result.places ≡ places_before self place }
        ensures states { result.states ≡ states_before self place }
        ensures even { length result.states ≡ length result.places }
        ensures thinned { let start = slice_index self.places 0 in
            IsThinned start self.from self.every result.places place }
        ensures low { (i : ℕ) → i + 1 ≡ length result.places
            → slice_index result.places i ≤ self.next }
    {
        let Marks {
            every,
            end: _,
            from: _,
            mut kept,
            next,
            state: _,
        } = self;
        kept.push_before(next, state, every, place);
        kept
    }

    /// What is kept if nothing follows the open place.
    pub(crate) fn finish(self) -> PlacedStates<K>
        ensures places { result.places ≡ self.places }
        ensures states { result.states ≡ self.states }
        ensures even { length result.states ≡ length result.places }
        ensures thinned { let start = slice_index self.places 0 in
            IsThinned start self.from self.every result.places self.next }
    {
        let Marks {
            every: _,
            end: _,
            from: _,
            kept,
            next: _,
            state: _,
        } = self;
        kept
    }
}

/// The most places that spacing leaves room for in a log of `end` lines.
fn most_spaced(every: u32, end: u32) -> usize
    ensures { result ≡ most_spaced every end }
{
    2 * (end as usize / (every as usize + 1)) + 2
}
