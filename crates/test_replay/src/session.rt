//! Sessions over any machine, through calls that promise nothing: the tests are proved without what
//! a session promises, and look at what it does.

use crate::machine::Counter;
use base_lines::Steps;
use cave_replay::{OpenFault, Playable, Session};
use replay_edits::{Edit, EditFault};
use std::alloc::{AllocError, Global};
use std::process::Abort;

/// Where the replay of edits began, where it met the old play, and how many lines it played.
pub(crate) type Replay = (u32, Option<u32>, u32);

/// A session over a machine.
pub(crate) struct TestSession<M: Playable> {
    session: Session<M>,
}

impl<M: Playable> Drop for TestSession<M> {
    fn drop(self) {
        let TestSession { session } = self;
        drop(session);
    }
}

impl<M: Playable + Copy> TestSession<M> {
    /// A session with seed 0.
    pub(crate) fn open(
        rt: &impl Abort,
        alloc: Global,
        machine: M,
        log: &[u8],
        every: u32,
        meter: &mut M::Meter,
    ) -> Result<TestSession<M>, OpenFault> {
        assert!(rt; meter.left() > 65_535);
        let session = Session::open(alloc, machine, 0, log, every, meter)?;
        Ok(TestSession { session })
    }

    /// A session over the same machine that shows the same.
    pub(crate) fn copy(&self) -> Result<TestSession<M>, AllocError> {
        let session = self.session.copy(*self.session.machine())?;
        Ok(TestSession { session })
    }

    /// Makes a single edit by `edit`, and several by `edit_group`.
    pub(crate) fn edit(
        &mut self,
        edits: &[Edit],
        meter: &mut M::Meter,
    ) -> Result<Replay, EditFault> {
        if let [edit] = edits {
            let done = self.session.edit(edit, meter)?;
            return Ok((done.from, done.met, done.played));
        }
        match self.session.edit_group(edits, meter) {
            Ok(done) => Ok((done.from, done.met, done.played)),
            Err(refused) => Err(refused.cause),
        }
    }

    /// Makes an edit, and then the one that takes it back. Returns the replay of the first.
    pub(crate) fn edit_and_back(
        &mut self,
        edit: &Edit,
        meter: &mut M::Meter,
    ) -> Result<Replay, EditFault> {
        let done = self.session.edit(edit, meter)?;
        let _ = self.session.edit(&done.inverse, meter)?;
        Ok((done.from, done.met, done.played))
    }

    /// How many lines the held log has.
    pub(crate) fn lines(&self) -> u32 {
        self.session.lines()
    }

    /// The places whose states are kept.
    pub(crate) fn checkpoints(&self) -> &[u32] {
        self.session.checkpoints()
    }

    /// Whether two sessions have the same line at a place, which ticked in both or in neither.
    fn is_like_at(&self, other: &TestSession<M>, place: u32) -> bool {
        place < self.session.lines()
            && place < other.session.lines()
            && self.session.line(place) == other.session.line(place)
            && self.session.ticked(place) == other.session.ticked(place)
    }

    /// Whether two sessions hold the same game, checkpoints and last state, regardless of what was
    /// said.
    pub(crate) fn is_like(&self, other: &TestSession<M>) -> bool {
        for place in 0..self.session.lines() {
            if !self.is_like_at(other, place) {
                return false;
            }
        }
        self.session.lines() == other.session.lines()
            && self.session.seed() == other.session.seed()
            && self.session.checkpoints() == other.session.checkpoints()
            && *self.session.state() == *other.session.state()
    }
}

impl TestSession<Counter<'_>> {
    /// What was said at a place, or nothing where there is no line.
    fn said_at(&self, place: u32) -> &[usize] {
        match self.session.pieces().get(place as usize) {
            Some(piece) => piece.as_slice(),
            None => &[],
        }
    }

    /// Whether two sessions say the same, at the opening and at each line.
    pub(crate) fn says_the_same(&self, other: &TestSession<Counter<'_>>) -> bool {
        for place in 0..self.session.lines() {
            if self.said_at(place) != other.said_at(place) {
                return false;
            }
        }
        self.session.lines() == other.session.lines()
            && self.session.opening().as_slice() == other.session.opening().as_slice()
    }

    /// The number at the end.
    pub(crate) fn number(&self) -> usize {
        self.session.state().number
    }
}
