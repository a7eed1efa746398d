//! Calls of a session whose memory is refused, over a machine that is no game and over a cave.
//!
//! Each test passes if any one allocation is refused. The answer is then out of memory, the session
//! shows what it showed, and the same call succeeds with ample memory: an edit with the replay that
//! it has in a session to which nothing happened.

ghost use Rattle.cave_words.specs.Lexicon.{IsLexiconOf};

use crate::edits::{LineChange, edits_of};
use crate::machine::{Counter, Counts};
use crate::session::TestSession;
use base_lines::Meter;
use cave_data::Cave;
use cave_replay::{OpenFault, Playable};
use cave_words::Lexicon;
use cave_world::Part;
use data_rows::Role;
use play_machine::CaveMachine;
use replay_edits::{Edit, EditFault};
use std::alloc::{AllocError, Global};
use std::process::Abort;
use std::test::Fail;
use turn_text::render;

/// A log of five lines.
const LOG: &[u8] = b"no\nin\ntake lamp\nout\nlook\n";

/// Edits of it, which are made one after another: some by themselves, and some as a group.
const CHANGES: [&[LineChange]; 7] = [
    &[LineChange::Insert(0, b"new")],
    &[LineChange::Insert(3, b"a line of more than 14 bytes")],
    &[LineChange::Replace(2, b"look")],
    &[LineChange::Delete(6)],
    &[LineChange::Reseed(7)],
    &[LineChange::Reseed(7 + 256 * 1_048_576)],
    &[
        LineChange::Replace(4, b"another line that isn't short"),
        LineChange::Delete(0),
        LineChange::Insert(5, b"in"),
        LineChange::Reseed(8),
    ],
];

/// Opens a session, and again if memory is refused.
fn open<M: Playable + Copy>(
    rt: &impl Abort,
    alloc: Global,
    machine: M,
    every: u32,
    meter: &mut M::Meter,
) -> Result<TestSession<M>, OpenFault> {
    match TestSession::open(rt, alloc, machine, LOG, every, meter) {
        Err(OpenFault::Memory) => TestSession::open(rt, alloc, machine, LOG, every, meter),
        answer => answer,
    }
}

/// Copies a session, and again if memory is refused.
fn copy<M: Playable + Copy>(session: &TestSession<M>) -> Result<TestSession<M>, AllocError> {
    match session.copy() {
        Ok(copy) => Ok(copy),
        Err(_) => session.copy(),
    }
}

/// Makes edits in a session and in another that shows the same. If memory is refused to the first,
/// it still shows what the other shows. Then both make the edits by the same replay.
fn edit_both<M: Playable + Copy>(
    rt: &impl Abort,
    session: &mut TestSession<M>,
    other: &mut TestSession<M>,
    edits: &[Edit],
    meter: &mut M::Meter,
) -> Result<(), Fail> {
    let replay = match session.edit(edits, meter) {
        Err(EditFault::Memory) => {
            assert!(rt; session.is_like(other), "{edits:?}");
            session.edit(edits, meter)?
        }
        answer => answer?,
    };
    let wanted = match other.edit(edits, meter) {
        Err(EditFault::Memory) => other.edit(edits, meter)?,
        answer => answer?,
    };
    assert!(rt; replay == wanted, "{edits:?}");
    assert!(rt; session.is_like(other), "{edits:?}");
    Ok(())
}

/// Makes all edits in a session over a machine, and in a copy of it.
fn edit_all<M: Playable + Copy>(
    rt: &impl Abort,
    alloc: Global,
    machine: M,
    every: u32,
    meter: &mut M::Meter,
) -> Result<(), Fail> {
    let mut session = open(rt, alloc, machine, every, meter)?;
    let mut other = copy(&session)?;
    assert!(rt; session.is_like(&other));
    for changes in CHANGES {
        let edits = match edits_of(alloc, changes) {
            Ok(edits) => edits,
            Err(_) => edits_of(alloc, changes)?,
        };
        edit_both(rt, &mut session, &mut other, &edits, meter)?;
    }
    Ok(())
}

#[test]
fn a_session_over_a_counter_goes_on_after_each_refusal(rt: HostRuntime) -> Result<(), Fail> {
    let counts = Counts::new();
    let counter = Counter { counts: &counts };
    for every in [1, 3, 50] {
        edit_all(&rt, rt.alloc(), counter, every, &mut Meter::new())?;
    }
    Ok(())
}

/// A lamp in a hut.
const CAVE: &[u8] = b"3\n1 2 2\n2 1 3\n-1\n4\n2 IN\n3 OUT\n1002 LAMP\n2001 TAKE\n-1\n\
7\n2 2\n-1\n0\n";

/// A cave, and the lexicon of it.
struct KnownCave {
    cave: Cave,
    lexicon: Lexicon,
    ghost words: { IsLexiconOf cave lexicon },
}

impl Drop for KnownCave {
    fn drop(self) {
        let KnownCave { cave, lexicon } = self;
        drop(lexicon);
        drop(cave);
    }
}

impl KnownCave {
    /// The cave, if there is memory to read it, which is all that it may be refused for.
    fn read(alloc: Global) -> Option<KnownCave> {
        let cave = Cave::read(alloc, CAVE, b"").ok()?;
        let lexicon = match Lexicon::build(alloc, &cave) {
            Ok(lexicon) => lexicon,
            Err(_) => {
                drop(cave);
                return None;
            }
        };
        Some(KnownCave { cave, lexicon })
    }

    /// The machine that plays in it.
    fn machine(&self) -> CaveMachine<'_> {
        CaveMachine::new(&self.cave, &self.lexicon)
    }
}

#[test]
fn a_session_over_a_cave_goes_on_after_each_refusal(rt: HostRuntime) -> Result<(), Fail> {
    let known = match KnownCave::read(rt.alloc()) {
        Some(known) => known,
        None => KnownCave::read(rt.alloc()).expect(&rt, "the cave is read"),
    };
    edit_all(&rt, rt.alloc(), known.machine(), 1, &mut Meter::new())
}

#[test]
fn a_text_is_as_it_was_after_each_refusal(rt: HostRuntime) -> Result<(), Fail> {
    let known = match KnownCave::read(rt.alloc()) {
        Some(known) => known,
        None => KnownCave::read(rt.alloc()).expect(&rt, "the cave is read"),
    };
    let parts = [Part::Role(Role::Welcome), Part::Role(Role::NoWay)];
    let mut text = Vec::new(rt.alloc());
    if render(&known.cave, &parts, 0, &mut text).is_err() {
        assert!(rt; text.is_empty());
        render(&known.cave, &parts, 0, &mut text)?;
    }
    assert_eq!(rt; text.as_slice(), b"[welcome]\n[no-way]\n".as_slice());
    Ok(())
}
