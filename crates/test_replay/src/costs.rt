//! What edits cost, in counts: the steps of the machine are those of the meter and of the report.

use crate::edits::{LineChange, edits_of};
use crate::machine::{Counter, Counts};
use crate::session::{Replay, TestSession};
use base_lines::{Meter, Steps};
use replay_edits::EditFault;
use std::alloc::{AllocError, Global};
use std::process::Abort;
use std::test::Fail;

/// A log that has a line this many times.
fn log_of(alloc: Global, line: &[u8], count: u32) -> Result<Vec<u8>, AllocError> {
    let mut log = Vec::new(alloc);
    for _ in 0..count {
        log.extend_from_slice(line)?;
    }
    Ok(log)
}

/// Makes edits. The machine takes the steps that the meter counts, and copies no piece. Returns the
/// replay, and how many states it compared.
fn edit_counted(
    rt: &impl Abort,
    alloc: Global,
    session: &mut TestSession<Counter<'_>>,
    counts: &Counts,
    changes: &[LineChange],
) -> Result<(Replay, u64), Fail> {
    counts.steps.set(0);
    counts.comparisons.set(0);
    let mut meter = Meter::new();
    let replay = session.edit(&edits_of(alloc, changes)?, &mut meter)?;
    assert_eq!(rt; counts.steps.get(), u64::from(replay.2));
    assert_eq!(rt; meter.used(), u64::from(replay.2));
    assert_eq!(rt; counts.copies.get(), 0);
    Ok((replay, counts.comparisons.get()))
}

/// What an edit costs in the middle of a log that has a line this many times, with checkpoints at
/// most 50 lines apart, one of which is there.
fn cost_in_the_middle(
    rt: &impl Abort,
    alloc: Global,
    line: &[u8],
    lines: u32,
    inserted: &'static [u8],
) -> Result<(Replay, u64), Fail> {
    let counts = Counts::new();
    let counter = Counter { counts: &counts };
    let log = log_of(alloc, line, lines)?;
    let mut meter = Meter::new();
    let mut session = TestSession::open(rt, alloc, counter, &log, 50, &mut meter)?;
    assert_eq!(rt; counts.steps.get(), meter.used());
    assert!(rt; session.checkpoints().contains(&(lines / 2)));
    let changes = [LineChange::Insert(lines / 2, inserted)];
    let cost = edit_counted(rt, alloc, &mut session, &counts, &changes);
    drop(session);
    cost
}

#[test]
fn an_edit_in_a_log_of_any_length_plays_up_to_where_it_meets(rt: HostRuntime) -> Result<(), Fail> {
    let alloc = rt.alloc();
    for lines in [600, 6_000, 60_000] {
        let at = lines / 2;
        let same = cost_in_the_middle(&rt, alloc, b"a\n", lines, b"b")?;
        assert!(rt; same == ((at, Some(at + 1), 1), 1));
        let word = cost_in_the_middle(&rt, alloc, b"a\n", lines, b"word")?;
        assert!(rt; word == ((at, Some(at + 51), 51), 2));
        let never = cost_in_the_middle(&rt, alloc, b"+o\n", lines, b"+word")?;
        assert!(rt; never == ((at, None, at + 1), u64::from(at / 50)));
    }
    Ok(())
}

/// Edits of each kind, and a group, which are made one after another.
const CHANGES: [&[LineChange]; 6] = [
    &[LineChange::Insert(2, b"in")],
    &[LineChange::Replace(4, b"+")],
    &[LineChange::Delete(0)],
    &[LineChange::Reseed(1)],
    &[LineChange::Reseed(257)],
    &[LineChange::Delete(3), LineChange::Insert(9, b"out")],
];

#[test]
fn an_edit_of_each_kind_takes_the_steps_that_its_meter_counts(rt: HostRuntime) -> Result<(), Fail> {
    let counts = Counts::new();
    let counter = Counter { counts: &counts };
    let log = log_of(rt.alloc(), b"no\n+in\n\nx\n", 3)?;
    for every in [1, 2, 7, 50] {
        let mut meter = Meter::new();
        let mut session = TestSession::open(&rt, rt.alloc(), counter, &log, every, &mut meter)?;
        for _round in 0..9 {
            for changes in CHANGES {
                let _ = edit_counted(&rt, rt.alloc(), &mut session, &counts, changes)?;
            }
        }
    }
    Ok(())
}

/// Edits of a log of five lines, made one after another, and how many lines each leaves.
const NEEDS: [(LineChange, u64); 4] = [
    (LineChange::Delete(0), 4),
    (LineChange::Replace(3, b"up"), 4),
    (LineChange::Reseed(8), 4),
    (LineChange::Insert(4, b"up"), 5),
];

#[test]
fn a_meter_with_fewer_steps_than_lines_refuses_an_edit(rt: HostRuntime) -> Result<(), Fail> {
    let counts = Counts::new();
    let counter = Counter { counts: &counts };
    let log = log_of(rt.alloc(), b"no\n", 5)?;
    let mut session = TestSession::open(&rt, rt.alloc(), counter, &log, 1, &mut Meter::new())?;
    for (change, lines) in NEEDS {
        let edits = edits_of(rt.alloc(), &[change])?;
        let enough = u64::MAX.saturating_sub(lines);
        let mut meter = Meter::starting(enough.saturating_add(1));
        let refused = session.edit(&edits, &mut meter).err();
        assert_eq!(rt; refused, Some(EditFault::MeterFull), "{edits:?}");
        let _ = session.edit(&edits, &mut Meter::starting(enough))?;
    }
    Ok(())
}

#[test]
fn a_copy_plays_nothing_and_copies_each_piece_and_the_greeting(
    rt: HostRuntime,
) -> Result<(), Fail> {
    let counts = Counts::new();
    let counter = Counter { counts: &counts };
    let mut meter = Meter::new();
    let session = TestSession::open(&rt, rt.alloc(), counter, b"no\nin\n", 1, &mut meter)?;
    let copy = session.copy()?;
    assert!(rt; copy.is_like(&session));
    assert_eq!(rt; counts.steps.get(), 2);
    assert_eq!(rt; counts.copies.get(), 3);
    Ok(())
}

/// Lines of one letter, of two, and so on.
fn stairs(alloc: Global, count: usize) -> Result<Vec<u8>, AllocError> {
    let mut log = Vec::new(alloc);
    for before in 0..count {
        for _ in 0..before {
            log.push(b'a')?;
        }
        log.extend_from_slice(b"a\n")?;
    }
    Ok(log)
}

/// Edits of ten stairs, each by itself, with the replay if each place has a checkpoint.
const STAIRS: [(LineChange, Replay); 6] = [
    (LineChange::Replace(5, b"aaaa"), (5, Some(7), 2)),
    (LineChange::Insert(2, b"zz"), (2, Some(3), 1)),
    (LineChange::Insert(10, b"z"), (9, None, 2)),
    (LineChange::Delete(4), (4, Some(5), 1)),
    (LineChange::Reseed(1), (0, Some(1), 1)),
    (LineChange::Reseed(256), (0, Some(0), 0)),
];

#[test]
fn an_edit_of_each_kind_is_replayed_and_taken_back(rt: HostRuntime) -> Result<(), Fail> {
    let counts = Counts::new();
    let counter = Counter { counts: &counts };
    let log = stairs(rt.alloc(), 10)?;
    let mut session = TestSession::open(&rt, rt.alloc(), counter, &log, 1, &mut Meter::new())?;
    let old = session.copy()?;
    for (change, wanted) in STAIRS {
        let edits = edits_of(rt.alloc(), &[change])?;
        for edit in &edits {
            let replay = session.edit_and_back(edit, &mut Meter::new())?;
            assert!(rt; replay == wanted, "{edit:?}");
            assert!(rt;
                session.is_like(&old) && session.says_the_same(&old),
                "{edit:?}"
            );
        }
    }
    Ok(())
}

#[test]
fn checkpoints_four_lines_apart_keep_a_replay_short(rt: HostRuntime) -> Result<(), Fail> {
    let counts = Counts::new();
    let counter = Counter { counts: &counts };
    let log = stairs(rt.alloc(), 40)?;
    let mut session = TestSession::open(&rt, rt.alloc(), counter, &log, 4, &mut Meter::new())?;
    let edits = edits_of(rt.alloc(), &[LineChange::Replace(5, b"aaaa")])?;
    let (from, met, played) = session.edit(&edits, &mut Meter::new())?;
    assert!(rt; matches!(from, 2..=5));
    assert!(rt; matches!(met, Some(7..=10)));
    assert!(rt; played <= 8);
    assert_eq!(rt; session.number(), 40);
    Ok(())
}
