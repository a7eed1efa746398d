//! Runs whose readers give little at once or fail, and the order in which inputs are read and
//! judged.

use crate::caves::LOG;
use crate::runs::{Feeds, INPUTS, RUNS, Run};
use crate::streams::TestReader;
use cave_play::PlayFault;
use std::alloc::Global;
use std::process::Abort;

/// Expects that the reader of an input that gives a byte at each ask, and fails at one, is named,
/// that nothing is written, and that no later reader is asked.
fn expect_named(rt: &impl Abort, alloc: Global, run: Run, number: usize, failing: u64) {
    let later = number.saturating_add(1);
    let mut feeds = Feeds::of(run);
    feeds.break_from(later);
    feeds.reader(number).piece = 1;
    feeds.reader(number).failing = failing;
    let end = feeds.run(alloc, run);
    let fault = run.fault_at(number, PlayFault::Read(run.input(number)));
    assert_eq!(rt; end.ended, Err(fault), "{run:?}, {number}, {failing}");
    assert_eq!(rt; fault.fault.status(), 5);
    assert!(rt; end.output.is_empty());
    assert_eq!(rt; feeds.reader(number).asks, failing);
    assert!(rt; feeds.is_unread_from(later), "{run:?}, {number}");
}

#[test]
fn a_reader_that_fails_at_any_byte_is_named_and_no_later_one_is_asked(rt: HostRuntime) {
    for run in RUNS {
        for number in 0..INPUTS {
            let asks = run.text(number).len().saturating_add(1) as u64;
            let read = if run.reads(number) { asks } else { 0 };
            for before in 0..read {
                expect_named(&rt, rt.alloc(), run, number, before.saturating_add(1));
            }
        }
    }
}

#[test]
fn readers_that_give_a_byte_at_each_ask_give_all(rt: HostRuntime) {
    for run in RUNS {
        let whole = Feeds::of(run).run(rt.alloc(), run);
        assert_eq!(rt; whole.ended, Ok(()));
        let mut feeds = Feeds::of(run);
        for number in 0..INPUTS {
            feeds.reader(number).piece = 1;
        }
        let end = feeds.run(rt.alloc(), run);
        assert_eq!(rt; end.ended, Ok(()));
        assert_eq!(rt; end.output.as_slice(), whole.output.as_slice(), "{run:?}");
    }
}

/// Runs with the number of an input and what it has, the status of the fault of that, and how many
/// inputs are read.
const REFUSED: [(Run, usize, &[u8], u8, usize); 6] = [
    (Run::Play, 0, b"", 1, 2),
    (Run::Edit, 1, b"msg.okay 1\n", 1, 2),
    (Run::Edit, 2, b"no\n\x7f", 3, 3),
    (Run::Doubts, 0, b"", 1, 2),
    (Run::Cover, 2, b"\x7f", 3, 3),
    (Run::Map, 0, b"", 1, 2),
];

#[test]
fn an_input_is_judged_before_the_next_is_read(rt: HostRuntime) {
    for &(run, number, bytes, status, unread) in &REFUSED {
        let mut feeds = Feeds::of(run);
        feeds.break_from(unread);
        *feeds.reader(number) = TestReader::of(bytes);
        let end = feeds.run(rt.alloc(), run);
        let found = end.ended.err().map(|it| it.fault.status());
        assert_eq!(rt; found, Some(status), "{run:?}, {number}");
        assert!(rt; feeds.is_unread_from(unread), "{run:?}, {number}");
    }
}

#[test]
fn the_bindings_are_read_before_the_database_is_judged(rt: HostRuntime) {
    for run in RUNS {
        let mut feeds = Feeds::of(run);
        feeds.break_from(1);
        *feeds.reader(0) = TestReader::of(LOG);
        let end = feeds.run(rt.alloc(), run);
        let fault = run.fault_at(1, PlayFault::Read(run.input(1)));
        assert_eq!(rt; end.ended, Err(fault), "{run:?}");
    }
}
