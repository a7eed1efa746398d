//! Runs whose writers fail, or take little at once.

use crate::runs::{Feeds, RUNS, Run};
use crate::streams::Sink;
use cave_play::{LogsFault, PlayFault};
use std::alloc::Global;
use std::process::Abort;

/// Expects a writer that takes this many bytes at each call, and fails at one, to have these.
fn expect_front(
    rt: &impl Abort,
    alloc: Global,
    run: Run,
    front: &[u8],
    piece: usize,
    failing: u64,
) {
    let mut sink = Sink::in_pieces(alloc, piece);
    sink.failing = failing;
    let fault = LogsFault::from(PlayFault::Write);
    let ended = Feeds::of(run).run_into(alloc, run, &mut sink);
    assert_eq!(rt; ended, Err(fault), "{run:?}, {failing}");
    assert_eq!(rt; fault.fault.status(), 6);
    assert_eq!(rt; sink.taken.as_slice(), front, "{run:?}, {failing}");
}

/// Expects a writer that takes this many bytes at each call to get all that one gets that takes all
/// at once, and one that fails at any call, or takes nothing, to have what came before.
fn expect_fronts(rt: &impl Abort, alloc: Global, run: Run, piece: usize) {
    assert!(rt; piece > 0);
    let whole = Feeds::of(run).run(alloc, run);
    let mut sink = Sink::in_pieces(alloc, piece);
    let ended = Feeds::of(run).run_into(alloc, run, &mut sink);
    assert_eq!(rt; ended, Ok(()), "{run:?}");
    assert_eq!(rt; sink.taken.as_slice(), whole.output.as_slice(), "{run:?}");
    expect_front(rt, alloc, run, b"", 0, 0);
    let mut failing = 0u64;
    for taken in (0..whole.output.len()).step_by(piece) {
        failing = failing.saturating_add(1);
        expect_front(rt, alloc, run, &whole.output[..taken], piece, failing);
    }
    assert_eq!(rt; sink.calls, failing);
}

#[test]
fn a_writer_gets_all_or_what_came_before_it_failed(rt: HostRuntime) {
    expect_fronts(&rt, rt.alloc(), Run::Check, 1);
    expect_fronts(&rt, rt.alloc(), Run::Play, 1);
    for run in RUNS {
        expect_fronts(&rt, rt.alloc(), run, 100);
    }
}

#[test]
fn out_of_memory_writes_nothing(rt: HostRuntime) {
    for run in RUNS {
        // The writer needs no memory any more, so if memory runs out, the run itself ran out of it.
        let Ok(mut sink) = Sink::with_room(rt.alloc(), 32_768) else {
            return;
        };
        if let Err(found) = Feeds::of(run).run_into(rt.alloc(), run, &mut sink) {
            assert_eq!(rt; found.fault, PlayFault::Memory, "{run:?}");
            assert_eq!(rt; found.fault.status(), 7);
            assert_eq!(rt; sink.calls, 0, "{run:?}");
        }
    }
}
