//! How much the inputs of a run may have: at the limit, and one past it.

use crate::runs::{Feeds, Run};
use crate::streams::TestReader;
use cave_data::Cave;
use cave_play::{LogFault, LogsFault, PlayFault};
use data_rows::{Cause, CaveError};
use std::alloc::{AllocError, Global};
use std::test::Fail;

/// Each input of an edit, one of several logs, and the list of known doubts, with the status of the
/// fault.
const ENDLESS: [(Run, usize, u8); 6] = [
    (Run::Edit, 0, 1),
    (Run::Edit, 1, 1),
    (Run::Edit, 2, 3),
    (Run::Edit, 3, 4),
    (Run::Cover, 3, 3),
    (Run::Doubts, 3, 1),
];

#[test]
fn a_reader_without_end_is_asked_for_one_byte_too_many(rt: HostRuntime) {
    for &(run, number, status) in &ENDLESS {
        let mut feeds = Feeds::of(run);
        *feeds.reader(number) = TestReader::endless();
        let end = feeds.run(rt.alloc(), run);
        let found = end.ended.err().map(|it| it.fault.status());
        assert_eq!(rt; found, Some(status), "{run:?}, {number}");
        assert!(rt; end.output.is_empty());
        assert_eq!(rt; feeds.reader(number).asks, 1_048_577);
    }
}

/// A text and then a line, this many times.
fn repeated(alloc: Global, text: &[u8], line: &[u8], count: usize) -> Result<Vec<u8>, AllocError> {
    let mut lines = Vec::from_slice(alloc, text)?;
    for _i in 0..count {
        lines.extend_from_slice(line)?;
    }
    Ok(lines)
}

#[test]
fn a_log_has_at_most_65535_lines(rt: HostRuntime) -> Result<(), Fail> {
    let most = repeated(rt.alloc(), b"", b"in\n", 65_535)?;
    let mut feeds = Feeds::of(Run::Edit);
    *feeds.reader(2) = TestReader::of(&most);
    *feeds.reader(3) = TestReader::of(b"insert 0 x\ndelete 0\n");
    feeds.every = 10_000;
    let end = feeds.run(rt.alloc(), Run::Edit);
    assert_eq!(rt; end.ended, Ok(()));
    let reported = b"line 1: refused 3\nline 2: ok\n[welcome]\n\n> in\n";
    assert!(rt; end.output.starts_with(reported));
    let more = repeated(rt.alloc(), b"", b"in\n", 65_536)?;
    let mut feeds = Feeds::of(Run::Play);
    *feeds.reader(2) = TestReader::of(&more);
    let full = LogsFault::from(PlayFault::Log(LogFault::Full));
    assert_eq!(rt; feeds.run(rt.alloc(), Run::Play).ended, Err(full));
    Ok(())
}

#[test]
fn a_log_of_1048576_bytes_is_read_byte_by_byte(rt: HostRuntime) -> Result<(), Fail> {
    let comment = b"# A comment of sixty-four bytes, of which the last is the feed.\n";
    let log = repeated(rt.alloc(), b"", comment, 16_384)?;
    assert_eq!(rt; log.len(), 1_048_576);
    let mut feeds = Feeds::of(Run::Play);
    *feeds.reader(2) = TestReader::of(&log);
    feeds.reader(2).piece = 1;
    assert_eq!(rt; feeds.run(rt.alloc(), Run::Play).ended, Ok(()));
    assert_eq!(rt; feeds.reader(2).asks, 1_048_577);
    Ok(())
}

/// A run, its seed and distance of checkpoints, and why it is refused.
const NUMBERS: [(Run, u32, u32, Option<PlayFault>); 6] = [
    (Run::Edit, 2_147_483_647, 10_000, None),
    (Run::Edit, 2_147_483_648, 0, Some(PlayFault::Seed)),
    (Run::Edit, 0, 10_001, Some(PlayFault::Every)),
    (Run::Play, 2_147_483_648, 1, Some(PlayFault::Seed)),
    (Run::Cover, 2_147_483_648, 1, Some(PlayFault::Seed)),
    (Run::Map, 2_147_483_648, 1, Some(PlayFault::Seed)),
];

#[test]
fn numbers_have_limits_and_are_judged_before_any_reader_is_asked(rt: HostRuntime) {
    for &(run, seed, every, fault) in &NUMBERS {
        let mut feeds = Feeds::of(run);
        feeds.seed = seed;
        feeds.every = every;
        let found = feeds.run(rt.alloc(), run).ended.err();
        assert_eq!(rt; found, fault.map(LogsFault::from), "{run:?}");
        assert_eq!(rt; feeds.is_unread_from(0), fault.is_some());
    }
}

/// The cave of a database. It promises nothing, so that its caller is proved without the facts of
/// `Cave::read`.
fn read(alloc: Global, database: &[u8]) -> Result<Cave, CaveError> {
    Cave::read(alloc, database, b"")
}

/// Why a database is refused, and at which line, if it begins with this text, goes on with the
/// other one this many times, and then has an end.
fn refusal(
    alloc: Global,
    text: &[u8],
    more: &[u8],
    count: usize,
) -> Result<Option<(Cause, usize)>, AllocError> {
    let mut database = repeated(alloc, text, more, count)?;
    database.extend_from_slice(b"\n-1\n0\n")?;
    match read(alloc, &database) {
        Ok(cave) => {
            // By a call, because then the check goes through the tables of a cave in one place.
            drop(cave);
            Ok(None)
        }
        Err(fault) => Ok(Some((fault.cause, fault.line))),
    }
}

/// How a database begins, with what it goes on, how often it may do so, and the fault if it does so
/// once more: too many rows of travel, words and classes; too many numbers in a row of travel and
/// of conditions; too long a text.
const ROWS: [(&[u8], &[u8], usize, (Cause, usize)); 6] = [
    (b"3", b"\n1 1 1", 2000, (Cause::TooManyRows, 2002)),
    (b"4", b"\n1 GO", 1000, (Cause::TooManyRows, 1002)),
    (b"10", b"\n1 Novice.", 50, (Cause::TooManyRows, 52)),
    (b"3\n1 1", b" 7", 40, (Cause::TooManyRows, 2)),
    (b"9\n0", b" 7", 40, (Cause::TooManyRows, 2)),
    (b"1\n300 ", b"x", 255, (Cause::OutOfRange, 2)),
];

#[test]
fn a_database_has_limits_of_its_rows_numbers_and_texts(rt: HostRuntime) -> Result<(), Fail> {
    for &(text, more, most, fault) in &ROWS {
        assert_eq!(rt; refusal(rt.alloc(), text, more, most)?, None, "{text:?}");
        let past = refusal(rt.alloc(), text, more, most.saturating_add(1))?;
        assert_eq!(rt; past, Some(fault), "{text:?}");
    }
    Ok(())
}
