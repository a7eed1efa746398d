//! Texts of faults that no log shows: of inputs and outputs that are too large or that fail, and
//! those of the library.

use base_lines::LineFault;
use cave_play::{LogFault, PlayFault, ScriptFault};
use cave_replay::OpenFault;
use data_rows::{BindingFlaw, Cause, CaveError, FaultSite, Section};
use play_command::Input;
use play_program::Message;
use replay_edits::{EditFault, GroupFault};
use replay_scripts::{EditFlaw, ScriptFlaw, ScriptRefusal};
use std::alloc::{AllocError, Global};
use std::fmt::Display;
use std::process::Abort;
use std::test::Fail;

/// A fault of a cave.
fn of_cave(cause: Cause, line: usize, site: FaultSite) -> CaveError {
    CaveError { cause, line, site }
}

/// That a database or bindings are too large.
fn too_large(site: FaultSite) -> PlayFault {
    PlayFault::Cave(of_cave(Cause::TooLarge, 0, site), None)
}

/// The line that the program writes to standard error.
fn message_of(alloc: Global, fault: PlayFault) -> Result<String, AllocError> {
    let file = match fault.input() {
        Some(Input::Cave) => Some("a.txt"),
        Some(Input::Bindings) => Some("a.bind"),
        Some(Input::Log) => Some("a.log"),
        Some(Input::NewLog) => Some("b.log"),
        Some(Input::Script) => Some("a.script"),
        Some(Input::Known) => Some("a.known"),
        None => None,
    };
    format!(in alloc; "{}", Message::Fault(fault, file))
}

#[test]
fn the_program_says_what_is_too_large_or_fails(rt: HostRuntime) -> Result<(), Fail> {
    let faults = [
        (
            too_large(FaultSite::Database),
            1,
            "cave: a.txt: the input is too large: a database has at most 1,048,576 bytes\n",
        ),
        (
            too_large(FaultSite::Bindings),
            1,
            "cave: a.bind: the input is too large: bindings have at most 1,048,576 bytes\n",
        ),
        (
            PlayFault::LargeKnown,
            1,
            "cave: a.known: the list of what is known is too large: it has at most 1,048,576 \
            bytes\n",
        ),
        (
            PlayFault::Log(LogFault::TooLarge),
            3,
            "cave: a.log: the log is too large: a log has at most 1,048,576 bytes\n",
        ),
        (
            PlayFault::NewLog(LogFault::Full),
            3,
            "cave: b.log: the log has more than 65,535 lines\n",
        ),
        (
            PlayFault::Script(ScriptFault::TooLarge),
            4,
            "cave: a.script: the script is too large: a script has at most 1,048,576 bytes\n",
        ),
        (
            PlayFault::Read(Input::Script),
            5,
            "cave: a.script: the file can't be read\n",
        ),
        (
            PlayFault::LargeLog,
            6,
            "cave: the edited log would be larger than 1,048,576 bytes, and no run could read it\n",
        ),
    ];
    for (fault, status, line) in faults {
        assert_eq!(rt; fault.status(), status);
        assert_eq!(rt; message_of(rt.alloc(), fault)?.as_str(), line);
    }
    Ok(())
}

/// Expects a text.
fn expect_said(
    rt: &impl Abort,
    alloc: Global,
    said: impl Display + Copy,
    want: &str,
) -> Result<(), Fail> {
    let text = format!(in alloc; "{said}")?;
    assert_eq!(rt; text.as_str(), want);
    Ok(())
}

#[test]
fn faults_of_a_cave_and_of_a_script_say_in_which_line_they_are(
    rt: HostRuntime,
) -> Result<(), Fail> {
    expect_said(
        &rt,
        rt.alloc(),
        of_cave(
            Cause::OutOfRange,
            2,
            FaultSite::Section(Section::Conditions),
        ),
        "line 2 of the database: a number or a text is out of its range: a bit is from 0 to 20, \
        and a place from 1 to 300",
    )?;
    expect_said(
        &rt,
        rt.alloc(),
        of_cave(
            Cause::BadBinding(BindingFlaw::Repeated),
            7,
            FaultSite::Bindings,
        ),
        "line 7 of the bindings: the key was bound before: delete one of the two lines",
    )?;
    expect_said(
        &rt,
        rt.alloc(),
        ScriptRefusal::Malformed(4, ScriptFlaw::NoEdit(EditFlaw::NoWord)),
        "line 4 of the script: unknown word: expected an edit, a guard, `begin` or `end`",
    )?;
    expect_said(
        &rt,
        rt.alloc(),
        ScriptRefusal::Malformed(1, ScriptFlaw::NoEnd),
        "line 1 of the script: `begin` without an `end` after it: add a line `end`",
    )
}

#[test]
fn faults_of_a_session_say_which_line_or_edit_is_refused(rt: HostRuntime) -> Result<(), Fail> {
    expect_said(
        &rt,
        rt.alloc(),
        OpenFault::BadLine(12, LineFault::TooLong(256)),
        "line 12 of the log can't be played: the line has 256 bytes, and a line of a log has at \
        most 255",
    )?;
    for (cause, want) in [
        (
            EditFault::NoSuchPlace(7),
            "edit 3 of the group, counted from 0: no such line: the log has 7",
        ),
        (
            EditFault::MeterFull,
            "a full meter: it has fewer steps left than the log would have lines",
        ),
        (EditFault::EmptyGroup, "an empty group: it has no edit"),
    ] {
        expect_said(&rt, rt.alloc(), GroupFault { cause, at: 3 }, want)?;
    }
    Ok(())
}
