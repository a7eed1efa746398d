//! The program over a system in memory, of which its clauses say what was opened, put, told and
//! written.

ghost use Rattle.std.specs.Prelude.{Some, bytes_eq, map, string_bytes};
ghost use Rattle.play_program.specs.Ends.{EndsWords};
ghost use Rattle.test_runs.specs.Memory.{bytes_at, calls_by, file_named};

use crate::calls::{KeptCall, KeptMessage};
use crate::caves::{CAVE, EDITED_LOG, LOG, SCRIPT};
use crate::in_memory::{MemorySystem, MemoryTarget};
use base_lines::limits::MAX_INPUT_BYTES;
use cave_play::PlayFault;
use play_program::{Output, run_program};
use std::alloc::{AllocError, Global};
use std::process::Abort;
use std::test::Fail;

/// Does what words ask for, and returns the status. The files and the calls are those of the
/// system, and the output is in the writer.
fn run_in_memory<R: Abort>(
    alloc: Global,
    system: &mut MemorySystem<'_, R>,
    words: Vec<String>,
    output: &mut Output<Vec<u8>>,
) -> u8
    ensures ends { EndsWords (map string_bytes words.items)
        (λ one other. Some (bytes_eq one other))
        (λ name. bytes_at system.old.cave.items system.old.log.bytes.items system.old.script.items
        (file_named name)) (Some (calls_by system.old.kept.items))
        (Some (calls_by system.new.kept.items)) (Some output.old.writer.items)
        (Some output.new.writer.items) output.new.reason result }
{
    run_program(alloc, system, Ok(words), output)
}

/// What the program did for some words: its status, what it wrote, the log and the calls.
#[derive(Drop)]
struct ProgramEnd {
    status: u8,
    written: Vec<u8>,
    log: Vec<u8>,
    kept: Vec<KeptCall>,
}

/// Does what words ask for over the cave, this log and the script.
fn end_of<R: Abort>(
    rt: &R,
    alloc: Global,
    log: &[u8],
    words: &[&str],
) -> Result<ProgramEnd, AllocError> {
    let mut system = MemorySystem {
        rt,
        alloc,
        cave: Vec::from_slice(alloc, CAVE)?,
        log: MemoryTarget {
            bytes: Vec::from_slice(alloc, log)?,
            alloc,
        },
        script: Vec::from_slice(alloc, SCRIPT)?,
        kept: Vec::new(alloc),
    };
    let mut given = Vec::new(alloc);
    for word in words {
        given.push(String::from_str(alloc, *word)?)?;
    }
    let mut output = Output::of(Vec::new(alloc));
    let status = run_in_memory(alloc, &mut system, given, &mut output);
    let MemorySystem { log, kept, .. } = system;
    let MemoryTarget { bytes, .. } = log;
    let Output { writer, .. } = output;
    Ok(ProgramEnd {
        status,
        written: writer,
        log: bytes,
        kept,
    })
}

/// Whether a call opens the file of a name.
fn opens(call: Option<&KeptCall>, name: &str) -> bool {
    match call {
        Some(KeptCall::Opens(file)) => file.as_str() == name,
        _ => false,
    }
}

/// Whether a call puts these bytes into the log.
fn puts_log(call: Option<&KeptCall>, bytes: &[u8]) -> bool {
    match call {
        Some(KeptCall::Puts(file, given, None)) => {
            file.as_str() == "log" && given.as_slice() == bytes
        }
        _ => false,
    }
}

/// Whether a call tells that an edit in this line of the script is refused.
fn tells_refused(call: Option<&KeptCall>, line: usize) -> bool {
    match call {
        Some(KeptCall::Tells(KeptMessage::Fault(PlayFault::Refused(refusal), Some(file)))) => {
            file.as_str() == "script" && refusal.line() == line
        }
        _ => false,
    }
}

#[test]
fn a_log_in_memory_is_edited_in_its_place(rt: HostRuntime) -> Result<(), Fail> {
    let words = [
        "cave", "edit", "cave", "log", "script", "--print", "log", "--output", "log",
    ];
    let end = end_of(&rt, rt.alloc(), LOG, &words)?;
    assert_eq!(rt; end.status, 0);
    assert_eq!(rt; end.log.as_slice(), EDITED_LOG);
    assert!(rt; end.written.is_empty());
    assert!(rt; opens(end.kept.get(0), "cave"));
    assert!(rt; opens(end.kept.get(1), "log"));
    assert!(rt; opens(end.kept.get(2), "script"));
    assert!(rt; puts_log(end.kept.get(3), EDITED_LOG));
    assert!(rt; tells_refused(end.kept.get(4), 2));
    assert_eq!(rt; end.kept.len(), 5);
    Ok(())
}

#[test]
fn without_a_command_the_help_is_told(rt: HostRuntime) -> Result<(), Fail> {
    let end = end_of(&rt, rt.alloc(), LOG, &["cave"])?;
    assert_eq!(rt; end.status, 2);
    assert!(rt; end.written.is_empty());
    match end.kept.get(0) {
        Some(KeptCall::Tells(KeptMessage::Usage(help, _))) => {
            assert!(rt; help.as_str().contains("Usage: cave <COMMAND>"));
        }
        _ => return Err(Fail::from("no help was told")),
    }
    assert_eq!(rt; end.kept.len(), 1);
    Ok(())
}

/// Whether a call tells that the head of the log says this seed.
fn tells_seed(call: Option<&KeptCall>, seed: &[u8]) -> bool {
    match call {
        Some(KeptCall::Tells(KeptMessage::Head(file, said, given))) => {
            file.as_str() == "log" && *said == "--seed " && given.as_slice() == seed
        }
        _ => false,
    }
}

#[test]
fn a_head_is_told_once_its_log_is_read_whole(rt: HostRuntime) -> Result<(), Fail> {
    let words = ["cave", "play", "cave", "log", "--seed", "4"];
    let mut log = Vec::from_slice(rt.alloc(), b"# cave: cave --seed 3\nno\n")?;
    let whole = end_of(&rt, rt.alloc(), &log, &words)?;
    assert_eq!(rt; whole.status, 0);
    assert!(rt; tells_seed(whole.kept.get(2), b"3"));
    assert_eq!(rt; whole.kept.len(), 3);
    for _i in 0..MAX_INPUT_BYTES {
        log.push(b'\n')?;
    }
    let large = end_of(&rt, rt.alloc(), &log, &words)?;
    assert_eq!(rt; large.status, 3);
    assert!(rt; opens(large.kept.get(1), "log"));
    assert!(rt;
        matches!(
            large.kept.get(2),
            Some(KeptCall::Tells(KeptMessage::Fault(..)))
        )
    );
    assert_eq!(rt; large.kept.len(), 3);
    Ok(())
}
