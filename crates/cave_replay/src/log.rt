ghost use Rattle.std.specs.Prelude.{◌≡◌, ◌++◌, ◌∷◌, [], length, IfOk, OnOk, MatchResult, None};
ghost use Rattle.std.specs.Prelude.{Some, Err};
ghost use Rattle.std.specs.Str.Lines.{lines};
ghost use Rattle.cave_replay.specs.LogText.{log_text};
ghost use Rattle.replay_edits.specs.Edit.{log_of};
ghost use Rattle.cave_replay.specs.Opening.{first_bad_line, open_fault, IsAnswerToOpen};

use crate::fault::OpenFault;
use base_lines::limits::{is_bad_every, is_large_seed, is_long_log};
use base_lines::{LineFault, split_log_line};
use replay_checkpoints::Blocks;
use replay_edits::LineText;
use std::alloc::{AllocError, Global};

/// Copies of lines, unless memory was refused for one of them.
type Copies = Result<Vec<LineText>, AllocError>;

/// The lines of a log, or the first fault of what is given to open a session.
pub fn read_lines(
    alloc: Global,
    every: u32,
    log: &[u8],
    seed: u32,
) -> Result<Vec<LineText>, OpenFault>
    ensures faults { IsAnswerToOpen (open_fault every (lines log.now) seed) result }
    ensures right { IfOk result (λ _. open_fault every (lines log.now) seed ≡ None) }
    ensures lines { IfOk result (λ copies. log_of copies.items ≡ lines log.now) }
{
    if is_bad_every(every) {
        return Err(OpenFault::BadEvery);
    }
    let (count, copies) = match copy_lines(alloc, log) {
        Ok(found) => found,
        Err((number, flaw)) => return Err(OpenFault::BadLine(number, flaw)),
    };
    if is_long_log(count) {
        return Err(OpenFault::LogFull);
    }
    if is_large_seed(u64::from(seed)) {
        return Err(OpenFault::BadSeed);
    }
    Ok(copies?)
}

/// How many lines a log has, and copies of them; or the number, from 1, of the first line that
/// isn't valid, and what is wrong with it.
fn copy_lines(alloc: Global, log: &[u8]) -> Result<(usize, Copies), (usize, LineFault)>
    ensures found { MatchResult result
        (λ found. (found.0 ≡ length (lines log.now)) × (first_bad_line (lines log.now) 1 ≡ None))
        (λ bad. first_bad_line (lines log.now) 1 ≡ Some bad) }
    ensures copies { IfOk result (λ found.
        IfOk found.1 (λ copies. log_of copies.items ≡ lines log.now)) }
{
    let mut copies = Ok(Vec::new(alloc));
    let mut count = 0;
    let mut rest = log;
    while let Some(found) = split_log_line(rest) {
        count += 1;
        let (line, more) = match found {
            Ok(good) => good,
            Err(flaw) => return Err((count, flaw)),
        };
        copies = with_copy(alloc, copies, line);
        rest = more;
    }
    Ok((count, copies))
}

fn with_copy(alloc: Global, copies: Copies, line: &[u8]) -> Copies
    ensures { MatchResult copies
        (λ old. IfOk result (λ new. log_of new.items ≡ log_of old.items ++ line.now ∷ []))
        (λ refused. result ≡ Err refused) }
{
    let mut copies = copies?;
    copies.push(LineText::from_slice(alloc, line)?)?;
    Ok(copies)
}

/// Appends lines, each with a line feed after it.
pub(crate) fn push_lines(lines: &Blocks<LineText>, text: &mut Vec<u8>) -> Result<(), AllocError>
    ensures { OnOk result (text.new.items ≡ text.old.items ++ log_text (log_of lines.now.items)) }
{
    for place in 0..lines.len() {
        text.extend_from_slice(lines.at(place))?;
        text.extend_from_slice(b"\n")?;
    }
    Ok(())
}
