//! What runs make, and writing it.

ghost use Rattle.std.specs.Prelude.{◌≡◌, ℕ, take, MatchResult};
ghost use Rattle.std.specs.Io.KnownBytes.{Appends};
ghost use Rattle.cave_play.specs.Stages.{Writes};

use crate::fault::PlayFault;
use std::io::Write;

/// A text that a run makes, and what is found with it.
#[derive(Drop)]
pub struct Reported<A> {
    pub text: Vec<u8>,
    pub found: A,
}

/// Writes the whole output, or a prefix of it if the writer fails: it returned an error, or took
/// nothing.
pub fn write_output<W: Write>(writer: &mut W, output: &[u8]) -> Result<(), PlayFault>
    ensures written { MatchResult result
        (λ _. Appends (W.contents writer.old) (W.contents writer.new) output.now)
        (λ fault. (fault ≡ PlayFault.Write)
        × ((n : ℕ)
        × Appends (W.contents writer.old) (W.contents writer.new) (take n output.now))) }
{
    let mut rest = output;
    'pieces: loop {
        if rest.is_empty() {
            return Ok(());
        }
        match writer.write(rest) {
            Ok(0) => return Err(PlayFault::Write),
            Ok(count) => rest = &rest[count..],
            Err(_) => return Err(PlayFault::Write),
        }
    }
}

/// Writes what was made, if something was, and returns what is found with it.
pub fn write_report<A: Drop, F: From<PlayFault>, W: Write>(
    made: Result<Reported<A>, F>,
    output: &mut W,
) -> Result<A, F>
    ensures { Writes (F.from_gives PlayFault.Write) made (W.contents output.old)
        (W.contents output.new) result }
{
    let Reported { text, found } = made?;
    write_output(output, &text)?;
    Ok(found)
}
