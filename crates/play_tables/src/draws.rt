//! How many random numbers a line drew.

ghost use Rattle.std.specs.Prelude.{◌≡◌};
ghost use Rattle.play_tables.specs.Draws.{draws_between, draws_at};

use base_lines::LogLine;
use cave_words::Stream;
use cave_words::stream::STREAM_SIZE;

/// How many draws lead from one number of the stream to another. They are few, since a turn draws
/// few.
#[tactic(auto, using(crate::proofs::Drawing::drawing))]
fn draws_between(from: Stream, to: Stream) -> u32
    ensures { result ≡ draws_between from to }
{
    let mut at = from;
    for drawn in 0..STREAM_SIZE {
        if at.position() == to.position() {
            return drawn;
        }
        at.draw(1);
    }
    STREAM_SIZE
}

/// How many random numbers a line drew.
pub fn draws_at(line: &[u8], from: Stream, to: Stream) -> u32
    ensures { result ≡ draws_at line.now from to }
{
    match LogLine::of(line) {
        LogLine::Seed(_) => 0,
        LogLine::Comment | LogLine::Blank | LogLine::Input => draws_between(from, to),
    }
}
