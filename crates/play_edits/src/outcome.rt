//! Where a game is after its last line, and what all items together took.

ghost use Rattle.std.specs.Prelude.{◌≡◌, ◌+◌, ◌<◌, ◌≤◌, ◌^◌};
ghost use Rattle.play_edits.specs.Outcome.{lines_in, played_in, standing_of};

use crate::refusal::Refusal;
use cave_replay::{GroupReport, Session};
use cave_world::Ending;
use play_machine::CaveMachine;

/// Where a game is after its last line.
#[derive(Clone, Copy, Debug, PartialEq, Eq)]
pub struct Standing {
    pub score: u32,
    /// The greatest score of the cave.
    pub most: u32,
    pub turns: u32,
    /// The place of the player.
    pub place: u16,
    /// How the game has ended, if it has.
    pub ending: Option<Ending>,
}

/// Where the held game is after its last line, with a score that is at most the greatest.
pub(crate) fn standing_of(session: &Session<CaveMachine<'_>>) -> Standing
    ensures value { result ≡ standing_of session.now.machine.rules.cave.now session.now.game }
    ensures most { result.score ≤ result.most }
{
    let machine = session.machine();
    let state = session.state();
    Standing {
        score: machine.score(state),
        most: machine.max_score(),
        turns: session.ticks(session.lines()),
        place: state.trail.here.number(),
        ending: state.ending,
    }
}

/// How many lines were played for items, and how many lines the logs that they left had.
#[derive(Clone, Copy, Debug, PartialEq, Eq)]
pub struct Totals {
    pub played: u64,
    pub lines: u64,
}

impl Totals {
    /// The totals with those of one more item.
    pub fn with(self, outcome: &Result<GroupReport, Refusal>) -> Totals
        requires played_fits { self.played + 2 ^ 32 ≤ 2 ^ 64 }
        requires lines_fit { self.lines + 2 ^ 32 ≤ 2 ^ 64 }
        ensures played { result.played ≡ self.played + played_in outcome.now }
        ensures lines { result.lines ≡ self.lines + lines_in outcome.now }
        ensures played_rises { result.played < self.played + 2 ^ 32 }
        ensures lines_rise { result.lines < self.lines + 2 ^ 32 }
    {
        match outcome {
            Ok(done) => {
                let played = done.played;
                let lines = done.lines;
                Totals {
                    played: self.played + u64::from(played),
                    lines: self.lines + u64::from(lines),
                }
            }
            Err(_) => self,
        }
    }
}
