ghost use Rattle.std.specs.Prelude.{◌≡◌, ◌+◌, ◌-◌, ◌^◌, ◌<◌, ◌≤◌, length, IfOk, OnOk, None};
ghost use Rattle.std.specs.Prelude.{vec_len};
ghost use Rattle.replay_checkpoints.specs.Blocks.{IsOpenAt};
ghost use Rattle.replay_edits.specs.Edit.{game_of, log_of, IsGame, changes_of, line_at};
ghost use Rattle.replay_edits.specs.Faults.{group_fault, IsAnswerTo};
ghost use Rattle.cave_replay.specs.ReadyEdits.{log_after_edits, new_game, IsReady, AreEditsOf};
ghost use Rattle.cave_replay.specs.ReadyEdits.{MayMove};

use replay_checkpoints::Blocks;
use replay_edits::new_line::take_lines;
use replay_edits::outcome::find_outcome;
use replay_edits::plan::plan_group;
use replay_edits::{Edit, GroupFault, LineText, NewLine};
use std::alloc::Global;

/// Edits of a game that have been accepted and not made yet.
///
/// They leave a game with this seed and this many lines. The old lines before the place `head`, and
/// those from the place `rest` on, stay as they are; `middle` comes between them, and `room` is for
/// its lines. `inverse` takes the edits back.
#[derive(Drop)]
pub(crate) struct ReadyEdits {
    pub(crate) seed: u32,
    pub(crate) lines: usize,
    pub(crate) head: usize,
    pub(crate) rest: usize,
    pub(crate) middle: Vec<NewLine>,
    pub(crate) room: Vec<LineText>,
    pub(crate) inverse: Vec<Edit>,
}

/// What a group of edits does to a game, or why it is refused. The meter has `left` steps left.
pub(crate) fn prepare(
    alloc: Global,
    seed: u32,
    log: &Blocks<LineText>,
    edits: &[Edit],
    left: u64,
) -> Result<ReadyEdits, GroupFault>
    requires game { IsGame (game_of seed (log_of log.now.items)) }
    ensures none { OnOk result
        (group_fault (changes_of edits.now) (log_of log.now.items) left ≡ None) }
    ensures edits { IfOk result (AreEditsOf (changes_of edits.now) seed log.now.items) }
    ensures ready { IfOk result (IsReady seed log.now.items) }
    ensures room { IfOk result
        (λ ready. length (log_after_edits ready (log_of log.now.items)) ≤ left) }
    ensures faults { let changes = changes_of edits.now in
        IsAnswerTo (group_fault changes (log_of log.now.items) left) result }
{
    let lines = log.len();
    let plan = plan_group(edits, lines, left)?;
    let outcome = find_outcome(alloc, edits, log, seed, plan.margins)?;
    let room = Vec::with_capacity(alloc, outcome.lines.len())?;
    Ok(ReadyEdits {
        seed: outcome.seed,
        lines: plan.lines,
        head: plan.margins.head,
        rest: lines - plan.margins.tail,
        middle: outcome.lines,
        room,
        inverse: outcome.inverse,
    })
}

impl ReadyEdits {
    /// Where the lines after the edits are once these have been made.
    pub(crate) fn rest_after(&self, log: &Blocks<LineText>) -> usize
        requires within { self.now.rest ≤ length log.now.items }
        requires fits { length log.now.items ≤ self.now.lines + self.now.rest }
        ensures rest { result + (length log.now.items - self.now.rest) ≡ self.now.lines }
        ensures few { length log.now.items < 2 ^ 63 }
    {
        self.lines - (log.len() - self.rest)
    }

    /// The line at a place of the log after the edits.
    pub(crate) fn line<'a>(&'a self, log: &'a Blocks<LineText>, place: usize) -> &'a [u8]
        requires moves { MayMove self.now }
        requires ordered { self.now.head ≤ self.now.rest }
        requires lines { self.now.lines ≡ length (log_after_edits self.now (log_of log.now.items)) }
        requires within { self.now.rest ≤ length log.now.items }
        requires place { place < self.now.lines }
        ensures { result.now ≡ line_at (log_after_edits self.now (log_of log.now.items)) place }
    {
        if place < self.head {
            return log.at(place);
        }
        let rest = self.rest_after(log);
        if place >= rest {
            return log.at(place - rest + self.rest);
        }
        self.middle[place - self.head].text(log)
    }

    /// Makes the edits in a game, and returns those that take them back. It takes no memory and
    /// copies no line.
    pub(crate) fn make(self, log: &mut Blocks<LineText>, seed: &mut u32) -> Vec<Edit>
        requires moves { MayMove self }
        requires ordered { self.head ≤ self.rest }
        requires within { self.rest ≤ length log.old.items }
        requires opened { IsOpenAt log.old self.head self.rest (vec_len self.middle) }
        ensures game { game_of seed.new (log_of log.new.items)
            ≡ new_game self (log_of log.old.items) }
        ensures inverse { changes_of result.items ≡ changes_of self.inverse.items }
    {
        let ReadyEdits {
            seed: new,
            lines: _,
            head,
            rest,
            mut middle,
            mut room,
            inverse,
        } = self;
        take_lines(&mut middle, log, &mut room, head, rest);
        log.replace(head, rest, &mut room);
        *seed = new;
        inverse
    }
}
