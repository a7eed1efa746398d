//! The course of a play, which is watched line by line.

ghost use Rattle.std.specs.Prelude.{◌≡◌, ◌+◌, ◌<◌, ◌^◌, ◌≤◌, ◌⊎◌, None, Some, MatchResult};
ghost use Rattle.std.specs.Prelude.{OnOk, IfOk, IsTrue};
ghost use Rattle.std.specs.Str.Lines.{lines};
ghost use Rattle.base_lines.specs.Line.{is_line};
ghost use Rattle.cave_replay.specs.Opening.{first_bad_line, or_game_fault};
ghost use Rattle.replay_edits.specs.Edit.{game_of};
ghost use Rattle.turn_scene.specs.Scene.{cave_of};
ghost use Rattle.play_machine.specs.Machine.{cave_rules};
ghost use Rattle.play_machine.specs.Moments.{moment_at, noted_of};
ghost use Rattle.play_machine.specs.Watch.{IsEndOf, NotesMore};

use crate::machine::CaveMachine;
use crate::watch::{Begun, LineRows, SeenLine, Watch};
use base_lines::limits::{is_large_seed, is_long_log};
use base_lines::{Meter, split_log_line};
use cave_replay::{OpenFault, Session};
use cave_turn::{note_rows_on_line, start};
use cave_world::{Out, State};
use std::alloc::{AllocError, Global};
use turn_scene::Rules;

/// How far a play has got, and what its lines are played in.
#[derive(Drop)]
struct Course<R> {
    state: State,
    turns: u32,
    place: u32,
    out: Out,
    rows: R,
}

/// The end of a play: its state, and how many turns were taken.
#[derive(Clone, Copy)]
pub struct PlayEnd {
    pub state: State,
    pub turns: u32,
}

/// Begins a play.
fn begin<W: Watch>(
    alloc: Global,
    rules: &Rules<'_>,
    seed: u32,
    watch: &mut W,
) -> Result<Course<W::Rows>, AllocError>
    ensures noted { let begun = cave_rules (cave_of rules.now) in
        OnOk result (NotesMore W.HasNoted
        (W.first_facts (cave_of rules.now) (begun.begun seed) (begun.greeting seed))
        watch.old watch.new) }
    ensures course { IfOk result (λ course. (course.place ≡ 0) × (course.turns ≡ 0)
        × (course.state ≡ (cave_rules (cave_of rules.now)).begun seed)) }
{
    let mut out = Out::new();
    let state = start(rules.cave, seed, &mut out);
    let begun = Begun {
        rules: *rules,
        state: &state,
        parts: out.as_slice(),
    };
    watch.start(alloc, &begun)?;
    Ok(Course {
        state,
        turns: 0,
        place: 0,
        out,
        rows: W::Rows::none(alloc),
    })
}

/// Plays a line.
fn play_line<W: Watch>(
    alloc: Global,
    rules: &Rules<'_>,
    course: &mut Course<W::Rows>,
    line: &[u8],
    watch: &mut W,
) -> Result<(), AllocError>
    requires line { IsTrue (is_line line.now) }
    requires room { course.old.place + 1 < 2 ^ 32 }
    requires few { course.old.turns ≤ course.old.place }
    ensures noted { let here = moment_at (cave_of rules.now) course.old.place course.old.turns
        course.old.state line.now in
        OnOk result (NotesMore W.HasNoted (W.facts (cave_of rules.now) here) watch.old watch.new) }
    ensures course { let here = moment_at (cave_of rules.now) course.old.place course.old.turns
        course.old.state line.now in
        OnOk result ((course.new.place ≡ course.old.place + 1) × (course.new.turns ≡ here.turns)
        × (course.new.state ≡ here.after)) }
{
    let before = W::before(&course.state);
    course.out.clear();
    course.rows.clear();
    let mut meter = Meter::new();
    let ticked = note_rows_on_line(
        rules,
        &mut course.state,
        line,
        &mut course.out,
        &mut course.rows,
        &mut meter,
    );
    course.turns += u32::from(ticked);
    let seen = SeenLine {
        rules: *rules,
        place: course.place,
        line,
        turns: course.turns,
        ticked,
        before,
        after: &course.state,
        parts: course.out.as_slice(),
    };
    watch.see(alloc, &seen, &course.rows)?;
    course.place += 1;
    Ok(())
}

/// Plays a log from its first line to its last, while it is read and watched. A log that is refused
/// may have been watched up to any of its lines.
pub fn watch_log<W: Watch>(
    alloc: Global,
    machine: CaveMachine<'_>,
    log: &[u8],
    seed: u32,
    watch: &mut W,
) -> Result<PlayEnd, OpenFault>
    ensures faults { let fault = or_game_fault (first_bad_line (lines log.now) 1) (lines log.now)
        seed in MatchResult result (λ _. fault ≡ None)
        (λ found. (found ≡ OpenFault.Memory) ⊎ (fault ≡ Some found)) }
    ensures noted { OnOk result (NotesMore W.HasNoted
        (noted_of W.first_facts W.facts machine.entry.rules.cave.now
        (game_of seed (lines log.now))) watch.old watch.new) }
    ensures end { IfOk result
        (IsEndOf machine.entry.rules.cave.now (game_of seed (lines log.now))) }
{
    let rules = machine.rules;
    let mut course = begin(alloc, &rules, seed, watch)?;
    let mut count = 0;
    let mut rest = log;
    while let Some(found) = split_log_line(rest) {
        count += 1;
        let (line, more) = match found {
            Ok(good) => good,
            Err(flaw) => return Err(OpenFault::BadLine(count, flaw)),
        };
        // The lines of a log that is too long are read on, since one of them may be wrong.
        if !is_long_log(count) {
            play_line(alloc, &rules, &mut course, line, watch)?;
        }
        rest = more;
    }
    if is_long_log(count) {
        return Err(OpenFault::LogFull);
    }
    if is_large_seed(u64::from(seed)) {
        return Err(OpenFault::BadSeed);
    }
    Ok(PlayEnd {
        state: course.state,
        turns: course.turns,
    })
}

/// Plays the log that a session holds once more, since it keeps no state between its checkpoints,
/// and watches that.
pub fn watch_session<W: Watch>(
    alloc: Global,
    session: &Session<CaveMachine<'_>>,
    watch: &mut W,
) -> Result<(), AllocError>
    ensures { OnOk result (NotesMore W.HasNoted
        (noted_of W.first_facts W.facts session.now.machine.rules.cave.now session.now.game)
        watch.old watch.new) }
{
    let rules = session.machine().rules;
    let mut course = begin(alloc, &rules, session.seed(), watch)?;
    for place in 0..session.lines() {
        play_line(alloc, &rules, &mut course, session.line(place), watch)?;
    }
    Ok(())
}
