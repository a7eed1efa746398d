//! Runs over readers that can be made to misbehave, into a writer that can, too.

use crate::caves::{CAVE, LOG, NOTHING, SCRIPT};
use crate::streams::{Sink, TestReader};
use cave_play::{
    CaveReaders, Inputs, LogsFault, PlayFault, run_check, run_doubts, run_edit, run_play,
};
use check_doubts::DoubtFiles;
use play_command::{CheckView, CoverView, EditView, Editing, Input, MapPart, PlayView, TextView};
use play_cover::run::{CoverAsked, run_cover};
use play_map::run::run_map;
use std::alloc::Global;
use std::io::{Read, Write};

/// What is asked for.
#[derive(Clone, Copy, Debug)]
pub enum Run {
    Check,
    Doubts,
    Play,
    Edit,
    Cover,
    Map,
}

/// All of these.
pub const RUNS: [Run; 6] = [
    Run::Check,
    Run::Doubts,
    Run::Play,
    Run::Edit,
    Run::Cover,
    Run::Map,
];

/// How many inputs there are: the database, the bindings, the log, and last the script, another log
/// or the list of known doubts.
pub const INPUTS: usize = 4;

/// How many of these are the cave's.
const CAVE_INPUTS: usize = 2;

impl Run {
    /// Whether it reads the input with a number.
    pub fn reads(self, number: usize) -> bool {
        match self {
            Run::Check => number < CAVE_INPUTS,
            Run::Doubts => number != 2,
            Run::Play => number < 3,
            Run::Edit | Run::Cover | Run::Map => true,
        }
    }

    /// A fault that it meets at the input with a number. For one of several logs it says which.
    pub fn fault_at(self, number: usize, fault: PlayFault) -> LogsFault {
        let log = match self {
            Run::Cover | Run::Map => number.checked_sub(CAVE_INPUTS),
            _ => None,
        };
        LogsFault { fault, log }
    }

    /// What the input with a number is.
    pub fn input(self, number: usize) -> Input {
        match (self, number) {
            (_, 0) => Input::Cave,
            (_, 1) => Input::Bindings,
            (Run::Doubts, _) => Input::Known,
            (Run::Edit, 3) => Input::Script,
            _ => Input::Log,
        }
    }

    /// What it usually reads as that.
    pub fn text(self, number: usize) -> &'static [u8] {
        match self.input(number) {
            Input::Cave => CAVE,
            Input::Script => SCRIPT,
            Input::Log => LOG,
            _ => NOTHING,
        }
    }
}

/// How a run ended, and what it wrote.
#[derive(Drop)]
pub struct RunEnd {
    pub ended: Result<(), LogsFault>,
    pub output: Vec<u8>,
}

/// The readers of a run, and what is asked of it.
#[derive(Drop)]
pub struct Feeds<'a> {
    inputs: Inputs<TestReader<'a>, TestReader<'a>, TestReader<'a>, TestReader<'a>>,
    pub seed: u32,
    pub every: u32,
}

// These promise nothing, and are of readers and writers of any kind: what calls them over test
// readers is checked without the contracts of runs.

fn check_into<C: Read, B: Read, L: Read, S: Read, W: Write>(
    alloc: Global,
    inputs: &mut Inputs<C, B, L, S>,
    sink: &mut W,
) -> Result<(), PlayFault> {
    run_check(alloc, inputs, CheckView::Maximum, sink)
}

fn doubts_into<C: Read, B: Read, L: Read, S: Read, W: Write>(
    alloc: Global,
    inputs: &mut Inputs<C, B, L, S>,
    sink: &mut W,
) -> Result<(), PlayFault> {
    let files = DoubtFiles {
        database: "cave",
        bindings: "bind",
        known: "known",
    };
    run_doubts(alloc, inputs, &files, false, sink)
}

fn play_into<C: Read, B: Read, L: Read, S: Read, W: Write>(
    alloc: Global,
    inputs: &mut Inputs<C, B, L, S>,
    seed: u32,
    sink: &mut W,
) -> Result<(), PlayFault> {
    run_play(alloc, inputs, seed, PlayView::Transcript, sink)
}

fn edit_into<C: Read, B: Read, L: Read, S: Read, W: Write>(
    alloc: Global,
    inputs: &mut Inputs<C, B, L, S>,
    seed: u32,
    every: u32,
    sink: &mut W,
) -> Result<(), PlayFault> {
    let editing = Editing {
        seed,
        every,
        view: EditView::Transcript,
        strict: false,
        guarded: false,
    };
    run_edit(alloc, inputs, editing, None, sink)?;
    Ok(())
}

fn cover_into<C: Read, B: Read, L: Read, W: Write>(
    alloc: Global,
    cave: &mut CaveReaders<C, B>,
    logs: &mut [L; 2],
    seed: u32,
    sink: &mut W,
) -> Result<(), LogsFault> {
    let asked = CoverAsked {
        seed,
        view: CoverView::Said(TextView::Counts),
        known: "",
    };
    let mut none: &[u8] = b"";
    run_cover(alloc, cave, &mut none, logs, &asked, sink)?;
    Ok(())
}

fn map_into<C: Read, B: Read, L: Read, W: Write>(
    alloc: Global,
    cave: &mut CaveReaders<C, B>,
    logs: &mut [L; 2],
    seed: u32,
    sink: &mut W,
) -> Result<(), LogsFault> {
    let part = MapPart {
        seen: false,
        around: None,
    };
    run_map(alloc, cave, logs, seed, part, sink)
}

impl<'a> Feeds<'a> {
    /// Readers of the usual inputs of a run, with seed 0 and a checkpoint at each line.
    pub fn of(run: Run) -> Feeds<'a> {
        Feeds {
            inputs: Inputs {
                cave: CaveReaders {
                    database: TestReader::of(run.text(0)),
                    bindings: TestReader::of(run.text(1)),
                },
                log: TestReader::of(run.text(2)),
                script: TestReader::of(run.text(3)),
            },
            seed: 0,
            every: 1,
        }
    }

    /// The reader of the input with a number.
    pub fn reader(&mut self, number: usize) -> &mut TestReader<'a> {
        match number {
            0 => &mut self.inputs.cave.database,
            1 => &mut self.inputs.cave.bindings,
            2 => &mut self.inputs.log,
            _ => &mut self.inputs.script,
        }
    }

    /// Breaks the readers of the inputs from a number on.
    pub fn break_from(&mut self, number: usize) {
        for later in number..INPUTS {
            *self.reader(later) = TestReader::broken();
        }
    }

    /// Whether no reader of the inputs from a number on was asked.
    pub fn is_unread_from(&mut self, number: usize) -> bool {
        for later in number..INPUTS {
            if self.reader(later).asks != 0 {
                return false;
            }
        }
        true
    }

    /// Does a run over the last two inputs as logs: the map, or what they cover.
    fn run_over_logs(&mut self, alloc: Global, run: Run, sink: &mut Sink) -> Result<(), LogsFault> {
        let mut logs = [self.inputs.log, self.inputs.script];
        let cave = &mut self.inputs.cave;
        let ended = match run {
            Run::Map => map_into(alloc, cave, &mut logs, self.seed, sink),
            _ => cover_into(alloc, cave, &mut logs, self.seed, sink),
        };
        self.inputs.log = logs[0];
        self.inputs.script = logs[1];
        ended
    }

    /// Does a run into a sink.
    pub fn run_into(&mut self, alloc: Global, run: Run, sink: &mut Sink) -> Result<(), LogsFault> {
        match run {
            Run::Check => check_into(alloc, &mut self.inputs, sink)?,
            Run::Doubts => doubts_into(alloc, &mut self.inputs, sink)?,
            Run::Play => play_into(alloc, &mut self.inputs, self.seed, sink)?,
            Run::Edit => edit_into(alloc, &mut self.inputs, self.seed, self.every, sink)?,
            Run::Cover | Run::Map => self.run_over_logs(alloc, run, sink)?,
        }
        Ok(())
    }

    /// Does a run into a sink that takes all.
    pub fn run(&mut self, alloc: Global, run: Run) -> RunEnd {
        let mut sink = Sink::in_pieces(alloc, usize::MAX);
        let ended = self.run_into(alloc, run, &mut sink);
        let Sink { taken, .. } = sink;
        RunEnd {
            ended,
            output: taken,
        }
    }
}
