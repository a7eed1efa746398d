//! What watches plays.

ghost use Rattle.std.specs.Prelude.{◌≡◌, List, [], OnOk};
ghost use Rattle.cave_data.specs.CaveView.{CaveView};
ghost use Rattle.cave_world.specs.declared.part.Part.{Part};
ghost use Rattle.cave_world.specs.declared.state.State.{State};
ghost use Rattle.turn_scene.specs.Scene.{cave_of};
ghost use Rattle.play_machine.specs.Moments.{Moment};
ghost use Rattle.play_machine.specs.Watch.{NotesMore, moment_of};

use cave_world::{Part, RowNotes, State, Unnoted};
use std::alloc::{AllocError, Global};
use turn_scene::Rules;

/// Notes on the rows of one line, and then of the next.
pub trait LineRows: RowNotes {
    /// Notes on no row.
    fn none(alloc: Global) -> Self;

    /// Forgets the rows of a line.
    fn clear(&mut self)
        ensures { Self.rows self.new ≡ [] };
}

impl LineRows for Unnoted {
    fn none(_alloc: Global) -> Unnoted {
        Unnoted::new()
    }

    fn clear(&mut self) {
        *self = Unnoted::new();
    }
}

/// The beginning of a play, as a watch sees it: the first state, and what is said there.
#[derive(Clone, Copy)]
pub struct Begun<'a> {
    pub rules: Rules<'a>,
    pub state: &'a State,
    pub parts: &'a [Part],
}

/// A line that was played, as a watch sees it: its place, the turns up to and including it, whether
/// it took one, what is kept of the state before it, the state after it, and what was said at it.
#[derive(Clone, Copy)]
pub struct SeenLine<'a, B> {
    pub rules: Rules<'a>,
    pub place: u32,
    pub line: &'a [u8],
    pub turns: u32,
    pub ticked: bool,
    pub before: B,
    pub after: &'a State,
    pub parts: &'a [Part],
}

/// What watches plays of a cave, and notes facts of the beginning and of each line of a play.
pub trait Watch: Drop {
    /// What it keeps of the state before a line.
    type Before: Copy;

    /// What notes the rows of a line for it.
    type Rows: LineRows;

    /// What it notes.
    ghost Fact: { Type 0 };

    /// What it keeps of a state.
    ghost kept: { State → Self.Before };

    /// The facts of the beginning of a play.
    ghost first_facts: { CaveView → State → List Part → List Fact };

    /// The facts of a moment.
    ghost facts: { CaveView → Moment → List Fact };

    /// The watch has noted these facts, in this order, and no others.
    ghost HasNoted: { List Fact → Self → Type 0 };

    /// What it keeps of the state before a line.
    fn before(state: &State) -> Self::Before
        ensures { result ≡ kept state.now };

    /// Sees a play begin.
    fn start(&mut self, alloc: Global, begun: &Begun<'_>) -> Result<(), AllocError>
        ensures { OnOk result (NotesMore HasNoted (first_facts (cave_of begun.now.rules)
            begun.now.state.now begun.now.parts.now) self.old self.new) };

    /// Sees a line that was played, at which these rows were noted.
    fn see(
        &mut self,
        alloc: Global,
        seen: &SeenLine<'_, Self::Before>,
        rows: &Self::Rows,
    ) -> Result<(), AllocError>
        ensures { OnOk result ((before : State) → kept before ≡ seen.now.before → NotesMore HasNoted
            (facts (cave_of seen.now.rules) (moment_of seen.now before (Self.Rows.rows rows.now)))
            self.old self.new) };
}

/// A watch that notes nothing, for those who ask only about the end of a play.
#[derive(Drop)]
pub struct Unwatched;

impl Watch for Unwatched {
    ghost use Rattle.std.specs.Prelude.{[]};

    type Before = ();

    type Rows = Unnoted;

    ghost Fact = { Unit {0} };

    ghost kept = { λ _. tt };

    ghost first_facts = { λ _ _ _. [] };

    ghost facts = { λ _ _. [] };

    ghost HasNoted = { λ _ _. Unit {0} };

    fn before(_: &State) {}

    fn start(&mut self, _: Global, _: &Begun<'_>) -> Result<(), AllocError> {
        Ok(())
    }

    fn see(&mut self, _: Global, _: &SeenLine<'_, ()>, _: &Unnoted) -> Result<(), AllocError> {
        Ok(())
    }
}
