ghost use Rattle.std.specs.Prelude.{◌≡◌, ◌+◌, ◌^◌, ◌<◌, ◌↔◌, IfOk, OnOk, IsTrue};
ghost use Rattle.base_lines.specs.Line.{is_line};
ghost use Rattle.cave_replay.specs.Play.{MachineRules};

use base_lines::Steps;
use replay_checkpoints::KeptState;
use std::alloc::{AllocError, Global};

/// What a machine begins with: its first state, and the piece that greets.
#[derive(Drop)]
pub struct Started<S, P> {
    pub state: S,
    pub piece: P,
}

/// What a machine answers to one line: the state after it, the piece that it says, and whether the
/// line ticked.
#[derive(Drop)]
pub struct Stepped<S, P> {
    pub state: S,
    pub piece: P,
    pub ticked: bool,
}

/// The answer to a line that was played in the state itself.
#[derive(Drop)]
pub struct PlayedInPlace<P> {
    pub piece: P,
    pub ticked: bool,
}

/// A machine plays a log line by line. Its answers are functions of the seed, of the state and of
/// the line.
pub trait Machine: Drop {
    /// The state from which the machine goes on.
    type State: Copy + Eq;

    /// What it says at the start and to each line.
    type Piece: Drop;

    /// What counts the lines that it plays.
    type Meter: Steps;

    /// What a state means, and what a piece says.
    ghost Meaning: { Type 0 };

    ghost Text: { Type 0 };

    ghost meaning: { Self.State → Meaning };

    ghost text: { Self.Piece → Text };

    ghost rules: { Self → MachineRules Meaning Text };

    /// Holds of the states that the machine makes.
    ghost is_state: { Self.State → Type 0 } = { λ _. Unit {0} };

    /// The state at the start, and the greeting.
    fn start(
        &self,
        alloc: Global,
        seed: u32,
    ) -> Result<Started<Self::State, Self::Piece>, AllocError>
        ensures made { IfOk result (λ made. is_state made.state) }
        ensures state { IfOk result (λ made. meaning made.state ≡ (rules self.now).begun seed) }
        ensures piece { IfOk result (λ made. text made.piece ≡ (rules self.now).greeting seed) };

    /// Plays one line. The meter counts it, even if memory is refused.
    fn step(
        &self,
        alloc: Global,
        state: &Self::State,
        line: &[u8],
        meter: &mut Self::Meter,
    ) -> Result<Stepped<Self::State, Self::Piece>, AllocError>
        requires known { is_state state.now }
        requires line { IsTrue (is_line line.now) }
        requires room { Self.Meter.count meter.old + 1 < 2 ^ 64 }
        ensures counted { Self.Meter.count meter.new ≡ Self.Meter.count meter.old + 1 }
        ensures made { IfOk result (λ made. is_state made.state) }
        ensures state { IfOk result (λ made. meaning made.state
            ≡ (rules self.now).after (meaning state.now) line.now) }
        ensures piece { IfOk result (λ made. text made.piece
            ≡ (rules self.now).said (meaning state.now) line.now) }
        ensures ticked { IfOk result (λ made. made.ticked
            ≡ (rules self.now).ticked (meaning state.now) line.now) };

    /// A piece that says the same.
    fn copy_piece(&self, alloc: Global, piece: &Self::Piece) -> Result<Self::Piece, AllocError>
        ensures { IfOk result (λ copy. text copy ≡ text piece.now) };

    /// States are equal exactly if their meanings are.
    ghost exact: { (a b : Self.State) → is_state a → is_state b
        → IsTrue (Self.State.eq a b) ↔ (meaning a ≡ meaning b) };
}

/// How a session plays a machine: what it keeps of states, and what the machine works in.
pub trait Playable: Machine {
    /// How a checkpoint keeps a state: whole, as `Whole<Self::State>`, or in a smaller form.
    type Kept: KeptState<State = Self::State>;

    /// What it works in at a step. It is made once for all steps, and no answer depends on what is
    /// left in it.
    type Scratch: Drop;

    /// What the machine works in.
    fn scratch(&self, alloc: Global) -> Result<Self::Scratch, AllocError>;

    /// Plays one line in the state itself, so a machine may copy no state for it. If memory is
    /// refused, the state is of no more use to its owner. The answer is the same for anything that
    /// earlier steps left in the scratch.
    fn step_in_place(
        &self,
        alloc: Global,
        _scratch: &mut Self::Scratch,
        state: &mut Self::State,
        line: &[u8],
        meter: &mut Self::Meter,
    ) -> Result<PlayedInPlace<Self::Piece>, AllocError>
        requires known { Self.is_state state.old }
        requires line { IsTrue (is_line line.now) }
        requires room { Self.Meter.count meter.old + 1 < 2 ^ 64 }
        ensures counted { Self.Meter.count meter.new ≡ Self.Meter.count meter.old + 1 }
        ensures made { OnOk result (Self.is_state state.new) }
        ensures state { OnOk result (Self.meaning state.new
            ≡ (Self.rules self.now).after (Self.meaning state.old) line.now) }
        ensures piece { IfOk result (λ made. Self.text made.piece
            ≡ (Self.rules self.now).said (Self.meaning state.old) line.now) }
        ensures ticked { IfOk result (λ made. made.ticked
            ≡ (Self.rules self.now).ticked (Self.meaning state.old) line.now) }
    {
        let stepped = self.step(alloc, state, line, meter)?;
        *state = stepped.state;
        Ok(PlayedInPlace {
            piece: stepped.piece,
            ticked: stepped.ticked,
        })
    }
}
