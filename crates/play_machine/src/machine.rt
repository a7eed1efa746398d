//! The machine of a cave.

ghost use Rattle.std.specs.Prelude.{◌≡◌, ◌≤◌, IfOk};
ghost use Rattle.cave_words.specs.Lexicon.{IsLexiconOf};
ghost use Rattle.cave_world.proofs.Equality.{state_equality};
ghost use Rattle.turn_scene.specs.Scene.{cave_of};
ghost use Rattle.turn_ends.specs.Score.{score_of, max_score_of};
ghost use Rattle.play_machine.specs.Machine.{cave_rules};

use crate::packed_state::PackedState;
use crate::piece::Piece;
use base_lines::Meter;
use cave_data::Cave;
use cave_replay::{Machine, Playable, PlayedInPlace, Started, Stepped};
use cave_turn::{start, take_line};
use cave_words::Lexicon;
use cave_world::{Out, Part, State};
use std::alloc::{AllocError, Global};
use turn_ends::{Scorer, max_score_by, score_by};
use turn_scene::Rules;

/// What plays a log in a cave, with the words of that cave.
#[derive(Clone, Copy)]
pub struct CaveMachine<'a> {
    pub(crate) rules: Rules<'a>,
}

impl<'a> CaveMachine<'a> {
    /// The machine of a cave, which reads words by the lexicon of that cave.
    pub fn new(cave: &'a Cave, lexicon: &'a Lexicon) -> CaveMachine<'a>
        requires { IsLexiconOf cave.now lexicon.now }
        ensures { cave_of result.rules ≡ cave.now }
    {
        CaveMachine {
            rules: Rules::of(cave, lexicon),
        }
    }

    /// The cave in which the game is played.
    pub fn cave(self) -> &'a Cave
        ensures { result.now ≡ cave_of self.entry.rules }
    {
        self.rules.cave
    }

    /// The rules of the cave.
    pub fn rules(self) -> Rules<'a>
        ensures { cave_of result ≡ cave_of self.entry.rules }
    {
        self.rules
    }

    /// The score of a state, which is at most the greatest one of the cave.
    pub fn score(self, state: &State) -> u32
        ensures value { result ≡ score_of (cave_of self.entry.rules) state.now }
        ensures most { result ≤ max_score_of (cave_of self.entry.rules) }
    {
        score_by(&Scorer::of(&self.rules), state)
    }

    /// The greatest score that the cave has.
    pub fn max_score(self) -> u32
        ensures { result ≡ max_score_of (cave_of self.entry.rules) }
    {
        max_score_by(&Scorer::of(&self.rules))
    }
}

/// The parts as a list of their own.
fn keep(alloc: Global, parts: &[Part]) -> Result<Piece, AllocError>
    ensures { IfOk result (λ kept. kept.items ≡ parts.now) }
{
    Piece::from_slice(alloc, parts)
}

impl<'a> Machine for CaveMachine<'a> {
    ghost use Rattle.std.specs.Prelude.{List};
    ghost use Rattle.cave_world.specs.declared.part.Part.{Part};
    ghost use Rattle.cave_world.specs.declared.state.State.{State};

    type State = State;

    type Piece = Piece;

    type Meter = Meter;

    ghost Meaning = { State };

    ghost Text = { List Part };

    ghost meaning = { λ state. state };

    ghost text = { λ piece. piece.items };

    ghost rules = { λ machine. cave_rules (cave_of machine.rules) };

    ghost exact = { λ a b _ _. state_equality a b };

    fn start(&self, alloc: Global, seed: u32) -> Result<Started<State, Piece>, AllocError> {
        let mut out = Out::new();
        let state = start(self.rules.cave, seed, &mut out);
        let piece = keep(alloc, out.as_slice())?;
        Ok(Started { state, piece })
    }

    fn step(
        &self,
        alloc: Global,
        state: &State,
        line: &[u8],
        meter: &mut Meter,
    ) -> Result<Stepped<State, Piece>, AllocError> {
        let mut state = *state;
        let played = self.step_in_place(alloc, &mut Out::new(), &mut state, line, meter)?;
        Ok(Stepped {
            state,
            piece: played.piece,
            ticked: played.ticked,
        })
    }

    fn copy_piece(&self, alloc: Global, piece: &Piece) -> Result<Piece, AllocError> {
        keep(alloc, piece)
    }
}

impl<'a> Playable for CaveMachine<'a> {
    type Kept = PackedState;

    type Scratch = Out;

    fn scratch(&self, _alloc: Global) -> Result<Out, AllocError> {
        Ok(Out::new())
    }

    fn step_in_place(
        &self,
        alloc: Global,
        out: &mut Out,
        state: &mut State,
        line: &[u8],
        meter: &mut Meter,
    ) -> Result<PlayedInPlace<Piece>, AllocError> {
        out.clear();
        let ticked = take_line(&self.rules, state, line, out, meter);
        let piece = keep(alloc, out.as_slice())?;
        Ok(PlayedInPlace { piece, ticked })
    }
}
