ghost use Rattle.std.specs.Prelude.{◌≡◌, ◌+◌, ◌^◌, ◌<◌, ◌≤◌, [], false, IsTrue};
ghost use Rattle.arrayvec.specs.ArrayVec.{array_vec_len};
ghost use Rattle.base_lines.specs.Line.{is_line};
ghost use Rattle.cave_words.specs.Lexicon.{IsLexiconOf};
ghost use Rattle.turn_scene.specs.Bounds.{parts_of_turn};
ghost use Rattle.turn_scene.specs.Scene.{cave_of};
ghost use Rattle.cave_turn.specs.Turns.{start_of_game, turn_on_line, turn_of_input, rows_on_line};
ghost use Rattle.cave_turn.specs.Turns.{rows_of_input};

use crate::answers::{answers, close_question, take_answer};
use crate::commands::command;
use base_lines::{LogLine, Meter};
use cave_data::Cave;
use cave_words::{Lexicon, Stream};
use cave_world::{Out, Part, RowNotes, State, Unnoted};
use data_rows::Role;
use turn_ends::begun_state;
use turn_scene::Rules;

/// Plays a line of a log in the state itself. Returns whether it is a turn of the game.
pub fn take_line(
    rules: &Rules<'_>,
    state: &mut State,
    line: &[u8],
    out: &mut Out,
    meter: &mut Meter,
) -> bool
    requires line { IsTrue (is_line line.now) }
    requires empty { out.old.items ≡ [] }
    requires room { meter.old + 1 < 2 ^ 64 }

    ensures turn { record { state = state.new; parts = out.new.items; ticked = result }
        ≡ turn_on_line (cave_of rules.now) state.old line.now }
    ensures few { array_vec_len out.new ≤ parts_of_turn }
    ensures counted { meter.new ≡ meter.old + 1 }
{
    note_rows_on_line(rules, state, line, out, &mut Unnoted::new(), meter)
}

/// The same, and notes the rows of the rules as they apply or are tried.
#[tactic(auto, unfolding(crate::specs::Turns::turn_on_line, crate::specs::Turns::rows_on_line))]
pub fn note_rows_on_line<N: RowNotes>(
    rules: &Rules<'_>,
    state: &mut State,
    line: &[u8],
    out: &mut Out,
    notes: &mut N,
    meter: &mut Meter,
) -> bool
    requires line { IsTrue (is_line line.now) }
    requires empty { out.old.items ≡ [] }
    requires unnoted { N.rows notes.old ≡ [] }
    requires room { meter.old + 1 < 2 ^ 64 }

    ensures turn { record { state = state.new; parts = out.new.items; ticked = result }
        ≡ turn_on_line (cave_of rules.now) state.old line.now }
    ensures rows { N.rows notes.new ≡ rows_on_line (cave_of rules.now) state.old line.now }
    ensures few { array_vec_len out.new ≤ parts_of_turn }
    ensures counted { meter.new ≡ meter.old + 1 }
{
    meter.tick();
    match LogLine::of(line) {
        LogLine::Comment | LogLine::Blank => false,
        LogLine::Seed(seed) => {
            state.stream = Stream::seeded(seed);
            false
        }
        LogLine::Input => play_turn(rules, line, state, out, notes),
    }
}

/// What a line does to a game: the state after it, and whether it is a turn of the game.
#[derive(Clone, Copy, Debug, PartialEq, Eq)]
pub struct Turned {
    pub state: State,
    pub ticked: bool,
}

/// Plays a line of a log, and leaves the state as it was before the line to the caller.
pub fn turn(
    cave: &Cave,
    lexicon: &Lexicon,
    state: &State,
    line: &[u8],
    out: &mut Out,
    meter: &mut Meter,
) -> Turned
    requires words { IsLexiconOf cave.now lexicon.now }
    requires line { IsTrue (is_line line.now) }
    requires empty { out.old.items ≡ [] }
    requires room { meter.old + 1 < 2 ^ 64 }

    ensures turn { record { state = result.state; parts = out.new.items; ticked = result.ticked }
        ≡ turn_on_line cave.now state.now line.now }
    ensures few { array_vec_len out.new ≤ parts_of_turn }
    ensures counted { meter.new ≡ meter.old + 1 }
{
    let mut state = *state;
    let ticked = take_line(&Rules::of(cave, lexicon), &mut state, line, out, meter);
    Turned { state, ticked }
}

/// Begins a game.
#[tactic(auto, unfolding(crate::specs::Turns::start_of_game))]
pub fn start(cave: &Cave, seed: u32, out: &mut Out) -> State
    requires { out.old.items ≡ [] }
    ensures { record { state = result; parts = out.new.items } ≡ start_of_game cave.now seed }
{
    out.push(Part::Role(Role::Welcome));
    begun_state(cave, Stream::seeded(seed))
}

/// Plays a line of input. Returns whether it is a turn of the game.
fn play_turn<N: RowNotes>(
    rules: &Rules<'_>,
    line: &[u8],
    state: &mut State,
    out: &mut Out,
    notes: &mut N,
) -> bool
    requires empty { out.old.items ≡ [] }
    requires unnoted { N.rows notes.old ≡ [] }
    ensures turn { record { state = state.new; parts = out.new.items; ticked = result }
        ≡ turn_of_input (cave_of rules.now) line.now state.old.ending state.old.question state.old }
    ensures rows { N.rows notes.new
        ≡ rows_of_input (cave_of rules.now) line.now state.old.ending state.old.question state.old }
    ensures few { array_vec_len out.new ≤ parts_of_turn }
{
    if state.ending.is_some() {
        return false;
    }
    match state.question {
        Some(question) => {
            if !answers(rules, line, &question) {
                close_question(state);
                command(rules, line, state, out, notes);
                return true;
            }
            take_answer(rules, &question, line, state, out, notes);
            false
        }
        None => {
            command(rules, line, state, out, notes);
            true
        }
    }
}
