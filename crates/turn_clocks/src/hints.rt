//! Hints: one is offered to a player who stays for long where it helps, and who needs it.

ghost use Rattle.std.specs.Prelude.{◌≡◌, ◌<◌, ◌≤◌, ◌+◌, ◌*◌, ◌⊎◌, ℕ, IsTrue, false, true, [], ◌∷◌};
ghost use Rattle.std.specs.Prelude.{Some, min};
ghost use Rattle.std.specs.FinMap.{get};
ghost use Rattle.cave_data.specs.CaveView.{CaveView, cond_of};
ghost use Rattle.cave_data.specs.Tables.{IsAbove};
ghost use Rattle.cave_world.specs.Sight.{has_condition};
ghost use Rattle.cave_world.specs.State as defined_state;
ghost use Rattle.cave_world.specs.State.{takes_no_command, turns_in_area};
ghost use Rattle.turn_scene.specs.Bounds.{GoesOnSaying, HasRoom, SaysUpTo, parts_of_question};
ghost use Rattle.turn_scene.specs.Scene.{scene_of, cave_of};
ghost use Rattle.turn_scene.specs.Rows.{Does, by_rows, by_table};
ghost use Rattle.turn_scene.specs.Effects.{Changes, with_charge};
ghost use Rattle.cave_world.specs.declared.tables.Table.TheVariants as table;
ghost use Rattle.turn_clocks.specs.Hints as defined;
ghost use Rattle.turn_clocks.specs.Hints.{offer, guard_rows};
ghost use Rattle.turn_clocks.specs.Hints.{longer_charge, with_turns_in_area, offer_rows};
ghost use Rattle.turn_clocks.specs.Hints.{after_consider, after_hints, price_rows, give_rows};

use cave_data::Cave;
use cave_words::Named;
use cave_world::{
    Charge, Count, HintNumber, LOW_CHARGE, MAX_TURNS_IN_AREA, NumberLine, Part, Question, RowNotes,
    State, Table,
};
use data_rows::Hint;
use turn_ends::ask;
use turn_scene::props::{GRATE_LOCKED, UNSEEN};
use turn_scene::{Rules, Scene, has_other_prop, has_prop, is_carried, is_near, rows};

/// The first hint that is offered.
const FIRST_HINT: u8 = 4;

/// How many hints are offered.
const OFFERED_HINTS: u8 = 17;

/// Asks how to get through the grate.
const GRATE_HINT: u8 = 4;

/// Asks how to catch the bird.
const BIRD_HINT: u8 = 5;

/// Asks how to pass the snake.
const SNAKE_HINT: u8 = 6;

/// Asks how to leave the maze.
const MAZE_HINT: u8 = 7;

/// Asks how to take the pyramid out.
const PYRAMID_HINT: u8 = 8;

/// The first hint without a guard.
const FIRST_UNGUARDED_HINT: u8 = 9;

/// How many more turns the lamp burns for each point that a hint costs.
const TURNS_A_POINT: i32 = 30;

/// A hint that the cave has, and that wasn't taken, counts its turns and is offered.
#[tactic(auto, unfolding(crate::specs::Hints::after_consider, crate::specs::Hints::hint_rows))]
fn consider<N: RowNotes>(
    rules: &Rules<'_>,
    number: HintNumber,
    conditions: u32,
    scene: &mut Scene<'_, N>,
)
    requires room { HasRoom parts_of_question scene.old }
    requires here { conditions ≡ cond_of (cave_of rules.now) scene.old.state.now.trail.here }
    ensures scene { scene_of N.rows scene.new
        ≡ after_consider (cave_of rules.now) number (scene_of N.rows scene.old) }
    ensures says { GoesOnSaying parts_of_question scene.old scene.new }
    ensures here { scene.new.state.now.trail ≡ scene.old.state.now.trail }
    ensures few_on { takes_no_command scene.new.state.now ≡ false → SaysUpTo 0 scene.old scene.new }
    ensures few_over { takes_no_command scene.old.state.now
        ≡ true → SaysUpTo 0 scene.old scene.new }
    ensures stays { takes_no_command scene.new.state.now ≡ false
        → takes_no_command scene.old.state.now ≡ false }
{
    let in_area = is_in_area(number, conditions);
    if !in_area && turns_in_area(number, scene.state).number() == 0 {
        return;
    }
    if let Some(hint) = rules.cave.hint(u16::from(number.number())) {
        let has_hint = scene.state.is_hint_taken(number);
        rows! { scene, Table::HintTurns;
            !has_hint && !in_area => self::restart(number);
            !has_hint => self::count_turn(number), self::consider_offer(rules, number, &hint);
        }
    }
}

/// A hint for which the player has stayed long enough is offered, or waits while a question is
/// open.
#[tactic(auto, unfolding(crate::specs::Hints::offer_rows))]
fn consider_offer<N: RowNotes>(
    rules: &Rules<'_>,
    number: HintNumber,
    hint: &Hint,
    scene: &mut Scene<'_, N>,
)
    requires room { HasRoom parts_of_question scene.old }
    requires hint { get (cave_of rules.now).hints number ≡ Some hint.now }
    ensures rows { Does N.rows (by_table table.Offers offer_rows ∷ []) parts_of_question
        rules.now number scene.old scene.new }
    ensures here { scene.new.state.now.trail ≡ scene.old.state.now.trail }
    ensures few_on { takes_no_command scene.new.state.now ≡ false → SaysUpTo 0 scene.old scene.new }
    ensures few_over { takes_no_command scene.old.state.now
        ≡ true → SaysUpTo 0 scene.old scene.new }
    ensures stays { takes_no_command scene.new.state.now ≡ false
        → takes_no_command scene.old.state.now ≡ false }
{
    let has_stayed = hint.turns <= turns_in_area(number, scene.state).number();
    rows! { scene, Table::Offers;
        has_stayed && scene.state.takes_no_command() => {};
        has_stayed => self::offer_by_guard(rules, number);
    }
}

/// How many turns the player has stayed in the area of a hint.
fn turns_in_area(hint: HintNumber, state: &State) -> Count<MAX_TURNS_IN_AREA>
    ensures { result ≡ turns_in_area state.now hint }
{
    state.hints.turns[usize::from(hint.number()) - 1]
}

fn set_turns_in_area(hint: HintNumber, turns: Count<MAX_TURNS_IN_AREA>, state: &mut State)
    ensures state { state.new ≡ with_turns_in_area hint turns state.old }
    ensures here { state.new.trail ≡ state.old.trail }
{
    state.hints.turns[usize::from(hint.number()) - 1] = turns;
}

/// Whether the conditions are those of a place in the area of a hint.
#[tactic(auto, unfolding(cave_world::specs::Sight::has_condition))]
fn is_in_area(hint: HintNumber, conditions: u32) -> bool
    ensures { (cave : CaveView) (s : State) → conditions ≡ cond_of cave s.trail.here
        → result ≡ has_condition cave s.trail.here hint }
{
    (conditions >> hint.number()) % 2 == 1
}

/// One more turn in the area of a hint.
#[tactic(auto, unfolding(cave_world::specs::State::takes_no_command))]
fn count_turn<N: RowNotes>(hint: HintNumber, scene: &mut Scene<'_, N>)
    ensures state { Changes N.rows (λ s. with_turns_in_area hint
        (min (turns_in_area s hint + 1) defined_state.MAX_TURNS_IN_AREA) s) scene.old scene.new }
    ensures here { scene.new.state.now.trail ≡ scene.old.state.now.trail }
    ensures over { takes_no_command scene.new.state.now ≡ takes_no_command scene.old.state.now }
{
    set_turns_in_area(hint, turns_in_area(hint, scene.state).up(), scene.state);
}

/// Counts the turns in the area of a hint from 0 again.
#[tactic(auto, unfolding(cave_world::specs::State::takes_no_command))]
fn restart<N: RowNotes>(hint: HintNumber, scene: &mut Scene<'_, N>)
    ensures state { Changes N.rows (with_turns_in_area hint 0) scene.old scene.new }
    ensures here { scene.new.state.now.trail ≡ scene.old.state.now.trail }
    ensures over { takes_no_command scene.new.state.now ≡ takes_no_command scene.old.state.now }
{
    set_turns_in_area(hint, Count::new(0), scene.state);
}

/// Offers a hint, and counts its turns from 0 again.
#[tactic(auto, using(crate::proofs::Trails::trail_asked))]
fn offer<N: RowNotes>(rules: &Rules<'_>, number: HintNumber, scene: &mut Scene<'_, N>)
    requires { HasRoom parts_of_question scene.old }
    ensures rows { Does N.rows offer parts_of_question rules.now number scene.old scene.new }
    ensures here { scene.new.state.now.trail ≡ scene.old.state.now.trail }
    ensures over { IsTrue (takes_no_command scene.new.state.now) }
{
    restart(number, scene);
    ask(rules, &Question::Hint(number), scene);
}

/// A hint is offered if its guard says that it helps, or if it has no guard.
#[tactic(auto, unfolding(crate::specs::Hints::guard_rows))]
fn offer_by_guard<N: RowNotes>(rules: &Rules<'_>, number: HintNumber, scene: &mut Scene<'_, N>)
    requires { HasRoom parts_of_question scene.old }
    ensures rows { Does N.rows (by_table table.HintGuards guard_rows ∷ []) parts_of_question
        rules.now number scene.old scene.new }
    ensures here { scene.new.state.now.trail ≡ scene.old.state.now.trail }
    ensures few_on { takes_no_command scene.new.state.now ≡ false → SaysUpTo 0 scene.old scene.new }
{
    let h = number.number();
    rows! { scene, Table::HintGuards;
        h == GRATE_HINT && has_prop(scene.state, rules.thing(Named::Grate), GRATE_LOCKED)
            && !is_near(rules, scene.state, rules.thing(Named::Keys))
            => self::offer(rules, number);
        h == BIRD_HINT && is_near(rules, scene.state, rules.thing(Named::Bird))
            && rules.is(scene.state.talk.last, Named::Bird)
            && is_carried(rules, scene.state, rules.thing(Named::Rod))
            => self::offer(rules, number);
        h == SNAKE_HINT && is_near(rules, scene.state, rules.thing(Named::Snake))
            && !is_near(rules, scene.state, rules.thing(Named::Bird))
            => self::offer(rules, number);
        let trail = scene.state.trail;
        h == MAZE_HINT && scene.state.is_bare(trail.here) && scene.state.is_bare(trail.last)
            && scene.state.is_bare(trail.older) && 1 < scene.state.holding()
            => self::offer(rules, number);
        h == PYRAMID_HINT && has_other_prop(scene.state, rules.thing(Named::Emerald), UNSEEN)
            && has_prop(scene.state, rules.thing(Named::Pyramid), UNSEEN)
            => self::offer(rules, number);
        FIRST_UNGUARDED_HINT <= h => self::offer(rules, number);
        h == BIRD_HINT => {};
        otherwise => self::restart(number);
    }
}

/// The hints are considered, one after another.
pub fn consider_all<N: RowNotes>(rules: &Rules<'_>, scene: &mut Scene<'_, N>)
    requires { HasRoom (2 * parts_of_question) scene.old }
    ensures scene { scene_of N.rows scene.new
        ≡ after_hints (cave_of rules.now) (scene_of N.rows scene.old) }
    ensures says { GoesOnSaying parts_of_question scene.old scene.new }
{
    // A hint doesn't move the player, so the conditions of the place are looked up once.
    let conditions = rules.cave.cond(scene.state.trail.here.number());
    let count = count_hints(rules.cave);
    // Most places are in the area of no hint, and then nothing changes.
    if conditions < 1 << FIRST_HINT && counts_no_turn(count, scene.state) {
        return;
    }
    for before in 0..count {
        consider(
            rules,
            HintNumber::new(before + FIRST_HINT),
            conditions,
            scene,
        );
    }
}

/// How many of the hints that are offered come before the end of those that the cave has.
fn count_hints(cave: &Cave) -> u8
    ensures few { result ≤ defined.OFFERED_HINTS }
    ensures all { IsAbove (result + defined.FIRST_HINT) cave.now.hints ⊎ (result
        ≡ defined.OFFERED_HINTS) }
{
    let count = cave.hint_end().saturating_sub(usize::from(FIRST_HINT));
    count.min(usize::from(OFFERED_HINTS)) as u8
}

/// How many turns the player has stayed in the area of the hint that is offered after this many
/// others.
fn turns_after(before: usize, state: &State) -> Count<MAX_TURNS_IN_AREA>
    requires { before < defined.OFFERED_HINTS }
    ensures { result ≡ turns_in_area state.now (defined.FIRST_HINT + before) }
{
    state.hints.turns[before + usize::from(FIRST_HINT) - 1]
}

/// Whether no turn counts for any of this many hints, from the first on.
fn counts_no_turn(count: u8, state: &State) -> bool
    requires { count ≤ defined.OFFERED_HINTS }
    ensures { IsTrue result → (n : ℕ) → n < count
        → turns_in_area state.now (defined.FIRST_HINT + n) ≡ 0 }
{
    for before in 0..usize::from(count) {
        if turns_after(before, state).number() != 0 {
            return false;
        }
    }
    true
}

/// Says what a hint costs, and asks whether it is worth that.
#[tactic(auto, unfolding(crate::specs::Hints::price_rows))]
pub fn price<N: RowNotes>(rules: &Rules<'_>, number: HintNumber, scene: &mut Scene<'_, N>)
    requires { HasRoom (1 + parts_of_question) scene.old }
    ensures rows { Does N.rows (by_rows price_rows ∷ []) (1 + parts_of_question) rules.now number
        scene.old scene.new }
{
    if let Some(hint) = rules.cave.hint(u16::from(number.number())) {
        let points = u32::from(hint.points);
        scene.tell(Part::Number(NumberLine::HintCosts, points, 0));
        ask(rules, &Question::Take(number), scene);
    }
}

/// Gives a hint. A lamp that isn't low then burns for longer.
#[tactic(auto, unfolding(crate::specs::Hints::give_rows))]
pub fn give_hint<N: RowNotes>(rules: &Rules<'_>, number: HintNumber, scene: &mut Scene<'_, N>)
    requires { HasRoom 1 scene.old }
    ensures rows { Does N.rows (by_table table.HintGiven give_rows ∷ []) 1 rules.now number
        scene.old scene.new }
{
    if let Some(hint) = rules.cave.hint(u16::from(number.number())) {
        rows! { scene, Table::HintGiven;
            LOW_CHARGE < scene.state.lamp.charge.turns()
                => tell_message(hint.text), take_hint(number), self::prolong(hint.points);
            otherwise => tell_message(hint.text), take_hint(number);
        }
    }
}

/// The lamp burns for longer, by the points of a hint.
fn prolong<N: RowNotes>(points: u16, scene: &mut Scene<'_, N>)
    ensures { Changes N.rows (λ s. with_charge (longer_charge points s.lamp.charge) s)
        scene.old scene.new }
{
    let turns = scene.state.lamp.charge.turns();
    let more = TURNS_A_POINT * i32::from(points);
    scene.state.lamp.charge = Charge::capped(turns + more);
}
