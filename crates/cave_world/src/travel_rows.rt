ghost use Rattle.std.specs.Prelude.{◌≡◌, ◌≤◌, ◌++◌, ◌∷◌, [], drop, length, map};
ghost use Rattle.data_rows.specs.RowViews.{going};
ghost use Rattle.data_rows.specs.Targets.{IsConditionWithin, EndsWithin};
ghost use Rattle.cave_world.specs.Travel.{lists_motion, holds, after_condition, outcome_at};
ghost use Rattle.cave_world.specs.Travel.{after_go, row_outcome, after_trying_row, from_listed};
ghost use Rattle.cave_world.specs.Travel.{travel_by_rows, travel, row_condition, is_passed};
ghost use Rattle.cave_words.specs.declared.named.Named.TheVariants as named;
ghost use Rattle.cave_world.specs.Called.{object_called};
ghost use Rattle.cave_world.specs.Travel.{count_unlisted, rows_tried_by, rows_tried_from};
ghost use Rattle.cave_world.specs.declared.tables.RuleRow.TheVariants as rule_row;

use crate::called::object_called;
use crate::motion::Motion;
use crate::notes::{RowNotes, Unnoted};
use crate::state::State;
use crate::tables::RuleRow;
use cave_data::Cave;
use cave_words::Named;
use data_rows::{Condition, Destination, Row, Special};
use world_objects::{Object, Place};

/// Where a motion leads.
#[derive(Clone, Copy, Debug, PartialEq, Eq)]
pub enum Outcome {
    /// The player arrives at a place.
    Go(Place),
    /// The way has its own rules.
    Special(Special),
    /// A message is printed, and the player arrives where the player is.
    Say(u16),
    /// No row of the place lists the motion.
    NoMotion,
    /// None of the remaining rows can be taken.
    NoWay,
}

/// Where a motion leads from where the player is, by the rows of the place. A row may
/// move the emerald here on the way.
pub fn travel(cave: &Cave, state: &mut State, motion: u16) -> Outcome
    ensures { record { state = state.new; outcome = result }
        ≡ travel cave.now (object_called cave.now named.Emerald) motion state.old }
{
    let emerald = object_called(cave, Named::Emerald);
    note_travel(cave, emerald, state, motion, &mut Unnoted::new())
}

/// The same by the emerald that the caller knows, and notes each row that it tries.
#[tactic(auto, unfolding(crate::specs::Travel::travel, crate::specs::Travel::rows_tried_from))]
pub fn note_travel<N: RowNotes>(
    cave: &Cave,
    emerald: Object,
    state: &mut State,
    motion: u16,
    notes: &mut N,
) -> Outcome
    ensures leads { record { state = state.new; outcome = result }
        ≡ travel cave.now emerald motion state.old }
    ensures tries { N.rows notes.new
        ≡ N.rows notes.old ++ rows_tried_from cave.now emerald motion state.old }
{
    let here = state.trail.here;
    travel_by_rows(cave.travel(here.number()), emerald, state, motion, notes)
}

/// Whether a row of travel is for a motion: it lists the motion, or the one that stands for any.
pub fn lists_motion(row: &Row, motion: u16) -> bool
    ensures { result ≡ lists_motion motion (going row.now) }
{
    let any = Motion::Any.number();
    row.motions.iter().any(|&m| m == motion || m == any)
}

impl State {
    /// Whether the condition of a row holds. A condition by chance takes a draw.
    pub fn holds(&mut self, condition: Condition) -> bool
        requires { IsConditionWithin condition }
        ensures value { result ≡ holds condition self.old }
        ensures after { self.new ≡ after_condition condition self.old }
    {
        match condition {
            Condition::Always | Condition::NotForDwarves => true,
            Condition::Chance(percent) => self.stream.pct(u32::from(percent)),
            Condition::InHands(object) => self.toting(Object::new(object)),
            Condition::AtHand(number) => {
                let object = Object::new(number);
                self.toting(object) || self.at(object)
            }
            Condition::OtherProp(object, prop) => {
                i64::from(self.objects.prop(Object::new(object)).value()) != i64::from(prop)
            }
        }
    }

    /// Goes where a row leads, unless it leads nowhere.
    fn go(&mut self, emerald: Object, destination: Destination) -> Option<Outcome>
        requires { EndsWithin destination }
        ensures value { result ≡ outcome_at destination }
        ensures after { self.new ≡ after_go emerald destination self.old }
    {
        match destination {
            Destination::Place(place) => Some(Outcome::Go(Place::new(place))),
            Destination::Special(special) => Some(Outcome::Special(special)),
            Destination::Message(message) => Some(Outcome::Say(message)),
            Destination::NoWay => Some(Outcome::NoWay),
            Destination::PutsEmeraldDown => {
                let here = self.trail.here;
                self.move_to(emerald, here);
                None
            }
        }
    }

    /// Tries a row of the place, and notes it: where it leads, unless it fails.
    #[tactic(auto, unfolding(crate::specs::Travel::row_outcome, crate::specs::Travel::after_trying_row))]
    fn try_row<N: RowNotes>(
        &mut self,
        emerald: Object,
        row: &Row,
        number: usize,
        notes: &mut N,
    ) -> Option<Outcome>
        ensures value { result ≡ row_outcome self.old (going row.now) }
        ensures after { self.new ≡ after_trying_row emerald self.old (going row.now) }
        ensures noted { N.rows notes.new ≡ N.rows notes.old
            ++ rule_row.OfPlace self.old.trail.here number
            (holds (row_condition (going row.now)) self.old) ∷ [] }
    {
        let place = self.trail.here.number();
        let applies = self.holds(row.condition());
        notes.note(RuleRow::OfPlace(place, number, applies));
        if !applies {
            return None;
        }
        self.go(emerald, row.destination())
    }
}

/// Whether a row has the same target as the row before it, which failed.
fn is_passed(failed: Option<u32>, row: &Row) -> bool
    ensures { result ≡ is_passed failed (going row.now) }
{
    match failed {
        Some(target) => row.target == target,
        None => false,
    }
}

/// How many rows stand before the first that lists the motion.
fn count_unlisted(rows: &[Row], motion: u16) -> usize
    ensures value { result ≡ count_unlisted motion (map going rows.now) }
    ensures within { result ≤ length rows.now }
    ensures listed { map going (drop result rows.now) ≡ from_listed motion (map going rows.now) }
{
    for (i, row) in rows.iter().enumerate() {
        if lists_motion(row, motion) {
            return i;
        }
    }
    rows.len()
}

/// Where a motion leads by the rows of a place, tried in the order of the file.
#[tactic(auto, unfolding(crate::specs::Travel::travel_by_rows, crate::specs::Travel::rows_tried_by))]
fn travel_by_rows<N: RowNotes>(
    rows: &[Row],
    emerald: Object,
    state: &mut State,
    motion: u16,
    notes: &mut N,
) -> Outcome
    ensures leads { record { state = state.new; outcome = result }
        ≡ travel_by_rows emerald motion state.old (map going rows.now) }
    ensures tries { N.rows notes.new ≡ N.rows notes.old
        ++ rows_tried_by emerald motion state.old (map going rows.now) }
{
    let first = count_unlisted(rows, motion);
    let mut outcome = Outcome::NoMotion;
    let mut failed = None;
    for number in first..rows.len() {
        let row = &rows[number];
        if is_passed(failed, row) {
            continue;
        }
        if let Some(leads) = state.try_row(emerald, row, number, notes) {
            return leads;
        }
        outcome = Outcome::NoWay;
        failed = Some(row.target);
    }
    outcome
}
