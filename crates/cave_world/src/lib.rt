//! The state of a game, light, the rows that lead from place to place, and notes on the rows of rules.
#![tactic(auto)]

pub mod called;
pub mod closing;
pub mod count;
pub mod dwarves;
pub mod ending;
pub mod ghost_rows;
pub mod handling;
pub mod hints;
pub mod lamp;
pub mod laws;
pub mod magic;
pub mod motion;
pub mod notes;
pub mod part;
pub mod sight;
pub mod state;
pub mod tables;
pub mod talk;
pub mod travel_rows;
pub mod visits;

pub use called::{object_called, or_no_object};
pub use cave_words::{Stream, Word};
pub use closing::Closing;
pub use count::Count;
pub use data_rows::{Condition, Destination, Role, Row, Special};
pub use dwarves::{DWARVES, Dwarf, Dwarves, Knife, PIRATE};
pub use ending::{Ending, Question};
pub use ghost_rows::GhostRows;
pub use hints::{CLUE_HINT, HintNumber, Hints, INSTRUCTIONS_HINT, MAX_TURNS_IN_AREA};
pub use lamp::{Charge, LOW_CHARGE, Lamp};
pub use magic::Magic;
pub use motion::Motion;
pub use notes::{RowNotes, Unnoted};
pub use part::{NumberLine, Out, Part, WordLine};
pub use sight::{LAMP_ON, forced, has_condition};
pub use state::{LIVES, MAX_TREASURES, State, Tallies, Trail};
pub use tables::{RuleRow, Table};
pub use talk::{MAX_DETAILS, Talk};
pub use travel_rows::{Outcome, note_travel, travel};
pub use visits::Visits;
pub use world_objects::{Half, Object, Objects, Place, Prop, Spot};
