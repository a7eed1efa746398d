//! The verbs: what a command is, and what each verb does by the first of its rows that fits.
#![tactic(auto)]

pub mod acting;
pub mod choice;
pub mod command;
pub mod dropping;
pub mod feeding;
pub mod finding;
pub mod killing;
pub mod laws;
pub mod magic;
pub mod next;
pub mod opening;
pub mod pouring;
pub mod reading;
pub mod small;
pub mod taking;
pub mod task;
pub mod throwing;
pub mod verb;

pub use acting::act_in_scene;
pub use cave_data::Cave;
pub use cave_words::{Lexicon, Named};
pub use cave_world::{Ending, Out, Question, RowNotes, State};
pub use command::{Command, act};
pub use next::Next;
pub use task::{Task, tell_default};
pub use turn_scene::{Rules, Scene};
pub use verb::{NoRules, Verb};
pub use world_objects::{Object, Place};
