//! The turn: what a line of a log does to a game.
#![tactic(auto)]

pub mod answers;
pub mod commands;
pub mod dragon;
pub mod finish;
pub mod half_command;
pub mod object_words;
pub mod request;
pub mod revival;
pub mod said_word;
pub mod turns;

pub use base_lines::Meter;
pub use cave_data::Cave;
pub use cave_words::Lexicon;
pub use cave_world::{Out, Part, RowNotes, RuleRow, State, Table, Unnoted};
pub use turn_ends::{max_score, score};
pub use turn_scene::Rules;
pub use turn_text::render;
pub use turns::{Turned, note_rows_on_line, start, take_line, turn};
pub use world_objects::Object;
