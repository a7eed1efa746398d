//! The machine of a cave, and what is written of a play that it made: the transcript, tables of its
//! lines and of its score, its lines as JSON, and its last state.
#![tactic(auto)]

pub mod course;
pub mod final_state;
pub mod head;
pub mod machine;
mod noted_rows;
pub mod packed_state;
pub mod piece;
pub mod score;
pub mod steps;
pub mod transcript;
mod visited;
pub mod walk;
pub mod watch;

pub use course::{PlayEnd, watch_log};
pub use final_state::{push_final_state, push_state_after};
pub use machine::CaveMachine;
pub use noted_rows::NotedRows;
pub use piece::Piece;
pub use score::push_score;
pub use steps::{StepTable, push_steps};
pub use transcript::{Transcript, push_play, push_play_end};
pub use walk::{WalkLines, push_walk};
pub use watch::{Begun, SeenLine, Unwatched, Watch};
