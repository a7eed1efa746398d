//! The program over what a system gives it: it opens files, calls a run, writes the output, and reports
//! a fault.
#![tactic(auto)]

mod files;
pub mod head;
mod make;
pub mod message;
pub mod output;
pub mod program;
pub mod run;
mod sources;
pub mod system;

pub use cave_play::{CaveReaders, LogsFault, PlayFault};
pub use message::Message;
pub use output::Output;
pub use play_command::{CoverView, MapPart, Surroundings, TextView};
pub use play_cover::run::{CoverAsked, run_cover};
pub use play_map::run::run_map;
pub use program::run_program;
pub use system::{System, Target, replace};
