//! Runs of the program: from the bytes of its inputs to the bytes of its output.
#![tactic(auto)]

pub mod fault;
pub mod inputs;
pub mod judge;
pub mod logs;
pub mod output;
pub mod run;
pub mod two_logs;
mod views;

pub use base_lines::{LineFault, Meter, Steps};
pub use cave_data::Cave;
pub use cave_replay::{Machine, OpenFault, Report, Session};
pub use cave_words::Lexicon;
pub use cave_world::Part;
pub use check_doubts::DoubtFiles;
pub use check_tables::Clue;
pub use data_rows::{Cause, CaveError, FaultSite, Role};
pub use fault::{LogFault, PlayFault, ScriptFault};
pub use inputs::{CaveReaders, Inputs};
pub use logs::LogsFault;
pub use play_command::{
    CheckView, CommandFault, CoverView, EditAsked, EditView, Editing, EditsFrom, Input, Line,
    NamedFile, PlayView, ReportView, Request, TextView, What, command_line,
};
pub use play_edits::{EditRun, ExpectedLine, LineCopy, Refusal};
pub use play_machine::{
    CaveMachine, Piece, push_final_state, push_play, push_score, push_steps, push_walk,
};
pub use play_state_text::{Counts, push_state};
pub use replay_difference::script::ScriptForm;
pub use replay_edits::{Edit, EditFault, LineText};
pub use replay_scripts::ScriptFlaw;
pub use run::{run_check, run_doubts, run_edit, run_play};
pub use two_logs::{run_edit_to, run_script};
pub use world_objects::Object;
