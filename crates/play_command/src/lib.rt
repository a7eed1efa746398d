//! The command line, and the options of runs.
#![tactic(auto)]

pub mod app;
mod asked;
mod commands;
pub mod fault;
mod found;
pub mod line;
mod read;
pub mod views;

pub use fault::CommandFault;
pub use found::number_written;
pub use line::{
    EditAsked, Editing, EditsFrom, Input, Line, MapPart, NamedFile, Request, Surroundings, What,
};
pub use read::command_line;
pub use views::{CheckView, CoverView, EditView, PlayView, ReportView, TextView};
