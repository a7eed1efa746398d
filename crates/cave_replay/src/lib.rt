//! Sessions over any machine: a log of lines that is played, edited and played again.
#![tactic(auto)]

mod copies;
pub mod fault;
pub mod laws;
pub mod log;
pub mod machine;
mod played_lines;
mod playthrough;
mod ready_edits;
mod replay;
pub mod report;
mod segment;
pub mod session;
mod takeover;
mod tick_counts;
mod ticked_lines;
mod workspace;

pub use base_lines::bytes::number_of;
pub use base_lines::{LineFault, Meter, Steps, check_line};
pub use fault::OpenFault;
pub use machine::{Machine, Playable, PlayedInPlace, Started, Stepped};
pub use played_lines::{PlayedLine, PlayedLines};
pub use replay_checkpoints::{Blocks, Items, KeptState, Whole};
pub use replay_edits::{Edit, EditFault, GroupFault, LineText};
pub use report::{GroupReport, Report};
pub use session::Session;
pub use tick_counts::TickCounts;
