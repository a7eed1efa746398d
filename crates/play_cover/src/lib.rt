//! Which texts of a cave the plays of logs never say, and which rows of the rules they never apply.
#![tactic(auto)]

pub mod cave_texts;
pub mod coverage;
pub mod each_table;
pub mod laws;
pub mod parts;
pub mod row_report;
pub mod rule_notes;
pub mod rule_tables;
pub mod run;
pub mod said;
pub mod text_report;
pub mod travel_report;
pub mod unshown;
