//! Scripts of edits: how they are read, and how edits are written as one.
#![tactic(auto)]

pub mod edit_flaw;
pub mod fault;
pub mod guard;
pub mod laws;
mod line;
pub mod script;
pub mod script_text;
pub mod undo_laws;

pub use edit_flaw::EditFlaw;
pub use fault::{ScriptFlaw, ScriptRefusal};
pub use guard::Guard;
pub use script::{Item, Script};
pub use script_text::{BackEdit, push_script, text_of_lines};
