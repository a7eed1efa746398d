//! The words of a log and of a cave: words and what they mean, the lexicon of a cave, and the
//! random stream.
#![tactic(auto)]

pub mod lexicon;
pub mod meaning;
mod meanings;
pub mod named;
pub mod stream;
pub mod walked;
pub mod word;
pub mod words;

pub use base_lines::{LineFault, LogLine, Meter, Steps, check_line};
pub use cave_data::Cave;
pub use lexicon::Lexicon;
pub use meaning::{Class, Meaning};
pub use named::Named;
pub use stream::Stream;
pub use walked::object_named;
pub use word::Word;
pub use words::Words;
