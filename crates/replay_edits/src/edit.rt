use crate::line_text::LineText;

/// A change of a game: of one line of its log, or of its seed. Places count the log's lines from 0.
#[derive(Debug, Drop)]
pub enum Edit {
    /// The line is inserted at the place; those from there on move back by one.
    Insert(u32, LineText),
    /// The line at the place is deleted; those after it move forward by one.
    Delete(u32),
    /// The line replaces the one at the place.
    Replace(u32, LineText),
    /// The game begins with another seed.
    Reseed(u32),
}
