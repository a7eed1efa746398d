use replay_edits::LineText;

/// A line of a script that says which line the log must have at a place.
#[derive(Debug, Drop)]
pub struct Guard {
    /// The number of the line.
    pub line: usize,
    /// The place in the log, from 0.
    pub place: u32,
    pub text: LineText,
    /// How many edits of its item come before it.
    pub after: usize,
}
