//! Laws about what is printed of a log. Each is the contract of a function that does nothing.

ghost use Rattle.play_laws.specs.LongerLogs.{CommentsPrintNothing, PrefixesPrintAlike};

/// The transcript of a log begins with that of its first lines, except for the last line of that,
/// which has the score; so do the tables of its lines with those of its first lines.
pub fn prefixes_print_alike()
    ensures { PrefixesPrintAlike }
{}

/// A comment or a blank line changes no byte of a transcript, of the table of a score or of a state.
pub fn comments_print_nothing()
    ensures { CommentsPrintNothing }
{}
