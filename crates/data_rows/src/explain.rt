//! The text of a fault, for the person who wrote the line: what is wrong, and what was expected
//! there.
use crate::error::{BindingFlaw, Cause, FaultSite, Section};
use std::fmt;

/// The line at fault, if a line is.
#[derive(Clone, Copy, Debug)]
pub struct At {
    pub line: usize,
    pub site: FaultSite,
}

impl fmt::Display for At {
    fn fmt<W: fmt::Write>(&self, f: &mut fmt::Formatter<W>) -> fmt::Result {
        let line = self.line;
        match self.site {
            _ if line == 0 => Ok(()),
            FaultSite::Bindings => write!(f, "line {line} of the bindings: "),
            FaultSite::Database | FaultSite::Section(_) => write!(
                f,
                "line {line} of the database: "
            ),
        }
    }
}

impl fmt::Display for Section {
    fn fmt<W: fmt::Write>(&self, f: &mut fmt::Formatter<W>) -> fmt::Result {
        let number = *self as u8 + 1;
        write!(f, "section {number}")
    }
}

/// What is wrong, and what was expected there.
#[derive(Clone, Copy, Debug)]
pub struct Expected {
    pub cause: Cause,
    pub site: FaultSite,
}

impl fmt::Display for Expected {
    fn fmt<W: fmt::Write>(&self, f: &mut fmt::Formatter<W>) -> fmt::Result {
        let cause = self.cause;
        if let (Cause::NoEnd, FaultSite::Section(section)) = (cause, self.site) {
            return write!(
                f,
                "{cause}: {section} has to end with -1, and the database with 0"
            );
        }
        let expected = match self.site {
            FaultSite::Database => outside(cause),
            FaultSite::Section(section) => in_section(cause, section),
            FaultSite::Bindings => in_bindings(cause),
        };
        match expected {
            Some(text) => write!(f, "{cause}: {text}"),
            None => write!(f, "{cause}"),
        }
    }
}

/// What was expected, if the database as a whole or a line outside every section is at fault.
fn outside(cause: Cause) -> Option<&'static str> {
    match cause {
        Cause::TooLarge => Some("a database has at most 1,048,576 bytes"),
        Cause::BadSection => Some(
            "expected the number of a section, 1 to 12, or 0 at the end of the database",
        ),
        Cause::NoEnd => Some("its last line has to be 0"),
        Cause::BadNumber
        | Cause::OutOfRange
        | Cause::TooManyRows
        | Cause::BadBinding(_)
        | Cause::UnknownRole
        | Cause::Memory => None,
    }
}

/// What was expected in bindings.
fn in_bindings(cause: Cause) -> Option<&'static str> {
    match cause {
        Cause::TooLarge => Some("bindings have at most 1,048,576 bytes"),
        Cause::BadBinding(BindingFlaw::Malformed) => {
            Some(
                "expected two fields, `msg.NAME N`, `place.NAME N` or `num.letters N`, with N of \
                 1 to 9 digits",
            )
        }
        Cause::BadBinding(BindingFlaw::BadValue) => {
            Some(
                "in `msg.NAME N` it is from 1 to 499, in `place.NAME N` from 1 to 300, in \
                 `num.letters N` from 5 to 8",
            )
        }
        Cause::BadBinding(BindingFlaw::Repeated) => Some("delete one of the two lines"),
        Cause::UnknownRole => {
            Some("expected `msg.` or `place.` with a name that the game knows, or `num.letters`")
        }
        Cause::BadSection
        | Cause::BadNumber
        | Cause::OutOfRange
        | Cause::NoEnd
        | Cause::TooManyRows
        | Cause::Memory => None,
    }
}

/// What was expected in a section.
fn in_section(cause: Cause, section: Section) -> Option<&'static str> {
    match cause {
        Cause::BadNumber => Some(row(section)),
        Cause::OutOfRange => Some(range(section)),
        Cause::TooManyRows => limit(section),
        Cause::TooLarge
        | Cause::BadSection
        | Cause::NoEnd
        | Cause::BadBinding(_)
        | Cause::UnknownRole
        | Cause::Memory => None,
    }
}

/// What a row of the section has.
fn row(section: Section) -> &'static str {
    match section {
        Section::LongTexts =>
            "section 1 expects a place and a line of its long text, or -1 at its end",
        Section::ShortTexts =>
            "section 2 expects a place and a line of its short text, or -1 at its end",
        Section::Travel => {
            "section 3 expects a place, a target and at least one motion, all of them numbers of \
             1 to 9 digits, or -1 at its end"
        }
        Section::Words =>
            "section 4 expects a number of 1 to 9 digits and a word, or -1 at its end",
        Section::Objects => {
            "section 5 expects the number of an object, or a hundred times a prop, and a line of \
             its text, or -1 at its end"
        }
        Section::Messages => "section 6 expects a message and a line of its text, or -1 at its end",
        Section::Placements => {
            "section 7 expects an object and at most two places of it, all of them numbers of 1 \
             to 9 digits, or -1 at its end"
        }
        Section::Defaults =>
            "section 8 expects an action and a message, both of them numbers of 1 to 9 digits, or \
             -1 at its end",
        Section::Conditions => {
            "section 9 expects a bit and the places that have it, all of them numbers of 1 to 9 \
             digits, or -1 at its end"
        }
        Section::Classes =>
            "section 10 expects the greatest score of a class and its text, or -1 at its end",
        Section::Hints => {
            "section 11 expects a hint, its turns, its points, its question and its text, all of \
             them numbers of 1 to 9 digits, or -1 at its end"
        }
        Section::Magic => "section 12 expects a message and a line of its text, or -1 at its end",
    }
}

/// Which numbers and texts the section may have.
fn range(section: Section) -> &'static str {
    match section {
        Section::LongTexts | Section::ShortTexts => {
            "a place is from 1 to 300, and a line of text has at most 255 bytes"
        }
        Section::Travel => {
            "a place is from 1 to 300, a target from 0 to 999999, and a motion from 1 to 999"
        }
        Section::Words => {
            "a word's number is from 1 to 999, from 1001 to 1100, from 2001 to 2099 or from 3001 \
             to 3499"
        }
        Section::Objects => {
            "an object is from 1 to 99, a prop's line is one of 0, 100, 200 to 9900 after an \
             object's, and a line of text has at most 255 bytes"
        }
        Section::Messages | Section::Magic => {
            "a message is from 1 to 499, and a line of text has at most 255 bytes"
        }
        Section::Placements => {
            "an object is from 1 to 100, its first place from 0 to 300, and its second from -1 to \
             300"
        }
        Section::Defaults => "an action is from 1 to 99, and its message from 0 to 499",
        Section::Conditions => "a bit is from 0 to 20, and a place from 1 to 300",
        Section::Classes => "a score is from 0 to 9999, and a text has at most 255 bytes",
        Section::Hints => {
            "a hint is from 1 to 20, its turns from 0 to 9999, its points from 0 to 100, and its \
             messages from 0 to 499"
        }
    }
}

/// How many rows the section may have, and how long they may be, if there is a limit.
fn limit(section: Section) -> Option<&'static str> {
    match section {
        Section::Travel => Some("section 3 has at most 2,000 rows, and a row at most 40 motions"),
        Section::Words => Some("section 4 has at most 1,000 rows"),
        Section::Conditions => Some("a row of section 9 has at most 40 places"),
        Section::Classes => Some("section 10 has at most 50 rows"),
        Section::LongTexts
        | Section::ShortTexts
        | Section::Objects
        | Section::Messages
        | Section::Placements
        | Section::Defaults
        | Section::Hints
        | Section::Magic => None,
    }
}
