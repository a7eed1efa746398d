//! What is doubtful about a row of a database or of bindings.

ghost use Rattle.std.specs.Prelude.{◌≡◌, [], map, slice_index_or};

use data_rows::place_role::PLACE_NAMES;
use data_rows::role::ROLE_NAMES;
use std::fmt;

/// What names a place or a message.
#[derive(Clone, Copy, Debug, PartialEq, Eq)]
pub enum Subject {
    /// The way leads to the place.
    WayTo,
    /// The way says the message.
    WaySays,
    /// The treasure begins at the place.
    Treasure(u16),
    /// The object, which players need, begins at the place.
    Needed(u16),
    /// The action says the message.
    Action(u16),
    /// The hint asks by the message.
    Asking(u16),
    /// The hint gives the message.
    Giving(u16),
    /// The role of a message is bound to it.
    MessageRole(u16),
    /// The role of a place is bound to it.
    PlaceRole(u16),
}

/// What is doubtful about a row. Places, objects, actions, hints and messages have their numbers.
#[derive(Clone, Copy, Debug, PartialEq, Eq)]
pub enum CaveFlaw {
    /// No way leads to the place.
    NoWayTo(u16),
    /// The place or the message that something names has no text.
    Textless(Subject, u16),
    /// The way has a special number for which there is no rule.
    HasNoRule(u16),
    /// A player never gets to the way.
    NeverTaken,
    /// The word means something else, by an earlier row.
    Hidden,
    /// No place holds the treasure.
    Nowhere(u16),
    /// The treasure has no inventory text.
    Nameless(u16),
    /// No place holds an object that players need.
    Unplaced(u16),
    /// The object has no text for a prop that rules set.
    PropTextless(u16, u16),
    /// The role of a place that rules about the object need is unbound.
    PlaceUnbound(u16, u16),
    /// The role of a place at an end of the narrow passage is unbound.
    EndUnbound(u16),
    /// No word means the action.
    Wordless(u16),
    /// An earlier class has all its scores.
    TakenClass,
    /// All its scores are above the greatest of the cave.
    UnscoredClass,
    /// No class has the greatest score.
    Classless(u32),
    /// The hint has no message to ask by.
    AsksNothing(u16),
    /// The hint has no message to give.
    GivesNothing(u16),
    /// The hint has places, but no row of its own.
    Rowless(u16),
    /// The text begins with blanks, and no tab is before it.
    TextOfBlanks,
    /// A blank is before the tab that should be before the text.
    TabPrinted,
    /// The text has more than `>$<`.
    NotSilent,
    /// The role of a message is bound to one whose text prints nothing.
    RoleSilent(u16, u16),
    /// The message of the role is said at a place whose role is unbound.
    SaidNowhere(u16, u16),
}

/// The name at a place of a table.
fn name_at<'a>(names: &[&'a str], number: u16) -> &'a str
    ensures { result.now ≡ slice_index_or (map (λ name. name.now) names.now) number [] }
{
    match names.get(number as usize) {
        Some(name) => *name,
        None => "",
    }
}

impl fmt::Display for Subject {
    ghost use Rattle.std.specs.Prelude.{Some};
    ghost use Rattle.check_doubts.specs.Listing.{subject_words};

    ghost output = { λ subject. Some (subject_words subject) };

    fn fmt<W: fmt::Write>(&self, f: &mut fmt::Formatter<W>) -> fmt::Result {
        match *self {
            Subject::WayTo => write!(f, "the way leads to place"),
            Subject::WaySays => write!(f, "the way says message"),
            Subject::Treasure(object) => write!(f, "treasure {object} begins at place"),
            Subject::Needed(object) => {
                write!(f, "object {object}, which players need, begins at place")
            }
            Subject::Action(action) => write!(f, "action {action} says message"),
            Subject::Asking(hint) => write!(f, "hint {hint} asks by message"),
            Subject::Giving(hint) => write!(f, "hint {hint} gives message"),
            Subject::MessageRole(role) => {
                let name = name_at(&ROLE_NAMES, role);
                write!(f, "msg.{name} is message")
            }
            Subject::PlaceRole(role) => {
                let name = name_at(&PLACE_NAMES, role);
                write!(f, "place.{name} is place")
            }
        }
    }
}

impl fmt::Display for CaveFlaw {
    ghost use Rattle.std.specs.Prelude.{Some};
    ghost use Rattle.check_doubts.specs.Listing.{words};

    ghost output = { λ flaw. Some (words flaw) };

    fn fmt<W: fmt::Write>(&self, f: &mut fmt::Formatter<W>) -> fmt::Result {
        match *self {
            CaveFlaw::NoWayTo(place) => write!(f, "no way leads to place {place}"),
            CaveFlaw::Textless(subject, number) => {
                write!(f, "{subject} {number}, which has no text")
            }
            CaveFlaw::HasNoRule(number) => {
                write!(f, "the way leads to {number}, for which there is no rule")
            }
            CaveFlaw::NeverTaken => {
                write!(
                    f,
                    "no player takes this way: an earlier one is always taken"
                )
            }
            CaveFlaw::Hidden => write!(f, "an earlier row of this word hides it"),
            CaveFlaw::Nowhere(object) => write!(f, "no place holds treasure {object}"),
            CaveFlaw::Nameless(object) => write!(f, "treasure {object} has no inventory text"),
            CaveFlaw::Unplaced(object) => {
                write!(f, "no place holds object {object}, which players need")
            }
            CaveFlaw::PropTextless(object, prop) => {
                write!(
                    f,
                    "object {object} has no text for prop {prop}, which rules need"
                )
            }
            CaveFlaw::PlaceUnbound(role, object) => {
                let name = name_at(&PLACE_NAMES, role);
                write!(
                    f,
                    "rules about object {object} need place.{name}, which is unbound"
                )
            }
            CaveFlaw::EndUnbound(role) => {
                let name = name_at(&PLACE_NAMES, role);
                write!(
                    f,
                    "the way leads to 301, which needs place.{name}, which is unbound"
                )
            }
            CaveFlaw::Wordless(action) => write!(f, "no word means action {action}"),
            CaveFlaw::TakenClass => write!(f, "an earlier class takes its scores"),
            CaveFlaw::UnscoredClass => write!(f, "no score reaches this class"),
            CaveFlaw::Classless(score) => { write!(f, "no class has the greatest score, {score}") }
            CaveFlaw::AsksNothing(hint) => write!(f, "hint {hint} asks by no message"),
            CaveFlaw::GivesNothing(hint) => write!(f, "hint {hint} gives no message"),
            CaveFlaw::Rowless(hint) => {
                write!(f, "hint {hint} has places here, but no row in section 11")
            }
            CaveFlaw::TextOfBlanks => {
                write!(f, "no tab is before this text, and it begins with blanks")
            }
            CaveFlaw::TabPrinted => {
                write!(f, "a blank is before this text's tab, which is printed")
            }
            CaveFlaw::NotSilent => write!(f, "this is printed, since more than >$< is there"),
            CaveFlaw::RoleSilent(role, message) => {
                let name = name_at(&ROLE_NAMES, role);
                write!(
                    f,
                    "msg.{name} is message {message}, whose text prints nothing"
                )
            }
            CaveFlaw::SaidNowhere(role, place) => {
                let name = name_at(&ROLE_NAMES, role);
                let place = name_at(&PLACE_NAMES, place);
                write!(f, "msg.{name} is said at place.{place}, which is unbound")
            }
        }
    }
}

/// The input that a doubt is about.
#[derive(Clone, Copy, Debug, PartialEq, Eq)]
pub enum Source {
    Database,
    Bindings,
}

/// What is doubtful about a row, with the number of its line, from 1.
#[derive(Clone, Copy, Debug, PartialEq, Eq)]
pub struct Doubt {
    pub source: Source,
    pub line: usize,
    pub flaw: CaveFlaw,
}
