//! What runs may print, by the names of views.

ghost use Rattle.std.specs.Prelude.{◌≡◌, map};
ghost use Rattle.play_command.specs.Asked.{edit_view_of, named, with_text};

use crate::commands::{Argument, Form};

/// What a check of a cave prints.
#[derive(Clone, Copy, Debug, PartialEq, Eq)]
pub enum CheckView {
    /// The greatest score of the cave.
    Maximum,
    /// What each key of the bindings is bound to.
    Bindings,
    /// Which object each name has by which rules know one.
    Names,
    /// The messages that nothing can say.
    Unused,
    /// The words, by what they mean.
    Words,
    /// All that is doubtful about the cave, as a list of what is known has it.
    Known,
}

/// What a play of a log prints.
#[derive(Clone, Copy, Debug, PartialEq, Eq)]
pub enum PlayView {
    /// What the game says.
    Transcript,
    /// What each line of the log did.
    Steps,
    /// The same as JSON, with what was said and what is carried and moved.
    Walk,
    /// Where the score comes from.
    Score,
    /// The state that the log leads to.
    FinalState,
}

/// What an edit of a log prints.
#[derive(Clone, Copy, Debug, PartialEq, Eq)]
pub enum EditView {
    /// Whether each edit was accepted, and what playing the edited log prints.
    Transcript,
    /// What playing the edited log prints.
    Play,
    /// The lines of the edited log.
    Log,
    /// A script that takes back all edits that were accepted.
    Undo,
    /// The edits that were accepted, as a script in which each expects the line at its place.
    Guarded,
    /// What each edit replayed.
    Reports,
    /// The same as a table, with what each edit is and what it changed.
    Table,
    /// What each line of the edited log did.
    Steps,
    /// The same as JSON, with what was said and what is carried and moved.
    Walk,
    /// Where the score of the edited log comes from.
    Score,
    /// The state that the edited log leads to.
    FinalState,
}

/// A report on the items of a script that may be printed beside the output.
#[derive(Clone, Copy, Debug, PartialEq, Eq)]
pub enum ReportView {
    /// What each replayed.
    Reports,
    /// The same as a table.
    Table,
}

impl ReportView {
    /// The view that prints it.
    pub fn edit_view(self) -> EditView
        ensures { result ≡ edit_view_of self }
    {
        match self {
            ReportView::Reports => EditView::Reports,
            ReportView::Table => EditView::Table,
        }
    }
}

/// What is printed of the texts that logs say.
#[derive(Clone, Copy, Debug, PartialEq, Eq)]
pub enum CoverView {
    /// Which texts are said.
    Said(TextView),
    /// Which rows of the rules apply.
    Rules,
    /// The texts that are never said and the rows that never apply, as a list of what is known has
    /// them.
    Known,
}

/// What the coverage of texts prints.
#[derive(Clone, Copy, Debug, PartialEq, Eq)]
pub enum TextView {
    /// How many of each kind are said, and the names of those that never are.
    Counts,
    /// Each text that is never said, with its first line.
    Texts,
}

/// What has a name, if something has it.
pub(crate) fn named<T: Copy>(items: &[(&str, T)], name: &str) -> Option<T>
    ensures { result ≡ named (map with_text items.now) name.now }
{
    for (known, item) in items {
        if name == *known {
            return Some(*item);
        }
    }
    None
}

/// The views of a table by their names; the first is the usual one.
macro_rules! by_name {
    ($($(or)? $name:literal $view:expr, $said:literal);*) => {
        &[$(($name, $view)),*]
    };
}

/// The option whose value is a view, by the names of a table.
macro_rules! print_option {
    (
        $first:literal $usual:expr, $is:literal;
        $($name:literal $view:expr, $said:literal;)*
        or $last:literal $other:expr, $told:literal
    ) => {
        Argument {
            id: "print",
            form: Form::View(&[$first, $($name,)* $last]),
            letter: Some('p'),
            value: "WHAT",
            help: concat!(
                "What to print: `", $first, "` (", $is, ")",
                $(", `", $name, "` (", $said, ")",)*
                " or `", $last, "` (", $told, ") [default: ", $first, "]"
            ),
        }
    };
}

/// What commands print, with what help says of each; the list of doubts is no view.
macro_rules! views {
    (check $make:ident) => {
        $make! {
            "maximum" Some(CheckView::Maximum), "the greatest score";
            "bindings" Some(CheckView::Bindings),
                "each key of the bindings, with its number and the first line of its text";
            "names" Some(CheckView::Names), "the object of each name that the rules know";
            "unused" Some(CheckView::Unused), "the messages that nothing says";
            "words" Some(CheckView::Words), "the words, by what they mean";
            "doubts" None, "what is doubtful about the cave";
            or "known" Some(CheckView::Known), "all of that, as a list for --known"
        }
    };
    (play $make:ident) => {
        $make! {
            "transcript" PlayView::Transcript, "what the game says";
            "steps" PlayView::Steps, "what each line did";
            "walk" PlayView::Walk, "the same as JSON";
            "score" PlayView::Score, "where the score comes from";
            or "state" PlayView::FinalState, "the final state"
        }
    };
    (edit $make:ident) => {
        $make! {
            "transcript" EditView::Transcript, "the reports, and what the game says";
            "play" EditView::Play, "only what it says";
            "log" EditView::Log, "the edited log without its seed";
            "undo" EditView::Undo, "the script that takes the edits back";
            "guarded" EditView::Guarded, "the accepted edits with guards";
            "reports" EditView::Reports, "what each edit replayed, and its result";
            "table" EditView::Table, "the same as a table";
            "steps" EditView::Steps, "what each line of the edited log did";
            "walk" EditView::Walk, "the same as JSON";
            "score" EditView::Score, "where the score comes from";
            or "state" EditView::FinalState, "the final state"
        }
    };
    (cover $make:ident) => {
        $make! {
            "counts" CoverView::Said(TextView::Counts),
                "how many texts are said, and the names of the others";
            "texts" CoverView::Said(TextView::Texts),
                "each text that is never said, with its first line";
            "rules" CoverView::Rules,
                "how many rows of each table of the rules apply, and when the others would";
            or "known" CoverView::Known, "all these texts and rows, as a list for --known"
        }
    };
}

pub(crate) const CHECK_PRINT: Argument = views!(check print_option);

pub(crate) const PLAY_PRINT: Argument = views!(play print_option);

pub(crate) const EDIT_PRINT: Argument = views!(edit print_option);

pub(crate) const COVER_PRINT: Argument = views!(cover print_option);

/// What each command prints, by the names of its views, of which the first is the usual one.
pub(crate) const CHECK_VIEWS: &[(&str, Option<CheckView>)] = views!(check by_name);

pub(crate) const PLAY_VIEWS: &[(&str, PlayView)] = views!(play by_name);

pub(crate) const EDIT_VIEWS: &[(&str, EditView)] = views!(edit by_name);

pub(crate) const COVER_VIEWS: &[(&str, CoverView)] = views!(cover by_name);

/// What an edit prints beside its output.
pub(crate) const REPORT_VIEWS: [(&str, ReportView); 2] = [
    ("reports", ReportView::Reports),
    ("table", ReportView::Table),
];
