//! Laws about what runs print: the inputs determine it, and what edits print is read again. Each is
//! the contract of a function that does nothing.

ghost use Rattle.play_laws.specs.Bytes.{EditedLogsAreAccepted, GuardedScriptsDoTheSame};
ghost use Rattle.play_laws.specs.Bytes.{UndoGivesTheBytes, UndoScriptsTakeBack};
ghost use Rattle.play_laws.specs.RunLaws.{DifferencesMakeTheLog, OneCheckedOutput, OneEditedOutput};
ghost use Rattle.play_laws.specs.RunLaws.{OnePlayedOutput};

/// A check of a database and its bindings has at most one output.
pub fn one_checked_output()
    ensures { OneCheckedOutput }
{}

/// A play, which also has a log and a seed, has at most one output.
pub fn one_played_output()
    ensures { OnePlayedOutput }
{}

/// An edit, which also has a script, has at most one text for each view except those of reports and
/// of the table, at any distance of checkpoints.
pub fn one_edited_output()
    ensures { OneEditedOutput }
{}

/// An edited log that is printed has the lines of the edited game, and is accepted unless it is too
/// large.
pub fn edited_logs_are_accepted()
    ensures { EditedLogsAreAccepted }
{}

/// The printed script that takes edits back spells items that are accepted in the edited game and
/// give the old one.
pub fn undo_scripts_take_back()
    ensures { UndoScriptsTakeBack }
{}

/// The printed script with guards spells items that are accepted in the game, and give what the
/// edits gave.
pub fn guarded_scripts_do_the_same()
    ensures { GuardedScriptsDoTheSame }
{}

/// The script that takes edits back gives the bytes of the log back, line ends too, if all lines of
/// the log end alike.
pub fn undo_gives_the_bytes()
    ensures { UndoGivesTheBytes }
{}

/// A script that makes one log of another leaves that log, and the seed as it is.
pub fn differences_make_the_log()
    ensures { DifferencesMakeTheLog }
{}
