//! Laws about items. Each is the contract of a function that does nothing.

ghost use Rattle.play_edits.specs.Laws.{GuardsRefuseAlone, NearestLinesAreNamed, ScriptsRunInTurn};

/// Guards can only refuse: if they are met, an item does what it does without them.
pub fn guards_refuse_alone()
    ensures { GuardsRefuseAlone }
{}

/// A refusal for a guard names the place nearest to the guard's at which the log has its line.
pub fn nearest_lines_are_named()
    ensures { NearestLinesAreNamed }
{}

/// Two scripts, joined to one, do what the first does and then what the second does.
pub fn scripts_run_in_turn()
    ensures { ScriptsRunInTurn }
{}
