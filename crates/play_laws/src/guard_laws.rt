//! Laws about guards: `--guarded` changes nothing if there are none, or if all are met.

ghost use Rattle.play_laws.specs.GuardLaws.{MetGuardsNoOtherLog, NoGuardsNoOtherOutput};
ghost use Rattle.play_laws.specs.GuardLaws.{NoGuardsNoOtherScript, MetGuardsNoOtherRun};

/// A script without guards gives the same items, or the same refusal, whether or not it may have
/// some.
pub fn no_guards_no_other_script()
    ensures { NoGuardsNoOtherScript }
{}

/// The same is then printed of it, except as a script that takes the edits back.
pub fn no_guards_no_other_output()
    ensures { NoGuardsNoOtherOutput }
{}

/// If all guards are met, the edited log has the lines that it has without them.
pub fn met_guards_no_other_log()
    ensures { MetGuardsNoOtherLog }
{}

/// If all guards of a script are met, a run is the same with blank lines in their place.
pub fn met_guards_no_other_run()
    ensures { MetGuardsNoOtherRun }
{
    no_guards_no_other_script();
    no_guards_no_other_output();
}
