//! Laws about edits and scripts of edits. Each is the contract of a function that does nothing, or
//! cites others.

ghost use Rattle.play_laws.specs.ApartEdits.{ApartEditsCommute};
ghost use Rattle.play_laws.specs.GuardLaws.{GuardsBelongToItems};
ghost use Rattle.play_laws.specs.JoinedScripts.{ScriptsJoin};
ghost use Rattle.play_laws.specs.Redo.{RedoGivesTheEdits};

use play_edits::laws::scripts_run_in_turn;

/// Two edits apart from each other, each of which a log accepts, may be made in either order, the
/// second at the place to which the first moves what it touches: both orders leave the same game.
pub fn apart_edits_commute()
    ensures { ApartEditsCommute }
{}

/// What is read of a script whose lines may be guards is what its lines spell by a grammar, which
/// says which item each guard belongs to; and what they spell is read.
pub fn guards_belong_to_items()
    ensures { GuardsBelongToItems }
{}

/// What takes edits back is taken back itself: this does the edits again. They give the lines that
/// they gave, and the bytes, if taking them back gave the bytes of the log.
pub fn redo_gives_the_edits()
    ensures { RedoGivesTheEdits }
{}

/// A script that has the lines of one script, and then those of another, does what the one does and
/// then what the other does.
pub fn scripts_join()
    ensures { ScriptsJoin }
{
    scripts_run_in_turn();
}
