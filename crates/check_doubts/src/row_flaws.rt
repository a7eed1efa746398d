//! What is doubtful about a row of a database, after the rows before it.

ghost use Rattle.std.specs.Prelude.{◌≡◌};
ghost use Rattle.turn_scene.specs.Scene.{cave_of};
ghost use Rattle.check_doubts.specs.Flaws.{first_flaw, flaw_if, second_flaw};

use crate::classes::{class_flaw, is_taken};
use crate::flaw::{CaveFlaw, Subject};
use crate::hints::{gift_flaw, is_wordless, question_flaw};
use crate::messages::lacks_text;
use crate::needs::{is_missing, start_flaw};
use crate::places::{is_unreached_long, is_unreached_short};
use crate::treasures::{is_nameless, is_nowhere};
use crate::ways::{is_never_taken, way_flaw, way_of_row};
use crate::words::is_hidden;
use data_lines::{MarkedRow, RowMark};
use turn_scene::Rules;

fn flaw_if(holds: bool, found: CaveFlaw) -> Option<CaveFlaw>
    ensures { result ≡ flaw_if holds found }
{
    if holds { Some(found) } else { None }
}

/// The first thing that is doubtful about a row.
pub(crate) fn first_flaw(rules: &Rules<'_>, before: &[MarkedRow], mark: RowMark) -> Option<CaveFlaw>
    ensures { result ≡ first_flaw (cave_of rules.now) before.now mark }
{
    let (cave, lexicon) = (rules.cave, rules.lexicon);
    match mark {
        RowMark::Long(place) => {
            flaw_if(
                is_unreached_long(cave, lexicon, place, before),
                CaveFlaw::NoWayTo(place),
            )
        }
        RowMark::Short(place) => {
            flaw_if(
                is_unreached_short(cave, lexicon, place, before),
                CaveFlaw::NoWayTo(place),
            )
        }
        RowMark::Way(place) => way_flaw(cave, way_of_row(cave, place, before)),
        RowMark::Word => flaw_if(is_hidden(cave, lexicon, before), CaveFlaw::Hidden),
        RowMark::Name(object) => {
            flaw_if(
                is_nowhere(cave, lexicon, object, before),
                CaveFlaw::Nowhere(object),
            )
        }
        RowMark::Placement(object) => flaw_if(
            is_nameless(cave, object),
            CaveFlaw::Nameless(object),
        ),
        RowMark::Default(action, message) => {
            flaw_if(
                lacks_text(cave, message),
                CaveFlaw::Textless(Subject::Action(action), message),
            )
        }
        RowMark::Class(bound) => flaw_if(is_taken(u32::from(bound), before), CaveFlaw::TakenClass),
        RowMark::Hint(hint, question, _) => question_flaw(cave, hint, question),
    }
}

/// The second thing that is doubtful about a row.
pub(crate) fn second_flaw(
    rules: &Rules<'_>,
    before: &[MarkedRow],
    mark: RowMark,
) -> Option<CaveFlaw>
    ensures { result ≡ second_flaw (cave_of rules.now) before.now mark }
{
    let (cave, lexicon) = (rules.cave, rules.lexicon);
    match mark {
        RowMark::Way(place) => {
            flaw_if(is_never_taken(cave, place, before), CaveFlaw::NeverTaken)
        }
        RowMark::Name(object) => {
            flaw_if(
                is_missing(cave, lexicon, object, before),
                CaveFlaw::Unplaced(object),
            )
        }
        RowMark::Placement(object) => start_flaw(cave, lexicon, object),
        RowMark::Default(action, _) => {
            flaw_if(is_wordless(cave, action), CaveFlaw::Wordless(action))
        }
        RowMark::Class(bound) => class_flaw(rules, u32::from(bound), before),
        RowMark::Hint(hint, _, text) => gift_flaw(cave, hint, text),
        _ => None,
    }
}
