//! Treasures that no place holds, and treasures without an inventory text.

ghost use Rattle.std.specs.Prelude.{◌≡◌};
ghost use Rattle.cave_words.specs.Lexicon.{IsLexiconOf};
ghost use Rattle.turn_scene.specs.Treasures.{is_treasure};
ghost use Rattle.check_doubts.specs.Treasures.{is_nameless, is_nowhere, is_placed, is_put_by_rules};

use cave_data::Cave;
use cave_words::{Lexicon, Named};
use check_tables::is_number;
use data_lines::MarkedRow;
use data_lines::mark::any_name;
use turn_scene::treasures::{FIRST_TREASURE, LAST_TREASURE};

pub(crate) fn is_treasure(object: u16) -> bool
    ensures { result ≡ is_treasure object }
{
    u16::from(FIRST_TREASURE) <= object && object <= u16::from(LAST_TREASURE)
}

/// Whether a place has a half of an object as a game begins.
pub(crate) fn is_placed(cave: &Cave, object: u16) -> bool
    ensures { result ≡ is_placed cave.now object }
{
    let (first, second) = cave.placement(object);
    0 < first || 0 < second
}

/// Whether rules put an object somewhere.
fn is_put_by_rules(cave: &Cave, lexicon: &Lexicon, object: u16) -> bool
    requires { IsLexiconOf cave.now lexicon.now }
    ensures { result ≡ is_put_by_rules cave.now object }
{
    is_number(object, lexicon.named(cave, Named::Chest))
        || is_number(object, lexicon.named(cave, Named::Pearl))
}

/// Whether a row begins the inventory text of a treasure that is nowhere.
pub(crate) fn is_nowhere(cave: &Cave, lexicon: &Lexicon, object: u16, before: &[MarkedRow]) -> bool
    requires { IsLexiconOf cave.now lexicon.now }
    ensures { result ≡ is_nowhere cave.now object before.now }
{
    is_treasure(object)
        && !any_name(before, object)
        && !is_placed(cave, object)
        && !is_put_by_rules(cave, lexicon, object)
}

/// Whether an object is a treasure without an inventory text.
pub(crate) fn is_nameless(cave: &Cave, object: u16) -> bool
    ensures { result ≡ is_nameless cave.now object }
{
    is_treasure(object) && !cave.name(object).is_some()
}
