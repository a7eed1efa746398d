//! Places to which no way leads.

ghost use Rattle.std.specs.Prelude.{◌≡◌, map};
ghost use Rattle.std.specs.List.{list_any};
ghost use Rattle.cave_words.specs.Lexicon.{IsLexiconOf};
ghost use Rattle.data_rows.specs.RowViews.{going};
ghost use Rattle.check_doubts.specs.Needs.{has_role, holds_at_first, is_bridge_end, is_lair};
ghost use Rattle.check_doubts.specs.Needs.{is_midway};
ghost use Rattle.check_doubts.specs.Needs.{is_brought_to, is_come_to, is_led_to, is_led_to_from};
ghost use Rattle.check_doubts.specs.Needs.{is_unreached_long, is_unreached_short, leads_to};

use base_lines::numbers::LAST_PLACE;
use cave_data::Cave;
use cave_words::{Lexicon, Named};
use check_tables::is_number;
use data_lines::MarkedRow;
use data_lines::mark::{any_long_text, any_short_text};
use data_rows::{PlaceRole, Row};

fn leads_to(row: &Row, place: u16) -> bool
    ensures { result ≡ leads_to place (going row.now) }
{
    row.destination().leads_to_place(place)
}

/// Whether one of these ways leads to a place.
fn any_leads_to(rows: &[Row], place: u16) -> bool
    ensures { result ≡ list_any (leads_to place) (map going rows.now) }
{
    rows.iter().any(|row| leads_to(row, place))
}

/// Whether a way leads to a place from another one.
fn is_led_to_from(cave: &Cave, place: u16, other: u16) -> bool
    ensures { result ≡ is_led_to_from cave.now place other }
{
    other != place && any_leads_to(cave.travel(other), place)
}

#[tactic(auto, unfolding(check_tables::specs::Unused::place_numbers))]
fn is_led_to(cave: &Cave, place: u16) -> bool
    ensures { result ≡ is_led_to cave.now place }
{
    (1..LAST_PLACE + 1).any(|other| is_led_to_from(cave, place, other))
}

fn has_role(cave: &Cave, place: u16, role: PlaceRole) -> bool
    ensures { result ≡ has_role cave.now place role }
{
    is_number(place, cave.place(role))
}

/// Whether rules bring a player to a place.
fn is_brought_to(cave: &Cave, place: u16) -> bool
    ensures { result ≡ is_brought_to cave.now place }
{
    has_role(cave, place, PlaceRole::Start)
        || has_role(cave, place, PlaceRole::Building)
        || has_role(cave, place, PlaceRole::Ne)
        || has_role(cave, place, PlaceRole::Alcove)
        || has_role(cave, place, PlaceRole::Plover)
}

/// Whether an object is at a place as a game begins.
fn holds_at_first(cave: &Cave, place: u16, object: Option<u16>) -> bool
    ensures { result ≡ holds_at_first cave.now place object }
{
    match object {
        Some(object) => {
            let (first, second) = cave.placement(object);
            first == place || i32::from(second) == i32::from(place)
        }
        None => false,
    }
}

/// Whether the bridge of a troll leads to a place.
fn is_bridge_end(cave: &Cave, lexicon: &Lexicon, place: u16) -> bool
    requires { IsLexiconOf cave.now lexicon.now }
    ensures { result ≡ is_bridge_end cave.now place }
{
    holds_at_first(cave, place, lexicon.named(cave, Named::Troll))
}

/// Whether a place is half-way between the two where an object is as a game begins.
fn is_midway(cave: &Cave, place: u16, object: Option<u16>) -> bool
    ensures { result ≡ is_midway cave.now place object }
{
    match object {
        Some(object) => {
            let (first, second) = cave.placement(object);
            let sum = i32::from(first) + i32::from(second);
            first != 0
                && second > 0
                && (sum == 2 * i32::from(place) || sum == 2 * i32::from(place) + 1)
        }
        None => false,
    }
}

/// Whether a player who kills the dragon stands at a place.
fn is_lair(cave: &Cave, lexicon: &Lexicon, place: u16) -> bool
    requires { IsLexiconOf cave.now lexicon.now }
    ensures { result ≡ is_lair cave.now place }
{
    is_midway(cave, place, lexicon.named(cave, Named::Dragon))
}

/// Whether a player can get to a place.
fn is_come_to(cave: &Cave, lexicon: &Lexicon, place: u16) -> bool
    requires { IsLexiconOf cave.now lexicon.now }
    ensures { result ≡ is_come_to cave.now place }
{
    is_led_to(cave, place)
        || is_brought_to(cave, place)
        || is_bridge_end(cave, lexicon, place)
        || is_lair(cave, lexicon, place)
}

/// Whether a row begins the long text of a place to which no way leads.
pub(crate) fn is_unreached_long(
    cave: &Cave,
    lexicon: &Lexicon,
    place: u16,
    before: &[MarkedRow],
) -> bool
    requires { IsLexiconOf cave.now lexicon.now }
    ensures { result ≡ is_unreached_long cave.now place before.now }
{
    !any_long_text(before, place) && !is_come_to(cave, lexicon, place)
}

/// Whether a row begins the short text of such a place, if this has no long one.
pub(crate) fn is_unreached_short(
    cave: &Cave,
    lexicon: &Lexicon,
    place: u16,
    before: &[MarkedRow],
) -> bool
    requires { IsLexiconOf cave.now lexicon.now }
    ensures { result ≡ is_unreached_short cave.now place before.now }
{
    !cave.long(place).is_some()
        && !any_short_text(before, place)
        && !is_come_to(cave, lexicon, place)
}
