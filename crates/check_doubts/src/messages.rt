//! Messages and places without a text.

ghost use Rattle.std.specs.Prelude.{◌≡◌};
ghost use Rattle.check_doubts.specs.Messages.{lacks_text, place_has_text};

use cave_data::Cave;

/// Whether the number is that of a message, and this has no text.
pub(crate) fn lacks_text(cave: &Cave, message: u16) -> bool
    ensures { result ≡ lacks_text cave.now message }
{
    0 < message && !cave.message(message).is_some()
}

/// Whether a place has a text.
pub(crate) fn place_has_text(cave: &Cave, place: u16) -> bool
    ensures { result ≡ place_has_text cave.now place }
{
    cave.long(place).is_some() || cave.short(place).is_some()
}
