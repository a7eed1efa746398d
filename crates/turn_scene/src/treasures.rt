ghost use Rattle.std.specs.Prelude.{◌≡◌};
ghost use Rattle.turn_scene.specs.Treasures.{is_known, is_treasure};

use cave_data::Cave;
use world_objects::Object;

/// The least number of a treasure.
pub const FIRST_TREASURE: u8 = 50;

/// The greatest number of a treasure.
pub const LAST_TREASURE: u8 = 79;

/// Whether a cave has an inventory text for an object.
pub fn is_known(cave: &Cave, object: Object) -> bool
    ensures { result ≡ is_known cave.now object }
{
    cave.name(u16::from(object.number())).is_some()
}

/// Whether an object is a treasure.
pub fn is_treasure(object: Object) -> bool
    ensures { result ≡ is_treasure object }
{
    FIRST_TREASURE <= object.number() && object.number() <= LAST_TREASURE
}
