//! The places that rules name by what they are for.
ghost use Rattle.std.specs.Prelude.{◌≡◌, length, map};
ghost use Rattle.std.specs.List.{range_with_len};
ghost use Rattle.data_rows.specs.PlaceRole.{each_place_role, place_name, place_number};
ghost use Rattle.data_rows.specs.PlaceRole as defined;

/// A place that rules name by what it is for; bindings give its number.
#[derive(Clone, Copy, Debug, PartialEq, Eq)]
pub enum PlaceRole {
    Start,
    Building,
    Outside,
    Deep,
    Alcove,
    Plover,
    Y2,
    Chest,
    Message,
    Dwarfalt,
    Dwarf1,
    Dwarf2,
    Dwarf3,
    Dwarf4,
    Dwarf5,
    Culdesac,
    Witt,
    Ne,
    Sw,
}

/// The names by which bindings know them, in their order.
pub const PLACE_NAMES: [&str; 19] = [
    "start", "building", "outside", "deep", "alcove", "plover", "y2", "chest", "message",
    "dwarfalt", "dwarf1", "dwarf2", "dwarf3", "dwarf4", "dwarf5", "culdesac", "witt", "ne", "sw",
];

/// All roles, in their order.
const EACH_PLACE_ROLE: [PlaceRole; 19] = [
    PlaceRole::Start,
    PlaceRole::Building,
    PlaceRole::Outside,
    PlaceRole::Deep,
    PlaceRole::Alcove,
    PlaceRole::Plover,
    PlaceRole::Y2,
    PlaceRole::Chest,
    PlaceRole::Message,
    PlaceRole::Dwarfalt,
    PlaceRole::Dwarf1,
    PlaceRole::Dwarf2,
    PlaceRole::Dwarf3,
    PlaceRole::Dwarf4,
    PlaceRole::Dwarf5,
    PlaceRole::Culdesac,
    PlaceRole::Witt,
    PlaceRole::Ne,
    PlaceRole::Sw,
];

/// All roles of places, in their order.
pub fn each_place_role() -> &'static [PlaceRole]
    ensures value { result.now ≡ each_place_role }
    ensures ordered { map place_number result.now ≡ range_with_len 0 (length defined.PLACE_NAMES) }
{
    &EACH_PLACE_ROLE
}

impl PlaceRole {
    /// Its place among all, from 0.
    pub fn number(self) -> u16
        ensures { result ≡ place_number self }
    {
        self as u16
    }

    /// The name that bindings give it.
    pub fn name(self) -> &'static str
        ensures { result.now ≡ place_name self }
    {
        PLACE_NAMES[self as usize]
    }
}
