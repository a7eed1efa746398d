//! What the target of a way says: under which condition the way is taken, and where it leads.
ghost use Rattle.std.specs.Prelude.{◌≡◌};
ghost use Rattle.data_rows.specs.Targets.{condition_of, destination_of, IsConditionWithin};
ghost use Rattle.data_rows.specs.Targets.{leads_to_place, EndsWithin};

/// The condition under which a way is taken. Objects have their numbers.
#[derive(Clone, Copy, Debug, PartialEq, Eq)]
pub enum Condition {
    /// It always holds.
    Always,
    /// It holds in this many of a hundred cases.
    Chance(u8),
    /// It always holds, but dwarves don't take the way.
    NotForDwarves,
    /// The object is in the player's hands.
    InHands(u8),
    /// The object is in the player's hands, or is where the player is.
    AtHand(u8),
    /// The object has another prop than this one.
    OtherProp(u8, u16),
}

/// A way that has its own rules.
#[derive(Clone, Copy, Debug, PartialEq, Eq)]
pub enum Special {
    /// Through a passage that lets almost nothing through in the player's hands.
    Squeeze,
    /// Over a bridge that a troll guards.
    Bridge,
}

/// Where a way leads.
#[derive(Clone, Copy, Debug, PartialEq, Eq)]
pub enum Destination {
    /// To the place of a number; 0 is nowhere.
    Place(u16),
    /// Where the way's own rules say.
    Special(Special),
    /// To no other place: the emerald is put down where the player is, and the next way is tried.
    PutsEmeraldDown,
    /// To no other place: the message of a number is printed.
    Message(u16),
    /// Nowhere.
    NoWay,
}

impl Destination {
    /// Whether it is the place of a number.
    pub fn leads_to_place(self, place: u16) -> bool
        ensures { result ≡ leads_to_place place self }
    {
        match self {
            Destination::Place(number) => number == place,
            _ => false,
        }
    }
}

/// The condition that a target says.
#[tactic(auto, unfolding(crate::specs::Targets::condition_of))]
pub(crate) fn condition_of(target: u32) -> Condition
    ensures value { result ≡ condition_of target }
    ensures within { IsConditionWithin result }
{
    match target / 1000 {
        0 => Condition::Always,
        100 => Condition::NotForDwarves,
        percent if percent < 100 => Condition::Chance(percent as u8),
        in_hands if in_hands <= 200 => Condition::InHands((in_hands - 100) as u8),
        at_hand if at_hand <= 300 => Condition::AtHand((at_hand - 200) as u8),
        other => Condition::OtherProp((other % 100) as u8, (other / 100 - 3) as u16),
    }
}

/// The destination that a target says.
#[tactic(auto, unfolding(crate::specs::Targets::destination_of))]
pub(crate) fn destination_of(target: u32) -> Destination
    ensures value { result ≡ destination_of target }
    ensures within { EndsWithin result }
{
    match (target % 1000) as u16 {
        301 => Destination::Special(Special::Squeeze),
        302 => Destination::PutsEmeraldDown,
        303 => Destination::Special(Special::Bridge),
        place if place <= 300 => Destination::Place(place),
        message if message > 500 => Destination::Message(message - 500),
        _ => Destination::NoWay,
    }
}
