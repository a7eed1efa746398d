//! The motions that rules name.
ghost use Rattle.std.specs.Prelude.{◌≡◌};
ghost use Rattle.cave_world.specs.Motions.{IsMotionOf, motion_among, motion_number};

/// A motion that rules name, with its number in a database.
#[derive(Clone, Copy, Debug, PartialEq, Eq)]
pub enum Motion {
    /// A row that lists it is taken by every motion. If the first row of a place begins with it,
    /// the place has a forced motion.
    Any = 1,
    Forward = 7,
    Back = 8,
    Out = 11,
    Crawl = 17,
    Inside = 19,
    Nowhere = 21,
    Up = 29,
    Down = 30,
    Left = 36,
    Right = 37,
    East = 43,
    West = 44,
    North = 45,
    South = 46,
    Northeast = 47,
    Southeast = 48,
    Southwest = 49,
    Northwest = 50,
    Look = 57,
    Xyzzy = 62,
    /// To the grate from before the cave.
    Depression = 63,
    /// To the grate from inside the cave.
    Entrance = 64,
    Plugh = 65,
    Cave = 67,
    Plover = 71,
}

/// Each motion.
const EACH_MOTION: [Motion; 26] = [
    Motion::Any,
    Motion::Forward,
    Motion::Back,
    Motion::Out,
    Motion::Crawl,
    Motion::Inside,
    Motion::Nowhere,
    Motion::Up,
    Motion::Down,
    Motion::Left,
    Motion::Right,
    Motion::East,
    Motion::West,
    Motion::North,
    Motion::South,
    Motion::Northeast,
    Motion::Southeast,
    Motion::Southwest,
    Motion::Northwest,
    Motion::Look,
    Motion::Xyzzy,
    Motion::Depression,
    Motion::Entrance,
    Motion::Plugh,
    Motion::Cave,
    Motion::Plover,
];

/// No rule names the motion.
#[derive(Clone, Copy, Debug, PartialEq, Eq)]
pub struct NoNamedMotion;

impl Motion {
    /// Its number in a database.
    pub fn number(self) -> u16
        ensures { result ≡ motion_number self }
    {
        self as u16
    }
}

#[tactic(auto, unfolding(crate::specs::Motions::motion_among))]
fn motion_among(motions: &[Motion], number: u16) -> Option<Motion>
    ensures { result ≡ motion_among motions.now number }
{
    motions
        .iter()
        .copied()
        .find(|motion| motion.number() == number)
}

impl TryFrom<u16> for Motion {
    type Error = NoNamedMotion;

    ghost try_from_gives = { IsMotionOf };

    #[tactic(auto, unfolding(crate::specs::Motions::motion_of))]
    fn try_from(number: u16) -> Result<Motion, NoNamedMotion> {
        motion_among(&EACH_MOTION, number).ok_or(NoNamedMotion)
    }
}
