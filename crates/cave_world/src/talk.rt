ghost use Rattle.std.specs.Prelude.{◌≡◌};
ghost use Rattle.cave_world.specs.State.{silent_talk};

use crate::count::Count;
use crate::magic::Magic;
use world_objects::Object;

/// How often the game says that there are no more details.
pub const MAX_DETAILS: u16 = 3;

/// What the game remembers of what was said.
#[derive(Clone, Copy, Debug, PartialEq, Eq)]
pub struct Talk {
    /// The verb and the object of half a command.
    pub verb: Option<u16>,
    pub object: Object,
    /// The object of the last command.
    pub last: Object,
    pub is_brief: bool,
    /// How often the game has said that there are no more details.
    pub details: Count<MAX_DETAILS>,
    pub magic: Magic,
}

impl Talk {
    /// Nothing has been said yet.
    #[tactic(auto, unfolding(crate::specs::State::silent_talk))]
    pub fn silent() -> Talk
        ensures { result ≡ silent_talk }
    {
        Talk {
            verb: None,
            object: Object::none(),
            last: Object::none(),
            is_brief: false,
            details: Count::new(0),
            magic: Magic::new(0),
        }
    }
}
