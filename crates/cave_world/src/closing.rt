ghost use Rattle.std.specs.Prelude.{◌≡◌};
ghost use Rattle.cave_world.specs.State.{far_closing};

/// How many turns in the depths pass before the cave begins to close.
const TURNS_BEFORE_CLOSING: i8 = 30;

/// How many more turns pass before it is closed.
const TURNS_OF_CLOSING: i8 = 50;

/// How far the closing of the cave has gone.
#[derive(Clone, Copy, Debug, PartialEq, Eq)]
pub struct Closing {
    /// The turns until the cave begins to close, or -1 once it has begun.
    pub first_clock: i8,
    /// The turns until it is closed.
    pub second_clock: i8,
    pub is_closing: bool,
    pub is_closed: bool,
    /// Whether the player has tried to get out of the closing cave.
    pub is_panicking: bool,
}

impl Closing {
    /// A cave that won't close soon.
    #[tactic(auto, unfolding(crate::specs::State::far_closing))]
    pub fn far() -> Closing
        ensures { result ≡ far_closing }
    {
        Closing {
            first_clock: TURNS_BEFORE_CLOSING,
            second_clock: TURNS_OF_CLOSING,
            is_closing: false,
            is_closed: false,
            is_panicking: false,
        }
    }
}
