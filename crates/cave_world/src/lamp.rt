ghost use Rattle.std.specs.Prelude.{◌≡◌, pos, negsuc, ◌≤ℤ◌};
ghost use Rattle.std.specs.Int.{int_min};
ghost use Rattle.cave_world.specs.Limits as defined;

use std::marker::Model;

/// The most turns that a lamp can still burn.
const MAX_LAMP_TURNS: i32 = 100_000;

/// How many turns a new lamp burns.
const FULL_CHARGE: i32 = 330;

/// A lamp that burns this many turns more, or fewer, is low.
pub const LOW_CHARGE: i32 = 30;

/// The turns that a lamp still burns, or -1 if it has gone out.
#[derive(Clone, Copy, Debug, PartialEq, Eq)]
pub struct Charge {
    turns: i32,
}

impl Model for Charge {
    ghost use Rattle.std.specs.Prelude.{ℤ, pos, negsuc, ◌≤ℤ◌};
    ghost use Rattle.cave_world.specs.Limits as defined;

    ghost Value = { ℤ };

    ghost view = { λ c. c.turns };

    ghost invariant = { λ c. (negsuc 0 ≤ℤ c.turns) × (c.turns ≤ℤ pos defined.MAX_LAMP_TURNS) };

    ghost inverse = { λ n. record { turns = n } };
}

impl Charge {
    /// The charge for a number of turns.
    pub fn new(turns: i32) -> Charge
        requires low { negsuc 0 ≤ℤ turns }
        requires high { turns ≤ℤ pos defined.MAX_LAMP_TURNS }
        ensures { result ≡ turns }
    {
        Charge { turns }
    }

    /// The charge for a number of turns, or the greatest one if there are more.
    pub fn capped(turns: i32) -> Charge
        requires { negsuc 0 ≤ℤ turns }
        ensures { result ≡ int_min turns (pos defined.MAX_LAMP_TURNS) }
    {
        Charge {
            turns: turns.min(MAX_LAMP_TURNS),
        }
    }

    /// The number of turns.
    pub fn turns(self) -> i32
        ensures value { result ≡ self }
        ensures low { negsuc 0 ≤ℤ result }
        ensures high { result ≤ℤ pos defined.MAX_LAMP_TURNS }
    {
        self.turns
    }
}

/// The lamp's charge, and whether the player has been warned that it is low.
#[derive(Clone, Copy, Debug, PartialEq, Eq)]
pub struct Lamp {
    pub charge: Charge,
    pub is_warned: bool,
}

impl Lamp {
    ghost use Rattle.cave_world.specs.State.{full_lamp};

    /// A lamp that hasn't been lit yet.
    #[tactic(auto, unfolding(crate::specs::State::full_lamp))]
    pub fn full() -> Lamp
        ensures { result ≡ full_lamp }
    {
        Lamp {
            charge: Charge::new(FULL_CHARGE),
            is_warned: false,
        }
    }
}
