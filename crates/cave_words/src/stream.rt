//! The random stream of a play.
ghost use Rattle.std.specs.Prelude.{◌≡◌, ◌<◌, ◌≤◌};
ghost use Rattle.cave_words.specs.Stream.{stream_of_seed, number_drawn, next, pct, max_choices};
ghost use Rattle.cave_words.specs.Stream as defined;

use std::marker::Model;

/// How many numbers the stream goes through.
pub const STREAM_SIZE: u32 = 1_048_576;

/// By what a number of the stream is multiplied to make the next one.
const MULTIPLIER: u32 = 1093;

/// What is then added.
const INCREMENT: u32 = 221_587;

/// A random stream, at one of its numbers.
#[derive(Clone, Copy, Debug, PartialEq, Eq)]
pub struct Stream {
    x: u32,
}

impl Model for Stream {
    ghost use Rattle.std.specs.Prelude.{ℕ, ◌<◌};
    ghost use Rattle.cave_words.specs.Stream as defined;

    ghost Value = { ℕ };

    ghost view = { λ s. s.x };

    ghost invariant = { λ s. s.x < defined.STREAM_SIZE };

    ghost inverse = { λ x. record { x = x } };
}

impl Stream {
    /// The stream that a seed begins.
    pub fn seeded(seed: u32) -> Stream
        ensures { result ≡ stream_of_seed seed }
    {
        Stream {
            x: seed % STREAM_SIZE,
        }
    }

    /// The number at which the stream is. As a seed it begins the stream there.
    pub fn position(self) -> u32
        ensures value { result ≡ self }
        ensures within { result < defined.STREAM_SIZE }
    {
        self.x
    }

    /// Draws a number below `n`, which is at most 4,095, and moves on.
    pub fn draw(&mut self, n: u32) -> u32
        requires low { 1 ≤ n }
        requires high { n ≤ max_choices }
        ensures value { result ≡ number_drawn n self.old }
        ensures below { result < n }
        ensures moves_on { self.new ≡ next self.old }
    {
        let value = n * self.x / STREAM_SIZE;
        self.x = (MULTIPLIER * self.x + INCREMENT) % STREAM_SIZE;
        value
    }

    /// Draws whether something that happens in `p` of 100 cases happens now, and moves on.
    pub fn pct(&mut self, p: u32) -> bool
        ensures value { result ≡ pct p self.old }
        ensures moves_on { self.new ≡ next self.old }
    {
        self.draw(100) < p
    }
}
