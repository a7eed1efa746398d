ghost use Rattle.std.specs.Prelude.{◌≡◌};
ghost use Rattle.cave_world.specs.State.{starting_state, takes_no_command, state_with_player_at};
ghost use Rattle.cave_world.specs.State.{with_player_from, state_after_set_out};

use crate::closing::Closing;
use crate::count::Count;
use crate::dwarves::Dwarves;
use crate::ending::{Ending, Question};
use crate::hints::Hints;
use crate::lamp::Lamp;
use crate::talk::Talk;
use crate::visits::Visits;
use cave_words::Stream;
use world_objects::place::PLACES;
use world_objects::{Objects, Place};

/// How many deaths a game has: the player can't come back after the last.
pub const LIVES: u16 = 3;

/// How many treasures there may be.
pub const MAX_TREASURES: u16 = 30;

/// The most treasures lost that are counted.
const MAX_LOST: u16 = 60_000;

/// Where the player is, and where the player was before.
#[derive(Clone, Copy, Debug, PartialEq, Eq)]
pub struct Trail {
    pub here: Place,
    pub last: Place,
    pub older: Place,
}

/// What the score and the closing of the cave depend on.
#[derive(Clone, Copy, Debug, PartialEq, Eq)]
pub struct Tallies {
    /// The known treasures, less one for each that was described while its prop was below 0. If a
    /// rule gives a treasure another prop before that, as when a vase breaks in the dark, it stays
    /// counted.
    pub unseen: Count<MAX_TREASURES>,
    /// How often a rule has said that a treasure is lost, whether or not one was.
    pub lost: Count<MAX_LOST>,
    pub deaths: Count<LIVES>,
}

/// All that a game depends on, except the count of its turns.
#[derive(Clone, Copy, Debug, PartialEq, Eq)]
pub struct State {
    pub trail: Trail,
    pub objects: Objects,
    /// How often each place has been described.
    pub visits: [Visits; PLACES],
    pub lamp: Lamp,
    pub closing: Closing,
    pub tallies: Tallies,
    pub talk: Talk,
    pub dwarves: Dwarves,
    pub hints: Hints,
    /// The question that the next line answers.
    pub question: Option<Question>,
    pub ending: Option<Ending>,
    pub stream: Stream,
}

// A replay keeps a state at each of its checkpoints.
const _: () = prove!(size_of::<State>() <= 1760);

impl State {
    /// The state of a game in which nothing is placed yet: the player is at a place and is greeted.
    #[tactic(auto, unfolding(crate::specs::State::starting_state))]
    pub fn starting(place: Place, stream: Stream) -> State
        ensures { result ≡ starting_state place stream }
    {
        State {
            trail: Trail {
                here: place,
                last: place,
                older: place,
            },
            objects: Objects::unplaced(),
            visits: [Count::new(0); PLACES],
            lamp: Lamp::full(),
            closing: Closing::far(),
            tallies: Tallies {
                unseen: Count::new(0),
                lost: Count::new(0),
                deaths: Count::new(0),
            },
            talk: Talk::silent(),
            dwarves: Dwarves::asleep(),
            hints: Hints::unused(),
            question: Some(Question::Welcome),
            ending: None,
            stream,
        }
    }

    /// Whether a question is open or the game has ended.
    #[tactic(auto, unfolding(crate::specs::State::takes_no_command))]
    pub fn takes_no_command(&self) -> bool
        ensures { result ≡ takes_no_command self.now }
    {
        self.question.is_some() || self.ending.is_some()
    }

    /// Puts the player at a place.
    #[tactic(auto, unfolding(crate::specs::State::state_with_player_at))]
    pub fn put_player_at(&mut self, place: Place)
        ensures { self.new ≡ state_with_player_at self.old place }
    {
        self.trail.here = place;
    }

    /// Puts the player at a place, as if the player had also come from there.
    pub fn put_player_from(&mut self, place: Place)
        ensures { self.new ≡ with_player_from place self.old }
    {
        self.trail.here = place;
        self.trail.last = place;
    }

    /// Remembers the player's place as where the player comes from.
    #[tactic(auto, unfolding(crate::specs::State::state_after_set_out))]
    pub fn set_out(&mut self)
        ensures { self.new ≡ state_after_set_out self.old }
    {
        self.trail.older = self.trail.last;
        self.trail.last = self.trail.here;
    }
}
