ghost use Rattle.std.specs.Prelude.{◌≡◌};
ghost use Rattle.cave_world.specs.State.{visits_of, with_visit, without_visits};

use crate::count::Count;
use crate::state::State;
use world_objects::Place;

/// The most visits that are counted.
const MAX_VISITS: u16 = 9999;

/// How often a place was described. After the most that are counted it starts again at 0.
pub type Visits = Count<MAX_VISITS>;

impl State {
    /// How often a place was described, which place 0 never is.
    #[tactic(auto, unfolding(crate::specs::State::visits_of))]
    pub fn visits(&self, place: Place) -> Visits
        ensures { result ≡ visits_of self.now place }
    {
        if place.number() == 0 {
            return Count::new(0);
        }
        self.visits[usize::from(place.number()) - 1]
    }

    /// One more description of a place.
    #[tactic(auto, unfolding(crate::specs::State::with_visit, crate::specs::State::visits_of))]
    pub fn visit(&mut self, place: Place)
        ensures { self.new ≡ with_visit self.old place }
    {
        if place.number() == 0 {
            return;
        }
        let visits = self.visits(place).round();
        self.visits[usize::from(place.number()) - 1] = visits;
    }

    /// A place counts as never described.
    #[tactic(auto, unfolding(crate::specs::State::without_visits))]
    pub fn forget_visits(&mut self, place: Place)
        ensures { self.new ≡ without_visits self.old place }
    {
        if place.number() == 0 {
            return;
        }
        self.visits[usize::from(place.number()) - 1] = Count::new(0);
    }
}
