//! What plays saw, line by line.

use cave_world::State;
use map_graph::stops::{Stop, Stops};
use play_machine::{Begun, NotedRows, SeenLine, Watch};
use std::alloc::{AllocError, Global};
use world_objects::Place;

/// The stops of plays, at the beginning and of each line.
#[derive(Drop)]
pub struct StopNotes {
    pub(crate) stops: Stops,
}

impl Watch for StopNotes {
    ghost use Rattle.std.specs.Prelude.{◌≡◌, [], ◌∷◌};
    ghost use Rattle.map_graph.specs.Stops.{all_stops, stops_of};
    ghost use Rattle.map_graph.specs.declared.stops.Stop.{Stop};
    ghost use Rattle.play_map.specs.Plays.{first_stop, stops_at};

    type Before = Place;

    type Rows = NotedRows;

    ghost Fact = { Stop };

    ghost kept = { λ state. state.trail.here };

    ghost first_facts = { λ _ begun _. first_stop begun ∷ [] };

    ghost facts = { λ _ moment. stops_at moment };

    ghost HasNoted = { λ noted notes. stops_of notes.stops ≡ all_stops noted };

    fn before(state: &State) -> Place {
        state.trail.here
    }

    fn start(&mut self, alloc: Global, begun: &Begun<'_>) -> Result<(), AllocError> {
        let stop = Stop::InState(Place::new(0), begun.state.trail.here);
        self.stops.note(alloc, stop)
    }

    fn see(
        &mut self,
        alloc: Global,
        seen: &SeenLine<'_, Place>,
        rows: &NotedRows,
    ) -> Result<(), AllocError> {
        let stop = Stop::InState(seen.before, seen.after.trail.here);
        self.stops.note(alloc, stop)?;
        self.stops.note_ways_by_rows(alloc, rows.as_slice()?)
    }
}
