ghost use Rattle.std.specs.Prelude.{◌≡◌};
ghost use Rattle.turn_moves.specs.Ways.{other_end};

use world_objects::Place;

/// The other end of a passage between two places, from one of its ends.
pub fn other_end(here: Place, one: Option<Place>, other: Option<Place>) -> Option<Place>
    ensures { result ≡ other_end here one other }
{
    let one = one?;
    let other = other?;
    if here == one {
        return Some(other);
    }
    if here == other { Some(one) } else { None }
}
