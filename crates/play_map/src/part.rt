//! The part that is drawn, by the words of a command line.

ghost use Rattle.std.specs.Prelude.{◌≡◌, MatchResult, None, Some};
ghost use Rattle.play_map.specs.Parts.{drawn_part, place_fault, region_of};

use cave_data::Cave;
use cave_play::PlayFault;
use map_graph::parts::DrawnPart;
use map_ways::{Region, is_mapped};
use play_command::{MapPart, Surroundings};

fn region_of(around: Option<Surroundings>) -> Option<Region>
    ensures { result ≡ region_of around }
{
    match around {
        None => None,
        Some(Surroundings { place, ways }) => Some(Region { place, ways }),
    }
}

/// The part that a map draws.
pub(crate) fn drawn_part(part: MapPart) -> DrawnPart
    ensures { result ≡ drawn_part part }
{
    DrawnPart {
        seen: part.seen,
        around: region_of(part.around),
    }
}

/// Whether the place in the middle of what is drawn, if there is one, is on the map.
pub(crate) fn check_place(cave: &Cave, around: Option<Surroundings>) -> Result<(), PlayFault>
    ensures { MatchResult result (λ _. place_fault cave.now around ≡ None)
        (λ found. place_fault cave.now around ≡ Some found) }
{
    match around {
        Some(Surroundings { place, .. }) if !is_mapped(cave, place) => {
            Err(PlayFault::Unmapped(place))
        }
        _ => Ok(()),
    }
}
