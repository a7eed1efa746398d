//! Lines for what is at places.

ghost use Rattle.base_lines.specs.Numbers.{LAST_PLACE};
ghost use Rattle.base_text.specs.Text.{Tells};
ghost use Rattle.play_state_text.specs.Things.{half_text, halves_text, more_halves_text};
ghost use Rattle.play_state_text.specs.Things.{place_line, text_up_to};

use crate::value::Setting;
use crate::words::put_named_object;
use base_text::Text;
use cave_data::Cave;
use world_objects::place::PLACES;
use world_objects::{Half, Objects, Place};

fn put_half(text: &mut Text, cave: &Cave, half: Half)
    ensures { Tells (half_text cave.now half) text.old text.new }
{
    match half {
        Half::First(object) => {
            text.put(b" ");
            put_named_object(text, cave, object);
        }
        Half::Second(object) => {
            text.put(b" also ");
            put_named_object(text, cave, object);
        }
    }
}

/// Writes halves, each after a comma.
fn put_more_halves(text: &mut Text, cave: &Cave, halves: &[Half])
    ensures { Tells (more_halves_text cave.now halves.now) text.old text.new }
{
    for half in halves {
        text.put(b",");
        put_half(text, cave, *half);
    }
}

fn put_halves(text: &mut Text, cave: &Cave, halves: &[Half])
    ensures { Tells (halves_text cave.now halves.now) text.old text.new }
{
    match halves {
        [] => text.put(b": nothing\n"),
        [first, more @ ..] => {
            text.put(b":");
            put_half(text, cave, *first);
            put_more_halves(text, cave, more);
            text.put(b"\n");
        }
    }
}

/// Writes the list of a place, if it isn't as it was when the game began.
#[tactic(auto, unfolding(crate::specs::Things::place_line))]
fn put_place(text: &mut Text, setting: Setting<'_>, objects: &Objects, place: Place)
    ensures { Tells (place_line setting.entry.cave.now setting.entry.begun.now objects.now place)
        text.old text.new }
{
    let (halves, begun_halves) = (objects.at(place), setting.begun.at(place));
    if halves.as_slice() != begun_halves.as_slice() {
        let number = place.number();
        write!(text, "place {number}");
        put_halves(text, setting.cave, halves.as_slice());
    }
}

/// Writes the lists of places that aren't as they were when the game began.
#[tactic(auto, using(crate::proofs::EntryLemmas::no_lines))]
pub(crate) fn put_places(text: &mut Text, setting: Setting<'_>, objects: &Objects)
    ensures { Tells (text_up_to (place_line setting.entry.cave.now setting.entry.begun.now objects.now)
        LAST_PLACE) text.old text.new }
{
    for before in 0..PLACES as u16 {
        put_place(text, setting, objects, Place::new(before + 1));
    }
}
