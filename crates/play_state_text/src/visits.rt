//! Lines for how often places were described.

ghost use Rattle.std.specs.Prelude.{◌≤◌};
ghost use Rattle.base_lines.specs.Numbers.{LAST_PLACE};
ghost use Rattle.base_text.specs.Text.{Tells};
ghost use Rattle.play_state_text.specs.Facts.{AllVisits};
ghost use Rattle.play_state_text.specs.Things.{item_at, text_up_to, visits_line};
ghost use Rattle.play_state_text.specs.Within.{AreVisitsWithin, IsWide};

use crate::value::{FactValue, Setting, has_all};
use base_text::Text;
use cave_world::Visits;
use world_objects::place::PLACES;

/// Writes how often the place with a number was described, if it was.
#[tactic(auto, unfolding(crate::specs::Things::visits_line, crate::specs::Words::named_line))]
fn put_visits_of(text: &mut Text, visits: &[Visits; PLACES], place: u16)
    requires some { 1 ≤ place }
    requires within { place ≤ LAST_PLACE }
    ensures { Tells (visits_line visits.now place) text.old text.new }
{
    let count = visits[usize::from(place) - 1].number();
    if count != 0 {
        write!(text, "visits {place}: {count}\n");
    }
}

/// Writes how often each place was described, for those that were.
#[tactic(auto, using(crate::proofs::EntryLemmas::no_lines))]
fn put_visits(text: &mut Text, visits: &[Visits; PLACES])
    ensures { Tells (text_up_to (visits_line visits.now) LAST_PLACE) text.old text.new }
{
    for before in 0..PLACES as u16 {
        put_visits_of(text, visits, before + 1);
    }
}

fn are_visits_of_within(visits: &[Visits; PLACES], place: u16)
    requires some { 1 ≤ place }
    requires within { place ≤ LAST_PLACE }
    ensures { IsWide (item_at 0 visits.now place) }
{
    let _ = visits[usize::from(place) - 1].number();
}

fn are_visits_within(visits: &[Visits; PLACES])
    ensures { AreVisitsWithin visits.now }
{
    has_all(visits);
    for before in 0..PLACES as u16 {
        are_visits_of_within(visits, before + 1);
    }
}

impl FactValue for [Visits; PLACES] {
    ghost fact = { λ visits. AllVisits visits };

    fn put(&self, text: &mut Text, setting: Setting<'_>, name: &str) {
        put_visits(text, self);
    }

    fn is_within(&self) {
        are_visits_within(self);
    }
}
