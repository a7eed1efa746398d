//! Lines for objects.

ghost use Rattle.std.specs.Prelude.{◌≡◌};
ghost use Rattle.base_lines.specs.Numbers.{LAST_OBJECT};
ghost use Rattle.base_text.specs.Text.{Tells};
ghost use Rattle.play_state_text.specs.Facts.{AllObjects};
ghost use Rattle.play_state_text.specs.Things.{anchor_text, is_as_in, spot_text, text_up_to};
ghost use Rattle.play_state_text.specs.Things.{thing_line, thing_text};
ghost use Rattle.play_state_text.specs.Within.{AreObjectsWithin, IsAnchorWithin, IsSpotWithin};
ghost use Rattle.play_state_text.specs.Within.{IsThingWithin};

use crate::value::{FactValue, Setting, put_signed};
use crate::words::put_word_of_object;
use base_text::Text;
use cave_data::Cave;
use world_objects::object::OBJECTS;
use world_objects::{Anchor, Object, Objects, Spot};

fn put_spot(text: &mut Text, spot: Spot)
    ensures { Tells (spot_text spot) text.old text.new }
{
    match spot {
        Spot::Away => text.put(b" away"),
        Spot::InHands => text.put(b" carried"),
        Spot::At(site) => {
            let number = site.place().number();
            write!(text, " at {number}");
        }
    }
}

fn put_anchor(text: &mut Text, anchor: Anchor)
    ensures { Tells (anchor_text anchor) text.old text.new }
{
    match anchor {
        Anchor::Loose => {}
        Anchor::Fixed => text.put(b", fixed"),
        Anchor::At(site) => {
            let number = site.place().number();
            write!(text, ", also at {number}");
        }
    }
}

/// Whether an object is as it is among other objects.
fn is_as_in(begun: &Objects, objects: &Objects, object: Object) -> bool
    ensures { result ≡ is_as_in begun.now objects.now object }
{
    objects.spot(object) == begun.spot(object)
        && objects.anchor(object) == begun.anchor(object)
        && objects.prop(object).value() == begun.prop(object).value()
}

/// Writes the word of an object, where it is, what holds it there, and its prop.
#[tactic(auto, unfolding(crate::specs::Things::thing_text))]
fn put_thing(text: &mut Text, cave: &Cave, objects: &Objects, object: Object)
    ensures { Tells (thing_text cave.now objects.now object) text.old text.new }
{
    put_word_of_object(text, cave, object);
    text.put(b":");
    put_spot(text, objects.spot(object));
    put_anchor(text, objects.anchor(object));
    put_signed(text, ", prop", i32::from(objects.prop(object).value()));
}

/// Writes the line of an object, if it isn't as it was when the game began.
#[tactic(auto, unfolding(crate::specs::Things::thing_line))]
fn put_thing_line(text: &mut Text, setting: Setting<'_>, objects: &Objects, object: Object)
    ensures { Tells (thing_line setting.entry.cave.now setting.entry.begun.now objects.now object)
        text.old text.new }
{
    if !is_as_in(setting.begun, objects, object) {
        let number = object.number();
        write!(text, "object {number}");
        put_thing(text, setting.cave, objects, object);
    }
}

/// Writes the lines of objects that aren't as they were when the game began.
#[tactic(auto, using(crate::proofs::EntryLemmas::no_lines))]
fn put_objects(text: &mut Text, setting: Setting<'_>, objects: &Objects)
    ensures { Tells (text_up_to (thing_line setting.entry.cave.now setting.entry.begun.now objects.now)
        LAST_OBJECT) text.old text.new }
{
    for before in 0..OBJECTS as u8 {
        put_thing_line(text, setting, objects, Object::new(before + 1));
    }
}

fn is_spot_within(spot: Spot)
    ensures { IsSpotWithin spot }
{
    if let Spot::At(site) = spot {
        let _ = site.place().number();
    }
}

fn is_anchor_within(anchor: Anchor)
    ensures { IsAnchorWithin anchor }
{
    if let Anchor::At(site) = anchor {
        let _ = site.place().number();
    }
}

#[tactic(auto, using(crate::proofs::WithinLemmas::within))]
fn is_thing_within(objects: &Objects, object: Object)
    ensures { IsThingWithin objects.now object }
{
    is_spot_within(objects.spot(object));
    is_anchor_within(objects.anchor(object));
    let _ = objects.prop(object).value();
}

fn are_objects_within(objects: &Objects)
    ensures { AreObjectsWithin objects.now }
{
    objects.are_complete();
    objects.lists_are_in_order();
    for before in 0..OBJECTS as u8 {
        is_thing_within(objects, Object::new(before + 1));
    }
}

impl FactValue for Objects {
    ghost fact = { λ objects. AllObjects objects };

    fn put(&self, text: &mut Text, setting: Setting<'_>, name: &str) {
        put_objects(text, setting, self);
    }

    fn is_within(&self) {
        are_objects_within(self);
    }
}
