//! Objects as JSON: those that are carried, and those that have moved.

ghost use Rattle.std.specs.Prelude.{◌≡◌, codes, decimal, option_map};
ghost use Rattle.std.specs.List.{flat_map};
ghost use Rattle.base_lines.specs.Numbers as defined;
ghost use Rattle.base_text.specs.Text.{Tells};
ghost use Rattle.play_walk.specs.Json.{first_member, json_list, next_member, next_value};
ghost use Rattle.play_walk.specs.Objects.{anchor_number, half_members, is_moved, listed_object};
ghost use Rattle.play_walk.specs.Objects.{moved_member, moved_up_to, name_member, spot_number};

use crate::json::{put_next_key, put_number, put_string_or_null};
use arrayvec::ArrayVec;
use base_text::Text;
use cave_data::Cave;
use data_rows::WORDS_PER_CLASS;
use world_objects::object::OBJECTS;
use world_objects::{Anchor, Object, Objects, Spot};

/// Appends the number of an object, as the first member.
fn put_object_number(text: &mut Text, object: Object)
    ensures { Tells (first_member (codes "object", decimal object)) text.old text.new }
{
    text.put(b"{\"object\":");
    put_number(text, u32::from(object.number()));
}

/// Appends the name of an object: the first word that the cave has for it.
fn put_name(text: &mut Text, cave: &Cave, object: Object)
    ensures { Tells (next_member (name_member cave.now object)) text.old text.new }
{
    put_next_key(text, "name");
    let number = WORDS_PER_CLASS + u16::from(object.number());
    put_string_or_null(text, cave.words().first_word(number));
}

fn put_spot(text: &mut Text, spot: Spot)
    ensures { Tells (spot_number spot) text.old text.new }
{
    match spot {
        Spot::Away => text.put(b"0"),
        Spot::InHands => text.put(b"-1"),
        Spot::At(site) => put_number(text, u32::from(site.place().number())),
    }
}

fn put_anchor(text: &mut Text, anchor: Anchor)
    ensures { Tells (anchor_number anchor) text.old text.new }
{
    match anchor {
        Anchor::Loose => text.put(b"0"),
        Anchor::Fixed => text.put(b"-1"),
        Anchor::At(site) => put_number(text, u32::from(site.place().number())),
    }
}

/// Appends where both halves of an object are among objects, if there are any.
fn put_halves(text: &mut Text, among: Option<&Objects>, object: Object)
    ensures { Tells (flat_map next_member (half_members (option_map (λ it. it.now) among.entry)
        object)) text.old text.new }
{
    match among {
        None => {}
        Some(objects) => {
            put_next_key(text, "first");
            put_spot(text, objects.spot(object));
            put_next_key(text, "second");
            put_anchor(text, objects.anchor(object));
        }
    }
}

/// Appends an object, with where it is among objects, if there are any.
#[tactic(auto, unfolding(crate::specs::Objects::listed_object))]
fn put_object(text: &mut Text, cave: &Cave, among: Option<&Objects>, object: Object)
    ensures { Tells (listed_object cave.now (option_map (λ it. it.now) among.entry) object)
        text.old text.new }
{
    put_object_number(text, object);
    put_name(text, cave, object);
    put_halves(text, among, object);
    text.put(b"}");
}

/// Appends objects, each after a comma.
fn put_more_objects(text: &mut Text, cave: &Cave, among: Option<&Objects>, objects: &[Object])
    ensures { Tells (flat_map (next_value (listed_object cave.now (option_map (λ it. it.now)
        among.entry))) objects.now) text.old text.new }
{
    for object in objects {
        text.put(b",");
        put_object(text, cave, among, *object);
    }
}

/// Appends a list of objects.
pub(crate) fn put_object_list(
    text: &mut Text,
    cave: &Cave,
    among: Option<&Objects>,
    objects: &[Object],
)
    ensures { Tells (json_list (listed_object cave.now (option_map (λ it. it.now) among.entry))
        objects.now) text.old text.new }
{
    match objects {
        [] => text.put(b"[]"),
        [first, rest @ ..] => {
            text.put(b"[");
            put_object(text, cave, among, *first);
            put_more_objects(text, cave, among, rest);
            text.put(b"]");
        }
    }
}

/// Whether an object is elsewhere than it was.
#[tactic(auto, unfolding(crate::specs::Objects::is_moved))]
fn is_moved(before: &Objects, after: &Objects, object: Object) -> bool
    ensures { result ≡ is_moved before.now after.now object }
{
    !(before.spot(object) == after.spot(object) && before.anchor(object) == after.anchor(object))
}

/// The objects that are elsewhere than they were, in ascending order.
#[tactic(auto, using(crate::proofs::Moving::listing_moved))]
fn moved(before: &Objects, after: &Objects) -> ArrayVec<Object, OBJECTS>
    ensures { result.items ≡ moved_up_to before.now after.now defined.LAST_OBJECT }
{
    let mut moved = ArrayVec::new();
    for below in 0..OBJECTS {
        let object = Object::new(below as u8 + 1);
        if is_moved(before, after, object) {
            moved.push(object);
        }
    }
    moved
}

/// Appends which objects are elsewhere than they were, after another member.
#[tactic(auto, unfolding(crate::specs::Objects::moved_member))]
pub(crate) fn put_moved(text: &mut Text, cave: &Cave, before: &Objects, after: &Objects)
    ensures { Tells (next_member (moved_member cave.now before.now after.now)) text.old text.new }
{
    put_next_key(text, "moved");
    let moved = moved(before, after);
    put_object_list(text, cave, Some(after), moved.as_slice());
}
