//! Objects by the numbers and the words that a cave has for them.

ghost use Rattle.std.specs.Prelude.{◌≡◌};
ghost use Rattle.cave_world.specs.Called.{object_called, or_no_object};

use base_lines::numbers::LAST_OBJECT;
use cave_data::Cave;
use cave_words::{Named, object_named};
use world_objects::Object;

/// The object with a number, or object 0 if there is none.
pub fn or_no_object(object: Option<u16>) -> Object
    ensures { result ≡ or_no_object object }
{
    match object {
        Some(number) if number <= LAST_OBJECT => Object::new(number as u8),
        _ => Object::none(),
    }
}

/// The object that the word of a name means, or object 0. It goes through the words of the cave.
#[tactic(auto, unfolding(crate::specs::Called::object_called))]
pub fn object_called(cave: &Cave, name: Named) -> Object
    ensures { result ≡ object_called cave.now name }
{
    or_no_object(object_named(cave, name))
}
