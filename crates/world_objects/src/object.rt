ghost use Rattle.std.specs.Prelude.{◌≡◌, ◌≤◌, ◌==◌};
ghost use Rattle.world_objects.specs.Lists.{object_of, half_number, half_of, last_half};
ghost use Rattle.base_lines.specs.Numbers as defined;

use base_lines::numbers::LAST_OBJECT;
use std::marker::Model;

/// How many objects there may be. Each has an element in the arrays of a state.
pub const OBJECTS: usize = LAST_OBJECT as usize;

/// The number of the last first half.
const LAST_FIRST: u8 = LAST_OBJECT as u8;

/// The number of an object. 0 is no object: it is nowhere, and whatever rules do to it has no
/// effect.
#[derive(Clone, Copy, Debug, PartialEq, Eq)]
pub struct Object {
    number: u8,
}

impl Model for Object {
    ghost use Rattle.std.specs.Prelude.{ℕ, ◌≤◌};
    ghost use Rattle.base_lines.specs.Numbers as defined;

    ghost Value = { ℕ };

    ghost view = { λ x. x.number };

    ghost invariant = { λ x. x.number ≤ defined.LAST_OBJECT };

    ghost inverse = { λ n. record { number = n } };
}

impl Default for Object {
    ghost is_default = { λ x. x ≡ 0 };

    fn default() -> Object {
        Object::none()
    }
}

impl Object {
    /// The object with a number.
    pub fn new(number: u8) -> Object
        requires { number ≤ defined.LAST_OBJECT }
        ensures { result ≡ number }
    {
        Object { number }
    }

    /// No object.
    pub fn none() -> Object
        ensures { result ≡ 0 }
    {
        Object { number: 0 }
    }

    /// The number of the object.
    pub fn number(self) -> u8
        ensures value { result ≡ self }
        ensures within { result ≤ defined.LAST_OBJECT }
    {
        self.number
    }

    /// Whether it is no object.
    pub fn is_none(self) -> bool
        ensures { result ≡ (self == 0) }
    {
        self.number == 0
    }
}

/// A half of an object, each in a list of its own: an object with two places has both halves.
#[derive(Clone, Copy, Debug, PartialEq, Eq)]
pub enum Half {
    First(Object),
    Second(Object),
}

impl Default for Half {
    ghost use Rattle.world_objects.specs.Lists.{no_half};

    ghost is_default = { λ h. h ≡ no_half };

    fn default() -> Half {
        Half::First(Object::none())
    }
}

impl Half {
    /// The object of which this is a half.
    pub fn object(self) -> Object
        ensures { result ≡ object_of self }
    {
        match self {
            Half::First(object) => object,
            Half::Second(object) => object,
        }
    }

    /// Its number: first halves have the numbers of their objects, and those of second halves come
    /// after them.
    pub fn number(&self) -> u8
        ensures value { result ≡ half_number self.now }
        ensures within { result ≤ last_half }
        ensures object { object_of self.now ≤ defined.LAST_OBJECT }
    {
        match self {
            Half::First(object) => object.number(),
            Half::Second(object) => LAST_FIRST + object.number(),
        }
    }

    /// The half with a number.
    pub fn numbered(number: u8) -> Half
        requires { number ≤ last_half }
        ensures { result ≡ half_of number }
    {
        if number > LAST_FIRST {
            Half::Second(Object::new(number - LAST_FIRST))
        } else {
            Half::First(Object::new(number))
        }
    }
}
