ghost use Rattle.std.specs.Prelude.{◌≡◌, ◌+◌, ◌<◌, ◌≤◌, nat_le, length};
ghost use Rattle.arrayvec.specs.ArrayVec.{array_vec_len};
ghost use Rattle.cave_verbs.specs.Choice.{with_meant, first_or_none, only_of};
ghost use Rattle.cave_verbs.specs.Choice as defined;

use arrayvec::ArrayVec;
use world_objects::Object;

/// How many objects a verb without an object could be meant for.
const MAX_MEANT: usize = 5;

/// The objects that a verb without an object could be meant for.
pub type Meant = ArrayVec<Object, MAX_MEANT>;

/// One more object, if the cave has it and the verb could be meant for it.
#[tactic(auto, unfolding(crate::specs::Choice::with_meant))]
pub fn add_meant(could_be: bool, object: Object, meant: &mut Meant)
    requires { array_vec_len meant.old < defined.MAX_MEANT }
    ensures meant { meant.new.items ≡ with_meant could_be object meant.old.items }
    ensures few { array_vec_len meant.new ≤ array_vec_len meant.old + 1 }
{
    if could_be && !object.is_none() {
        meant.push(object);
    }
}

/// Whether there are two or more.
pub fn several(meant: &[Object]) -> bool
    ensures { result ≡ nat_le 2 (length meant.now) }
{
    2 <= meant.len()
}

/// The first, if there is one.
pub fn first(meant: &[Object]) -> Object
    ensures { result ≡ first_or_none meant.now }
{
    match meant {
        [first, ..] => *first,
        [] => Object::none(),
    }
}

/// The only one, if there is exactly one.
pub fn only(meant: &[Object]) -> Object
    ensures { result ≡ only_of meant.now }
{
    match meant {
        [only] => *only,
        _ => Object::none(),
    }
}
