ghost use Rattle.std.specs.Prelude.{◌≡◌, ℕ, ◌+◌, ◌==◌, ◌<◌, ◌≤◌, ◌||◌, false, [], length, All};
ghost use Rattle.std.specs.Prelude.{IsTrue, Some};
ghost use Rattle.world_objects.specs.Lists.{halves_at, AreRelisted, object_of};
ghost use Rattle.world_objects.specs.Objects.{is_listed, place_of_spot, spot_at, objects_in_hands};
ghost use Rattle.world_objects.specs.Objects.{is_gone, after_move_to, after_carry};
ghost use Rattle.base_lines.specs.Numbers.{LAST_OBJECT};
ghost use Rattle.cave_world.specs.State.{toting, at, here, holding};

use crate::state::State;
use arrayvec::ArrayVec;
use world_objects::lists::HALVES;
use world_objects::object::OBJECTS;
use world_objects::{Half, Object, Place};

impl State {
    /// Whether the object exists and its first half is nowhere.
    pub fn is_gone(&self, object: Object) -> bool
        ensures { result ≡ is_gone self.now.objects object }
    {
        self.objects.is_gone(object)
    }

    /// Whether an object is in the player's hands.
    pub fn toting(&self, object: Object) -> bool
        ensures value { result ≡ toting self.now object }
        ensures unlisted { IsTrue result → 0 < object → (q : ℕ)
            → is_listed object (halves_at q self.now.objects.lists) ≡ false }
    {
        self.objects.is_in_hands(object)
    }

    /// Whether a half of an object is where the player is.
    pub fn at(&self, object: Object) -> bool
        ensures value { result ≡ at self.now object }
        ensures listed { let halves = halves_at self.now.trail.here self.now.objects.lists in
            0 < object
            → result ≡ (is_listed object halves || is_listed (LAST_OBJECT + object) halves) }
    {
        self.objects.is_object_at(self.trail.here, object)
    }

    /// Whether an object is in the player's hands, or its first half is where the player is.
    pub fn here(&self, object: Object) -> bool
        ensures value { result ≡ here self.now object }
        ensures listed { let halves = halves_at self.now.trail.here self.now.objects.lists in
            0 < object → result ≡ (toting self.now object || is_listed object halves) }
    {
        self.objects.is_at_hand(self.trail.here, object)
    }

    /// How many objects are in the player's hands.
    pub fn holding(&self) -> usize
        ensures value { result ≡ holding self.now }
        ensures within { result ≤ LAST_OBJECT }
    {
        self.objects.count_in_hands()
    }

    /// The objects in the player's hands, in ascending order.
    pub fn in_hands(&self) -> ArrayVec<Object, OBJECTS>
        ensures { result.items ≡ objects_in_hands self.now.objects }
    {
        self.objects.in_hands()
    }

    /// The halves that are at a place, latest first. Each belongs to an object, and none is at
    /// place 0.
    pub fn objects_at(&self, place: Place) -> ArrayVec<Half, HALVES>
        ensures value { result.items ≡ halves_at place self.now.objects.lists }
        ensures objects { All (λ half. 0 < object_of half)
            (halves_at place self.now.objects.lists) }
        ensures nowhere { halves_at 0 self.now.objects.lists ≡ [] }
    {
        self.objects.at(place)
    }

    /// Whether nothing is at a place.
    pub fn is_bare(&self, place: Place) -> bool
        ensures { result ≡ (length (halves_at place self.now.objects.lists) == 0) }
    {
        self.objects.is_bare(place)
    }

    /// The player takes an object, if it isn't in the hands yet.
    pub fn carry(&mut self, object: Object)
        ensures value { let s = self.old in
            self.new ≡ record s { objects = after_carry s.objects object } }
        ensures lists { 0 < object
            → AreRelisted self.old.objects.lists self.new.objects.lists (Half.First object) None }
    {
        self.objects.carry(object);
    }

    /// An object moves to the front of a place's list, even from the player's hands. Place 0 is
    /// nowhere.
    pub fn move_to(&mut self, object: Object, place: Place)
        ensures value { let s = self.old in
            self.new ≡ record s { objects = after_move_to s.objects object place } }
        ensures lists { 0 < object
            → AreRelisted self.old.objects.lists self.new.objects.lists (Half.First object)
            (place_of_spot (spot_at place)) }
    {
        self.objects.move_to(object, place);
    }

    /// An object falls at a place, even from the player's hands, and is then the latest there.
    pub fn drop_at(&mut self, object: Object, place: Place)
        requires { 0 < place }
        ensures value { let s = self.old in
            self.new ≡ record s { objects = after_move_to s.objects object place } }
        ensures lists { 0 < object
            → AreRelisted self.old.objects.lists self.new.objects.lists (Half.First object)
            (Some place) }
    {
        self.move_to(object, place);
    }

    /// An object vanishes: it is nowhere from now on.
    pub fn destroy(&mut self, object: Object)
        ensures value { let s = self.old in
            self.new ≡ record s { objects = after_move_to s.objects object 0 } }
        ensures lists { 0 < object
            → AreRelisted self.old.objects.lists self.new.objects.lists (Half.First object)
            (place_of_spot (spot_at 0)) }
    {
        self.move_to(object, Place::new(0));
    }
}
