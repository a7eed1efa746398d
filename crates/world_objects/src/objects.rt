ghost use Rattle.std.specs.Prelude.{◌≡◌, ℕ, ◌==◌, ◌||◌, ◌+◌, ◌<◌, ◌≤◌, false, [], length, All};
ghost use Rattle.std.specs.Prelude.{IsTrue};
ghost use Rattle.world_objects.specs.Objects.{spot_of, anchor_of, prop_of, objects_in_hands};
ghost use Rattle.world_objects.specs.Objects.{unplaced_objects, is_in_hands, is_gone, is_first_at};
ghost use Rattle.world_objects.specs.Objects.{is_object_at, is_at_hand, with_spot, with_anchor};
ghost use Rattle.world_objects.specs.Objects.{with_prop, after_move_to, after_carry, after_juggle};
ghost use Rattle.world_objects.specs.Objects.{place_of_spot, place_of_anchor, spot_at, is_place};
ghost use Rattle.world_objects.specs.Objects.{is_listed};
ghost use Rattle.world_objects.specs.Lists.{halves_at, AreLists, AreRelisted, object_of};
ghost use Rattle.world_objects.specs.Links.{AreEntriesWithin};
ghost use Rattle.base_lines.specs.Numbers.{LAST_OBJECT};

use crate::lists::{HALVES, ObjectLists};
use crate::object::{Half, OBJECTS, Object};
use crate::packed::{PackedAnchor, PackedSpot};
use crate::place::Place;
use crate::prop::Prop;
use crate::spot::{Anchor, Spot};
use arrayvec::ArrayVec;
use std::marker::Model;

/// Where each object is, what holds it there, its prop, and for each place the list of the halves
/// there.
#[derive(Clone, Copy, Debug, PartialEq, Eq)]
pub struct Objects {
    first: [PackedSpot; OBJECTS],
    second: [PackedAnchor; OBJECTS],
    props: [Prop; OBJECTS],
    lists: ObjectLists,
}

impl Model for Objects {
    ghost use Rattle.world_objects.specs.Objects.{Layout, IsLaid};

    ghost Value = { Layout };

    ghost view = { λ o. record {
      first = o.first;
      second = o.second;
      props = o.props;
      lists = o.lists;
    } };

    ghost invariant = { λ o. let l : Layout =
        record { first = o.first; second = o.second; props = o.props; lists = o.lists } in
        IsLaid l };

    ghost inverse = { λ l. record {
      first = l.first;
      second = l.second;
      props = l.props;
      lists = l.lists;
    } };
}

/// There is a prop for each object. This is a law: it does nothing.
fn are_all_props(props: &[Prop; OBJECTS])
    ensures { length props.now ≡ LAST_OBJECT }
{
    let _ = props;
}

impl Objects {
    /// Objects, none of which is placed.
    #[tactic(auto, unfolding(crate::specs::Objects::unplaced_objects))]
    pub fn unplaced() -> Objects
        ensures { result ≡ unplaced_objects }
    {
        Objects {
            first: [PackedSpot::new(Spot::Away); OBJECTS],
            second: [PackedAnchor::new(Anchor::Loose); OBJECTS],
            props: [Prop::new(0); OBJECTS],
            lists: ObjectLists::empty(),
        }
    }

    /// The halves that are at a place, latest first. Each belongs to an object, and none is at
    /// place 0.
    pub fn at(&self, place: Place) -> ArrayVec<Half, HALVES>
        ensures value { result.items ≡ halves_at place self.now.lists }
        ensures objects { All (λ half. 0 < object_of half) (halves_at place self.now.lists) }
        ensures nowhere { halves_at 0 self.now.lists ≡ [] }
    {
        self.lists.at(place)
    }

    /// Whether nothing is at a place.
    pub fn is_bare(&self, place: Place) -> bool
        ensures { result ≡ (length (halves_at place self.now.lists) == 0) }
    {
        self.lists.is_bare(place)
    }

    /// The lists are in the order of their places, and no half is in them twice. This is a law: it
    /// does nothing.
    pub fn lists_are_in_order(&self)
        ensures { AreLists self.now.lists }
    {
        self.lists.are_in_order();
    }

    /// Each object has a spot, an anchor and a prop, and no half is at a place after the last. This
    /// is a law: it does nothing.
    pub fn are_complete(&self)
        ensures spots { length self.now.first ≡ LAST_OBJECT }
        ensures anchors { length self.now.second ≡ LAST_OBJECT }
        ensures props { length self.now.props ≡ LAST_OBJECT }
        ensures places { AreEntriesWithin self.now.lists }
    {
        are_all_props(&self.props);
        self.lists.are_within();
    }

    /// Where the first half of an object is.
    #[tactic(auto, unfolding(crate::specs::Objects::spot_of))]
    pub fn spot(&self, object: Object) -> Spot
        ensures value { result ≡ spot_of self.now object }
        ensures listed { 0 < object → (q : ℕ)
            → is_listed object (halves_at q self.now.lists) ≡ is_place q (place_of_spot result) }
    {
        if object.is_none() {
            return Spot::Away;
        }
        self.first[usize::from(object.number()) - 1].spot()
    }

    /// What holds an object where it is.
    #[tactic(auto, unfolding(crate::specs::Objects::anchor_of))]
    pub fn anchor(&self, object: Object) -> Anchor
        ensures value { result ≡ anchor_of self.now object }
        ensures listed { 0 < object → (q : ℕ)
            → is_listed (LAST_OBJECT + object) (halves_at q self.now.lists)
            ≡ is_place q (place_of_anchor result) }
    {
        if object.is_none() {
            return Anchor::Loose;
        }
        self.second[usize::from(object.number()) - 1].anchor()
    }

    /// The prop of an object.
    #[tactic(auto, unfolding(crate::specs::Objects::prop_of))]
    pub fn prop(&self, object: Object) -> Prop
        ensures { result ≡ prop_of self.now object }
    {
        if object.is_none() {
            return Prop::new(0);
        }
        self.props[usize::from(object.number()) - 1]
    }

    /// Whether an object is in the hands.
    #[tactic(auto, unfolding(crate::specs::Objects::is_in_hands))]
    pub fn is_in_hands(&self, object: Object) -> bool
        ensures value { result ≡ is_in_hands self.now object }
        ensures unlisted { IsTrue result → 0 < object → (q : ℕ)
            → is_listed object (halves_at q self.now.lists) ≡ false }
    {
        self.spot(object).is_in_hands()
    }

    /// Whether the object exists and its first half is nowhere.
    #[tactic(auto, unfolding(crate::specs::Objects::is_gone))]
    pub fn is_gone(&self, object: Object) -> bool
        ensures { result ≡ is_gone self.now object }
    {
        !object.is_none() && self.spot(object).is_away()
    }

    /// Whether the first half of an object is at a place.
    #[tactic(auto, unfolding(crate::specs::Objects::is_first_at))]
    pub fn is_first_at(&self, place: Place, object: Object) -> bool
        ensures value { result ≡ is_first_at self.now place object }
        ensures listed { 0 < object → result ≡ is_listed object (halves_at place self.now.lists) }
    {
        match self.spot(object).place() {
            Some(spot) => spot == place,
            None => false,
        }
    }

    fn is_second_at(&self, place: Place, object: Object) -> bool
        ensures value { result ≡ is_place place (place_of_anchor (anchor_of self.now object)) }
        ensures listed { 0 < object
            → result ≡ is_listed (LAST_OBJECT + object) (halves_at place self.now.lists) }
    {
        match self.anchor(object).place() {
            Some(anchor) => anchor == place,
            None => false,
        }
    }

    /// Whether a half of an object is at a place.
    #[tactic(auto, unfolding(crate::specs::Objects::is_object_at))]
    pub fn is_object_at(&self, place: Place, object: Object) -> bool
        ensures value { result ≡ is_object_at self.now place object }
        ensures listed { let halves = halves_at place self.now.lists in
            0 < object
            → result ≡ (is_listed object halves || is_listed (LAST_OBJECT + object) halves) }
    {
        self.is_first_at(place, object) || self.is_second_at(place, object)
    }

    /// Whether an object is in the hands, or its first half is at a place.
    #[tactic(auto, unfolding(crate::specs::Objects::is_at_hand))]
    pub fn is_at_hand(&self, place: Place, object: Object) -> bool
        ensures value { result ≡ is_at_hand self.now place object }
        ensures listed { 0 < object
            → result ≡ (is_in_hands self.now object
            || is_listed object (halves_at place self.now.lists)) }
    {
        self.is_in_hands(object) || self.is_first_at(place, object)
    }

    /// Moves the first half of an object to a spot.
    #[tactic(auto, unfolding(crate::specs::Objects::with_spot))]
    pub fn move_to_spot(&mut self, object: Object, spot: Spot)
        ensures value { self.new ≡ with_spot self.old object spot }
        ensures lists { 0 < object
            → AreRelisted self.old.lists self.new.lists (Half.First object) (place_of_spot spot) }
    {
        if object.is_none() {
            return;
        }
        let was = self.spot(object).place();
        let place = spot.place();
        self.first[usize::from(object.number()) - 1] = PackedSpot::new(spot);
        self.lists.relist(Half::First(object), was, place);
    }

    /// Gives an object another anchor.
    #[tactic(auto, unfolding(crate::specs::Objects::with_anchor))]
    pub fn anchor_to(&mut self, object: Object, anchor: Anchor)
        ensures value { self.new ≡ with_anchor self.old object anchor }
        ensures lists { 0 < object
            → AreRelisted self.old.lists self.new.lists (Half.Second object)
            (place_of_anchor anchor) }
    {
        if object.is_none() {
            return;
        }
        let was = self.anchor(object).place();
        let place = anchor.place();
        self.second[usize::from(object.number()) - 1] = PackedAnchor::new(anchor);
        self.lists.relist(Half::Second(object), was, place);
    }

    /// Gives an object another prop.
    #[tactic(auto, unfolding(crate::specs::Objects::with_prop))]
    pub fn set_prop(&mut self, object: Object, prop: Prop)
        ensures { self.new ≡ with_prop self.old object prop }
    {
        if object.is_none() {
            return;
        }
        self.props[usize::from(object.number()) - 1] = prop;
    }

    /// Moves the first half of an object to the front of a place's list. Place 0 is nowhere.
    #[tactic(auto, unfolding(crate::specs::Objects::after_move_to))]
    pub fn move_to(&mut self, object: Object, place: Place)
        ensures value { self.new ≡ after_move_to self.old object place }
        ensures lists { 0 < object
            → AreRelisted self.old.lists self.new.lists (Half.First object)
            (place_of_spot (spot_at place)) }
    {
        self.move_to_spot(object, Spot::at(place));
    }

    /// Takes the first half of an object from its list into the hands, if it isn't there yet.
    #[tactic(auto, unfolding(crate::specs::Objects::after_carry))]
    pub fn carry(&mut self, object: Object)
        ensures value { self.new ≡ after_carry self.old object }
        ensures lists { 0 < object
            → AreRelisted self.old.lists self.new.lists (Half.First object) None }
    {
        if self.is_in_hands(object) {
            return;
        }
        self.move_to_spot(object, Spot::InHands);
    }

    /// Moves both halves of an object to the front of their lists, if it isn't in the hands.
    #[tactic(auto, unfolding(crate::specs::Objects::after_juggle))]
    pub fn juggle(&mut self, object: Object)
        ensures { self.new ≡ after_juggle self.old object }
    {
        if self.is_in_hands(object) {
            return;
        }
        let spot = self.spot(object);
        self.move_to_spot(object, spot);
        let anchor = self.anchor(object);
        self.anchor_to(object, anchor);
    }

    /// How many objects are in the hands.
    #[tactic(auto, using(crate::proofs::InHands::counting_in_hands))]
    pub fn count_in_hands(&self) -> usize
        ensures value { result ≡ length (objects_in_hands self.now) }
        ensures within { result ≤ LAST_OBJECT }
    {
        let mut count = 0;
        for before in 0..OBJECTS {
            if self.is_in_hands(Object::new(before as u8 + 1)) {
                count += 1;
            }
        }
        count
    }

    /// The objects in the hands, in ascending order.
    #[tactic(auto, using(crate::proofs::InHands::listing_in_hands))]
    pub fn in_hands(&self) -> ArrayVec<Object, OBJECTS>
        ensures { result.items ≡ objects_in_hands self.now }
    {
        let mut in_hands = ArrayVec::new();
        for before in 0..OBJECTS {
            let object = Object::new(before as u8 + 1);
            if self.is_in_hands(object) {
                in_hands.push(object);
            }
        }
        in_hands
    }
}
