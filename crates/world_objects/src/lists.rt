ghost use Rattle.std.specs.Prelude.{◌≡◌, ◌≢◌, ℕ, ◌-◌, ◌≤◌, ◌<◌, ◌==◌, ◌↔◌, [], length, false, All};
ghost use Rattle.std.specs.Prelude.{Some, MatchOption, IsTrue, slice_index, slice_set};
ghost use Rattle.world_objects.specs.Objects.{is_listed, is_place};
ghost use Rattle.world_objects.specs.Links.{first_half, next_half, AreEntriesWithin};
ghost use Rattle.world_objects.specs.Lists.{after_relist, AreRelisted, halves_at, without};
ghost use Rattle.world_objects.specs.Lists.{put_first, with_half, AreLists, IsOnlyAt, IsNew};
ghost use Rattle.world_objects.specs.Lists.{object_of, half_number, last_half};

use crate::object::{Half, OBJECTS};
use crate::place::{PLACES, Place};
use arrayvec::ArrayVec;
use std::marker::Model;

/// The most halves that can be somewhere: two of each object.
pub const HALVES: usize = 2 * OBJECTS;

/// A half and the place where it is.
#[derive(Clone, Copy, Debug, PartialEq, Eq)]
pub struct PlacedHalf {
    pub place: Place,
    pub half: Half,
}

/// For each place the list of the halves that are there, latest first.
#[derive(Clone, Copy, Debug)]
pub struct ObjectLists {
    /// For each place, from 1 on, the number of the first half of its list, or 0.
    first: [u8; PLACES],
    /// For each number of a half, from 1 on, the number of the half after it in its list, or 0.
    next: [u8; HALVES],
}

impl Model for ObjectLists {
    ghost use Rattle.std.specs.Prelude.{List};
    ghost use Rattle.world_objects.specs.declared.lists.PlacedHalf.{PlacedHalf};

    ghost Value = { List PlacedHalf };

    ghost use Rattle.world_objects.specs.Links.{entries_of, links_of, AreLinks};

    ghost view = { entries_of };

    ghost invariant = { AreLinks };

    ghost inverse = { links_of };

    ghost inverse_ok = { λ l h. h.exact };
}

// A derive would state that any entries are equal if their links are, even entries that no links
// make up.
impl PartialEq for ObjectLists {
    ghost use Rattle.std.specs.Cmp.{partial_equiv_from_equiv};
    ghost use Rattle.std.specs.Cmp.Lexicographic.{pointwise, lists_equiv};
    ghost use Rattle.world_objects.specs.contracts.lists.PlacedHalfEq.TheImpl.Laws.{laws-law};

    ghost eq = { pointwise ⟦<PlacedHalf as PartialEq>⟧.eq };

    ghost laws = { partial_equiv_from_equiv (lists_equiv laws-law) };

    fn eq(&self, other: &ObjectLists) -> bool {
        self.is_same(other)
    }
}

impl Eq for ObjectLists {
    ghost use Rattle.std.specs.Cmp.Lexicographic.{lists_equiv};
    ghost use Rattle.world_objects.specs.contracts.lists.PlacedHalfEq.TheImpl.Laws.{laws-law};

    ghost laws = { lists_equiv laws-law };
}

/// Removes the link from a half, and returns where it led.
fn unlink(next: &mut [u8; HALVES], number: u8) -> u8
    requires some { 0 < number }
    requires within { number ≤ last_half }
    ensures value { result ≡ slice_index next.old (number - 1) }
    ensures unlinked { next.new ≡ slice_set next.old (number - 1) 0 }
{
    let at = usize::from(number) - 1;
    let after = next[at];
    next[at] = 0;
    after
}

impl ObjectLists {
    /// Lists that hold nothing.
    pub fn empty() -> ObjectLists
        ensures { result ≡ [] }
    {
        ObjectLists {
            first: [0; PLACES],
            next: [0; HALVES],
        }
    }

    /// Whether the lists are the same at each place.
    pub fn is_same(&self, other: &ObjectLists) -> bool
        ensures value { IsTrue result ↔ (self.now ≡ other.now) }
        ensures lists { IsTrue result ↔ ((q : ℕ) → halves_at q self.now ≡ halves_at q other.now) }
    {
        self.first == other.first && self.next == other.next
    }

    /// The lists are in the order of their places, and no half is in them twice. This is a law: it
    /// does nothing.
    pub fn are_in_order(&self)
        ensures { AreLists self.now }
    {
        let _ = &self.first;
    }

    /// No half is at a place after the last. This is a law: it does nothing.
    pub fn are_within(&self)
        ensures { AreEntriesWithin self.now }
    {
        let _ = &self.first;
    }

    /// The halves at a place, latest first. Each belongs to an object, and none is at place 0.
    pub fn at(&self, place: Place) -> ArrayVec<Half, HALVES>
        ensures value { result.items ≡ halves_at place self.now }
        ensures objects { All (λ half. 0 < object_of half) (halves_at place self.now) }
        ensures nowhere { halves_at 0 self.now ≡ [] }
    {
        let mut halves = ArrayVec::new();
        let mut number = self.first_at(place);
        while number != 0 {
            halves.push(Half::numbered(number));
            number = self.after(number);
        }
        halves
    }

    /// Whether nothing is at a place.
    pub fn is_bare(&self, place: Place) -> bool
        ensures { result ≡ (length (halves_at place self.now) == 0) }
    {
        self.first_at(place) == 0
    }

    /// The number of the first half of the list of a place, or 0.
    fn first_at(&self, place: Place) -> u8
        ensures value { result ≡ first_half place self.now }
        ensures lists { AreLists self.now }
        ensures within { AreEntriesWithin self.now }
    {
        let first = &self.first;
        if place.number() == 0 {
            return 0;
        }
        first[usize::from(place.number()) - 1]
    }

    /// The number of the half after another one in its list, or 0.
    fn after(&self, number: u8) -> u8
        requires some { 0 < number }
        requires within { number ≤ last_half }
        ensures { result ≡ next_half number self.now }
    {
        self.next[usize::from(number) - 1]
    }

    /// The number of the half before another one in the list of a place.
    fn before(&self, number: u8, place: Place) -> Option<u8>
        requires later { first_half place self.now ≢ number }
        ensures { MatchOption result (is_listed number (halves_at place self.now) ≡ false)
            (λ before. next_half before self.now ≡ number) }
    {
        let mut before = self.first_at(place);
        while before != 0 {
            let after = self.after(before);
            if after == number {
                return Some(before);
            }
            before = after;
        }
        None
    }

    /// Removes the first half from the list of a place.
    fn remove_first(&mut self, number: u8, place: Place)
        requires some { 0 < number }
        requires first { first_half place self.old ≡ number }
        ensures { self.new ≡ without number self.old }
    {
        let after = unlink(&mut self.next, number);
        self.first[usize::from(place.number()) - 1] = after;
    }

    /// Removes the half after another one from their list.
    fn remove_after(&mut self, number: u8, before: u8)
        requires some { 0 < number }
        requires after { next_half before self.old ≡ number }
        ensures { self.new ≡ without number self.old }
    {
        let after = unlink(&mut self.next, number);
        self.next[usize::from(before) - 1] = after;
    }

    /// Removes the half with a number from the list of the place where it is.
    fn remove_from(&mut self, number: u8, place: Place)
        requires some { 0 < number }
        requires only { IsOnlyAt number (Some place) self.old }
        ensures { self.new ≡ without number self.old }
    {
        if self.first_at(place) == number {
            self.remove_first(number, place);
        } else if let Some(before) = self.before(number, place) {
            self.remove_after(number, before);
        }
    }

    fn remove(&mut self, number: u8, from: Option<Place>)
        requires some { 0 < number }
        requires only { IsOnlyAt number from self.old }
        ensures { self.new ≡ without number self.old }
    {
        match from {
            Some(place) => self.remove_from(number, place),
            None => {}
        }
    }

    /// Puts a half that is nowhere at the front of the list of a place.
    fn put_first_at(&mut self, half: Half, place: Place)
        requires new { IsNew half self.old }
        requires somewhere { 0 < place }
        ensures { self.new ≡ put_first (record { place = place; half = half }) self.old }
    {
        let number = half.number();
        let at = usize::from(place.number()) - 1;
        let after = self.first[at];
        self.next[usize::from(number) - 1] = after;
        self.first[at] = number;
    }

    fn put(&mut self, half: Half, to: Option<Place>)
        requires new { IsNew half self.old }
        requires somewhere { to ≢ Some 0 }
        ensures { self.new ≡ with_half half to self.old }
    {
        if let Some(place) = to {
            self.put_first_at(half, place);
        }
    }

    /// Moves a half from the place where it is to the front of the list of another, or out of its
    /// list.
    #[tactic(auto, unfolding(crate::specs::Lists::after_relist))]
    pub fn relist(&mut self, half: Half, from: Option<Place>, to: Option<Place>)
        requires some { 0 < object_of half }
        requires somewhere { to ≢ Some 0 }
        requires only { (q : ℕ) → IsTrue (is_listed (half_number half) (halves_at q self.old))
            → IsTrue (is_place q from) }
        ensures value { self.new ≡ after_relist half to self.old }
        ensures lists { AreRelisted self.old self.new half to }
    {
        self.remove(half.number(), from);
        self.put(half, to);
    }
}
