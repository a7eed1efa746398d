//! What rows do to a scene, by the words of the definitions.

ghost use Rattle.cave_world.specs.State.{with_hint_taken};
ghost use Rattle.turn_scene.specs.Effects.{Changes, after_sending, with_charge};
ghost use Rattle.turn_scene.specs.Parts.{with_objects, with_one_more_lost};
ghost use Rattle.turn_scene.specs.Places.{place_named};
ghost use Rattle.turn_scene.specs.Scene.{cave_of};
ghost use Rattle.world_objects.specs.Objects.{after_carry, after_juggle, after_move_to, with_anchor};
ghost use Rattle.world_objects.specs.Objects.{with_prop};
ghost use Rattle.world_objects.specs.declared.spot.Anchor.TheVariants as anchor_is;

use crate::places::place_named;
use crate::rules::Rules;
use crate::scene::Scene;
use cave_world::{Charge, HintNumber, RowNotes};
use data_rows::PlaceRole;
use world_objects::{Anchor, Object, Place, Prop};

impl<'a, N: RowNotes> Scene<'a, N> {
    ghost use Rattle.std.specs.Prelude.{◌≤ℤ◌};
    ghost use Rattle.world_objects.specs.Props.{HIGHEST_PROP, LOWEST_PROP};

    /// The player carries an object.
    pub fn carry(&mut self, object: Object)
        ensures { Changes N.rows (λ s. with_objects (after_carry s.objects object) s)
            self.old self.new }
    {
        self.state.carry(object);
    }

    /// An object is moved to a place; to place 0 if it is nowhere from now on.
    pub fn move_to(&mut self, object: Object, place: Place)
        ensures { Changes N.rows (λ s. with_objects (after_move_to s.objects object place) s)
            self.old self.new }
    {
        self.state.move_to(object, place);
    }

    /// An object is brought to the player's place.
    pub fn bring(&mut self, object: Object)
        ensures { Changes N.rows
            (λ s. with_objects (after_move_to s.objects object s.trail.here) s) self.old self.new }
    {
        self.move_to(object, self.state.trail.here);
    }

    /// An object is nowhere from now on.
    pub fn destroy(&mut self, object: Object)
        ensures { Changes N.rows (λ s. with_objects (after_move_to s.objects object 0) s)
            self.old self.new }
    {
        self.move_to(object, Place::new(0));
    }

    /// An object is moved to the place of a role, if there is the place.
    pub fn send(&mut self, rules: &Rules<'_>, object: Object, role: PlaceRole)
        ensures { Changes N.rows (after_sending object (place_named (cave_of rules.now) role))
            self.old self.new }
    {
        if let Some(place) = place_named(rules.cave, role) {
            self.move_to(object, place);
        }
    }

    /// What holds an object from now on.
    pub fn attach(&mut self, object: Object, anchor: Anchor)
        ensures { Changes N.rows (λ s. with_objects (with_anchor s.objects object anchor) s)
            self.old self.new }
    {
        self.state.objects.anchor_to(object, anchor);
    }

    /// An object can't be moved any more.
    pub fn fix(&mut self, object: Object)
        ensures { Changes N.rows (λ s. with_objects (with_anchor s.objects object anchor_is.Fixed) s)
            self.old self.new }
    {
        self.attach(object, Anchor::Fixed);
    }

    /// An object can be moved again.
    pub fn loosen(&mut self, object: Object)
        ensures { Changes N.rows (λ s. with_objects (with_anchor s.objects object anchor_is.Loose) s)
            self.old self.new }
    {
        self.attach(object, Anchor::Loose);
    }

    /// Both halves of an object move to the front of their lists.
    pub fn juggle(&mut self, object: Object)
        ensures { Changes N.rows (λ s. with_objects (after_juggle s.objects object) s)
            self.old self.new }
    {
        self.state.objects.juggle(object);
    }

    /// An object gets a prop.
    pub fn set_prop(&mut self, object: Object, prop: i8)
        requires low { LOWEST_PROP ≤ℤ prop }
        requires high { prop ≤ℤ HIGHEST_PROP }
        ensures { Changes N.rows (λ s. with_objects (with_prop s.objects object prop) s)
            self.old self.new }
    {
        self.state.objects.set_prop(object, Prop::new(prop));
    }

    /// One more treasure can't be found any more.
    pub fn lose_one(&mut self)
        ensures { Changes N.rows with_one_more_lost self.old self.new }
    {
        self.state.tallies.lost = self.state.tallies.lost.up();
    }

    /// The lamp burns for this many turns from now on.
    pub fn set_charge(&mut self, charge: Charge)
        ensures { Changes N.rows (with_charge charge) self.old self.new }
    {
        self.state.lamp.charge = charge;
    }

    /// A hint is taken.
    pub fn take_hint(&mut self, hint: HintNumber)
        ensures { Changes N.rows (with_hint_taken hint) self.old self.new }
    {
        self.state.take_hint(hint);
    }
}
