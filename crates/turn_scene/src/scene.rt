ghost use Rattle.std.specs.Prelude.{◌≡◌, ◌+◌, []};
ghost use Rattle.arrayvec.specs.ArrayVec.{array_vec_len};

use cave_world::{Out, Part, RowNotes, RuleRow, State, Table};
use data_rows::Role;
use world_objects::{Object, Place};

/// The most forced motions of a turn.
pub const MAX_FORCED_MOTIONS: u8 = 20;

/// A turn while it is played.
#[derive(Drop)]
pub struct Scene<'a, N: RowNotes> {
    /// What the turn changes.
    pub state: &'a mut State,
    /// What the turn says.
    pub out: &'a mut Out,
    /// Which rows of the rules apply in it.
    pub notes: &'a mut N,
    /// Whether it was dark where the player was as the turn began.
    pub was_dark: bool,
    /// The forced motions that are left in the turn.
    pub left: u8,
}

impl<'a, N: RowNotes> Scene<'a, N> {
    ghost use Rattle.cave_world.specs.declared.part.Part.TheVariants as part;
    ghost use Rattle.turn_scene.specs.Bounds.{GoesOnSaying, HasRoom};
    ghost use Rattle.turn_scene.specs.Scene.{scene_of, GoesOn, scene_at_start, after_telling};
    ghost use Rattle.turn_scene.specs.Scene.{after_row};
    ghost use Rattle.turn_scene.specs.Scene.{after_saying, after_look_at, scene_at_place};
    ghost use Rattle.turn_scene.specs.Scene.{after_setting_out, after_draw, happens};

    /// A turn begins with nothing said, and with all its forced motions.
    pub fn open(
        state: &'a mut State,
        out: &'a mut Out,
        notes: &'a mut N,
        was_dark: bool,
    ) -> Scene<'a, N>
        requires parts { out.old.items ≡ [] }
        requires rows { N.rows notes.old ≡ [] }
        ensures scene { scene_of N.rows result ≡ scene_at_start was_dark state.old }
        ensures state { result.state.ghost_name ≡ state.entry.ghost_name }
        ensures out { result.out.ghost_name ≡ out.entry.ghost_name }
        ensures notes { result.notes.ghost_name ≡ notes.entry.ghost_name }
        ensures none { array_vec_len result.out.now ≡ 0 }
    {
        Scene {
            state,
            out,
            notes,
            was_dark,
            left: MAX_FORCED_MOTIONS,
        }
    }

    /// A row of a table applies.
    pub fn note(&mut self, table: Table, number: u8)
        ensures scene { scene_of N.rows self.new
            ≡ after_row table number (scene_of N.rows self.old) }
        ensures same { GoesOn self.old self.new }
        ensures few { array_vec_len self.new.out.now ≡ array_vec_len self.old.out.now }
    {
        self.notes.note(RuleRow::OfTable(table, number));
    }

    /// Says one more part.
    pub fn tell(&mut self, part: Part)
        requires { HasRoom 1 self.old }
        ensures scene { scene_of N.rows self.new ≡ after_telling part (scene_of N.rows self.old) }
        ensures same { GoesOn self.old self.new }
        ensures few { array_vec_len self.new.out.now ≡ array_vec_len self.old.out.now + 1 }
    {
        self.out.push(part);
    }

    /// Says the message of a role.
    pub fn say(&mut self, role: Role)
        requires { HasRoom 1 self.old }
        ensures scene { scene_of N.rows self.new ≡ after_saying role (scene_of N.rows self.old) }
        ensures same { GoesOn self.old self.new }
        ensures few { array_vec_len self.new.out.now ≡ array_vec_len self.old.out.now + 1 }
    {
        self.tell(Part::Role(role));
    }

    /// Says a message of the cave.
    pub fn tell_message(&mut self, message: u16)
        requires { HasRoom 1 self.old }
        ensures scene { scene_of N.rows self.new
            ≡ after_telling (part.Message message) (scene_of N.rows self.old) }
        ensures same { GoesOn self.old self.new }
        ensures few { array_vec_len self.new.out.now ≡ array_vec_len self.old.out.now + 1 }
    {
        self.tell(Part::Message(message));
    }

    /// The text of an object for a number is printed, if there is the object.
    pub fn look(&mut self, object: Object, prop: i8)
        requires { HasRoom 1 self.old }
        ensures scene { scene_of N.rows self.new
            ≡ after_look_at object prop (scene_of N.rows self.old) }
        ensures says { GoesOnSaying 1 self.old self.new }
    {
        if !object.is_none() {
            self.tell(Part::Object(object, prop));
        }
    }

    /// The player is at a place.
    pub fn put_player_at(&mut self, place: Place)
        ensures scene { scene_of N.rows self.new ≡ scene_at_place place (scene_of N.rows self.old) }
        ensures same { GoesOn self.old self.new }
    {
        self.state.put_player_at(place);
    }

    /// The player sets out: the player's place becomes the one that the player came from.
    pub fn set_out(&mut self)
        ensures scene { scene_of N.rows self.new ≡ after_setting_out (scene_of N.rows self.old) }
        ensures same { GoesOn self.old self.new }
    {
        self.state.set_out();
    }

    /// Draws whether something happens that happens in some of 100 cases.
    pub fn happens(&mut self, percent: u32) -> bool
        ensures value { result ≡ happens percent (scene_of N.rows self.old) }
        ensures scene { scene_of N.rows self.new ≡ after_draw (scene_of N.rows self.old) }
        ensures same { GoesOn self.old self.new }
    {
        self.state.stream.pct(percent)
    }
}
