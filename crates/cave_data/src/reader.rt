//! Reading a database line by line.
ghost use Rattle.std.specs.Prelude.{◌≡◌, ◌&&◌, nat_lt, nat_le};
ghost use Rattle.data_rows.specs.Answers.{Answers, Leaves};
ghost use Rattle.cave_data.specs.Steps.{row_step, advance, no_tables};
ghost use Rattle.base_lines.specs.Numbers as defined;

use crate::classes::{Classes, MAX_CLASSES};
use crate::tables::{ByNumber, mark};
use crate::texts::Texts;
use crate::ways::Ways;
use crate::words::{MAX_WORDS, WordTable};
use base_lines::bytes::is_all_blank;
use base_lines::numbers::{
    LAST_ACTION, LAST_HINT, LAST_MESSAGE, LAST_NAMED, LAST_OBJECT, LAST_PLACE, LAST_PROP,
};
use data_rows::field_rows::{
    condition_row, default_row, hint_row, object_line, placement_row, text_line, way_row, word_row,
};
use data_rows::position::{after_heading, closes};
use data_rows::rows::Placement;
use data_rows::{Cause, Hint, Position, Section};
use std::alloc::Global;

/// The most ways out of places.
const MAX_WAYS: usize = 2000;

/// The last number that a text of an object may have: a hundred times the object, and a prop.
const LAST_OBJECT_TEXT: u16 = 100 * LAST_NAMED + LAST_PROP;

/// The tables of the rows so far, and the object whose texts follow, or 0.
#[derive(Drop)]
pub struct Tables {
    pub long: Texts,
    pub short: Texts,
    pub ways: Ways,
    pub words: WordTable,
    pub objects: Texts,
    pub object: u8,
    pub messages: Texts,
    pub placements: ByNumber<Placement>,
    pub defaults: ByNumber<u16>,
    pub conditions: ByNumber<u32>,
    pub classes: Classes,
    pub hints: ByNumber<Hint>,
}

/// Where the next line is, and the tables of the rows so far.
#[derive(Drop)]
pub struct DatabaseReader {
    pub position: Position,
    pub tables: Tables,
}

/// Whether a line with this number belongs to an object's inventory text.
fn names_object(number: u16) -> bool
    ensures { result ≡ (nat_lt 0 number && nat_le number defined.LAST_NAMED) }
{
    0 < number && number <= LAST_NAMED
}

#[tactic(auto, unfolding(crate::specs::Steps::row_step))]
impl Tables {
    /// No rows.
    pub fn new(alloc: Global) -> Self
        ensures { result ≡ no_tables }
    {
        Self {
            long: Texts::with_room(alloc, LAST_PLACE),
            short: Texts::with_room(alloc, LAST_PLACE),
            ways: Ways::new(alloc),
            words: WordTable::new(alloc),
            objects: Texts::with_room(alloc, LAST_OBJECT_TEXT),
            object: 0,
            messages: Texts::with_room(alloc, LAST_MESSAGE),
            placements: ByNumber::with_room(alloc, LAST_OBJECT),
            defaults: ByNumber::with_room(alloc, LAST_ACTION),
            conditions: ByNumber::with_room(alloc, LAST_PLACE),
            classes: Classes::new(alloc),
            hints: ByNumber::with_room(alloc, LAST_HINT),
        }
    }

    fn add_long_line(&mut self, line: &[u8]) -> Result<(), Cause>
        ensures { Leaves result self.new (row_step self.old Section.LongTexts line.now) }
    {
        let (place, text) = text_line(line, 1, LAST_PLACE)?;
        self.long.add_line(place, text)?;
        Ok(())
    }

    fn add_short_line(&mut self, line: &[u8]) -> Result<(), Cause>
        ensures { Leaves result self.new (row_step self.old Section.ShortTexts line.now) }
    {
        let (place, text) = text_line(line, 1, LAST_PLACE)?;
        self.short.add_line(place, text)?;
        Ok(())
    }

    fn add_way(&mut self, line: &[u8]) -> Result<(), Cause>
        ensures { Leaves result self.new (row_step self.old Section.Travel line.now) }
    {
        let row = way_row(line)?;
        if self.ways.count() >= MAX_WAYS {
            return Err(Cause::TooManyRows);
        }
        self.ways.push(row)?;
        Ok(())
    }

    fn add_word(&mut self, line: &[u8]) -> Result<(), Cause>
        ensures { Leaves result self.new (row_step self.old Section.Words line.now) }
    {
        let row = word_row(line)?;
        if self.words.len() >= MAX_WORDS {
            return Err(Cause::TooManyRows);
        }
        self.words.push(row)?;
        Ok(())
    }

    fn add_object_line(&mut self, line: &[u8]) -> Result<(), Cause>
        ensures { Leaves result self.new (row_step self.old Section.Objects line.now) }
    {
        let (number, text) = object_line(line)?;
        if names_object(number) {
            self.objects.add_line(number, text)?;
            self.object = number as u8;
        } else if self.object == 0 {
            return Err(Cause::OutOfRange);
        } else {
            let key = 100 * u16::from(self.object) + number / 100;
            self.objects.add_line(key, text)?;
        }
        Ok(())
    }

    fn add_message_line(&mut self, line: &[u8]) -> Result<(), Cause>
        ensures { Leaves result self.new (row_step self.old Section.Messages line.now) }
    {
        let (number, text) = text_line(line, 1, LAST_MESSAGE)?;
        self.messages.add_line(number, text)?;
        Ok(())
    }

    fn add_placement(&mut self, line: &[u8]) -> Result<(), Cause>
        ensures { Leaves result self.new (row_step self.old Section.Placements line.now) }
    {
        let (object, placement) = placement_row(line)?;
        self.placements.put(object, placement)?;
        Ok(())
    }

    fn add_default(&mut self, line: &[u8]) -> Result<(), Cause>
        ensures { Leaves result self.new (row_step self.old Section.Defaults line.now) }
    {
        let (action, message) = default_row(line)?;
        self.defaults.put(action, message)?;
        Ok(())
    }

    fn add_condition(&mut self, line: &[u8]) -> Result<(), Cause>
        ensures { Leaves result self.new (row_step self.old Section.Conditions line.now) }
    {
        let (bit, places) = condition_row(line)?;
        mark(&mut self.conditions, bit, places.as_slice())?;
        Ok(())
    }

    fn add_class_line(&mut self, line: &[u8]) -> Result<(), Cause>
        ensures { Leaves result self.new (row_step self.old Section.Classes line.now) }
    {
        let (bound, text) = text_line(line, 0, 9999)?;
        if self.classes.len() >= MAX_CLASSES {
            return Err(Cause::TooManyRows);
        }
        self.classes.push(bound, text)?;
        Ok(())
    }

    fn add_hint(&mut self, line: &[u8]) -> Result<(), Cause>
        ensures { Leaves result self.new (row_step self.old Section.Hints line.now) }
    {
        let (number, hint) = hint_row(line)?;
        self.hints.put(number, hint)?;
        Ok(())
    }

    fn pass_magic_line(&self, line: &[u8]) -> Result<(), Cause>
        ensures { Answers (λ _. self.now) result (row_step self.now Section.Magic line.now) }
    {
        text_line(line, 1, LAST_MESSAGE)?;
        Ok(())
    }
}

impl Tables {
    fn add_row(&mut self, alloc: Global, section: Section, line: &[u8]) -> Result<(), Cause>
        ensures { Leaves result self.new (row_step self.old section line.now) }
    {
        match section {
            Section::LongTexts => self.add_long_line(line),
            Section::ShortTexts => self.add_short_line(line),
            Section::Travel => self.add_way(line),
            Section::Words => self.add_word(line),
            Section::Objects => self.add_object_line(line),
            Section::Messages => self.add_message_line(line),
            Section::Placements => self.add_placement(line),
            Section::Defaults => self.add_default(line),
            Section::Conditions => self.add_condition(line),
            Section::Classes => self.add_class_line(line),
            Section::Hints => self.add_hint(line),
            Section::Magic => self.pass_magic_line(line),
        }
    }
}

impl DatabaseReader {
    /// Before the first line.
    pub fn new(alloc: Global) -> Self
        ensures { result ≡ record { position = Position.Outside; tables = no_tables } }
    {
        Self {
            position: Position::Outside,
            tables: Tables::new(alloc),
        }
    }

    /// Takes the next line.
    #[tactic(auto, unfolding(crate::specs::Steps::advance))]
    pub fn advance(&mut self, alloc: Global, line: &[u8]) -> Result<(), Cause>
        ensures { Leaves result self.new (advance self.old line.now) }
    {
        if is_all_blank(line) {
            return Ok(());
        }
        match self.position {
            Position::Outside => {
                self.position = after_heading(line).ok_or(Cause::BadSection)?;
                Ok(())
            }
            Position::Inside(_) if closes(line) => {
                self.position = Position::Outside;
                Ok(())
            }
            Position::Inside(section) => self.tables.add_row(alloc, section, line),
            Position::After => Ok(()),
        }
    }
}
