//! What a row of a database is about.

ghost use Rattle.std.specs.Prelude.{◌≡◌};
ghost use Rattle.std.specs.List.{list_any};
ghost use Rattle.data_lines.specs.Marks.{is_class_from, is_long_text, is_name, is_short_text};
ghost use Rattle.data_lines.specs.Marks.{is_way_from, is_word_row};

/// What a row is about. Places, objects, actions, hints and messages have their numbers.
#[derive(Clone, Copy, Debug, PartialEq, Eq)]
pub enum RowMark {
    /// A line of the long text of a place.
    Long(u16),
    /// A line of the short text of a place.
    Short(u16),
    /// A way out of a place.
    Way(u16),
    Word,
    /// A line of the inventory text of an object.
    Name(u16),
    /// Where an object is as a game begins.
    Placement(u16),
    /// The message that an action says.
    Default(u16, u16),
    /// A class, by its greatest score.
    Class(u16),
    /// A hint, the message that it asks by, and the one that it gives.
    Hint(u16, u16, u16),
}

/// A row, with the number of its line, from 1.
#[derive(Clone, Copy, Debug)]
pub struct MarkedRow {
    pub line: usize,
    pub mark: RowMark,
}

impl MarkedRow {
    /// Whether it belongs to the long text of a place.
    pub fn is_long_text(&self, place: u16) -> bool
        ensures { result ≡ is_long_text place self.now }
    {
        match self.mark {
            RowMark::Long(other) => other == place,
            _ => false,
        }
    }

    /// Whether it belongs to the short text of a place.
    pub fn is_short_text(&self, place: u16) -> bool
        ensures { result ≡ is_short_text place self.now }
    {
        match self.mark {
            RowMark::Short(other) => other == place,
            _ => false,
        }
    }

    /// Whether it belongs to the inventory text of an object.
    pub fn is_name(&self, object: u16) -> bool
        ensures { result ≡ is_name object self.now }
    {
        match self.mark {
            RowMark::Name(other) => other == object,
            _ => false,
        }
    }

    /// Whether it is a way out of a place.
    pub fn is_way_from(&self, place: u16) -> bool
        ensures { result ≡ is_way_from place self.now }
    {
        match self.mark {
            RowMark::Way(other) => other == place,
            _ => false,
        }
    }

    /// Whether it is a word.
    pub fn is_word(&self) -> bool
        ensures { result ≡ is_word_row self.now }
    {
        match self.mark {
            RowMark::Word => true,
            _ => false,
        }
    }

    /// Whether it is a class whose greatest score isn't below this one.
    pub fn is_class_from(&self, score: u32) -> bool
        ensures { result ≡ is_class_from score self.now }
    {
        match self.mark {
            RowMark::Class(bound) => score <= u32::from(bound),
            _ => false,
        }
    }
}

/// Whether one of these rows belongs to the long text of a place.
pub fn any_long_text(rows: &[MarkedRow], place: u16) -> bool
    ensures { result ≡ list_any (is_long_text place) rows.now }
{
    rows.iter().any(|row| row.is_long_text(place))
}

/// Whether one of these rows belongs to the short text of a place.
pub fn any_short_text(rows: &[MarkedRow], place: u16) -> bool
    ensures { result ≡ list_any (is_short_text place) rows.now }
{
    rows.iter().any(|row| row.is_short_text(place))
}

/// Whether one of these rows belongs to the inventory text of an object.
pub fn any_name(rows: &[MarkedRow], object: u16) -> bool
    ensures { result ≡ list_any (is_name object) rows.now }
{
    rows.iter().any(|row| row.is_name(object))
}
