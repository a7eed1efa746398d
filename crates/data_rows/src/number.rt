//! Fields of a line, and the numbers that they spell.
ghost use Rattle.std.specs.Prelude.{◌≡◌, ◌<◌, ◌^◌, option_map, IfSome};
ghost use Rattle.data_rows.specs.Fields.{natural, number_of_field, number_at};
ghost use Rattle.data_rows.specs.RowParts.{negative};

use base_lines::bytes::{skip_blanks, split_word};

/// A number of a database.
#[derive(Clone, Copy, Debug, PartialEq, Eq)]
pub enum Number {
    Natural(u32),
    /// How far it is below 0, which is at least 1.
    Negative(u32),
}

/// The number that 1 to 9 digits spell.
#[tactic(auto, unfolding(crate::specs::Fields::natural))]
pub fn natural(digits: &[u8]) -> Option<u32>
    ensures value { result ≡ natural digits.now }
    ensures small { IfSome result (λ n. n < 10 ^ 9) }
{
    if digits.is_empty() || digits.len() > 9 {
        return None;
    }
    let mut value = 0;
    for digit in digits {
        if !digit.is_ascii_digit() {
            return None;
        }
        value = 10 * value + u32::from(*digit - b'0');
    }
    Some(value)
}

/// The number that a field spells.
#[tactic(auto, unfolding(crate::specs::Fields::number_of_field))]
pub fn number_of_field(field: &[u8]) -> Option<Number>
    ensures { result ≡ number_of_field field.now }
{
    match field {
        [] => None,
        [b'-', digits @ ..] => natural(digits).map(negative),
        _ => natural(field).map(Number::Natural),
    }
}

/// The number `-below`.
fn negative(below: u32) -> Number
    ensures { result ≡ negative below }
{
    if below == 0 {
        Number::Natural(0)
    } else {
        Number::Negative(below)
    }
}

/// The number in the first field and what follows that.
#[tactic(auto, unfolding(crate::specs::Fields::number_at))]
pub fn number_at(bytes: &[u8]) -> Option<(Number, &[u8])>
    ensures { option_map (λ found. (found.0, found.1.now)) result ≡ number_at bytes.now }
{
    let (field, after) = split_word(skip_blanks(bytes));
    let number = number_of_field(field)?;
    Some((number, after))
}
