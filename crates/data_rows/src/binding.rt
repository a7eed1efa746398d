//! Bindings, read line by line.
ghost use Rattle.std.specs.Prelude.{◌≡◌, ◌<◌, ◌^◌, nat_eq, map, drop, length, option_map, Some};
ghost use Rattle.std.specs.Prelude.{None, if◌then◌else◌};
ghost use Rattle.std.specs.List.{starts_with};
ghost use Rattle.data_rows.specs.BindingLines.{two_fields, bound_within, binding_of, binding_row};
ghost use Rattle.data_rows.specs.BindingLines.{role_binding, place_binding, letters_binding};
ghost use Rattle.data_rows.specs.BindingGrammar.{position_of_name};
ghost use Rattle.data_rows.specs.Fields.{fields};
ghost use Rattle.data_rows.specs.Answers.{Answers};

use crate::error::{BindingFlaw, Cause};
use crate::field_rows::next_field;
use crate::number::natural;
use crate::place_role::PLACE_NAMES;
use crate::role::ROLE_NAMES;
use base_lines::numbers::{LAST_MESSAGE, LAST_PLACE};

/// What is bound: the message of a role, the place of a role, or how many letters count.
#[derive(Clone, Copy, Debug, PartialEq, Eq)]
pub enum Key {
    RoleKey(u16),
    PlaceKey(u16),
    LettersKey,
}

/// A key and its value.
#[derive(Clone, Copy, Debug, PartialEq, Eq)]
pub struct Binding {
    pub key: Key,
    pub value: u16,
}

/// The two fields of a line, if it has exactly two.
fn two_fields(line: &[u8]) -> Result<(&[u8], &[u8]), Cause>
    ensures { Answers (λ pair. (pair.0.now, pair.1.now)) result (two_fields (fields line.now)) }
{
    let Some((key, rest)) = next_field(line) else {
        return Err(Cause::BadBinding(BindingFlaw::Malformed));
    };
    let Some((value, rest)) = next_field(rest) else {
        return Err(Cause::BadBinding(BindingFlaw::Malformed));
    };
    match next_field(rest) {
        None => Ok((key, value)),
        Some(_) => Err(Cause::BadBinding(BindingFlaw::Malformed)),
    }
}

/// The value, if it is in the range.
fn bound_within(n: u32, low: u16, high: u16) -> Result<u16, Cause>
    ensures { result ≡ bound_within low high n }
{
    if u32::from(low) <= n && n <= u32::from(high) {
        Ok(n as u16)
    } else {
        Err(Cause::BadBinding(BindingFlaw::BadValue))
    }
}

/// The number of the name in a table of names.
fn position_of_name(names: &[&str], name: &[u8]) -> Option<u16>
    requires { length names.now < 2 ^ 16 }
    ensures { result ≡ position_of_name (map (λ known. known.now) names.now) name.now }
{
    for (number, known) in names.iter().enumerate() {
        if known.as_bytes() == name {
            return Some(number as u16);
        }
    }
    None
}

fn name_after<'a>(key: &'a [u8], prefix: &[u8]) -> Option<&'a [u8]>
    ensures { option_map (λ rest. rest.now) result
        ≡ (if starts_with nat_eq key.now prefix.now then Some (drop (length prefix.now) key.now)
        else None) }
{
    if key.starts_with(prefix) {
        Some(&key[prefix.len()..])
    } else {
        None
    }
}

fn role_binding(name: &[u8], n: u32) -> Result<Binding, Cause>
    ensures { Answers (λ binding. binding) result (role_binding name.now n) }
{
    let value = bound_within(n, 1, LAST_MESSAGE)?;
    let number = position_of_name(&ROLE_NAMES, name).ok_or(Cause::UnknownRole)?;
    Ok(Binding {
        key: Key::RoleKey(number),
        value,
    })
}

fn place_binding(name: &[u8], n: u32) -> Result<Binding, Cause>
    ensures { Answers (λ binding. binding) result (place_binding name.now n) }
{
    let value = bound_within(n, 1, LAST_PLACE)?;
    let number = position_of_name(&PLACE_NAMES, name).ok_or(Cause::UnknownRole)?;
    Ok(Binding {
        key: Key::PlaceKey(number),
        value,
    })
}

fn letters_binding(n: u32) -> Result<Binding, Cause>
    ensures { Answers (λ binding. binding) result (letters_binding n) }
{
    let value = bound_within(n, 5, 8)?;
    Ok(Binding {
        key: Key::LettersKey,
        value,
    })
}

/// What a key and a number bind.
fn binding_of(key: &[u8], n: u32) -> Result<Binding, Cause>
    ensures { Answers (λ binding. binding) result (binding_of key.now n) }
{
    if let Some(name) = name_after(key, b"msg.") {
        role_binding(name, n)
    } else if let Some(name) = name_after(key, b"place.") {
        place_binding(name, n)
    } else if key == b"num.letters".as_slice() {
        letters_binding(n)
    } else {
        Err(Cause::UnknownRole)
    }
}

/// The binding that a line states.
#[tactic(auto, unfolding(crate::specs::BindingLines::binding_row))]
pub fn binding_row(line: &[u8]) -> Result<Binding, Cause>
    ensures { Answers (λ binding. binding) result (binding_row line.now) }
{
    let (key, value) = two_fields(line)?;
    let n = natural(value).ok_or(Cause::BadBinding(BindingFlaw::Malformed))?;
    binding_of(key, n)
}
