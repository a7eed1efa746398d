//! Reading whole bindings.
ghost use Rattle.std.specs.Prelude.{◌≡◌, [], None, IfOk, IfErr};
ghost use Rattle.std.specs.Str.Lines.{lines};
ghost use Rattle.cave_data.specs.Faults.{first_binding_fault, FaultIs};
ghost use Rattle.data_rows.specs.BindingLines.{bindings_of};
ghost use Rattle.cave_data.specs.Steps.{bound_to, bind_new, bind_line, no_bindings, bindings_from};
ghost use Rattle.data_rows.specs.Answers.{Leaves};

use crate::database::error_at;
use crate::tables::ByNumber;
use base_lines::{is_skipped, split_line};
use data_rows::binding::{Binding, Key, binding_row};
use data_rows::place_role::PLACE_NAMES;
use data_rows::role::ROLE_NAMES;
use data_rows::{BindingFlaw, Cause, CaveError, FaultSite};
use std::alloc::Global;

const LAST_ROLE: u16 = ROLE_NAMES.len() as u16 - 1;

const LAST_PLACE_ROLE: u16 = PLACE_NAMES.len() as u16 - 1;

/// What bindings say.
#[derive(Drop)]
pub struct Bindings {
    pub roles: ByNumber<u16>,
    pub places: ByNumber<u16>,
    pub letters: Option<u16>,
}

impl Bindings {
    /// No bindings.
    pub fn new(alloc: Global) -> Self
        ensures { result ≡ no_bindings }
    {
        Self {
            roles: ByNumber::with_room(alloc, LAST_ROLE),
            places: ByNumber::with_room(alloc, LAST_PLACE_ROLE),
            letters: None,
        }
    }

    /// The value of the key.
    fn bound_to(&self, key: Key) -> Option<u16>
        ensures { result ≡ bound_to self.now key }
    {
        match key {
            Key::RoleKey(number) => self.roles.get(number),
            Key::PlaceKey(number) => self.places.get(number),
            Key::LettersKey => self.letters,
        }
    }

    /// Adds a binding, unless its key has a value.
    fn bind_new(&mut self, binding: Binding) -> Result<(), Cause>
        ensures { Leaves result self.new (bind_new self.old binding) }
    {
        if self.bound_to(binding.key).is_some() {
            return Err(Cause::BadBinding(BindingFlaw::Repeated));
        }
        match binding.key {
            Key::RoleKey(number) => {
                self.roles.put(number, binding.value)?;
                Ok(())
            }
            Key::PlaceKey(number) => {
                self.places.put(number, binding.value)?;
                Ok(())
            }
            Key::LettersKey => {
                self.letters = Some(binding.value);
                Ok(())
            }
        }
    }

    /// Takes the next line.
    #[tactic(auto, unfolding(crate::specs::Steps::bind_line))]
    fn bind_line(&mut self, line: &[u8]) -> Result<(), Cause>
        ensures { Leaves result self.new (bind_line self.old line.now) }
    {
        if is_skipped(line) {
            return Ok(());
        }
        let binding = binding_row(line)?;
        self.bind_new(binding)
    }
}

/// Reads bindings, or returns the fault of the first faulty line.
pub fn read_bindings(alloc: Global, text: &[u8]) -> Result<Bindings, CaveError>
    ensures right { IfOk result (λ _. first_binding_fault [] (lines text.now) ≡ None) }
    ensures found { IfOk result
        (λ bindings. bindings ≡ bindings_from (bindings_of (lines text.now))) }
    ensures fault { IfErr result (λ e. FaultIs e (first_binding_fault [] (lines text.now))) }
{
    let mut bindings = Bindings::new(alloc);
    let mut rest = text;
    let mut count = 0usize;
    while let Some((line, after)) = split_line(rest) {
        match bindings.bind_line(line) {
            Ok(()) => {}
            Err(cause) => return Err(error_at(cause, count + 1, FaultSite::Bindings)),
        }
        count += 1;
        rest = after;
    }
    Ok(bindings)
}
