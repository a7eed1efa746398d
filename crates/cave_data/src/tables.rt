//! Tables as they are while a database is read.
ghost use Rattle.std.specs.Prelude.{◌≡◌, ◌<◌, OnOk};
ghost use Rattle.std.specs.FinMap.{get, empty, insert};
ghost use Rattle.std.specs.List.{fold};
ghost use Rattle.cave_data.specs.Tables.{IsAbove, mark_bit};

use crate::slots::Slots;
use std::alloc::{AllocError, Global};
use std::marker::Model;

/// Values by number.
#[derive(Drop)]
pub struct ByNumber<T> {
    slots: Slots<T>,
}

impl<T> Model for ByNumber<T> {
    ghost use Rattle.std.specs.Ordering.{nat_cmp};
    ghost use Rattle.std.specs.FinMap as map;
    ghost use Rattle.std.specs.Coded.{coded_ℕ};
    ghost use Rattle.cave_data.specs.Slots.{by_number};

    ghost Value = { map.FinMap nat_cmp T };

    ghost coded = { map.code coded_ℕ T.code };

    ghost view = { λ t. by_number (λ x. x) t.slots.items.items };
}

#[tactic(auto, using(crate::proofs::SlotChanges::slot_changes))]
impl<T: Copy> ByNumber<T> {
    /// An empty table, which takes room for the numbers up to the last at once.
    pub fn with_room(alloc: Global, last: u16) -> Self
        ensures { result ≡ empty }
    {
        Self {
            slots: Slots::with_room(alloc, last),
        }
    }

    /// The value at the number.
    pub fn get(&self, number: u16) -> Option<T>
        ensures { result ≡ get self.now number }
    {
        self.slots.get(number).copied()
    }

    /// A number greater than that of any value.
    pub fn end(&self) -> usize
        ensures { IsAbove result self.now }
    {
        self.slots.items.len()
    }

    /// Replaces the value at the number.
    pub fn put(&mut self, number: u16, value: T) -> Result<(), AllocError>
        ensures { OnOk result (self.new ≡ insert self.old number value) }
    {
        self.slots.put(number, value)
    }
}

/// Sets the bit for each of the places.
#[tactic(auto, unfolding(crate::specs::Tables::mark_bit))]
pub fn mark(conditions: &mut ByNumber<u32>, bit: u16, places: &[u16]) -> Result<(), AllocError>
    requires { bit < 32 }
    ensures { OnOk result (conditions.new ≡ fold (mark_bit bit) conditions.old places.now) }
{
    for place in places {
        let bits = conditions.get(*place).unwrap_or(0);
        conditions.put(*place, bits | 1 << bit)?;
    }
    Ok(())
}
