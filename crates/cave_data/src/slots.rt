//! A table with a slot for each number, in which looking up takes one step.
ghost use Rattle.std.specs.Prelude.{◌≡◌, ◌<◌, [], Some, option_map, OnOk, OnErr, vec_len};
ghost use Rattle.cave_data.specs.Slots.{slot, SameSlots, ChangesSlot};

use std::alloc::{AllocError, Global};

/// Values by number, and how many numbers get room when the first value is set.
#[derive(Drop)]
pub struct Slots<T> {
    pub items: Vec<Option<T>>,
    room: usize,
}

impl<T: Drop> Slots<T> {
    /// An empty table, which takes room for the numbers up to the last at once.
    pub fn with_room(alloc: Global, last: u16) -> Self
        ensures { result.items.items ≡ [] }
    {
        Self {
            items: Vec::new(alloc),
            room: last as usize + 1,
        }
    }

    /// The value at the number.
    pub fn get(&self, number: u16) -> Option<&T>
        ensures { option_map (λ x. x.now) result ≡ slot self.now.items.items number }
    {
        self.items.get(number as usize)?.as_ref()
    }

    /// Makes a slot for the number.
    fn reach(&mut self, number: u16) -> Result<(), AllocError>
        ensures same { SameSlots self.old.items.items self.new.items.items }
        ensures room { OnOk result (number < vec_len self.new.items) }
    {
        if self.items.is_empty() {
            self.items.reserve_exact(self.room)?;
        }
        while self.items.len() <= number as usize {
            self.items.push(None)?;
        }
        Ok(())
    }

    /// Replaces the value at the number.
    pub fn put(&mut self, number: u16, value: T) -> Result<(), AllocError>
        ensures ok { OnOk result
            (ChangesSlot self.old.items.items self.new.items.items number (Some value)) }
        ensures err { OnErr result (SameSlots self.old.items.items self.new.items.items) }
    {
        self.reach(number)?;
        self.items[number as usize] = Some(value);
        Ok(())
    }
}
