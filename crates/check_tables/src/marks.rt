//! The set of what was covered.

ghost use Rattle.std.specs.Prelude.{◌≡◌, ◌==◌, ◌||◌, ◌<◌, ◌∷◌, [], ℕ, false, length, OnOk};
ghost use Rattle.std.specs.Prelude.{slice_index_or};
ghost use Rattle.check_tables.specs.Marks.{Notes, is_marked};

use std::alloc::{AllocError, Global};
use std::marker::Model;

/// What may be covered: a text of a kind, or a row of a table, by the number of that group and its
/// own.
#[derive(Clone, Copy, Debug, PartialEq, Eq)]
pub struct Mark {
    pub group: usize,
    pub number: usize,
}

/// A set of marks, in which one is made or found at its place.
#[derive(Drop)]
pub struct MarkSet {
    groups: Vec<Vec<bool>>,
}

impl Model for MarkSet {
    ghost use Rattle.std.specs.Prelude.{List, Bool, map};

    ghost Value = { List (List Bool) };

    ghost view = { λ s. map (λ group. group.items) s.groups.items };
}

/// Marks a number in a group.
#[tactic(auto, using(crate::proofs::Padding::padded))]
fn mark_number(group: &mut Vec<bool>, number: usize) -> Result<(), AllocError>
    ensures { OnOk result ((other : ℕ) → slice_index_or group.new.items other false
        ≡ (other == number || slice_index_or group.old.items other false)) }
{
    while group.len() <= number {
        group.push(false)?;
    }
    group[number] = true;
    Ok(())
}

impl MarkSet {
    /// The set in which nothing is marked.
    pub fn new(alloc: Global) -> MarkSet
        ensures { result ≡ [] }
    {
        MarkSet {
            groups: Vec::new(alloc),
        }
    }

    /// Whether it is marked.
    pub fn has(&self, mark: Mark) -> bool
        ensures { result ≡ is_marked self.now mark }
    {
        match self.groups.get(mark.group) {
            Some(group) => group.get(mark.number).copied().unwrap_or(false),
            None => false,
        }
    }

    /// Makes room for a group.
    #[tactic(auto, using(crate::proofs::Padding::with_empty))]
    fn open_group(&mut self, alloc: Global, group: usize) -> Result<(), AllocError>
        ensures room { OnOk result (group < length self.new) }
        ensures kept { OnOk result
            ((mark : Mark) → is_marked self.new mark ≡ is_marked self.old mark) }
    {
        while self.groups.len() <= group {
            self.groups.push(Vec::new(alloc))?;
        }
        Ok(())
    }

    /// Marks it.
    #[tactic(auto, using(crate::proofs::Noting::noted_before))]
    pub fn note(&mut self, alloc: Global, mark: Mark) -> Result<(), AllocError>
        ensures { OnOk result (Notes (mark ∷ []) self.old self.new) }
    {
        if self.has(mark) {
            return Ok(());
        }
        self.open_group(alloc, mark.group)?;
        mark_number(&mut self.groups[mark.group], mark.number)
    }
}
