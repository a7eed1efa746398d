ghost use Rattle.std.specs.Prelude.{◌≡◌};
ghost use Rattle.replay_checkpoints.specs.Blocks.{items_in};

use crate::block::Block;
use std::marker::Model;

/// The items of a list in blocks, one after another.
#[derive(Drop)]
pub struct Items<'a, T> {
    block: &'a [T],
    rest: &'a [Block<T>],
}

impl<'a, T> Model for Items<'a, T> {
    ghost use Rattle.std.specs.Prelude.{List, ◌++◌};
    ghost use Rattle.replay_checkpoints.specs.Blocks.{items_in};

    ghost Value = { List T };

    ghost view = { λ items. items.block.now ++ items_in items.rest.now };
}

impl<'a, T> Items<'a, T> {
    /// The items of all these blocks.
    pub(crate) fn of(blocks: &'a [Block<T>]) -> Self
        ensures { result ≡ items_in blocks.now }
    {
        Items {
            block: &[],
            rest: blocks,
        }
    }
}

impl<'a, T> Iterator for Items<'a, T> {
    ghost use Rattle.std.specs.Iterator.{YieldsFirstRef, item_count};

    type Item = &'a T;

    ghost next_gives = { YieldsFirstRef (λ items. items) };

    ghost remaining = { item_count (λ items. items) };

    fn next(&mut self) -> Option<&'a T> {
        'blocks: loop {
            match self.block.split_first() {
                Some((item, rest)) => {
                    self.block = rest;
                    return Some(item);
                }
                None => {}
            }
            let (block, rest) = self.rest.split_first()?;
            self.block = &block.items;
            self.rest = rest;
        }
    }
}
