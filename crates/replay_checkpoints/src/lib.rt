//! What an edit of a log changes in addition to the lines: checkpoints, and stretches of lists.
//!
//! A log is played line by line, and the states at some of its places are kept as checkpoints. An
//! edit plays the log again from the last checkpoint before it, and stops where the new play agrees
//! with the old one at an old checkpoint after the edit. This crate knows neither plays nor states:
//! a state is any `Copy` type, which is kept in a form that its owner chooses, and a line is any
//! type.
//!
//! - [`KeptState`] is a form in which a state is kept; [`Whole`] is one for any state.
//! - [`Checkpoints`] are always spaced: 0 is one, none is past the end, neighbours are at most
//!   `every` apart, and so are the last one and the end; two adjacent gaps together exceed
//!   `every`. So a log of n lines has at most `2 (n / (every + 1)) + 2` of them.
//! - [`Marks`] are the new checkpoints of a play that goes on: it advances from place to place,
//!   each at most `every` past the one before it, and the place reached last is kept only if the
//!   next one lies more than `every` past the last one kept. The state at it is changed in place.
//! - [`Checkpoints::meet`] and [`Checkpoints::replace_from`] take marks over. Earlier
//!   checkpoints stay where they are, and later ones move with the one that was met.
//! - [`Blocks`] is a list that lies in blocks, so putting a stretch in the place of another moves
//!   the items of only one of them.
//!   [`Items`] goes over its items.
//!
//! What an edit costs here, in addition to one `advance` for each place that is played:
//!
//! | Step | Cost |
//! |---|---|
//! | `last_to`, `first_from` | a binary search |
//! | `Checkpoints::marks` | one state kept once more, and one copied to go on from |
//! | `Marks::open` | the start kept and copied, and room for all places that can be kept |
//! | `Marks::advance` | a comparison; if the open place is kept, its state kept |
//! | `Marks::keep_open` | one state kept |
//! | `meet`, `replace_from` | a stretch for those passed; a pass over later ones that move |
//! | a stretch | item by item; a turn with the items after it that move |
//! | `Blocks::at` | a look at a block, and at those beside it until the item's one is found |
//! | `Blocks::open` | two such searches; the blocks of the stretch joined, and a long one cut |
//! | `Blocks::replace` | a stretch in one block; an addition for each block after it |
//!
//! A turn is a block move if either side of it is one item or has at most 4,096 bytes; otherwise it
//! exchanges items. A state that is kept in a Box stays where it is until its checkpoint goes: only
//! the Box moves, of 8 bytes.
//!
//! None of these takes memory except `Marks::open`, `Checkpoints::marks`, `advance`, `keep_open`,
//! `reserve`, `Blocks::open`, and what makes or copies a list.
#![tactic(auto)]

mod block;
mod blocks;
mod checkpoints;
mod items;
mod kept_state;
mod marks;
mod placed_states;
mod search;
mod shift;
mod stretch;

pub use blocks::Blocks;
pub use checkpoints::Checkpoints;
pub use items::Items;
pub use kept_state::{KeptState, Whole};
pub use marks::Marks;
pub use search::{first_from, last_to};
