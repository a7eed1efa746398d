//! The last numbers of what a cave numbers. Each stands here, and in the code of no other crate.

/// The last place. Places count from 1; 0 is nowhere.
pub const LAST_PLACE: u16 = 300;

/// The last object. Objects count from 1; 0 is no object.
pub const LAST_OBJECT: u16 = 100;

/// The last object that has texts, which are its name and what is seen of it.
pub const LAST_NAMED: u16 = 99;

/// The last prop of an object that has a text.
pub const LAST_PROP: u16 = 99;

/// The last action, which is a word of the player. Actions count from 1.
pub const LAST_ACTION: u16 = 99;

/// The last hint. Hints count from 1.
pub const LAST_HINT: u16 = 20;

/// The last message. Messages count from 1.
pub const LAST_MESSAGE: u16 = 499;
