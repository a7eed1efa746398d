//! The props of objects: the numbers that say what state an object is in, and that choose its text.

/// A treasure that hasn't been seen yet; from here down, what a closed cave hides.
pub const UNSEEN: i8 = -1;
/// What has been seen, if no other prop says more of it.
pub const SEEN: i8 = 0;
/// The rug under the dragon and the chain round the bear, as they are first seen.
pub const SEEN_FASTENED: i8 = 1;

/// The axe, for the taking.
pub const AXE_FREE: i8 = 0;
/// The axe beside the bear, out of reach.
pub const AXE_BY_BEAR: i8 = 1;

/// Fresh batteries.
pub const BATTERIES_FRESH: i8 = 0;
/// Worn-out batteries.
pub const BATTERIES_USED: i8 = 1;

/// The bear, wild and chained.
pub const BEAR_WILD: i8 = 0;
/// The bear, fed and still chained.
pub const BEAR_FED: i8 = 1;
/// The bear off its chain.
pub const BEAR_FREE: i8 = 2;
/// The bear, fallen with the bridge.
pub const BEAR_DEAD: i8 = 3;

/// The bird outside the cage.
pub const BIRD_FREE: i8 = 0;
/// The bird in the cage.
pub const BIRD_CAGED: i8 = 1;

/// The bottle with water in it.
pub const BOTTLE_OF_WATER: i8 = 0;
/// The empty bottle.
pub const BOTTLE_EMPTY: i8 = 1;
/// The bottle with oil in it.
pub const BOTTLE_OF_OIL: i8 = 2;

/// The chain, unlocked.
pub const CHAIN_UNLOCKED: i8 = 0;
/// The chain, locked to nothing but its wall.
pub const CHAIN_LOCKED: i8 = 2;

/// The chasm whose bridge is broken.
pub const CHASM_UNBRIDGED: i8 = 1;

/// The rusty door.
pub const DOOR_RUSTY: i8 = 0;
/// The oiled door.
pub const DOOR_OILED: i8 = 1;

/// The living dragon.
pub const DRAGON_ALIVE: i8 = 0;
/// The text of the dragon's death.
pub const DRAGON_DYING: i8 = 1;
/// The dead dragon.
pub const DRAGON_DEAD: i8 = 2;

/// The text of the eggs as they appear where they are at home.
pub const EGGS_APPEARING: i8 = 0;
/// The text of the eggs as they vanish.
pub const EGGS_VANISHING: i8 = 1;
/// The text of the eggs as they go from one place to another, both out of sight.
pub const EGGS_ELSEWHERE: i8 = 2;

/// The fissure without its bridge.
pub const FISSURE_OPEN: i8 = 0;

/// The locked grate.
pub const GRATE_LOCKED: i8 = 0;
/// The unlocked grate.
pub const GRATE_UNLOCKED: i8 = 1;

/// The lamp that doesn't burn. One that burns has `LAMP_ON`, which light depends on.
pub const LAMP_OFF: i8 = 0;

/// The text of the oyster that mentions the writing on it.
pub const OYSTER_WRITTEN_ON: i8 = 1;

/// The plant that wasn't watered; of its upper part, that it isn't there.
pub const PLANT_SMALL: i8 = 0;

/// The rug beside the dead dragon.
pub const RUG_FREE: i8 = 0;

/// The snake that the bird drove away.
pub const SNAKE_GONE: i8 = 1;

/// The text of the steps at their second place.
pub const STEPS_FROM_ABOVE: i8 = 1;

/// The troll that waits for its toll, or has it.
pub const TROLL_CALM: i8 = 0;
/// The troll that comes back at the next crossing.
pub const TROLL_RETURNING: i8 = 1;
/// The troll that is gone for good.
pub const TROLL_FLED: i8 = 2;

/// The whole vase.
pub const VASE_WHOLE: i8 = 0;
/// The text of the vase that lands on the pillow.
pub const VASE_ON_PILLOW: i8 = 1;
/// The broken vase.
pub const VASE_BROKEN: i8 = 2;
/// The text of the vase that breaks as it falls.
pub const VASE_BREAKING: i8 = 3;
