//! The objects that rules name by a word.
ghost use Rattle.std.specs.Prelude.{◌≡◌, ◌<◌};
ghost use Rattle.cave_words.specs.Named.{each_name, is_second, name_number, word_of_name};
ghost use Rattle.cave_words.specs.Named as defined;

/// An object that rules name by a word of the cave.
#[derive(Clone, Copy, Debug, PartialEq, Eq)]
pub enum Named {
    Keys,
    Lamp,
    Grate,
    Cage,
    Rod,
    Steps,
    Bird,
    Door,
    Pillow,
    Snake,
    Fissure,
    Tablet,
    Clam,
    Oyster,
    Magazine,
    Dwarf,
    Knife,
    Food,
    Bottle,
    Water,
    Oil,
    Plant,
    Axe,
    Mirror,
    Dragon,
    Chasm,
    Troll,
    Bear,
    Message,
    Vending,
    Batteries,
    Gold,
    Coins,
    Chest,
    Eggs,
    Trident,
    Vase,
    Emerald,
    Pyramid,
    Pearl,
    Rug,
    Spices,
    Chain,
    /// The object after the rod.
    SecondRod,
    /// The object after the plant.
    SecondPlant,
    /// The object after the troll.
    SecondTroll,
}

/// How many names there are.
pub const NAME_COUNT: usize = 46;

/// Hands all names, in their order, to a macro: the variant of each, and the word that names it.
macro_rules! all_names {
    ($write:ident) => {
        $write! {
            Keys b"KEYS" Lamp b"LAMP" Grate b"GRATE" Cage b"CAGE" Rod b"ROD" Steps b"STEPS"
            Bird b"BIRD" Door b"DOOR" Pillow b"PILLO" Snake b"SNAKE" Fissure b"FISSU"
            Tablet b"TABLE" Clam b"CLAM" Oyster b"OYSTE" Magazine b"MAGAZ" Dwarf b"DWARF"
            Knife b"KNIFE" Food b"FOOD" Bottle b"BOTTL" Water b"WATER" Oil b"OIL" Plant b"PLANT"
            Axe b"AXE" Mirror b"MIRRO" Dragon b"DRAGO" Chasm b"CHASM" Troll b"TROLL" Bear b"BEAR"
            Message b"MESSA" Vending b"VENDI" Batteries b"BATTE" Gold b"GOLD" Coins b"COINS"
            Chest b"CHEST" Eggs b"EGGS" Trident b"TRIDE" Vase b"VASE" Emerald b"EMERA"
            Pyramid b"PYRAM" Pearl b"PEARL" Rug b"RUG" Spices b"SPICE" Chain b"CHAIN"
            SecondRod b"ROD" SecondPlant b"PLANT" SecondTroll b"TROLL"
        }
    };
}

macro_rules! variants {
    ($($name:ident $word:literal)*) => {
        [$(Named::$name),*]
    };
}

macro_rules! words {
    ($($name:ident $word:literal)*) => {
        [$($word),*]
    };
}

/// Each name, in the order of their numbers.
pub const EACH_NAME: [Named; NAME_COUNT] = all_names!(variants);

/// The words that name them, in the same order.
pub const NAMES: [&[u8]; NAME_COUNT] = all_names!(words);

/// All names, in the order of their numbers.
#[tactic(auto, unfolding(crate::specs::Named::each_name))]
pub fn each_name() -> &'static [Named]
    ensures { result.now ≡ each_name }
{
    &EACH_NAME
}

impl Named {
    /// Its place in the tables of names, from 0.
    pub fn number(self) -> usize
        ensures value { result ≡ name_number self }
        ensures within { result < defined.NAME_COUNT }
    {
        self as usize
    }

    /// The word that names it, or that names the object before it.
    #[tactic(auto, unfolding(crate::specs::Named::word_of_name))]
    pub fn word(self) -> &'static [u8]
        ensures { result.now ≡ word_of_name self }
    {
        NAMES[self as usize]
    }

    /// Whether it is the object after the one that the word names.
    pub fn is_second(self) -> bool
        ensures { result ≡ is_second self }
    {
        matches!(
            self,
            Named::SecondRod | Named::SecondPlant | Named::SecondTroll
        )
    }
}
