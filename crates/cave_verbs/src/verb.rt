//! The actions that have rules of their own.
ghost use Rattle.std.specs.Prelude.{◌≡◌};
ghost use Rattle.cave_verbs.specs.Verbs.{IsVerbOf, is_verb, verb_among, verb_number};

/// An action that has rules of its own, with its number in a database.
#[derive(Clone, Copy, Debug, PartialEq, Eq)]
pub enum Verb {
    Take = 1,
    Drop = 2,
    Say = 3,
    Open = 4,
    Nothing = 5,
    Lock = 6,
    On = 7,
    Off = 8,
    Wave = 9,
    Calm = 10,
    Kill = 12,
    Pour = 13,
    Eat = 14,
    Drink = 15,
    Rub = 16,
    Throw = 17,
    Quit = 18,
    Find = 19,
    Inventory = 20,
    Feed = 21,
    Fill = 22,
    Blast = 23,
    Score = 24,
    Foo = 25,
    Brief = 26,
    Read = 27,
    Break = 28,
    Wake = 29,
}

/// Each verb.
const EACH_VERB: [Verb; 28] = [
    Verb::Take,
    Verb::Drop,
    Verb::Say,
    Verb::Open,
    Verb::Nothing,
    Verb::Lock,
    Verb::On,
    Verb::Off,
    Verb::Wave,
    Verb::Calm,
    Verb::Kill,
    Verb::Pour,
    Verb::Eat,
    Verb::Drink,
    Verb::Rub,
    Verb::Throw,
    Verb::Quit,
    Verb::Find,
    Verb::Inventory,
    Verb::Feed,
    Verb::Fill,
    Verb::Blast,
    Verb::Score,
    Verb::Foo,
    Verb::Brief,
    Verb::Read,
    Verb::Break,
    Verb::Wake,
];

/// An action has no rules of its own.
#[derive(Clone, Copy, Debug, PartialEq, Eq)]
pub struct NoRules;

impl Verb {
    /// Its number in a database.
    pub fn number(self) -> u16
        ensures { result ≡ verb_number self }
    {
        self as u16
    }

    /// Whether it is the same verb.
    pub fn is(self, other: Verb) -> bool
        ensures { result ≡ is_verb self other }
    {
        self.number() == other.number()
    }
}

#[tactic(auto, unfolding(crate::specs::Verbs::verb_among))]
fn verb_among(verbs: &[Verb], number: u16) -> Option<Verb>
    ensures { result ≡ verb_among verbs.now number }
{
    verbs.iter().copied().find(|verb| verb.number() == number)
}

impl TryFrom<u16> for Verb {
    type Error = NoRules;

    ghost try_from_gives = { IsVerbOf };

    #[tactic(auto, unfolding(crate::specs::Verbs::verb_of))]
    fn try_from(number: u16) -> Result<Verb, NoRules> {
        verb_among(&EACH_VERB, number).ok_or(NoRules)
    }
}
