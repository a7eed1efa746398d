//! What a score asks of a cave: the cave, and the two objects that it knows by their names.
ghost use Rattle.std.specs.Prelude.{◌≡◌};
ghost use Rattle.turn_scene.specs.Scene.{cave_of, thing};
ghost use Rattle.cave_words.specs.declared.named.Named.TheVariants as named;

use cave_data::Cave;
use cave_words::Named;
use cave_world::object_called;
use turn_scene::Rules;
use world_objects::Object;

/// A cave whose states are scored.
#[derive(Clone, Copy)]
pub struct Scorer<'a> {
    pub cave: &'a Cave,
    /// The chest, or object 0 if the cave has none.
    pub chest: Object,
    /// The magazine, or object 0 if the cave has none.
    pub magazine: Object,
    pub ghost chest_named: { chest ≡ thing cave.now named.Chest },
    pub ghost magazine_named: { magazine ≡ thing cave.now named.Magazine },
}

impl<'a> Scorer<'a> {
    ghost use Rattle.turn_ends.specs.Score.{scored_cave};

    /// The scorer of a cave whose lexicon is there.
    pub fn of(rules: &Rules<'a>) -> Scorer<'a>
        ensures { scored_cave result ≡ cave_of rules.now }
    {
        Scorer {
            cave: rules.cave,
            chest: rules.thing(Named::Chest),
            magazine: rules.thing(Named::Magazine),
        }
    }

    /// The scorer of a cave without a lexicon: its words are gone through.
    #[tactic(auto, unfolding(turn_scene::specs::Scene::thing))]
    pub fn in_cave(cave: &'a Cave) -> Scorer<'a>
        ensures { scored_cave result ≡ cave.now }
    {
        Scorer {
            cave,
            chest: object_called(cave, Named::Chest),
            magazine: object_called(cave, Named::Magazine),
        }
    }
}
