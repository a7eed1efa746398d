//! What rules need of a cave: the cave, its words, and the objects that rules name.

ghost use Rattle.std.specs.Prelude.{◌≡◌};
ghost use Rattle.cave_words.specs.Lexicon.{IsLexiconOf};
ghost use Rattle.cave_words.specs.Meanings.{meaning};
ghost use Rattle.cave_words.specs.Words.{words_of};

use cave_data::Cave;
use cave_words::{Lexicon, Meaning, Named, Word, Words};
use cave_world::or_no_object;
use world_objects::Object;

/// The rules of a cave: what its database says, and the objects that rules name.
#[derive(Clone, Copy)]
pub struct Rules<'a> {
    pub cave: &'a Cave,
    pub lexicon: &'a Lexicon,
    pub ghost words: { IsLexiconOf cave.now lexicon.now },
}

impl<'a> Rules<'a> {
    ghost use Rattle.cave_world.specs.Called.{object_called};
    ghost use Rattle.turn_scene.specs.Scene.{cave_of, is_liquid_name, thing};
    ghost use Rattle.turn_scene.specs.Scene.{is_called, is_one_of};

    /// The rules of a cave, with the lexicon of that cave.
    pub fn of(cave: &'a Cave, lexicon: &'a Lexicon) -> Rules<'a>
        requires { IsLexiconOf cave.now lexicon.now }
        ensures { cave_of result ≡ cave.now }
    {
        Rules { cave, lexicon }
    }

    /// What a word means.
    pub fn meaning(&self, word: Word) -> Option<Meaning>
        ensures { result ≡ meaning (cave_of self.now) word }
    {
        self.lexicon.find(word)
    }

    /// The words of a line.
    #[inline(always)]
    pub fn words_of(&self, line: &[u8]) -> Words
        ensures { result ≡ words_of (cave_of self.now).letters line.now }
    {
        Words::of(line, self.lexicon.letters())
    }

    /// The object that the word of a name means.
    #[tactic(auto, unfolding(cave_world::specs::Called::object_called))]
    fn called(&self, name: Named) -> Object
        ensures { result ≡ object_called (cave_of self.now) name }
    {
        or_no_object(self.lexicon.named(self.cave, name))
    }

    fn is_liquid_name(name: Named) -> bool
        ensures { result ≡ is_liquid_name name }
    {
        matches!(name, Named::Water | Named::Oil)
    }

    /// The object of a name, or object 0 if the cave has none.
    #[tactic(auto, unfolding(crate::specs::Scene::thing))]
    pub fn thing(&self, name: Named) -> Object
        ensures { result ≡ thing (cave_of self.now) name }
    {
        let object = self.called(name);
        if Self::is_liquid_name(name) && object == self.called(Named::Bottle) {
            return Object::none();
        }
        object
    }

    /// Whether an object is the one of a name.
    #[tactic(auto, unfolding(crate::specs::Scene::is_called, crate::specs::Scene::thing))]
    pub fn is(&self, object: Object, name: Named) -> bool
        ensures { result ≡ is_called (cave_of self.now) object name }
    {
        // The bottle is looked at only if the word means the object.
        !object.is_none()
            && self.called(name) == object
            && !(Self::is_liquid_name(name) && object == self.called(Named::Bottle))
    }

    /// Whether an object is the one of one of the names.
    pub fn is_one_of(&self, object: Object, names: &[Named]) -> bool
        ensures { result ≡ is_one_of (cave_of self.now) object names.now }
    {
        names.iter().any(|name| self.is(object, *name))
    }
}
