//! The words of a cave with what they mean. Looking one up neither goes through the rows nor takes
//! memory.
ghost use Rattle.std.specs.Prelude.{◌≡◌, ◌≤◌, map, option_copied, IfOk};
ghost use Rattle.cave_data.specs.CaveView.{CaveView};
ghost use Rattle.cave_words.specs.Meanings.{meaning, meaning_in};
ghost use Rattle.cave_words.specs.Lexicon.{meanings_in, IsIndexOf};
ghost use Rattle.cave_words.specs.Named.{object_of_word, object_named};
ghost use Rattle.cave_words.specs.Words.{MAX_LETTERS};
ghost use Rattle.cave_words.specs.Words as defined;

use crate::meaning::{Class, Meaning};
use crate::meanings::Meanings;
use crate::named::{EACH_NAME, NAME_COUNT, Named};
use crate::walked::object_by_name;
use crate::word::{NAME_LETTERS, Word};
use cave_data::{Cave, WordTable};
use indexmap::IndexMap;
use std::alloc::{AllocError, Global};
use std::marker::Model;

/// What each word of a cave means.
#[derive(Drop)]
pub struct Lexicon {
    letters: u8,
    words: IndexMap<Word, Meanings>,
    names: [Option<u16>; NAME_COUNT],
}

impl Model for Lexicon {
    ghost use Rattle.std.specs.Prelude.{◌≤◌};
    ghost use Rattle.cave_words.specs.Lexicon.{LexiconView};
    ghost use Rattle.cave_words.specs.Words.{MAX_LETTERS};
    ghost use Rattle.cave_words.specs.Words as defined;

    ghost Value = { LexiconView };

    ghost view = { λ l. record { letters = l.letters; words = l.words.entries; names = l.names } };

    ghost invariant = { λ l. (defined.NAME_LETTERS ≤ l.letters) × (l.letters ≤ MAX_LETTERS) };
}

impl Lexicon {
    ghost use Rattle.cave_words.specs.Lexicon.{IsLexiconOf, find_word, find_in_class};

    /// The lexicon of a cave.
    pub fn build(alloc: Global, cave: &Cave) -> Result<Lexicon, AllocError>
        ensures { IfOk result (IsLexiconOf cave.now) }
    {
        let letters = cave.letters();
        let rows = cave.words();
        let words = index(alloc, rows, letters)?;
        let names = if letters == NAME_LETTERS {
            objects_of_names(&words)
        } else {
            objects_of_names(&index(alloc, rows, NAME_LETTERS)?)
        };
        Ok(Lexicon {
            letters,
            words,
            names,
        })
    }

    /// How many letters of a word count.
    pub fn letters(&self) -> u8
        ensures value { result ≡ self.now.letters }
        ensures fewest { defined.NAME_LETTERS ≤ result }
        ensures most { result ≤ MAX_LETTERS }
    {
        self.letters
    }

    /// What a word means: what its first row in the cave says.
    #[tactic(auto, using(crate::proofs::Lexicons::finds), unfolding(crate::specs::Lexicon::find_word))]
    pub fn find(&self, word: Word) -> Option<Meaning>
        ensures find_word { result ≡ find_word self.now word }
        ensures meaning { (cave : CaveView) → IsLexiconOf cave self.now
            → result ≡ meaning cave word }
    {
        Some(look_at(&self.words, word)?.first)
    }

    /// What a word means in a class: what its first row of that class in the cave says.
    #[tactic(auto, using(crate::proofs::Lexicons::finds_in), unfolding(crate::specs::Lexicon::find_in_class))]
    pub fn find_in(&self, word: Word, class: Class) -> Option<Meaning>
        ensures find_word { result ≡ find_in_class self.now word class }
        ensures meaning { (cave : CaveView) → IsLexiconOf cave self.now
            → result ≡ meaning_in cave word class }
    {
        look_at(&self.words, word)?.in_class(class)
    }

    /// The object of a name that rules write out. The cave is that of the lexicon.
    #[tactic(auto, using(crate::proofs::Lexicons::found_object_means))]
    pub fn named(&self, cave: &Cave, name: Named) -> Option<u16>
        requires { IsLexiconOf cave.now self.now }
        ensures { result ≡ object_named cave.now name }
    {
        self.names[name.number()]
    }
}

/// The object that a word names, by its first five letters. The index has words with this many
/// letters.
#[tactic(auto, using(crate::proofs::Lexicons::object_of_word_means))]
fn object_of_word(index: &IndexMap<Word, Meanings>, written: &[u8]) -> Option<u16>
    ensures { (cave : CaveView) → IsIndexOf defined.NAME_LETTERS cave.words index.now.entries
        → result ≡ object_of_word cave written.now }
{
    let word = Word::of(written, NAME_LETTERS);
    let object = look_up(index, word)?.in_class(Class::Object)?;
    Some(object.number)
}

/// The object of a name. The index has words of five letters.
#[tactic(auto, unfolding(crate::specs::Named::object_named))]
fn object_named(index: &IndexMap<Word, Meanings>, name: Named) -> Option<u16>
    ensures { (cave : CaveView) → IsIndexOf defined.NAME_LETTERS cave.words index.now.entries
        → result ≡ object_named cave name }
{
    object_by_name(object_of_word(index, name.word()), name)
}

/// The object of each name, by the numbers of the names. The index has words of five letters.
fn objects_of_names(index: &IndexMap<Word, Meanings>) -> [Option<u16>; NAME_COUNT]
    ensures { (cave : CaveView) → IsIndexOf defined.NAME_LETTERS cave.words index.now.entries
        → result ≡ map (object_named cave) EACH_NAME }
{
    let mut objects = [None; NAME_COUNT];
    for (i, &name) in EACH_NAME.iter().enumerate() {
        objects[i] = object_named(index, name);
    }
    objects
}

/// A reference to the meanings of a word.
fn look_at(index: &IndexMap<Word, Meanings>, word: Word) -> Option<&Meanings>
    ensures { option_copied result ≡ meanings_in index.now.entries word }
{
    index.get(&word)
}

fn look_up(index: &IndexMap<Word, Meanings>, word: Word) -> Option<Meanings>
    ensures { result ≡ meanings_in index.now.entries word }
{
    look_at(index, word).copied()
}

/// The meanings of these words, if this many letters count.
fn index(
    alloc: Global,
    words: &WordTable,
    letters: u8,
) -> Result<IndexMap<Word, Meanings>, AllocError>
    requires { letters ≤ MAX_LETTERS }
    ensures { IfOk result (λ index. IsIndexOf letters words.now index.entries) }
{
    let count = words.len();
    let mut index = IndexMap::with_capacity(alloc, count)?;
    for i in 0..count {
        let row = words.row(i);
        let word = Word::of(row.word, letters);
        let known = look_up(&index, word);
        let meanings = Meanings::with(known, Meaning::of(row.number));
        index.insert(word, meanings)?;
    }
    Ok(index)
}
