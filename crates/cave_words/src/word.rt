ghost use Rattle.std.specs.Prelude.{◌≡◌, ◌≤◌, IsTrue, bytes_eq};
ghost use Rattle.std.specs.List.{list_all};
ghost use Rattle.base_lines.specs.Bytes.{prefix_while, is_nonblank};
ghost use Rattle.cave_words.specs.Words.{letters_that_count, word_of, is_written};
ghost use Rattle.cave_words.specs.Words as defined;

use base_lines::bytes::split_word;
use std::hash::{Hash, Hasher};
use std::marker::Model;

/// The most letters of a word that can count.
pub const MAX_LETTERS: usize = 8;

/// How many letters count in the words that rules write out.
pub const NAME_LETTERS: u8 = 5;

/// A word as it is compared: in upper case, cut to the letters that count, and filled up with
/// spaces.
#[derive(Clone, Copy, Debug)]
pub struct Word {
    bytes: [u8; MAX_LETTERS],
}

impl Model for Word {
    ghost use Rattle.std.specs.Prelude.{ℕ, List};

    ghost Value = { List ℕ };

    ghost view = { λ w. w.bytes };

    ghost inverse = { λ bytes. record { bytes = bytes } };
}

/// Whether the bytes are the same, as one comparison.
fn are_same(one: [u8; MAX_LETTERS], other: [u8; MAX_LETTERS]) -> bool
    ensures { result ≡ bytes_eq one other }
{
    u64::from_le_bytes(one) == u64::from_le_bytes(other)
}

// A derive would compare each byte by itself.
impl PartialEq for Word {
    ghost use Rattle.std.specs.Prelude.{bytes_eq};
    ghost use Rattle.std.specs.Cmp.{partial_equiv_from_equiv};
    ghost use Rattle.std.specs.Cmp.Lexicographic.{nat_list_eq_equiv};

    ghost eq = { λ a b. bytes_eq a b };

    ghost laws = { partial_equiv_from_equiv nat_list_eq_equiv };

    fn eq(&self, other: &Word) -> bool {
        are_same(self.bytes, other.bytes)
    }
}

impl Eq for Word {
    ghost use Rattle.std.specs.Cmp.Lexicographic.{nat_list_eq_equiv};

    ghost laws = { nat_list_eq_equiv };
}

// A derive would feed each byte by itself.
impl Hash for Word {
    ghost use Rattle.std.specs.Prelude.{[], ◌∷◌};
    ghost use Rattle.std.proofs.Common.{rules};
    ghost use Rattle.std.specs.Cmp.Rules.{hashing};

    ghost hash_input = { λ w. w ∷ [] };

    ghost respects_eq = { Prim.search (hashing, rules) };

    fn hash<H: Hasher>(&self, state: &mut H) {
        state.write(&self.bytes);
    }
}

impl Word {
    /// The word that a run of nonblanks makes, if `letters` letters count.
    #[tactic(auto, using(crate::proofs::Padding::padding))]
    pub fn of(bytes: &[u8], letters: u8) -> Word
        requires { letters ≤ defined.MAX_LETTERS }
        ensures word { result ≡ word_of letters bytes.now }

        // So two words are equal exactly if the parts of them that count are.
        ensures letters { IsTrue (list_all is_nonblank bytes.now)
            → prefix_while is_nonblank result ≡ letters_that_count letters bytes.now }
    {
        Word::word_of(bytes, letters)
    }

    #[tactic(auto, unfolding(crate::specs::Words::word_of))]
    fn word_of(bytes: &[u8], letters: u8) -> Word
        requires { letters ≤ defined.MAX_LETTERS }
        ensures { result ≡ word_of letters bytes.now }
    {
        let cut = &bytes[..bytes.len().min(usize::from(letters))];
        let mut word = [b' '; MAX_LETTERS];
        for (i, byte) in cut.iter().enumerate() {
            word[i] = byte.to_ascii_uppercase();
        }
        Word { bytes: word }
    }

    /// The word's letters, without the spaces after them.
    pub fn letters(&self) -> &[u8]
        ensures { result.now ≡ prefix_while is_nonblank self.now }
    {
        let (letters, _) = split_word(&self.bytes);
        letters
    }

    /// Whether the first five letters are those of a word that a rule writes out.
    #[tactic(auto, unfolding(crate::specs::Words::is_written))]
    pub fn is(self, written: &[u8]) -> bool
        ensures { result ≡ is_written written.now self }
    {
        let count = NAME_LETTERS as usize;
        self.bytes[..count] == Word::of(written, NAME_LETTERS).bytes[..count]
    }
}
