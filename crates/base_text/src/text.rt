ghost use Rattle.std.specs.Prelude.{◌≡◌, [], true, false, MatchResult, IfSome, ◌||◌};
ghost use Rattle.base_text.specs.Text.{Tells};

use std::alloc::{AllocError, Global};
use std::fmt::Display;
use std::{fmt, mem};

/// Bytes that are written one after another, as far as memory is enough.
#[derive(Drop)]
pub struct Text {
    /// What was written.
    pub bytes: Vec<u8>,
    /// Whether memory ran out. Nothing is written after that.
    pub is_short: bool,
}

impl Text {
    /// A text without bytes.
    pub fn new(alloc: Global) -> Text
        ensures bytes { result.bytes.items ≡ [] }
        ensures enough { result.is_short ≡ false }
    {
        Text {
            bytes: Vec::new(alloc),
            is_short: false,
        }
    }

    /// A text that goes on after bytes, which it has until it gives them back.
    pub fn after(alloc: Global, bytes: &mut Vec<u8>) -> Text
        ensures bytes { result.bytes.items ≡ bytes.old.items }
        ensures enough { result.is_short ≡ false }
    {
        Text {
            bytes: mem::replace(bytes, Vec::new(alloc)),
            is_short: false,
        }
    }

    /// What memory is taken from.
    pub fn alloc(&self) -> Global {
        *self.bytes.allocator()
    }

    /// A text without bytes, beside this one.
    pub fn beside(&self) -> Text
        ensures bytes { result.bytes.items ≡ [] }
        ensures enough { result.is_short ≡ false }
    {
        Text::new(self.alloc())
    }

    /// Writes bytes.
    pub fn put(&mut self, bytes: &[u8])
        ensures { Tells bytes.now self.old self.new }
    {
        if !self.is_short {
            self.is_short = self.bytes.extend_from_slice(bytes).is_err();
        }
    }

    /// What `write!` calls.
    #[tactic(auto, using(crate::proofs::Calls::told_in_calls))]
    pub fn write_fmt<D: Display + Drop>(&mut self, words: D)
        ensures { IfSome (D.output words) (λ bytes. Tells bytes self.old self.new) }
    {
        let told = fmt::Write::write(self, words);
        if told.is_err() {
            self.is_short = true;
        }
    }

    /// Keeps that memory ran out for something that was to be written.
    pub fn fail(&mut self)
        ensures short { self.new.is_short ≡ true }
        ensures stays { self.new.bytes.items ≡ self.old.bytes.items }
    {
        self.is_short = true;
    }

    /// The bytes of a text beside this one. If memory ran out for it, this one is short too.
    pub fn bytes_of(&mut self, other: Text) -> Vec<u8>
        ensures bytes { result.items ≡ other.bytes.items }
        ensures both { self.new.is_short ≡ self.old.is_short || other.is_short }
        ensures enough { self.new.is_short ≡ false
            → (self.old.is_short ≡ false) × (other.is_short ≡ false) }
        ensures stays { self.new.bytes.items ≡ self.old.bytes.items }
    {
        self.is_short = self.is_short || other.is_short;
        other.bytes
    }

    /// The bytes, if memory was enough for all that was to be written.
    pub fn finish(self) -> Result<Vec<u8>, AllocError>
        ensures { MatchResult result
            (λ told. (self.is_short ≡ false) × (told.items ≡ self.bytes.items))
            (λ _. self.is_short ≡ true) }
    {
        if self.is_short {
            Err(AllocError)
        } else {
            Ok(self.bytes)
        }
    }

    /// Gives bytes back, with what was written after them.
    pub fn give_to(self, bytes: &mut Vec<u8>) -> Result<(), AllocError>
        ensures bytes { bytes.new.items ≡ self.bytes.items }
        ensures ended { MatchResult result
            (λ _. self.is_short ≡ false) (λ _. self.is_short ≡ true) }
    {
        let Text {
            bytes: told,
            is_short,
        } = self;
        *bytes = told;
        if is_short { Err(AllocError) } else { Ok(()) }
    }
}

impl fmt::Write for Text {
    ghost write_str_gives = { λ old words new. Tells words old new };

    fn write_str(&mut self, words: &str) -> fmt::Result {
        self.put(words.as_bytes());
        Ok(())
    }
}
