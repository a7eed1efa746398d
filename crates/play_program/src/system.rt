//! What a system gives a program, and a file of it that is replaced whole or not at all.

ghost use Rattle.std.specs.Prelude.{◌≡◌, ◌≢◌, ℕ, Bool, true, List, [], ◌∷◌, Option, Some, IfOk};
ghost use Rattle.std.specs.Prelude.{IfSome, OnErr, OnOk};
ghost use Rattle.std.specs.Result.{result_err};
ghost use Rattle.play_program.specs.Calls.{Becomes, Call, and_then, told_of};
ghost use Rattle.play_program.specs.Calls.Call.{Opens, Puts, Tells};

use crate::message::Message;
use std::io;
use std::io::{Read, Write};

/// What a system gives a program: files by their names, and a place for messages.
pub trait System {
    /// An open file.
    type File: Read + Drop;

    /// The bytes of the file of a name, if they are known.
    ghost bytes_of: { Self → List ℕ → Option (List ℕ) };

    /// The calls that were made, in order, if they are known.
    ghost calls: { Self → Option (List Call) };

    /// Whether two names are of one file, if that is known.
    ghost one_file: { Self → List ℕ → List ℕ → Option Bool };

    /// Whether two names are of one file, which they aren't if one of them is of none. It fails only
    /// if memory runs out.
    fn is_one_file(&self, one: &str, other: &str) -> io::Result<bool>
        ensures { IfOk result (λ same.
            IfSome (one_file self.now one.now other.now) (λ known. same ≡ known)) };

    /// Opens the file of a name.
    fn open(&mut self, file: &str) -> io::Result<Self::File>
        ensures file { IfOk result (λ opened.
            Self.File.remaining opened ≡ bytes_of self.old file.now) }
        ensures kept { bytes_of self.new ≡ bytes_of self.old }
        ensures call { calls self.new ≡ and_then (calls self.old) (Opens file.now ∷ []) };

    /// Puts bytes into the file of a name, all of them or none.
    fn put(&mut self, file: &str, bytes: &[u8]) -> io::Result<()>
        ensures call { calls self.new
            ≡ and_then (calls self.old) (Puts file.now bytes.now (result_err result) ∷ []) }
        ensures put { OnOk result (IfSome (bytes_of self.new file.now) (λ put. put ≡ bytes.now)) }
        ensures others { (name : List ℕ) → name ≢ file.now
            → one_file self.old file.now name ≢ Some true
            → bytes_of self.new name ≡ bytes_of self.old name }
        ensures failed { OnErr result (bytes_of self.new ≡ bytes_of self.old) };

    /// Shows the user a message, apart from the output.
    fn tell(&mut self, message: Message<'_>)
        ensures kept { bytes_of self.new ≡ bytes_of self.old }
        ensures call { calls self.new
            ≡ and_then (calls self.old) (Tells (told_of message.entry) ∷ []) };
}

/// A file that drafts may replace.
pub trait Target {
    /// What is written before the file is replaced.
    type Draft: Write + Drop;

    /// The bytes of the file, if they are known.
    ghost shown: { Self → Option (List ℕ) };

    /// An empty draft.
    fn begin(&mut self) -> io::Result<Self::Draft>
        ensures empty { IfOk result (λ draft.
            Becomes (shown self.old) (Self.Draft.contents draft) (Some [])) }
        ensures kept { shown self.new ≡ shown self.old };

    /// Puts a draft in the place of the file. If that fails the draft is gone.
    fn publish(&mut self, draft: Self::Draft) -> io::Result<()>
        ensures published { OnOk result (Becomes (shown self.old) (shown self.new)
            (Self.Draft.contents draft)) }
        ensures kept { OnErr result (shown self.new ≡ shown self.old) };

    /// Removes a draft.
    fn discard(&mut self, draft: Self::Draft)
        ensures kept { shown self.new ≡ shown self.old };
}

/// Replaces a file by these bytes. If that fails, the file is what it was.
pub fn replace<T: Target>(target: &mut T, bytes: &[u8]) -> io::Result<()>
    ensures whole { OnOk result
        (Becomes (T.shown target.old) (T.shown target.new) (Some bytes.now)) }
    ensures kept { OnErr result (T.shown target.new ≡ T.shown target.old) }
{
    let mut draft = target.begin()?;
    match draft.write_all(bytes) {
        Ok(()) => target.publish(draft),
        Err(reason) => {
            target.discard(draft);
            Err(reason)
        }
    }
}
