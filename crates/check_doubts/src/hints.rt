//! Hints that ask by no message or give none, and actions without a word.

ghost use Rattle.std.specs.Prelude.{◌≡◌};
ghost use Rattle.check_doubts.specs.Hints.{gift_flaw, is_placed_hint, is_wordless, lacks_message};
ghost use Rattle.check_doubts.specs.Hints.{question_flaw};

use crate::flaw::{CaveFlaw, Subject};
use crate::messages::lacks_text;
use base_lines::numbers::LAST_ACTION;
use cave_data::Cave;
use data_rows::WORDS_PER_CLASS;

/// The first hint that is given at places.
const FIRST_PLACED_HINT: u16 = 4;

/// The words of actions come after this number, each of them its action's number later.
const ACTION_WORDS: u16 = 2 * WORDS_PER_CLASS;

/// Whether a hint is given at places.
pub(crate) fn is_placed_hint(hint: u16) -> bool
    ensures { result ≡ is_placed_hint hint }
{
    FIRST_PLACED_HINT <= hint
}

/// Whether a hint that is given at places has no message.
fn lacks_message(hint: u16, message: u16) -> bool
    ensures { result ≡ lacks_message hint message }
{
    is_placed_hint(hint) && message == 0
}

/// What is doubtful about the message by which a hint asks.
pub(crate) fn question_flaw(cave: &Cave, hint: u16, question: u16) -> Option<CaveFlaw>
    ensures { result ≡ question_flaw cave.now hint question }
{
    if lacks_text(cave, question) {
        return Some(CaveFlaw::Textless(Subject::Asking(hint), question));
    }
    if lacks_message(hint, question) {
        return Some(CaveFlaw::AsksNothing(hint));
    }
    None
}

/// What is doubtful about the message that a hint gives.
pub(crate) fn gift_flaw(cave: &Cave, hint: u16, text: u16) -> Option<CaveFlaw>
    ensures { result ≡ gift_flaw cave.now hint text }
{
    if lacks_text(cave, text) {
        return Some(CaveFlaw::Textless(Subject::Giving(hint), text));
    }
    if lacks_message(hint, text) {
        return Some(CaveFlaw::GivesNothing(hint));
    }
    None
}

/// Whether no word means an action.
pub(crate) fn is_wordless(cave: &Cave, action: u16) -> bool
    ensures { result ≡ is_wordless cave.now action }
{
    action <= LAST_ACTION && !cave.words().first_word(ACTION_WORDS + action).is_some()
}
