//! How facts are written, by their types.

ghost use Rattle.std.specs.Prelude.{◌≡◌, decimal, length};
ghost use Rattle.std.specs.Fmt.{signed_decimal};
ghost use Rattle.base_text.specs.Text.{Tells};
ghost use Rattle.play_state_text.specs.Facts.{Answer, Asked, Ended, Number, Signed, Thing};
ghost use Rattle.play_state_text.specs.Facts.{Thrown, Verb};
ghost use Rattle.play_state_text.specs.Within.{IsSigned, IsWide};
ghost use Rattle.play_state_text.specs.Words.{named_line, yes_or_no};

use crate::words::{end_words, put_knife_line, put_object_line, put_question_line, put_verb_line};
use base_text::Text;
use cave_data::Cave;
use cave_words::Stream;
use cave_world::lamp::Charge;
use cave_world::{Count, Ending, Knife, Magic, Question};
use world_objects::{Object, Objects, Place};

/// Where a state is told: its cave, and how the cave's objects begin.
#[derive(Clone, Copy)]
pub(crate) struct Setting<'a> {
    pub(crate) cave: &'a Cave,
    pub(crate) begun: &'a Objects,
}

/// What a fact may be.
pub(crate) trait FactValue {
    ghost use Rattle.play_state_text.specs.Facts.{StateFact};
    ghost use Rattle.play_state_text.specs.StateText.{fact_text};
    ghost use Rattle.play_state_text.specs.Within.{IsFactWithin};

    /// The fact that a value is.
    ghost fact: { Self → StateFact };

    /// Writes the lines of the fact that has this name.
    fn put(&self, text: &mut Text, setting: Setting<'_>, name: &str)
        ensures { Tells (fact_text setting.entry.cave.now setting.entry.begun.now name.now (fact self.now))
            text.old text.new };

    /// The numbers of the fact are within the range of written numbers.
    fn is_within(&self)
        ensures { IsFactWithin (fact self.now) };
}

/// Writes a line that ends with words.
#[tactic(auto, unfolding(crate::specs::Words::named_line))]
fn put_line(text: &mut Text, name: &str, words: &str)
    ensures { Tells (named_line name.now words.now) text.old text.new }
{
    write!(text, "{name} {words}\n");
}

/// Writes a line that ends with a number.
#[tactic(auto, unfolding(crate::specs::Words::named_line))]
pub(crate) fn put_number(text: &mut Text, name: &str, number: u32)
    ensures { Tells (named_line name.now (decimal number)) text.old text.new }
{
    write!(text, "{name} {number}\n");
}

/// Writes a line that ends with a number that may be below 0.
#[tactic(auto, unfolding(crate::specs::Words::named_line))]
pub(crate) fn put_signed(text: &mut Text, name: &str, number: i32)
    ensures { Tells (named_line name.now (signed_decimal number)) text.old text.new }
{
    write!(text, "{name} {number}\n");
}

/// The answer to a question of yes or no.
pub(crate) fn yes_or_no(answer: bool) -> &'static str
    ensures { result.now ≡ yes_or_no answer }
{
    if answer { "yes" } else { "no" }
}

/// An array has as many items as its type says.
pub(crate) fn has_all<T, const N: usize>(items: &[T; N])
    ensures { length items.now ≡ N }
{
    let _ = items;
}

fn is_clock_within(clock: i8)
    ensures { IsSigned clock }
{
    let _ = clock;
}

fn is_verb_within(verb: u16)
    ensures { IsWide verb }
{
    let _ = verb;
}

impl FactValue for Place {
    ghost fact = { λ place. Number place };

    fn put(&self, text: &mut Text, setting: Setting<'_>, name: &str) {
        put_number(text, name, u32::from(self.number()));
    }

    fn is_within(&self) {
        let _ = self.number();
    }
}

impl<const MOST: u16> FactValue for Count<MOST> {
    ghost fact = { λ count. Number count };

    fn put(&self, text: &mut Text, setting: Setting<'_>, name: &str) {
        put_number(text, name, u32::from(self.number()));
    }

    fn is_within(&self) {
        let _ = self.number();
    }
}

impl FactValue for Stream {
    ghost fact = { λ stream. Number stream };

    fn put(&self, text: &mut Text, setting: Setting<'_>, name: &str) {
        put_number(text, name, self.position());
    }

    fn is_within(&self) {
        let _ = self.position();
    }
}

impl FactValue for Charge {
    ghost fact = { λ charge. Signed charge };

    fn put(&self, text: &mut Text, setting: Setting<'_>, name: &str) {
        put_signed(text, name, self.turns());
    }

    fn is_within(&self) {
        let _ = self.turns();
    }
}

impl FactValue for i8 {
    ghost fact = { λ clock. Signed clock };

    fn put(&self, text: &mut Text, setting: Setting<'_>, name: &str) {
        put_signed(text, name, i32::from(*self));
    }

    fn is_within(&self) {
        is_clock_within(*self);
    }
}

impl FactValue for Magic {
    ghost fact = { λ magic. Signed magic };

    fn put(&self, text: &mut Text, setting: Setting<'_>, name: &str) {
        put_signed(text, name, i32::from(self.value()));
    }

    fn is_within(&self) {
        let _ = self.value();
    }
}

impl FactValue for bool {
    ghost fact = { λ answer. Answer answer };

    fn put(&self, text: &mut Text, setting: Setting<'_>, name: &str) {
        put_line(text, name, yes_or_no(*self));
    }

    fn is_within(&self) {}
}

impl FactValue for Option<Question> {
    ghost fact = { λ question. Asked question };

    fn put(&self, text: &mut Text, setting: Setting<'_>, name: &str) {
        put_question_line(text, name, *self);
    }

    fn is_within(&self) {
        if let Some(Question::Hint(hint) | Question::Take(hint)) = self {
            let _ = hint.number();
        }
    }
}

impl FactValue for Option<Ending> {
    ghost fact = { λ ending. Ended ending };

    fn put(&self, text: &mut Text, setting: Setting<'_>, name: &str) {
        put_line(text, name, end_words(*self));
    }

    fn is_within(&self) {}
}

impl FactValue for Option<u16> {
    ghost fact = { λ verb. Verb verb };

    fn put(&self, text: &mut Text, setting: Setting<'_>, name: &str) {
        put_verb_line(text, setting.cave, *self);
    }

    fn is_within(&self) {
        if let Some(verb) = self {
            is_verb_within(*verb);
        }
    }
}

impl FactValue for Object {
    ghost fact = { λ object. Thing object };

    fn put(&self, text: &mut Text, setting: Setting<'_>, name: &str) {
        put_object_line(text, setting.cave, name, *self);
    }

    fn is_within(&self) {
        let _ = self.number();
    }
}

impl FactValue for Knife {
    ghost fact = { λ knife. Thrown knife };

    fn put(&self, text: &mut Text, setting: Setting<'_>, name: &str) {
        put_knife_line(text, name, *self);
    }

    fn is_within(&self) {
        if let Knife::At(place) = self {
            let _ = place.number();
        }
    }
}
