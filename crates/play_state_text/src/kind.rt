//! The facts of a state: one table of their kinds, what each is called, and where a state has it.

ghost use Rattle.std.specs.Prelude.{◌≡◌};
ghost use Rattle.std.specs.List.{flat_map};
ghost use Rattle.base_text.specs.Text.{Tells};
ghost use Rattle.play_state_text.specs.Facts.{each_kind, is_same_in, kind_name};
ghost use Rattle.play_state_text.specs.StateText.{text_in};
ghost use Rattle.play_state_text.specs.Within.{AreFactsWithin};

use crate::value::{FactValue, Setting};
use base_text::Text;
use cave_world::State;

/// A kind of facts in the text of a state.
#[derive(Clone, Copy, Debug, PartialEq, Eq)]
pub enum FactKind {
    Here,
    Last,
    Older,
    Question,
    Ended,
    Lamp,
    LampWarned,
    FirstClock,
    SecondClock,
    Closing,
    Closed,
    Panic,
    UnseenTreasures,
    LostTreasures,
    Deaths,
    Objects,
    HalfCommand,
    HalfObject,
    LastObject,
    Brief,
    Details,
    Magic,
    Anger,
    Kills,
    Dwarves,
    Knife,
    Hints,
    Stream,
    Visits,
}

/// Hands all kinds, in the order of the text of a state, to a macro: of each its variant, what it
/// is called, and the field of a state that has its facts.
macro_rules! all_kinds {
    ($write:ident $($asked:ident)*) => {
        $write! {
            $($asked)*;
            Here "here" trail.here,
            Last "last" trail.last,
            Older "older" trail.older,
            Question "question" question,
            Ended "ended" ending,
            Lamp "lamp" lamp.charge,
            LampWarned "lamp warned" lamp.is_warned,
            FirstClock "first clock" closing.first_clock,
            SecondClock "second clock" closing.second_clock,
            Closing "closing" closing.is_closing,
            Closed "closed" closing.is_closed,
            Panic "panic" closing.is_panicking,
            UnseenTreasures "unseen treasures" tallies.unseen,
            LostTreasures "lost treasures" tallies.lost,
            Deaths "deaths" tallies.deaths,
            Objects "objects" objects,
            HalfCommand "half command" talk.verb,
            HalfObject "half object" talk.object,
            LastObject "last object" talk.last,
            Brief "brief" talk.is_brief,
            Details "details" talk.details,
            Magic "magic" talk.magic,
            Anger "anger" dwarves.anger,
            Kills "kills" dwarves.kills,
            Dwarves "dwarves" dwarves.each,
            Knife "knife" dwarves.knife,
            Hints "hints" hints,
            Stream "stream" stream,
            Visits "visits" visits,
        }
    };
}

macro_rules! variants {
    (; $($kind:ident $name:literal $($field:ident).+,)*) => {
        [$(FactKind::$kind),*]
    };
}

macro_rules! name {
    ($asked:ident; $($kind:ident $name:literal $($field:ident).+,)*) => {
        match $asked {
            $(FactKind::$kind => $name,)*
        }
    };
}

macro_rules! same_facts {
    ($asked:ident $before:ident $after:ident; $($kind:ident $name:literal $($field:ident).+,)*) => {
        match $asked {
            $(FactKind::$kind => $before.$($field).+ == $after.$($field).+,)*
        }
    };
}

macro_rules! lines {
    (
        $asked:ident $text:ident $setting:ident $state:ident;
        $($kind:ident $name:literal $($field:ident).+,)*
    ) => {
        match $asked {
            $(FactKind::$kind => $state.$($field).+.put($text, $setting, $name),)*
        }
    };
}

macro_rules! within {
    ($state:ident; $($kind:ident $name:literal $($field:ident).+,)*) => {
        $(FactValue::is_within(&$state.$($field).+);)*
    };
}

/// How many kinds stand in the text before what is at places.
pub(crate) const KINDS_BEFORE_PLACES: usize = 22;

/// All kinds, in the order of the text of a state.
pub fn each_kind() -> [FactKind; 29]
    ensures { result ≡ each_kind }
{
    all_kinds!(variants)
}

/// What a kind is called.
pub fn kind_name(kind: FactKind) -> &'static str
    ensures { result.now ≡ kind_name kind }
{
    all_kinds!(name kind)
}

/// Whether two states are the same in all facts of a kind.
pub fn is_same_in(kind: FactKind, before: &State, after: &State) -> bool
    ensures { result ≡ is_same_in kind before.now after.now }
{
    all_kinds!(same_facts kind before after)
}

/// Writes the lines of the fact of a kind.
#[tactic(auto, unfolding(crate::specs::StateText::text_in))]
fn put_fact(text: &mut Text, setting: Setting<'_>, state: &State, kind: FactKind)
    ensures { Tells (text_in setting.entry.cave.now setting.entry.begun.now state.now kind)
        text.old text.new }
{
    all_kinds!(lines kind text setting state)
}

/// Writes the lines of the facts of these kinds.
pub(crate) fn put_facts(text: &mut Text, setting: Setting<'_>, state: &State, kinds: &[FactKind])
    ensures { Tells (flat_map (text_in setting.entry.cave.now setting.entry.begun.now state.now) kinds.now)
        text.old text.new }
{
    for kind in kinds {
        put_fact(text, setting, state, *kind);
    }
}

/// The numbers of a state are within the range of written numbers. This is a law: it only goes over
/// the numbers, each of which gives its range.
pub(crate) fn are_facts_within(state: &State)
    ensures { AreFactsWithin state.now each_kind }
{
    all_kinds!(within state);
}
