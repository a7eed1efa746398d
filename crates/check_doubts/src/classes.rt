//! Classes that no score reaches, or that an earlier one takes, and a score without a class.

ghost use Rattle.std.specs.Prelude.{◌≡◌};
ghost use Rattle.turn_scene.specs.Scene.{cave_of};
ghost use Rattle.check_doubts.specs.Classes.{class_flaw, has_class, is_first_class, is_taken};
ghost use Rattle.check_doubts.specs.Classes.{scores_flaw};

use crate::flaw::CaveFlaw;
use cave_data::Cave;
use data_lines::MarkedRow;
use turn_ends::max_score;
use turn_scene::Rules;

/// Whether an earlier class has all scores up to this one.
pub(crate) fn is_taken(score: u32, before: &[MarkedRow]) -> bool
    ensures { result ≡ is_taken score before.now }
{
    before.iter().any(|row| row.is_class_from(score))
}

/// Whether no class comes before a row.
fn is_first_class(before: &[MarkedRow]) -> bool
    ensures { result ≡ is_first_class before.now }
{
    !is_taken(0, before)
}

/// Whether a score has a class.
fn has_class(cave: &Cave, score: u32) -> bool
    ensures { result ≡ has_class cave.now score }
{
    match cave.class_of(score) {
        Some(_) => true,
        None => false,
    }
}

/// What is doubtful about the greatest score and a class whose own scores no earlier one has.
fn scores_flaw(rules: &Rules<'_>, before: &[MarkedRow]) -> Option<CaveFlaw>
    ensures { result ≡ scores_flaw (cave_of rules.now) before.now }
{
    let greatest = max_score(rules.cave);
    if is_taken(greatest, before) {
        return Some(CaveFlaw::UnscoredClass);
    }
    if is_first_class(before) && !has_class(rules.cave, greatest) {
        return Some(CaveFlaw::Classless(greatest));
    }
    None
}

/// The second thing that is doubtful about a class.
pub(crate) fn class_flaw(rules: &Rules<'_>, bound: u32, before: &[MarkedRow]) -> Option<CaveFlaw>
    ensures { result ≡ class_flaw (cave_of rules.now) bound before.now }
{
    if is_taken(bound, before) {
        None
    } else {
        scores_flaw(rules, before)
    }
}
