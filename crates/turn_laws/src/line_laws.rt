//! Laws about lines that change nothing, and about lines and seeds that play alike. Each is the
//! contract of a function that does nothing.

ghost use Rattle.turn_laws.specs.LineLaws.{CommentsChangeNothing, EqualSeedsPlayAlike};
ghost use Rattle.turn_laws.specs.LineLaws.{EqualWordsPlayAlike};

/// A comment or a blank line changes nothing, says nothing and is no turn.
#[tactic(auto, using(crate::proofs::LineLemmas::comments_change_nothing))]
pub fn comments_change_nothing()
    ensures { CommentsChangeNothing }
{}

/// Two lines of input that have the same words, by the letters that count, are the same turn.
#[tactic(auto, using(crate::proofs::LineLemmas::equal_words_play_alike))]
pub fn equal_words_play_alike()
    ensures { EqualWordsPlayAlike }
{}

/// Two seeds that leave the same remainder begin the same game, and do the same in a seed line.
pub fn equal_seeds_play_alike()
    ensures { EqualSeedsPlayAlike }
{}
