//! Laws about how many random numbers are drawn.

ghost use Rattle.play_laws.specs.DrawsMade.{CountedDrawsLead, DrawsAreCounted};

/// Draws that are made one after another are counted as that many, if they are fewer than the
/// numbers of the stream.
pub fn draws_are_counted()
    ensures { DrawsAreCounted }
{}

/// As many draws as are counted from one number of the stream to another lead there, and they are
/// fewer than the numbers of the stream.
pub fn counted_draws_lead()
    ensures { CountedDrawsLead }
{}
