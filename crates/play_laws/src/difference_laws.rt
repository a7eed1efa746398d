//! Laws about the kinds of facts that a row lists as different. Each is the contract of a function
//! that only cites others.

ghost use Rattle.play_laws.specs.ListedDifferences.{DifferencesAreListed, NoDifferenceIsADash};

use play_tables::laws::alike_states_are_the_same;

/// A row lists the kinds of facts in which two states differ, and no others, in their order.
pub fn differences_are_listed()
    ensures { DifferencesAreListed }
{}

/// It has a dash in their place exactly if the states are the same.
pub fn no_difference_is_a_dash()
    ensures { NoDifferenceIsADash }
{
    alike_states_are_the_same();
}
