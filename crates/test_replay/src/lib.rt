//! Tests of sessions: what an edit costs, and what is left if memory is refused, over a machine
//! that is no game and over a cave.
#![tactic(auto)]

#[cfg(test)]
mod costs;
#[cfg(test)]
mod edits;
#[cfg(test)]
mod machine;
#[cfg(test)]
mod refusals;
#[cfg(test)]
mod session;
