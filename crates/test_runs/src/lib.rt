//! Tests of runs: their readers and writers, limits, a system in memory, and texts of faults that
//! no log shows.
#![tactic(auto)]

pub mod calls;
#[cfg(test)]
mod caves;
#[cfg(test)]
mod each_limit;
#[cfg(test)]
mod in_memory;
#[cfg(test)]
mod programs;
#[cfg(test)]
mod readers;
#[cfg(test)]
mod runs;
#[cfg(test)]
mod streams;
#[cfg(test)]
mod texts;
#[cfg(test)]
mod writers;
