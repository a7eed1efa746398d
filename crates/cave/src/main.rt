//! Checks databases of caves, plays logs in them, edits logs by scripts, lists the texts that logs
//! never show, and draws maps.
#![tactic(auto)]

mod draft;
mod host;
mod replaced;
mod seen;

use crate::host::{Host, words};
use play_program::{Output, run_program};
use std::io;
use std::process::ExitCode;

/// The program: does what its words ask for.
fn main(rt: HostRuntime) -> ExitCode {
    let mut host = Host::new(&rt);
    let mut output = Output::of(io::writer(&rt));
    let status = run_program(rt.alloc(), &mut host, words(&rt), &mut output);
    ExitCode::from(status)
}
