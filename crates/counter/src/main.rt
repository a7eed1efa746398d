//! The smallest machine of one's own, with a program that edits its log by a script.
#![tactic(auto)]

mod counter;

use crate::counter::{Counter, closing_number};
use anyhow::Result;
use cave_replay::{Meter, Session};
use replay_scripts::Script;
use std::str;

const LOG: &[u8] = b"click\nclick\n# a rest\nclick\n";

const SCRIPT: &[u8] = b"# one click more\ninsert 1 click\nbegin\ndelete 0\ndelete 9\nend\n";

/// Applies each item of a script, and prints where its replay began and how many lines it played,
/// or which line of the script is refused.
fn edit(rt: &HostRuntime, session: &mut Session<Counter>, script: &Script) -> Result<()> {
    for item in &script.items {
        match session.edit_group(&item.edits, &mut Meter::new()) {
            Ok(report) => {
                let (line, from, played) = (item.line, report.from, report.played);
                println!(rt; "line {line}: from {from}, played {played}")?;
            }
            Err(fault) => {
                let (line, cause) = (item.line_of(fault.at), fault.cause);
                println!(rt; "line {line}: {cause}")?;
            }
        }
    }
    Ok(())
}

/// Prints each line of the log with what was said at it, and the number at the end.
fn tell(rt: &HostRuntime, session: &Session<Counter>) -> Result<()> {
    for played in session.played_lines() {
        let line = str::from_utf8(played.line)?;
        let (number, clicks) = (*played.piece, played.ticks);
        println!(rt; "{line}: {number} after {clicks}")?;
    }
    let number = closing_number(session);
    println!(rt; "closing number {number}")?;
    Ok(())
}

fn main(rt: HostRuntime) -> Result<()> {
    let seed = 9_998;
    let mut session = Session::open(rt.alloc(), Counter, seed, LOG, 2, &mut Meter::new())?;
    let script = Script::read(rt.alloc(), SCRIPT)?;
    edit(&rt, &mut session, &script)?;
    tell(&rt, &session)
}
