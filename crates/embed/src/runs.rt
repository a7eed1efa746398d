//! Runs of the program over texts in memory, as it does them over files.

use crate::boathouse::{BINDINGS, DATABASE, LOG};
use crate::telling::print_text;
use anyhow::Result;
use cave_play::{CaveReaders, EditView, Editing, Inputs, run_edit};
use play_program::{CoverAsked, CoverView, TextView, run_cover};
use std::fs::File;
use std::str;

/// Edits the log by the script in a file, and prints what each of its items replayed, or why it is
/// refused.
pub fn tell_reports(rt: &HostRuntime, script: &str) -> Result<()> {
    let mut inputs = Inputs {
        cave: CaveReaders {
            database: DATABASE,
            bindings: BINDINGS,
        },
        log: LOG,
        script: File::open(rt, script)?,
    };
    let editing = Editing {
        seed: 0,
        every: 1,
        view: EditView::Reports,
        strict: false,
        guarded: false,
    };
    let mut text = Vec::new(rt.alloc());
    run_edit(rt.alloc(), &mut inputs, editing, None, &mut text)?;
    print_text(rt, &text)
}

/// Prints how many texts of the cave the log shows: those of places and objects.
pub fn tell_coverage(rt: &HostRuntime) -> Result<()> {
    let mut cave = CaveReaders {
        database: DATABASE,
        bindings: BINDINGS,
    };
    let asked = CoverAsked {
        seed: 0,
        view: CoverView::Said(TextView::Counts),
        known: "",
    };
    let mut known: &[u8] = b"";
    let mut logs = [LOG];
    let mut text = Vec::new(rt.alloc());
    run_cover(
        rt.alloc(),
        &mut cave,
        &mut known,
        &mut logs,
        &asked,
        &mut text,
    )
    .map_err(|it| it.fault)?;
    for line in str::from_utf8(&text)?.lines().take(4) {
        println!(rt; "{line}")?;
    }
    Ok(())
}
