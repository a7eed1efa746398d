//! Reading a whole database.
ghost use Rattle.std.specs.Prelude.{◌≡◌, [], None, IfOk, IfErr};
ghost use Rattle.std.specs.Str.Lines.{lines};
ghost use Rattle.cave_data.specs.Faults.{FaultIs, error_at};
ghost use Rattle.cave_data.specs.Steps.{first_fault, site_of_fault, tables_of};
ghost use Rattle.data_rows.specs.Grammar.{entries};

use crate::reader::{DatabaseReader, Tables};
use base_lines::split_line;
use data_rows::{Cause, CaveError, FaultSite, Position};
use std::alloc::Global;

/// The part of a database that a position is in.
fn site_of_fault(position: Position) -> FaultSite
    ensures { result ≡ site_of_fault position }
{
    match position {
        Position::Inside(section) => FaultSite::Section(section),
        Position::Outside | Position::After => FaultSite::Database,
    }
}

/// The fault of the line, or out of memory.
pub fn error_at(cause: Cause, line: usize, site: FaultSite) -> CaveError
    ensures { result ≡ error_at cause line site }
{
    match cause {
        Cause::Memory => CaveError {
            cause,
            line: 0,
            site: FaultSite::Database,
        },
        _ => CaveError { cause, line, site },
    }
}

// Tables are dropped by a call, and not at the end of a block, because then the checker goes
// through all that they have just once.

/// The tables of a database.
pub fn read_database(alloc: Global, database: &[u8]) -> Result<Tables, CaveError>
    ensures right { IfOk result (λ _. first_fault [] (lines database.now) ≡ None) }
    ensures found { IfOk result (λ tables. tables ≡ tables_of (entries (lines database.now))) }
    ensures fault { IfErr result (λ e. FaultIs e (first_fault [] (lines database.now))) }
{
    let mut reader = DatabaseReader::new(alloc);
    let mut rest = database;
    let mut count = 0usize;
    while let Some((line, after)) = split_line(rest) {
        let position = reader.position;
        match reader.advance(alloc, line) {
            Ok(()) => {}
            Err(cause) => {
                drop(reader);
                return Err(error_at(cause, count + 1, site_of_fault(position)));
            }
        }
        count += 1;
        rest = after;
    }
    let DatabaseReader { position, tables } = reader;
    match position {
        Position::After => Ok(tables),
        Position::Inside(_) | Position::Outside => {
            drop(tables);
            Err(error_at(Cause::NoEnd, count + 1, site_of_fault(position)))
        }
    }
}
