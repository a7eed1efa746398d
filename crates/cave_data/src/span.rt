//! Where texts are in a store.
ghost use Rattle.std.specs.Prelude.{◌≡◌, ◌++◌, ◌∷◌, [], OnOk, OnErr};

use std::alloc::AllocError;

/// Where in its store a text is.
#[derive(Clone, Copy)]
pub struct TextSpan {
    pub start: u32,
    pub len: u32,
}

/// A number, and where its text is.
#[derive(Clone, Copy)]
pub struct NumberedSpan {
    pub number: u16,
    pub span: TextSpan,
}

/// Adds a row at the end. The first row takes room for this many.
pub fn add_row(
    rows: &mut Vec<NumberedSpan>,
    room: usize,
    row: NumberedSpan,
) -> Result<(), AllocError>
    ensures ok { OnOk result (rows.new.items ≡ rows.old.items ++ row ∷ []) }
    ensures err { OnErr result (rows.new.items ≡ rows.old.items) }
{
    if rows.is_empty() {
        rows.reserve_exact(room)?;
    }
    rows.push(row)?;
    Ok(())
}
