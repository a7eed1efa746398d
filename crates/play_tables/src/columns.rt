//! Columns that several tables have.

ghost use Rattle.std.specs.Prelude.{◌≡◌};
ghost use Rattle.base_text.specs.Text.{Tells};
ghost use Rattle.play_tables.specs.Columns.{ending_column, without_tab, without_tabs};

use base_text::Text;
use cave_world::Ending;
use play_state_text::words::ending_word;

fn without_tab(byte: u8) -> u8
    ensures { result ≡ without_tab byte }
{
    if byte == b'\t' { b' ' } else { byte }
}

/// Writes a line, with a blank in the place of each tab.
pub fn put_without_tabs(text: &mut Text, line: &[u8])
    ensures { Tells (without_tabs line.now) text.old text.new }
{
    for byte in line {
        text.put(&[without_tab(*byte)]);
    }
}

/// How the game has ended.
pub fn ending_column(ending: Option<Ending>) -> &'static str
    ensures { result.now ≡ ending_column ending }
{
    match ending {
        None => "-",
        Some(ended) => ending_word(ended),
    }
}
