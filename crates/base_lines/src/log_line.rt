ghost use Rattle.std.specs.Prelude.{◌≡◌, IsTrue};
ghost use Rattle.std.specs.List.{list_all};
ghost use Rattle.base_lines.specs.Bytes.{is_digit};
ghost use Rattle.base_lines.specs.LogLine.{log_line, is_comment, is_skipped, seed_of, seed_in};
ghost use Rattle.base_lines.specs.LogLine.{IsLogLine};

use crate::bytes::{is_all_blank, number_of, skip_blanks, split_digits};
use crate::limits::{is_large_seed, is_long_number};

/// The byte that begins a comment.
const COMMENT_MARK: u8 = b'#';

/// What a line of a log is.
#[derive(Clone, Copy, Debug, PartialEq, Eq)]
pub enum LogLine {
    /// A line that begins with `#`.
    Comment,
    /// A line of blanks, or an empty one.
    Blank,
    /// A line `seed N`.
    Seed(u32),
    /// Any other line.
    Input,
}

impl LogLine {
    /// Returns what a line is.
    #[tactic(auto, using(crate::proofs::LogLines::kinds))]
    pub fn of(line: &[u8]) -> LogLine
        ensures value { result ≡ log_line line.now }
        ensures kind { IsLogLine line.now result }
        ensures only { (kind : LogLine) → IsLogLine line.now kind → kind ≡ result }
    {
        log_line(line)
    }
}

#[tactic(auto, unfolding(crate::specs::LogLine::log_line))]
fn log_line(line: &[u8]) -> LogLine
    ensures { result ≡ log_line line.now }
{
    if is_comment(line) {
        return LogLine::Comment;
    }
    if is_all_blank(line) {
        return LogLine::Blank;
    }
    match seed_of(line) {
        Some(seed) => LogLine::Seed(seed),
        None => LogLine::Input,
    }
}

/// Whether scripts and bindings pass over a line: a comment, or only blanks.
#[tactic(auto, unfolding(crate::specs::LogLine::is_skipped))]
pub fn is_skipped(line: &[u8]) -> bool
    ensures { result ≡ is_skipped line.now }
{
    is_comment(line) || is_all_blank(line)
}

fn is_comment(line: &[u8]) -> bool
    ensures { result ≡ is_comment line.now }
{
    line.first() == Some(&COMMENT_MARK)
}

/// The seed that a line names, or `None` if it is no seed line.
#[tactic(auto, unfolding(crate::specs::LogLine::seed_of))]
fn seed_of(line: &[u8]) -> Option<u32>
    ensures { result ≡ seed_of line.now }
{
    let rest = skip_blanks(line).strip_prefix(b"seed ")?;
    let (digits, after) = split_digits(rest);
    seed_in(digits, after)
}

/// The seed that digits write, if only blanks follow them.
#[tactic(auto, unfolding(crate::specs::LogLine::seed_in))]
fn seed_in(digits: &[u8], after: &[u8]) -> Option<u32>
    requires { IsTrue (list_all is_digit digits.now) }
    ensures { result ≡ seed_in digits.now after.now }
{
    if digits.is_empty() || is_long_number(digits.len()) || !is_all_blank(after) {
        return None;
    }
    let number = number_of(digits);
    if is_large_seed(number) {
        return None;
    }
    Some(number as u32)
}
