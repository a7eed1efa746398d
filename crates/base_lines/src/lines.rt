//! Lines of a text, and those that a log may have.

ghost use Rattle.std.specs.Prelude.{◌≡◌, ◌<◌, ◌≤◌, ◌==◌, [], ◌∷◌, length, IfSome, MatchOption};
ghost use Rattle.std.specs.Prelude.{MatchResult};
ghost use Rattle.std.specs.List.{position_or_len, prefix_len};
ghost use Rattle.std.specs.Str.Lines.{lines, strip_carriage_return};
ghost use Rattle.base_lines.specs.Line.{StartsWithFlaw, StartsWithLine, first_line, is_printable};

use crate::limits::is_long_line;
use crate::line::{LineFault, check_line, is_printable};
use memchr::memchr;

/// How many bytes come before the first line feed.
#[tactic(auto, using(crate::proofs::Feeds::feeds))]
fn line_len(text: &[u8]) -> usize
    ensures value { result ≡ position_or_len (λ b. b == 10) text.now }
    ensures within { result ≤ length text.now }
{
    memchr(b'\n', text).unwrap_or(text.len())
}

fn without_return(line: &[u8]) -> &[u8]
    ensures { result.now ≡ strip_carriage_return line.now }
{
    match line {
        [before @ .., b'\r'] => before,
        _ => line,
    }
}

/// The first line, without its end, and the text that follows it.
#[tactic(auto, using(crate::proofs::FirstLines::lines_of_first))]
pub fn split_line(text: &[u8]) -> Option<(&[u8], &[u8])>
    ensures value { MatchOption result (lines text.now ≡ [])
        (λ found. lines text.now ≡ found.0.now ∷ lines found.1.now) }
    ensures shorter { IfSome result (λ found. length found.1.now < length text.now) }
{
    let len = line_len(text);
    if len < text.len() {
        Some((without_return(&text[..len]), &text[len + 1..]))
    } else if text.is_empty() {
        None
    } else {
        Some((text, &[]))
    }
}

/// The first line of a text, without its end; it is empty if the text is.
pub fn first_line(text: &[u8]) -> &[u8]
    ensures { result.now ≡ first_line text.now }
{
    match split_line(text) {
        Some((line, _)) => line,
        None => &[],
    }
}

/// How many bytes come before the first that isn't printable.
fn printable_len(line: &[u8]) -> usize
    ensures value { result ≡ prefix_len is_printable line.now }
    ensures within { result ≤ length line.now }
{
    line.iter().take_while(|byte| is_printable(**byte)).count()
}

/// The first line of a text and what follows it, if a log may have the line, it has no tab, and
/// just a line feed ends it.
#[tactic(auto, using(crate::proofs::GoodLines::good_lines))]
fn split_good_line(text: &[u8]) -> Option<(&[u8], &[u8])>
    ensures { IfSome result (λ found. StartsWithLine text.now found.0.now found.1.now) }
{
    let len = printable_len(text);
    if len < text.len() && text[len] == b'\n' && !is_long_line(len) {
        Some((&text[..len], &text[len + 1..]))
    } else {
        None
    }
}

/// The first line of a text, without its end, and the text that follows it; or what is wrong with
/// the line, if a log may not have it.
#[tactic(auto, unfolding(crate::specs::Line::line_fault))]
pub fn split_log_line(text: &[u8]) -> Option<Result<(&[u8], &[u8]), LineFault>>
    ensures { MatchOption result (lines text.now ≡ []) (λ found. MatchResult found
        (λ good. StartsWithLine text.now good.0.now good.1.now)
        (λ flaw. StartsWithFlaw text.now flaw)) }
{
    // Most lines are looked at once; one with a tab or a carriage return, or a faulty one, twice.
    if let Some(found) = split_good_line(text) {
        return Some(Ok(found));
    }
    let (line, rest) = split_line(text)?;
    if let Err(flaw) = check_line(line) {
        return Some(Err(flaw));
    }
    Some(Ok((line, rest)))
}
