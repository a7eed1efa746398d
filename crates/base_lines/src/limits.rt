//! How large inputs, logs and numbers may be: each limit of what users hand in stands here once.

ghost use Rattle.std.specs.Prelude.{◌≡◌, ◌==◌, ◌||◌, ◌+◌, ◌-◌, ◌*◌, min, nat_le, nat_lt};
ghost use Rattle.base_lines.specs.Limits as defined;
ghost use Rattle.base_lines.specs.Limits.{max_script_number};

/// The most bytes of an input: a database, its bindings, a log, a script of edits.
pub const MAX_INPUT_BYTES: usize = 1_048_576;

/// The most bytes of a line of a log.
const MAX_LINE_BYTES: usize = 255;

/// The most lines of a log.
pub const MAX_LOG_LINES: u32 = 65_535;

/// The greatest seed.
pub const MAX_SEED: u32 = 2_147_483_647;

/// The greatest distance of checkpoints, in lines.
pub const MAX_EVERY: u32 = 10_000;

/// The distance of checkpoints in lines, if none is asked for.
pub const USUAL_EVERY: u32 = 50;

/// The most digits of a number in a log, in a script and on the command line.
const MAX_DIGITS: usize = 10;

/// Whether an input with this many bytes is too large.
pub fn is_large_input(bytes: usize) -> bool
    ensures { result ≡ nat_lt defined.MAX_INPUT_BYTES bytes }
{
    bytes > MAX_INPUT_BYTES
}

/// Whether a line with this many bytes is too long for a log.
pub fn is_long_line(bytes: usize) -> bool
    ensures { result ≡ nat_lt defined.MAX_LINE_BYTES bytes }
{
    bytes > MAX_LINE_BYTES
}

/// Whether a log with this many lines is too long.
pub fn is_long_log(lines: usize) -> bool
    ensures { result ≡ nat_lt defined.MAX_LOG_LINES lines }
{
    lines > MAX_LOG_LINES as usize
}

/// Whether a log with this many lines has no room for one more.
pub fn is_full_log(lines: usize) -> bool
    ensures { result ≡ nat_le defined.MAX_LOG_LINES lines }
{
    lines >= MAX_LOG_LINES as usize
}

/// Whether a number is too large for a seed.
pub fn is_large_seed(number: u64) -> bool
    ensures { result ≡ nat_lt defined.MAX_SEED number }
{
    number > u64::from(MAX_SEED)
}

/// Whether a session may not have this distance of checkpoints, in lines.
pub fn is_bad_every(lines: u32) -> bool
    ensures { result ≡ (lines == 0 || nat_lt defined.MAX_EVERY lines) }
{
    lines == 0 || lines > MAX_EVERY
}

/// Whether a number with this many digits is too long.
pub fn is_long_number(digits: usize) -> bool
    ensures { result ≡ nat_lt defined.MAX_DIGITS digits }
{
    digits > MAX_DIGITS
}

/// A number of a script with one more digit, whose byte is given, or the greatest number if it
/// would pass that.
pub fn with_digit(number: u32, digit: u8) -> u32
    ensures { result ≡ min (10 * number + (digit - 48)) max_script_number }
{
    number
        .saturating_mul(10)
        .saturating_add(u32::from(digit.saturating_sub(b'0')))
}
