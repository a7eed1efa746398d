//! Blanks, words and digits in the bytes of a line.

ghost use Rattle.std.specs.Prelude.{◌≡◌, ◌≤◌, IsTrue, length};
ghost use Rattle.std.specs.List.{list_all, prefix_len};
ghost use Rattle.base_lines.specs.Limits.{MAX_DIGITS};
ghost use Rattle.base_lines.specs.Bytes.{is_blank, is_nonblank, is_all_blank, is_digit};
ghost use Rattle.base_lines.specs.Bytes.{prefix_while, after_prefix, number_of};

/// Whether a byte is a space or a tab.
pub fn is_blank(byte: u8) -> bool
    ensures { result ≡ is_blank byte }
{
    byte == b' ' || byte == b'\t'
}

/// Whether the bytes are all blanks.
pub fn is_all_blank(bytes: &[u8]) -> bool
    ensures { result ≡ is_all_blank bytes.now }
{
    bytes.iter().all(|&byte| is_blank(byte))
}

fn count_blanks(bytes: &[u8]) -> usize
    ensures { result ≡ prefix_len is_blank bytes.now }
{
    bytes.iter().take_while(|&&byte| is_blank(byte)).count()
}

fn count_nonblanks(bytes: &[u8]) -> usize
    ensures { result ≡ prefix_len is_nonblank bytes.now }
{
    bytes.iter().take_while(|&&byte| !is_blank(byte)).count()
}

fn count_digits(bytes: &[u8]) -> usize
    ensures { result ≡ prefix_len is_digit bytes.now }
{
    bytes
        .iter()
        .take_while(|byte| byte.is_ascii_digit())
        .count()
}

/// What follows the leading blanks.
#[tactic(auto, using(crate::proofs::Prefixes::prefixes))]
pub fn skip_blanks(bytes: &[u8]) -> &[u8]
    ensures { result.now ≡ after_prefix is_blank bytes.now }
{
    let (_, rest) = bytes.split_at(count_blanks(bytes));
    rest
}

/// The leading nonblanks, and what follows them.
#[tactic(auto, using(crate::proofs::Prefixes::prefixes))]
pub fn split_word(bytes: &[u8]) -> (&[u8], &[u8])
    ensures prefix { result.0.now ≡ prefix_while is_nonblank bytes.now }
    ensures rest { result.1.now ≡ after_prefix is_nonblank bytes.now }
{
    bytes.split_at(count_nonblanks(bytes))
}

/// The leading digits, and what follows them.
#[tactic(auto, using(crate::proofs::Prefixes::prefixes, crate::proofs::Prefixes::in_prefix_passes))]
pub fn split_digits(bytes: &[u8]) -> (&[u8], &[u8])
    ensures prefix { result.0.now ≡ prefix_while is_digit bytes.now }
    ensures digits { IsTrue (list_all is_digit result.0.now) }
    ensures rest { result.1.now ≡ after_prefix is_digit bytes.now }
{
    bytes.split_at(count_digits(bytes))
}

/// The number that digits write.
pub fn number_of(digits: &[u8]) -> u64
    requires digits { IsTrue (list_all is_digit digits.now) }
    requires few { length digits.now ≤ MAX_DIGITS }
    ensures { result ≡ number_of digits.now }
{
    let mut number = 0;
    for &digit in digits {
        number = 10 * number + u64::from(digit - b'0');
    }
    number
}
