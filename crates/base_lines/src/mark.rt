ghost use Rattle.std.specs.Prelude.{◌≡◌};
ghost use Rattle.base_lines.specs.Mark.{has_byte_order_mark};

/// Whether a text begins with a byte order mark, of UTF-8 or of either UTF-16.
pub fn has_byte_order_mark(text: &[u8]) -> bool
    ensures { result ≡ has_byte_order_mark text.now }
{
    text.starts_with(b"\xef\xbb\xbf")
        || text.starts_with(b"\xff\xfe")
        || text.starts_with(b"\xfe\xff")
}
