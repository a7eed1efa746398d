//! Texts of JSON.

ghost use Rattle.std.specs.Prelude.{◌≡◌, ◌<◌, ◌++◌, codes, decimal, false, option_map};
ghost use Rattle.std.specs.Fmt.{digit_glyph, signed_decimal};
ghost use Rattle.std.specs.List.{flat_map};
ghost use Rattle.base_text.specs.Text.{Tells};
ghost use Rattle.play_walk.specs.Json.{is_printed, json_string, numbered_byte, string_escape};
ghost use Rattle.play_walk.specs.Json.{string_or_null};

use base_text::Text;
use itoa::Buffer;

/// The first byte after the last that is printed.
const DELETE: u8 = 127;

fn is_printed(byte: u8) -> bool
    ensures { result ≡ is_printed byte }
{
    b' ' <= byte && byte < DELETE
}

/// A digit of sixteen.
fn hex_digit(value: u8) -> u8
    requires { value < 16 }
    ensures { result ≡ digit_glyph false value }
{
    if value < 10 {
        b'0' + value
    } else {
        b'a' - 10 + value
    }
}

/// Appends a byte by its number.
fn put_numbered_byte(text: &mut Text, byte: u8)
    ensures { Tells (numbered_byte byte) text.old text.new }
{
    text.put(b"\\u00");
    text.put(&[hex_digit(byte / 16), hex_digit(byte % 16)]);
}

/// Appends a byte as it is between the quotes of a string.
#[tactic(auto, unfolding(crate::specs::Json::string_escape))]
fn put_escape(text: &mut Text, byte: u8)
    ensures { Tells (string_escape byte) text.old text.new }
{
    if byte == b'"' || byte == b'\\' {
        text.put(&[b'\\', byte]);
    } else if byte == b'\n' {
        text.put(b"\\n");
    } else if byte == b'\t' {
        text.put(b"\\t");
    } else if !is_printed(byte) {
        put_numbered_byte(text, byte);
    } else {
        text.put(&[byte]);
    }
}

fn put_escapes(text: &mut Text, string: &[u8])
    ensures { Tells (flat_map string_escape string.now) text.old text.new }
{
    for byte in string {
        put_escape(text, *byte);
    }
}

/// Appends a text as a string.
pub(crate) fn put_json_string(text: &mut Text, string: &[u8])
    ensures { Tells (json_string string.now) text.old text.new }
{
    text.put(b"\"");
    put_escapes(text, string);
    text.put(b"\"");
}

/// Appends a text as a string, or that there is none.
pub(crate) fn put_string_or_null(text: &mut Text, string: Option<&[u8]>)
    ensures { Tells (string_or_null (option_map (λ it. it.now) string.entry)) text.old text.new }
{
    match string {
        None => text.put(b"null"),
        Some(string) => put_json_string(text, string),
    }
}

/// Appends a number.
pub(crate) fn put_number(text: &mut Text, number: u32)
    ensures { Tells (decimal number) text.old text.new }
{
    let mut buffer = Buffer::new();
    text.put(buffer.format(number).as_bytes());
}

/// Appends a number that may be below 0.
pub(crate) fn put_signed(text: &mut Text, number: i32)
    ensures { Tells (signed_decimal number) text.old text.new }
{
    let mut buffer = Buffer::new();
    text.put(buffer.format(number).as_bytes());
}

/// Appends the key of a member after another one.
pub(crate) fn put_next_key(text: &mut Text, key: &str)
    ensures { Tells (codes ",\"" ++ (key.now ++ codes "\":")) text.old text.new }
{
    text.put(b",\"");
    text.put(key.as_bytes());
    text.put(b"\":");
}
