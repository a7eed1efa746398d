//! Labels of a graph.

ghost use Rattle.std.specs.Prelude.{◌≡◌};
ghost use Rattle.std.specs.List.{flat_map};
ghost use Rattle.base_text.specs.Text.{Tells};
ghost use Rattle.map_ways.specs.Labels.{escape_of, is_control, label_of};

use base_text::Text;

/// The control byte after the last that is printed.
const DELETE: u8 = 127;

/// Whether a byte is a control byte, which can't be in a picture.
#[tactic(auto, unfolding(crate::specs::Labels::is_control))]
fn is_control(byte: u8) -> bool
    ensures { result ≡ is_control byte }
{
    byte < b' ' || byte == DELETE
}

/// Appends a byte as it is between quotes.
#[tactic(auto, unfolding(crate::specs::Labels::escape_of))]
fn put_escape(byte: u8, text: &mut Text)
    ensures { Tells (escape_of byte) text.old text.new }
{
    if byte == b'"' || byte == b'\\' {
        text.put(&[b'\\', byte]);
    } else if byte == b'\n' {
        text.put(b"\\n");
    } else if byte == b'&' {
        text.put(b"&amp;");
    } else if is_control(byte) {
        text.put(b"?");
    } else {
        text.put(&[byte]);
    }
}

fn put_escapes(label: &[u8], text: &mut Text)
    ensures { Tells (flat_map escape_of label.now) text.old text.new }
{
    for byte in label {
        put_escape(*byte, text);
    }
}

/// Appends a label between quotes.
pub fn put_label(label: &[u8], text: &mut Text)
    ensures { Tells (label_of label.now) text.old text.new }
{
    text.put(b"\"");
    put_escapes(label, text);
    text.put(b"\"");
}
