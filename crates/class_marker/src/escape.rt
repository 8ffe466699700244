//! Text in HTML.

ghost use Rattle.std.specs.Prelude.{◌≡◌, ◌++◌, OnOk};
ghost use Rattle.class_marker.specs.Escapes.{escaped, escaped_byte, is_control as controls};

use fux_pitch::Memory;

/// Appends words.
pub(crate) fn put(out: &mut Vec<u8>, words: &str) -> Result<(), Memory>
    ensures { OnOk result (out.new.items ≡ out.old.items ++ words.now) }
{
    out.extend_from_slice(words.as_bytes())?;
    Ok(())
}

/// Whether a byte is a control character other than a line feed.
fn is_control(byte: u8) -> bool
    ensures { result ≡ controls byte }
{
    (byte < 32 && byte != b'\n') || byte == 127
}

/// Appends a byte as it stands in HTML.
fn put_byte(out: &mut Vec<u8>, byte: u8) -> Result<(), Memory>
    ensures { OnOk result (out.new.items ≡ out.old.items ++ escaped_byte byte) }
{
    if byte == b'&' {
        put(out, "&amp;")
    } else if byte == b'<' {
        put(out, "&lt;")
    } else if byte == b'>' {
        put(out, "&gt;")
    } else if byte == b'"' {
        put(out, "&quot;")
    } else if is_control(byte) {
        put(out, "&#65533;")
    } else {
        Ok(out.push(byte)?)
    }
}

/// Appends a text as it stands in HTML.
pub(crate) fn put_escaped(out: &mut Vec<u8>, text: &[u8]) -> Result<(), Memory>
    ensures { OnOk result (out.new.items ≡ out.old.items ++ escaped text.now) }
{
    for byte in text {
        put_byte(out, *byte)?;
    }
    Ok(())
}
