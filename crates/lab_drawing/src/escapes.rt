//! Texts in XML.
ghost use Rattle.std.specs.Prelude.{◌≡◌, ◌++◌, OnOk};
ghost use Rattle.lab_drawing.specs.Titles.{escaped, escaped_byte, title_text};

use std::alloc::AllocError;

// Appends a byte as XML has it in a text.
fn put_byte(text: &mut Vec<u8>, byte: u8) -> Result<(), AllocError>
    ensures { OnOk result (text.new.items ≡ text.old.items ++ escaped_byte byte) }
{
    match byte {
        b'&' => text.extend_from_slice(b"&amp;"),
        b'<' => text.extend_from_slice(b"&lt;"),
        b'>' => text.extend_from_slice(b"&gt;"),
        _ => Ok(text.push(byte)?),
    }
}

/// Appends a text as XML has it. `AllocError` where the buffer couldn't grow; what it holds then isn't known.
pub fn put_escaped(buffer: &mut Vec<u8>, text: &[u8]) -> Result<(), AllocError>
    ensures { OnOk result (buffer.new.items ≡ buffer.old.items ++ escaped text.now) }
{
    for byte in text {
        put_byte(buffer, *byte)?;
    }
    Ok(())
}

/// Appends a text as it is.
pub fn put_text(buffer: &mut Vec<u8>, text: &str) -> Result<(), AllocError>
    ensures { OnOk result (buffer.new.items ≡ buffer.old.items ++ text.now) }
{
    buffer.extend_from_slice(text.as_bytes())
}

/// Appends the title element of the mark of a line.
pub fn put_title(buffer: &mut Vec<u8>, line: &str) -> Result<(), AllocError>
    ensures { OnOk result (buffer.new.items ≡ buffer.old.items ++ title_text line.now) }
{
    buffer.extend_from_slice(b"<title>")?;
    put_escaped(buffer, line.as_bytes())?;
    buffer.extend_from_slice(b"</title>")
}
