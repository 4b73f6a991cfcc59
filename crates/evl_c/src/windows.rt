//! The part of a text that goes into a caller's buffer.
ghost use Rattle.std.specs.Prelude.{◌≡◌};
ghost use Rattle.evl_c.specs.Windows.{window};

/// Puts the bytes of a text from a place on over the front of a buffer, as many as both have; the rest of the buffer
/// stays.
pub fn put_window(text: &[u8], start: usize, out: &mut [u8])
    ensures { out.new ≡ window text.now start out.old }
{
    let rest = text.get(start..).unwrap_or(&[]);
    let count = rest.len().min(out.len());
    out[..count].copy_from_slice(&rest[..count]);
}
