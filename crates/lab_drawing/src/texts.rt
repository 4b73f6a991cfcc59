//! Texts that are taken apart.
ghost use Rattle.std.specs.Prelude.{◌≡◌, option_map};
ghost use Rattle.lab_drawing.specs.Texts.{around_part, number_in, up_to};

/// The text before the first such part of a text, and the text after it.
pub fn around<'a>(part: &str, text: &'a str) -> Option<(&'a str, &'a str)>
    ensures { option_map (λ cut. (cut.0.now, cut.1.now)) result ≡ around_part part.now text.now }
{
    match text.split_once(part) {
        Some(cut) => Some(cut),
        None => None,
    }
}

/// The text before the first such part of a text, or the whole text where it has no such part.
pub fn up_to<'a>(part: &str, text: &'a str) -> &'a str
    ensures { result.now ≡ up_to part.now text.now }
{
    match around(part, text) {
        Some((front, _)) => front,
        None => text,
    }
}

/// The number of 16 bits that a text is.
pub fn number(text: &str) -> Option<u16>
    ensures { result ≡ number_in 16 text.now }
{
    match text.parse::<u16>() {
        Ok(number) => Some(number),
        Err(_) => None,
    }
}

/// The number of 64 bits that a text is.
pub fn long_number(text: &str) -> Option<u64>
    ensures { result ≡ number_in 64 text.now }
{
    match text.parse::<u64>() {
        Ok(number) => Some(number),
        Err(_) => None,
    }
}
