//! The answers of one caller, by what is reported of an outcome.
ghost use Rattle.std.specs.Prelude.{◌≡◌, drop, option_map, take};
ghost use Rattle.lab_orders.specs.Answers.{answer_at, answer_of, begins, is_end, later_row, row, row_here, text_behind};

// The text after the first text in the second, if that begins with it.
fn behind<'a>(front: &[u8], text: &'a [u8]) -> Option<&'a [u8]>
    ensures { option_map (λ rest. rest.now) result ≡ text_behind front.now text.now }
{
    text.strip_prefix(front)
}

// Whether the second text begins with the first.
fn begins(front: &[u8], text: &[u8]) -> bool
    ensures { result ≡ begins front.now text.now }
{
    behind(front, text).is_some()
}

// A text from a byte on.
fn past(text: &[u8], count: usize) -> &[u8]
    ensures { result.now ≡ drop count text.now }
{
    text.get(count..).unwrap_or(&[])
}

// A text before a byte.
fn before(text: &[u8], count: usize) -> &[u8]
    ensures { result.now ≡ take count text.now }
{
    text.get(..count).unwrap_or(text)
}

// The text after this name, if a text begins with that and an arrow.
fn row_here<'a>(who: &[u8], text: &'a [u8]) -> Option<&'a [u8]>
    ensures { option_map (λ rest. rest.now) result ≡ row_here who.now text.now }
{
    match behind(who, text) {
        Some(rest) => {
            if begins(b" -> ", rest) {
                Some(rest)
            } else {
                None
            }
        }
        None => None,
    }
}

// As `row_here`, of the first line after some line feed that begins so.
fn later_row<'a>(who: &[u8], text: &'a [u8]) -> &'a [u8]
    ensures { result.now ≡ later_row who.now text.now }
{
    let mut rest = text;
    while let Some((first, next)) = rest.split_first() {
        if *first == b'\n' {
            if let Some(found) = row_here(who, next) {
                return found;
            }
        }
        rest = next;
    }
    rest
}

/// The report of a caller from the arrow before its first answer on; nothing where it has none.
pub(crate) fn row<'a>(who: &[u8], told: &'a [u8]) -> &'a [u8]
    ensures { result.now ≡ row who.now told.now }
{
    match row_here(who, told) {
        Some(found) => found,
        None => later_row(who, told),
    }
}

// Whether an answer ends before this text.
fn is_end(text: &[u8]) -> bool
    ensures { result ≡ is_end text.now }
{
    begins(b" -> ", text) || begins(b"\n", text)
}

// A text up to the end of the answer that it begins with.
fn answer_of(text: &[u8]) -> &[u8]
    ensures { result.now ≡ answer_of text.now }
{
    for place in 0..text.len() {
        if is_end(past(text, place)) {
            return before(text, place);
        }
    }
    text
}

/// The answer at a step, from 0, of a caller of whom this is reported.
pub(crate) fn answer_at(row: &[u8], step: usize) -> Option<&[u8]>
    ensures { option_map (λ answer. answer.now) result ≡ answer_at step row.now }
{
    let mut left = step;
    let mut rest = row;
    while let Some((first, next)) = rest.split_first() {
        if *first == b'\n' {
            return None;
        }
        if begins(b" -> ", rest) {
            if left == 0 {
                return Some(answer_of(past(rest, 4)));
            }
            left -= 1;
        }
        rest = next;
    }
    None
}
