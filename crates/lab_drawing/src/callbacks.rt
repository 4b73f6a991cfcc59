//! The callbacks that the calls of a trace name.
ghost use Rattle.std.specs.Prelude.{◌≡◌};
ghost use Rattle.lab_drawing.specs.Callbacks.{callback_named, is_missing, missing_callback};

use crate::marks::number_at;
use lab_traces::{Says, TraceLine};

// The callback that the call of a line names.
fn callback_named(line: &TraceLine<'_>) -> Option<u16>
    ensures { result ≡ callback_named line.now }
{
    match line.says {
        Says::Entry(entry) => number_at(entry.call, " callback="),
        _ => None,
    }
}

// Whether it is none of so many.
fn is_missing(line: &TraceLine<'_>, count: usize) -> bool
    ensures { result ≡ is_missing count line.now }
{
    match callback_named(line) {
        Some(number) => count <= usize::from(number),
        None => false,
    }
}

/// The first callback that a call names and that a bank of so many hasn't.
pub fn missing_callback(lines: &[TraceLine<'_>], count: usize) -> Option<u16>
    ensures { result ≡ missing_callback count lines.now }
{
    for line in lines {
        if is_missing(line, count) {
            return callback_named(line);
        }
    }
    None
}
