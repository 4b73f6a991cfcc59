//! The parts of a picture that goes down.

use crate::lanes::Lane;
use crate::moments::Condition;
use evl_base::Stage;
use std::alloc::{AllocError, Global};

/// Appends a lane that goes down from here to there.
pub fn put_line_down(
    text: &mut String,
    x: usize,
    y: usize,
    end: usize,
    ink: &str,
) -> Result<(), AllocError> {
    write!(text, "<path d=\"M{x} {y}V{end}\" stroke=\"{ink}\"/>")?;
    Ok(())
}

// The name of a lane in the words of a trace.
fn short_name(alloc: Global, lane: Lane) -> Result<String, AllocError> {
    match lane {
        Lane::Stage(Stage::Oob) => String::from_str(alloc, "oob"),
        Lane::Stage(Stage::Inband) => String::from_str(alloc, "inband"),
        Lane::Line(Stage::Inband, number) => format!(in alloc; "inb {number}"),
        _ => format!(in alloc; "{lane}"),
    }
}

/// Appends the name of a lane above it.
pub fn put_name_above(text: &mut String, x: usize, y: usize, lane: Lane) -> Result<(), AllocError> {
    let named = short_name(*text.allocator(), lane)?;
    let name = named.as_str();
    write!(
        text,
        "<text x=\"{x}\" y=\"{y}\" font-size=\"11\" font-weight=\"bold\">{name}</text>\n"
    )?;
    Ok(())
}

/// The strip of a condition, left of a mark's place.
pub fn strip_down(condition: Condition) -> &'static str {
    match condition {
        Condition::Inband => {
            "<path d=\"M-10.5 -10v20\" stroke=\"#8a6d00\" stroke-width=\"1.5\"/>"
        }
        Condition::Blocked => {
            "<path d=\"M-10.5 -9v4m0 3v4m0 3v4\" stroke=\"#b3261e\" stroke-width=\"4\"/>"
        }
        Condition::Ready => "<path d=\"M-12.5 -10v20M-8.5 -10v20\" stroke=\"#1f5fa8\"/>",
        Condition::Picked => {
            "<rect x=\"-13\" y=\"-10\" width=\"5\" height=\"20\" fill=\"#1f5fa8\"/>"
        }
        Condition::Stalled => {
            "<path d=\"M-13 -5l5 -4m-5 8l5 -4m-5 8l5 -4m-5 8l5 -4\" stroke=\"#5c4300\" stroke-width=\"1.5\"/>"
        }
        Condition::Pending => {
            "<path d=\"M-10.5 -8v3m0 4v3m0 4v3\" stroke=\"#5c4300\" stroke-width=\"3\"/>"
        }
        Condition::Owned => {
            "<rect x=\"-12\" y=\"-10\" width=\"3\" height=\"20\" fill=\"#5f6b7a\"/>"
        }
        Condition::Handed => "<path d=\"M-12.5 -10v20M-8.5 -10v20\" stroke=\"#5f6b7a\"/>",
        Condition::Runs => "<path d=\"M-10.5 -10v20M-13 -5h5M-13 5h5\" stroke=\"#5c4300\"/>",
        Condition::Oob => {
            "<rect x=\"-13\" y=\"-10\" width=\"5\" height=\"20\" fill=\"#1f5fa8\"/>"
        }
        Condition::Claimed => {
            "<path d=\"M-10.5 -10v20M-14 -5h7M-14 5h7\" stroke=\"#5f6b7a\" stroke-width=\"3\"/>"
        }
        Condition::Taken => "<path d=\"M-12.5 -10v20M-8.5 -10v20\" stroke=\"#5c4300\"/>",
    }
}
