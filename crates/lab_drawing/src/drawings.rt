//! The drawings of a picture: lines and shapes.

use crate::frames::LEFT;
use crate::lanes::Lane;
use crate::marks::Shape;
use std::alloc::AllocError;

/// Appends a line so far down, up to here.
pub fn put_line(text: &mut String, y: usize, end: usize, ink: &str) -> Result<(), AllocError> {
    write!(text, "<path d=\"M{LEFT} {y}H{end}\" stroke=\"{ink}\"/>")?;
    Ok(())
}

/// Appends the name of a lane, so far down.
pub fn put_lane_name(text: &mut String, y: usize, lane: Lane) -> Result<(), AllocError> {
    write!(
        text,
        "<text x=\"8\" y=\"{y}\" font-size=\"11\">{lane}</text>\n"
    )?;
    Ok(())
}

/// The colour of the line of a lane.
pub fn lane_ink(lane: Lane) -> &'static str {
    match lane {
        Lane::Thread(_) => "#b8c4d6",
        Lane::Line(_, _) | Lane::Stage(_) => "#d8c48c",
        _ => "#dcdcdc",
    }
}

/// The drawing of a shape, around its place.
pub fn shape_text(shape: Shape) -> &'static str {
    match shape {
        Shape::Answered | Shape::Arrived | Shape::Spurious => {
            "<circle r=\"5\" fill=\"#1f5fa8\"/>"
        }
        Shape::Begun => {
            "<circle r=\"4.5\" fill=\"#ffffff\" stroke=\"#1f5fa8\" stroke-width=\"2\"/>"
        }
        Shape::Ended => "<path d=\"M-5 -6L6 0L-5 6Z\" fill=\"#1f5fa8\"/>",
        Shape::Refused => {
            "<path d=\"M-5 -5L5 5M5 -5L-5 5\" fill=\"none\" stroke=\"#b3261e\" stroke-width=\"3\"/>"
        }
        Shape::Played => {
            "<rect x=\"-5\" y=\"-9\" width=\"10\" height=\"18\" fill=\"#f0b400\" stroke=\"#5c4300\"/>"
        }
        Shape::Unhandled => {
            "<rect x=\"-5\" y=\"-9\" width=\"10\" height=\"18\" fill=\"#ffffff\" stroke=\"#5c4300\" stroke-dasharray=\"3 2\"/>"
        }
    }
}
