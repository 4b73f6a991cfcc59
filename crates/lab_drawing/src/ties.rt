//! The ties from marks to the lanes that their calls name, and what is at their ends.
ghost use Rattle.std.specs.Prelude.{◌≡◌, is_some, option_map};
ghost use Rattle.lab_drawing.specs.Pictures as pictures;

use crate::lanes::Lane;
use crate::marks::{Mark, Shape};
use crate::moments::Moment;
use std::alloc::{AllocError, Global};

/// The ways in which a tie can end.
#[derive(Clone, Copy, PartialEq, Eq)]
pub enum TieEnd {
    /// The lane is named by the call.
    Named,
    /// An event is pending from then on.
    Arrives,
    /// It was pending already: the event merges with it.
    Merges,
    /// The event is spurious.
    Lost,
}

/// The drawing of the end of a tie, around its place.
pub fn end_text(end: TieEnd) -> &'static str {
    match end {
        TieEnd::Named => "<path d=\"M-4 0l4 -4l4 4l-4 4Z\" fill=\"#ffffff\" stroke=\"#1f5fa8\"/>",
        TieEnd::Arrives => "<path d=\"M-6 0l6 -6l6 6l-6 6Z\" fill=\"#1f5fa8\"/>",
        TieEnd::Merges => {
            "<path d=\"M-8 0l5 -5l5 5l-5 5ZM-2 0l5 -5l5 5l-5 5Z\" fill=\"#ffffff\" stroke=\"#1f5fa8\" stroke-width=\"1.5\"/>"
        }
        TieEnd::Lost => {
            "<path d=\"M-6 0l6 -6l6 6l-6 6ZM-6 -6L6 6M-6 6L6 -6\" fill=\"none\" stroke=\"#b3261e\" stroke-width=\"1.5\"/>"
        }
    }
}

// Whether a named lane showed something at the moment before.
fn stood(names: Option<Lane>, before: Option<&Moment>) -> bool
    ensures { result ≡ pictures.stood names (option_map (λ moment. moment.now) before.entry) }
{
    match names {
        None => false,
        Some(lane) => match before {
            None => false,
            Some(moment) => moment.standing(lane).is_some(),
        },
    }
}

/// The end of the tie of a mark, by the moment before it.
pub fn end_of(mark: &Mark<'_>, before: Option<&Moment>) -> TieEnd
    ensures { result ≡ pictures.end_of mark.now (option_map (λ moment. moment.now) before.entry) }
{
    match mark.shape {
        Shape::Arrived if stood(mark.names, before) => TieEnd::Merges,
        Shape::Arrived => TieEnd::Arrives,
        Shape::Spurious => TieEnd::Lost,
        _ => TieEnd::Named,
    }
}

/// A tie to a lane so far down.
pub fn tie_down(alloc: Global, down: usize, end: TieEnd) -> Result<String, AllocError> {
    let drawn = end_text(end);
    format!(in alloc;
        "<path d=\"M0 0V{down}\" stroke=\"#1f5fa8\"/><g transform=\"translate(0,{down})\">{drawn}</g>"
    )
}

/// A tie to a lane so far to the right.
pub fn tie_right(alloc: Global, right: usize, end: TieEnd) -> Result<String, AllocError> {
    let drawn = end_text(end);
    format!(in alloc;
        "<path d=\"M0 0H{right}\" stroke=\"#1f5fa8\"/><g transform=\"translate({right},0)\">{drawn}</g>"
    )
}
