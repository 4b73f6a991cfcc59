//! Long pictures in pages.
ghost use Rattle.std.specs.Prelude.{◌≡◌, ◌*◌, count_by, take};
ghost use Rattle.lab_drawing.specs.Marks.{is_entry};
ghost use Rattle.lab_drawing.specs.Shapes.{HasPages, moments_at, page_at};

use crate::marks::{Mark, Shape};
use crate::moments::Moment;

/// The most marks of a page.
pub const PAGE: usize = 2000;

// rule: Marks have as many pages of 2,000 as they need, at least one. A page has its marks, and the moments from its
//   first entry on.
//   clauses: page_count; page; page_moments
/// How many pages some marks take: at least one.
pub fn page_count(marks: &[Mark<'_>]) -> usize
    ensures { HasPages marks.now result }
{
    marks.len().saturating_sub(1) / PAGE + 1
}

// The first marks, as many as a page has.
fn first_page<'a, 'b>(marks: &'b [Mark<'a>]) -> &'b [Mark<'a>]
    ensures page { result.now ≡ take 2000 marks.now }
{
    if marks.len() <= PAGE {
        marks
    } else {
        &marks[..PAGE]
    }
}

/// The marks of a page, from 0; none after the last page.
#[tactic(auto, using(crate::proofs::PageLaws::drop_short))]
pub fn page<'a, 'b>(marks: &'b [Mark<'a>], number: usize) -> &'b [Mark<'a>]
    ensures page { result.now ≡ page_at marks.now number }
{
    match number.checked_mul(PAGE) {
        Some(from) if from < marks.len() => first_page(&marks[from..]),
        _ => &[],
    }
}

/// Whether a mark is that of an entry.
pub fn is_entry(mark: &Mark<'_>) -> bool
    ensures { result ≡ is_entry mark.now }
{
    !matches!(mark.shape, Shape::Played | Shape::Unhandled)
}

// How many marks are those of entries.
fn entry_count(marks: &[Mark<'_>]) -> usize
    ensures { result ≡ count_by is_entry marks.now }
{
    let mut count: usize = 0;
    for mark in marks {
        if is_entry(mark) {
            count += 1;
        }
    }
    count
}

// The marks before a page, from 0.
#[tactic(auto, using(crate::proofs::PageLaws::take_short))]
fn marks_before<'a, 'b>(marks: &'b [Mark<'a>], number: usize) -> &'b [Mark<'a>]
    ensures { result.now ≡ take (2000 * number) marks.now }
{
    match number.checked_mul(PAGE) {
        Some(from) if from < marks.len() => &marks[..from],
        _ => marks,
    }
}

/// The moments of a page, from 0, of those of all entries: from that of its first entry on.
pub fn page_moments<'b>(marks: &[Mark<'_>], moments: &'b [Moment], number: usize) -> &'b [Moment]
    ensures { result.now ≡ moments_at marks.now moments.now number }
{
    let before = entry_count(marks_before(marks, number));
    moments.get(before..).unwrap_or(&[])
}
