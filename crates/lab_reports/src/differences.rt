//! The place where two traces differ.
ghost use Rattle.std.specs.Prelude.{◌≡◌, ◌<◌, ◌≤◌, ◌+◌, ◌-◌, ◌^◌, IfOk, List, OnOk, length, map, option_map, slice_get, take};
ghost use Rattle.std.specs.Str.Lines.{lines};
ghost use Rattle.lab_traces.specs.Lines.{line_read};
ghost use Rattle.lab_reports.specs.Differences as differences;
ghost use Rattle.lab_reports.specs.Differences.{Apart, Notes, differing, told_apart};

use lab_traces::{Says, read_line};
use std::alloc::{AllocError, Global};

/// The place where two traces differ: the line, from 1, and what is there in each; none after the last line.
#[derive(Clone, Copy, PartialEq, Eq)]
pub struct Difference<'a> {
    pub line: usize,
    pub stored: Option<&'a str>,
    pub made: Option<&'a str>,
}

// Whether two lines are entries that differ at most in their numbers.
fn are_one_entry(one: &str, other: &str) -> bool
    ensures { result ≡ differences.are_one_entry (line_read one.now) (line_read other.now) }
{
    match (read_line(one), read_line(other)) {
        (Some(Says::Entry(first)), Some(Says::Entry(second))) => {
            first.thread == second.thread
                && first.call == second.call
                && first.answer == second.answer
        }
        _ => false,
    }
}

// Whether two lines say the same, but for the number of an entry.
fn are_alike(one: Option<&str>, other: Option<&str>) -> bool
    ensures { result ≡ differences.are_alike (option_map (λ line. line.now) one.entry) (option_map (λ line. line.now) other.entry) }
{
    match (one, other) {
        (Some(first), Some(second)) => first == second || are_one_entry(first, second),
        (None, None) => true,
        _ => false,
    }
}

// The lines of a text.
fn lines_of<'a>(alloc: Global, text: &'a str) -> Result<Vec<&'a str>, AllocError>
    ensures { IfOk result (λ all. map (λ line. line.now) all.items ≡ lines text.now) }
{
    text.lines().collect(alloc)
}

// The line at an index, none after the last one.
fn line_at<'a>(all: &[&'a str], index: usize) -> Option<&'a str>
    ensures { option_map (λ line. line.now) result ≡ slice_get (map (λ line. line.now) all.now) index }
{
    all.get(index).copied()
}

// As many lines as the longer one of two lists has.
fn most_lines(old: &[&str], new: &[&str]) -> usize
    ensures old { length old.now ≤ result }
    ensures new { length new.now ≤ result }
{
    if old.len() < new.len() {
        new.len()
    } else {
        old.len()
    }
}

// The difference reported of two lists of lines at an index.
fn told<'a>(old: &[&'a str], new: &[&'a str], index: usize) -> Difference<'a>
    requires { index < 2 ^ 64 - 1 }
    ensures { told_apart result ≡ (index + 1, slice_get (map (λ line. line.now) old.now) index, slice_get (map (λ line. line.now) new.now) index) }
{
    Difference {
        line: index + 1,
        stored: line_at(old, index),
        made: line_at(new, index),
    }
}

// Notes what is reported of two lists, where it isn't alike, and fewer than these are noted.
#[tactic(auto, using(crate::proofs::DifferenceLaws::noted_one))]
fn note<'a>(
    found: &mut Vec<Difference<'a>>,
    most: usize,
    difference: Difference<'a>,
) -> Result<(), AllocError>
    ensures { OnOk result ((rest : List Apart) → Notes most (map told_apart found.old.items) (map told_apart found.new.items) (told_apart difference.entry) rest) }
{
    if found.len() < most && !are_alike(difference.stored, difference.made) {
        found.push(difference)?;
    }
    Ok(())
}

// The first differences of two lists of lines, at most so many.
#[tactic(auto, using(crate::proofs::DifferenceLaws::noted_all, crate::proofs::DifferenceLaws::noted_more))]
fn noted<'a>(
    alloc: Global,
    old: &[&'a str],
    new: &[&'a str],
    most: usize,
) -> Result<Vec<Difference<'a>>, AllocError>
    ensures { IfOk result (λ found. map told_apart found.items ≡ take most (differing 1 (map (λ line. line.now) old.now) (map (λ line. line.now) new.now))) }
{
    let mut found = Vec::new(alloc);
    for i in 0..most_lines(old, new) {
        note(&mut found, most, told(old, new, i))?;
    }
    Ok(found)
}

/// The first lines at which two traces differ in more than the numbers of entries, at most so many. Lines are cut as by
/// `str::lines`: a carriage return in front of a line feed, and a line feed that is missing at the end, are no
/// difference. `AllocError` where memory couldn't grow.
pub fn find_differences<'a>(
    alloc: Global,
    stored: &'a str,
    made: &'a str,
    most: usize,
) -> Result<Vec<Difference<'a>>, AllocError>
    ensures { IfOk result (λ found. map told_apart found.items ≡ take most (differing 1 (lines stored.now) (lines made.now))) }
{
    let old = lines_of(alloc, stored)?;
    let new = lines_of(alloc, made)?;
    noted(alloc, old.as_slice(), new.as_slice(), most)
}
