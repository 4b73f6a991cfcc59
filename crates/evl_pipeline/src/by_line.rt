//! All that is kept for each line.
ghost use Rattle.std.specs.Prelude.{◌≡◌, ℕ, ◌<◌, ◌≤◌, None, length, replicate, slice_index_or, slice_set, vec_capacity, IfOk};
ghost use Rattle.evl_pipeline.specs.ByLine.{filled_up};
ghost use Rattle.evl_pipeline.specs.Limits.{line_count};

mod likeness;

use crate::port::Port;
use evl_base::LINES;
pub use likeness::are_counts_alike;
use std::alloc::{AllocError, Allocator};
use std::marker::Model;

/// The item of a line where nothing was written.
pub trait Blank: Copy {
    ghost blank: { Self };

    fn blank() -> Self
        ensures { result ≡ blank };
}

impl Blank for u64 {
    ghost blank = { 0 };

    fn blank() -> u64 {
        0
    }
}

impl Blank for Option<Port> {
    ghost use Rattle.std.specs.Prelude.{None};

    ghost blank = { None };

    fn blank() -> Option<Port> {
        None
    }
}

/// An item for each line, to a contract. Those after the last line that was written are blank and aren't written
/// before they have to be, so that a new one costs the same however many lines there are. Only `new` takes memory.
#[derive(Drop)]
pub struct ByLine<T: Blank, A: Allocator> {
    written: Vec<T, A>,
}

impl<T: Blank, A: Allocator> Model for ByLine<T, A> {
    ghost use Rattle.std.specs.Prelude.{◌≤◌, length, vec_capacity};
    ghost use Rattle.evl_pipeline.specs.ByLine.{ByLine, filled_up};
    ghost use Rattle.evl_pipeline.specs.Limits.{line_count};

    ghost Value = { ByLine T };

    ghost view = { λ b. record { items = filled_up T.blank b.written.items } };

    ghost invariant = { λ b. (length b.written.items ≤ line_count) × (line_count ≤ vec_capacity b.written) };
}

impl<T: Blank, A: Allocator + Clone> ByLine<T, A> {
    /// A blank for each line, in memory of an allocator that is kept.
    pub fn new_by(alloc: &A) -> Result<ByLine<T, A>, AllocError>
        ensures empty { IfOk result (λ b. b.items ≡ replicate line_count T.blank) }
    {
        ByLine::new(alloc.clone()?)
    }
}

impl<T: Blank, A: Allocator> ByLine<T, A> {
    /// A blank for each line.
    pub fn new(alloc: A) -> Result<ByLine<T, A>, AllocError>
        ensures empty { IfOk result (λ b. b.items ≡ replicate line_count T.blank) }
    {
        let written = Vec::with_capacity(alloc, LINES)?;
        Ok(ByLine { written })
    }

    /// The item of a line; a blank where there is no such line.
    pub fn get(&self, line: u16) -> T
        ensures item { result ≡ slice_index_or self.now.items line T.blank }
    {
        match self.written.get(usize::from(line)) {
            Some(item) => *item,
            None => T::blank(),
        }
    }

    /// A line from which on all are blank.
    pub fn reach(&self) -> usize
        ensures blank { (line : ℕ) → result ≤ line → slice_index_or self.now.items line T.blank ≡ T.blank }
        ensures range { result ≤ line_count }
    {
        self.written.len()
    }

    /// A blank for each line again, as `new` made it.
    pub fn clear(&mut self)
        ensures empty { self.new.items ≡ replicate line_count T.blank }
    {
        self.written.clear();
    }

    /// Writes what is there for a line.
    pub fn set(&mut self, line: u16, item: T)
        requires { line < line_count }
        ensures written { self.new.items ≡ slice_set self.old.items line item }
    {
        reach(&mut self.written, usize::from(line));
        self.written[usize::from(line)] = item;
    }
}

// Writes blanks up to a line.
fn reach<T: Blank, A: Allocator>(written: &mut Vec<T, A>, line: usize)
    requires range { line < line_count }
    requires few { length written.old.items ≤ line_count }
    requires room { line_count ≤ vec_capacity written.old }
    ensures same { filled_up T.blank written.new.items ≡ filled_up T.blank written.old.items }
    ensures there { line < length written.new.items }
    ensures few { length written.new.items ≤ line_count }
    ensures room { line_count ≤ vec_capacity written.new }
{
    while written.len() <= line {
        written.push_reserved(T::blank());
    }
}
