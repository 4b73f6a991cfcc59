//! Whether two tables by line are alike.
ghost use Rattle.std.specs.Prelude.{ℕ, ◌≡◌, ◌≤◌, true, length, slice_index_or};
ghost use Rattle.evl_pipeline.specs.Limits.{line_count};

use super::{Blank, ByLine};
use std::alloc::Allocator;

impl<T: Blank, A: Allocator> ByLine<T, A> {
    /// A line from which on all are blank.
    pub fn end(&self) -> usize
        ensures blank { (line : ℕ) → result ≤ line → slice_index_or self.now.items line T.blank ≡ T.blank }
        ensures within { result ≤ line_count }
        ensures lines { length self.now.items ≡ line_count }
    {
        self.written.len()
    }
}

/// Whether each line has the same count.
pub fn are_counts_alike<A: Allocator, B: Allocator>(
    ours: &ByLine<u64, A>,
    theirs: &ByLine<u64, B>,
) -> bool
    ensures alike { result ≡ true → ours.now.items ≡ theirs.now.items }
    ensures other { ours.now.items ≡ theirs.now.items → result ≡ true }
{
    for line in 0..ours.end().max(theirs.end()) {
        if ours.get(line as u16) != theirs.get(line as u16) {
            return false;
        }
    }
    true
}
