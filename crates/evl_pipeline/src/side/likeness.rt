//! Whether two stages stand alike.
ghost use Rattle.std.specs.Prelude.{ℕ, ◌≡◌, ◌≤◌, true, None, length, map, option_map};
ghost use Rattle.evl_pipeline.specs.Limits.{line_count};
ghost use Rattle.evl_pipeline.specs.Lines.{callback_on};
ghost use Rattle.evl_pipeline.specs.Names.{named, named_side};
ghost use Rattle.evl_pipeline.specs.Sides.{shown};

use super::{SideOf, port_of};
use crate::by_line::are_counts_alike;
use crate::named::Named;
use crate::shown::Shown;
use std::alloc::Allocator;

impl<C: Named, A: Allocator> SideOf<C, A> {
    /// Whether both stages stand alike: their stall bits, pending lines and counts are the same, and so is what is
    /// on each line. The names of two callbacks are compared.
    pub fn is_like<B: Allocator>(&self, other: &SideOf<C, B>) -> bool
        ensures alike { result ≡ true → named_side C.name self.now ≡ named_side C.name other.now }
        ensures other { named_side C.name self.now ≡ named_side C.name other.now → result ≡ true }
    {
        self.stalled == other.stalled
            && self.log.is_like(&other.log)
            && are_counts_alike(&self.unhandled, &other.unhandled)
            && are_lines_alike(self, other)
    }

    // A line's callback, as the line shows it, if one is there.
    fn shown(&self, line: u16) -> Option<Shown>
        ensures shown { result ≡ option_map (shown C.name) (callback_on self.now line) }
    {
        let port = port_of(&self.ports, line)?;
        Some(Shown {
            number: self.callbacks[port.key].callback.name(),
            tag: port.tag,
            count: port.count,
        })
    }
}

impl<C, A: Allocator> SideOf<C, A> {
    // A line from which on there is no callback.
    fn end(&self) -> usize
        ensures free { (line : ℕ) → result ≤ line → callback_on self.now line ≡ None }
        ensures within { result ≤ line_count }
        ensures lines { length self.now.installed ≡ line_count }
    {
        self.ports.end()
    }
}

// Whether the same is on each line.
fn are_lines_alike<C: Named, A: Allocator, B: Allocator>(
    ours: &SideOf<C, A>,
    theirs: &SideOf<C, B>,
) -> bool
    ensures alike { result ≡ true → map (option_map (named C.name)) ours.now.installed ≡ map (option_map (named C.name)) theirs.now.installed }
    ensures other { map (option_map (named C.name)) ours.now.installed ≡ map (option_map (named C.name)) theirs.now.installed → result ≡ true }
{
    for line in 0..ours.end().max(theirs.end()) {
        if !is_line_alike(ours, theirs, line as u16) {
            return false;
        }
    }
    true
}

// Whether the same is on a line.
fn is_line_alike<C: Named, A: Allocator, B: Allocator>(
    ours: &SideOf<C, A>,
    theirs: &SideOf<C, B>,
    line: u16,
) -> bool
    ensures alike { result ≡ true → option_map (named C.name) (callback_on ours.now line) ≡ option_map (named C.name) (callback_on theirs.now line) }
    ensures other { option_map (named C.name) (callback_on ours.now line) ≡ option_map (named C.name) (callback_on theirs.now line) → result ≡ true }
{
    ours.shown(line) == theirs.shown(line)
}
