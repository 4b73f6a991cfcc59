//! Whether two bitmaps are alike.
ghost use Rattle.std.specs.Prelude.{◌≡◌, ℕ, ◌<◌, ◌*◌, true, length};
ghost use Rattle.evl_bitmap.specs.Numbers.{holds};

use super::Bitmap;
use crate::bits::is_same;
use crate::level::Level;
use std::alloc::Allocator;

impl<L: Level, A: Allocator> Bitmap<L, A> {
    /// Whether both sets have the same limit and the same members.
    pub fn is_like<M: Level, B: Allocator>(&self, other: &Bitmap<M, B>) -> bool
        ensures alike { result ≡ true → self.now ≡ other.now }
        ensures other { self.now ≡ other.now → result ≡ true }
    {
        are_words_alike(&self.words, &other.words)
    }
}

// Whether the words are the same, place by place.
fn are_words_alike(ours: &[u32], theirs: &[u32]) -> bool
    ensures alike { result ≡ true → ours.now ≡ theirs.now }
    ensures other { length ours.now ≡ length theirs.now → ((number : ℕ) → number < 32 * length ours.now → holds ours.now number ≡ holds theirs.now number) → result ≡ true }
{
    if ours.len() != theirs.len() {
        return false;
    }
    for n in 0..ours.len() {
        if !is_same(ours[n], theirs[n]) {
            return false;
        }
    }
    true
}
