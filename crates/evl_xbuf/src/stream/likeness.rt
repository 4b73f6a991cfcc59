//! Whether two ways of cross-buffers stand alike.
ghost use Rattle.std.specs.Prelude.{◌≡◌, ◌≤◌, true, length};

use super::{Stream, first_of};
use crate::waiters::{Reader, Writer};
use arrayvec::ArrayVec;
use circular_buffer::HeapCircularBuffer;
use evl_base::Bytes;
use evl_sync::{Alike, are_alike};
use std::alloc::Allocator;

impl<A: Allocator> Stream<A> {
    /// Whether both rings have one size and the same bytes, and the same threads wait to write the same and to read as
    /// much, in the same order.
    pub fn is_like<B: Allocator>(&self, other: &Stream<B>) -> bool
        ensures alike { result ≡ true → self.now ≡ other.now }
        ensures other { self.now ≡ other.now → result ≡ true }
    {
        self.there.capacity() == other.there.capacity()
            && are_bytes_alike(
                all_of(&self.there).as_slice(),
                all_of(&other.there).as_slice(),
            )
            && are_alike(&self.writers, &other.writers)
            && are_alike(&self.readers, &other.readers)
    }
}

impl Alike for Writer {
    fn is_alike(&self, other: &Writer) -> bool {
        self.thread == other.thread
            && are_bytes_alike(self.bytes.as_slice(), other.bytes.as_slice())
    }
}

impl Alike for Reader {
    fn is_alike(&self, other: &Reader) -> bool {
        self.thread == other.thread && self.len == other.len
    }
}

// The bytes of a ring, wherever they stand in it.
fn all_of<A: Allocator>(ring: &HeapCircularBuffer<u8, A>) -> Bytes
    requires few { length ring.now.items ≤ 256 }
    ensures all { result.items ≡ ring.now.items }
{
    let (front, back) = ring.as_slices();
    let mut bytes = ArrayVec::new();
    first_of(front, back, ring.len(), &mut bytes);
    bytes
}

fn are_bytes_alike(ours: &[u8], theirs: &[u8]) -> bool
    ensures alike { result ≡ true → ours.now ≡ theirs.now }
    ensures other { ours.now ≡ theirs.now → result ≡ true }
{
    ours == theirs
}
