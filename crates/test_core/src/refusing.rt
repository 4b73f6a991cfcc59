//! An allocator that counts the requests for memory, and refuses one of them.
use std::alloc::{AllocError, Allocator};
use std::cell::Cell;

/// An allocator that hands each request on to another one, but for a single request, which it refuses.
pub struct Refusing<B: Allocator> {
    inner: B,
    left: Cell<u64>,
}

impl<B: Allocator> Refusing<B> {
    /// It grants so many requests, refuses the next one, and grants all that follow.
    pub fn after(inner: B, granted: u64) -> Refusing<B> {
        Refusing {
            inner,
            left: Cell::new(granted),
        }
    }

    /// The allocator that it hands requests on to.
    pub fn inner(&self) -> &B {
        &self.inner
    }

    /// Whether it has refused its request.
    pub fn has_refused(&self) -> bool {
        self.left.get() > u64::MAX / 2
    }
}

impl<B: Allocator> Drop for Refusing<B> {
    fn drop(self) {
        let Self { inner: _, left: _ } = self;
    }
}

// Counts a request, and says whether it is the one to be refused: the count goes down past 0, and never comes back to
// it.
fn refuses(left: &Cell<u64>) -> bool {
    let granted = left.get();
    left.set(granted.wrapping_sub(1));
    granted == 0
}

unsafe impl<B: Allocator> Allocator for Refusing<B> {
    ghost dealloc_token = { λ heap ty ptr. B.dealloc_token heap.inner ty ptr };

    fn allocate(&self, size: usize, align: usize) -> Result<*mut u8, AllocError> {
        if refuses(&self.left) {
            return Err(AllocError);
        }
        self.inner.allocate(size, align)
    }

    unsafe fn deallocate(&self, ptr: *mut u8, size: usize, align: usize) {
        self.inner.deallocate(ptr, size, align);
    }
}
