//! Threads that wait at one way of a cross-buffer.

use evl_base::Bytes;

/// A thread that waits to write.
#[derive(Drop)]
pub struct Writer {
    /// The number of the thread, below `MAX_THREADS`.
    pub thread: u16,
    /// The bytes that it writes, all at once.
    pub bytes: Bytes,
}

/// A thread that waits to read.
#[derive(Clone, Copy, Default)]
pub struct Reader {
    /// The number of the thread, below `MAX_THREADS`.
    pub thread: u16,
    /// How many bytes it takes at most.
    pub len: u16,
}
