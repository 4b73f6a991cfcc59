//! A sink over a writer that its owner keeps.
use crate::sinks::{Sink, write_part};
use std::io::Write;

/// The sink over a writer that is lent to it, with the same failures.
#[derive(Drop)]
pub struct OverLent<'a, W> {
    pub writer: &'a mut W,
    pub failed: bool,
}

impl<'a, W: Write> Sink for OverLent<'a, W> {
    ghost told = { λ s. W.contents s.writer.now };

    ghost has_failed = { λ s. s.failed };

    ghost place = { λ s. s.writer.ghost_name };

    fn put(&mut self, bytes: &[u8]) -> usize {
        write_part(self.writer, bytes, &mut self.failed)
    }

    fn failed(&self) -> bool {
        self.failed
    }
}
