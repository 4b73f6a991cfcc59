//! A text that is written piece by piece, and is whole or refused at its end.
use std::alloc::{AllocError, Global};

/// A text that is being written. It remembers if memory is refused, so that only its end has to ask.
#[derive(Drop)]
pub struct Text {
    written: String,
    is_cut: bool,
}

impl Text {
    /// No text yet.
    pub fn new(alloc: Global) -> Text {
        Text {
            written: String::new(alloc),
            is_cut: false,
        }
    }

    // Remembers whether memory was refused.
    fn note(&mut self, done: Result<(), AllocError>) {
        self.is_cut = self.is_cut || done.is_err();
    }

    /// Says that a part of the text is missing, as memory was refused for it.
    pub fn cut(&mut self) {
        self.is_cut = true;
    }

    /// Appends a text.
    pub fn put(&mut self, text: &str) {
        let done = self.written.push_str(text);
        self.note(done);
    }

    /// Appends a character.
    pub fn put_char(&mut self, c: char) {
        let done = self.written.push(c);
        self.note(done);
    }

    /// Appends a number.
    pub fn put_number(&mut self, number: u64) {
        let done = write!(self.written, "{number}");
        self.note(done);
    }

    /// Appends another text.
    pub fn put_text(&mut self, other: &Text) {
        self.put(other.written.as_str());
        self.is_cut = self.is_cut || other.is_cut;
    }

    /// How many bytes it has.
    pub fn len(&self) -> usize {
        self.written.len()
    }

    /// The whole text; `AllocError` where memory was refused for a part of it.
    pub fn finish(self) -> Result<String, AllocError> {
        let Text { written, is_cut } = self;
        if is_cut {
            return Err(AllocError);
        }
        Ok(written)
    }
}
