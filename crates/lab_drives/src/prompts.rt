//! A prompt before each part of an input that is asked for.
ghost use Rattle.std.specs.Prelude.{◌≡◌};

use lab_streams::Source;
use std::io::{self, Read, Write};

// The text before the first line.
const HELP: &str = "? helps, undo takes the last call back, Ctrl-D ends\n";

/// An input, and the terminal on which it is prompted for, if that is asked.
#[derive(Drop)]
pub struct Prompted<I, W> {
    input: I,
    terminal: W,
    is_asked: bool,
    has_begun: bool,
}

impl<I, W: Write> Prompted<I, W> {
    /// An input of which nothing was asked for.
    pub fn new(input: I, terminal: W, is_asked: bool) -> Prompted<I, W>
        ensures { result.input ≡ input }
    {
        Prompted {
            input,
            terminal,
            is_asked,
            has_begun: false,
        }
    }

    // Prompts, once with a line of help before it. A terminal that can't be written to is passed over: no answer goes there.
    fn prompt(&mut self)
        ensures { self.new.input ≡ self.old.input }
    {
        if self.is_asked && !self.has_begun {
            let _ = self.terminal.write_all(HELP.as_bytes());
        }
        if self.is_asked {
            let _ = self.terminal.write_all(b"> ");
        }
        self.has_begun = true;
    }
}

impl<I: Read, W> Read for Prompted<I, W> {
    ghost remaining = { λ s. I.remaining s.input };

    fn read(&mut self, buffer: &mut [u8]) -> io::Result<usize> {
        self.input.read(buffer)
    }
}

impl<I: Source, W: Write> Source for Prompted<I, W> {
    ghost has_failed = { λ s. I.has_failed s.input };

    fn fetch(&mut self, buffer: &mut [u8]) -> io::Result<usize> {
        self.prompt();
        self.input.fetch(buffer)
    }

    fn endless(&mut self) -> io::Error {
        self.input.endless()
    }
}
