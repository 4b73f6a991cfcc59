//! A fault that was found.
ghost use Rattle.std.specs.Prelude.{◌≡◌, true, [], ◌∷◌, string_bytes, OnOk, Some};
ghost use Rattle.lab_faults.specs.Faults.{are_of_steps, is_of_step};
ghost use Rattle.lab_faults.specs.Told.{Adds, place_at, told_at};

use evl_scenario::Fault;
use std::alloc::AllocError;
use std::fmt;

/// A place in a text: the line, from 1, and the byte in it, from 1.
#[derive(Clone, Copy, PartialEq, Eq)]
pub struct Place {
    pub line: usize,
    pub column: usize,
}

impl fmt::Display for Place {
    ghost use Rattle.lab_faults.specs.Faults.{place_text};

    ghost output = { λ place. Some (place_text place) };

    fn fmt<W: fmt::Write>(&self, f: &mut fmt::Formatter<W>) -> fmt::Result {
        let Place { line, column } = *self;
        write!(f, "{line}:{column}")
    }
}

/// A fault of a scenario's text: of which kind it is, where it is, and what is said of it.
#[derive(Drop)]
pub struct Found {
    pub fault: Fault,
    pub place: Place,
    pub words: String,
}

// rule: A byte's place is its line, one more than the line feeds before it, and its byte in that line.
/// The place of a byte of a text.
#[tactic(auto, unfolding(crate::specs::Told::place_at))]
pub fn place_of(text: &[u8], at: usize) -> Place
    ensures { result ≡ place_at text.now at }
{
    let before = text.get(..at).unwrap_or(text);
    let mut place = Place { line: 1, column: 1 };
    for byte in before {
        if *byte == b'\n' {
            place = Place {
                line: place.line + 1,
                column: 1,
            };
        } else {
            place.column += 1;
        }
    }
    place
}

/// The faults that were found so far, and the text that they are found in.
#[derive(Drop)]
pub struct Finding<'a> {
    pub text: &'a [u8],
    pub found: Vec<Found>,
}

impl<'a> Finding<'a> {
    /// Notes a fault at a byte. `AllocError` where the list couldn't grow.
    pub fn note(&mut self, fault: Fault, at: usize, words: String) -> Result<(), AllocError>
        ensures told { OnOk result (Adds self.old self.new (told_at self.old.text.now fault at (string_bytes words) ∷ [])) }
        ensures steps { OnOk result (is_of_step fault ≡ true → are_of_steps self.old.found.items ≡ true → are_of_steps self.new.found.items ≡ true) }
    {
        let place = place_of(self.text, at);
        self.found.push(Found {
            fault,
            place,
            words,
        })?;
        Ok(())
    }
}
