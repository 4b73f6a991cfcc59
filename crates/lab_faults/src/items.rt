//! The headings and the keys of a scenario's text, and where they are.
ghost use Rattle.std.specs.Prelude.{◌≡◌};
ghost use Rattle.lab_faults.specs.Steps.{bytes_between, unquoted};

/// The section that a key or a heading is in.
#[derive(Clone, Copy, PartialEq, Eq)]
pub enum Section {
    /// Beside the board and the steps.
    Opening,
    Board,
    /// A step, from 1.
    Step(usize),
    /// A table that a scenario doesn't have.
    Other,
}

/// A key with its value, each from a byte up to another.
#[derive(Clone, Copy, PartialEq, Eq)]
pub struct Item {
    pub section: Section,
    pub key: (usize, usize),
    pub value: (usize, usize),
}

/// A heading, and what it begins.
#[derive(Clone, Copy, PartialEq, Eq)]
pub struct Heading {
    pub section: Section,
    pub name: (usize, usize),
}

/// The headings and the keys of a text.
#[derive(Drop)]
pub struct Items {
    pub headings: Vec<Heading>,
    pub items: Vec<Item>,
}

/// The things that a piece of a text can say.
#[derive(Clone, Copy)]
pub enum Entry {
    Heads(Heading),
    /// A key, whose value is still empty.
    Key(Item),
    /// A piece of the last key's value, from a byte up to another.
    Goes((usize, usize)),
    Nothing,
}

/// The text between two bytes; empty where there is none.
pub fn slice(text: &[u8], range: (usize, usize)) -> &[u8]
    ensures { result.now ≡ bytes_between text.now range }
{
    text.get(range.0..range.1).unwrap_or(&[])
}

/// A name without the quotes around it.
pub fn bare(name: &[u8]) -> &[u8]
    ensures { result.now ≡ unquoted name.now }
{
    match name {
        [b'"', inner @ .., b'"'] => inner,
        [b'\'', inner @ .., b'\''] => inner,
        _ => name,
    }
}
