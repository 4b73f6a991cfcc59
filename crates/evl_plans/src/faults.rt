//! Why a text is no bank.
use std::fmt;

/// The part of a callback that can't be read.
#[derive(Clone, Copy, PartialEq, Eq)]
pub enum Part {
    /// It is no table, has a key but `accepts` and `do`, or is more than the 64th.
    Keys,
    /// `accepts` isn't a number from 1 to 18446744073709551615.
    Accepts,
    /// `do` isn't a list.
    Rows,
    /// The row with this number, from 1, can't be read, or is more than the fourth.
    Row(usize),
}

impl fmt::Display for Part {
    fn fmt<W: fmt::Write>(&self, f: &mut fmt::Formatter<W>) -> fmt::Result {
        match self {
            Part::Keys => write!(
                f,
                "a table with no keys but accepts and do is wanted, at most 64 of them"
            ),
            Part::Accepts => write!(
                f,
                "accepts: a number from 1 to 18446744073709551615 is wanted"
            ),
            Part::Rows => write!(f, "do: a list of at most four rows is wanted"),
            Part::Row(number) => write!(
                f,
                "do: row {number} isn't one of at most four, with every (1 or more) and one of post_sem, post_flags and bits, propagate, post_oob, stop_timer"
            ),
        }
    }
}

/// Why a text is no bank.
#[derive(Clone, Copy, PartialEq, Eq)]
pub enum BankFault {
    /// The text isn't UTF-8, or is no TOML document.
    Text,
    /// The document has a key but `callback`, or no list is there.
    Document,
    /// The first callback that can't be read, by its number, from 0, and the part that can't.
    Callback(usize, Part),
    /// A growth was refused.
    Memory,
}

impl fmt::Display for BankFault {
    fn fmt<W: fmt::Write>(&self, f: &mut fmt::Formatter<W>) -> fmt::Result {
        match self {
            BankFault::Text => write!(f, "no TOML in UTF-8"),
            BankFault::Document => write!(f, "tables [[callback]] are wanted, and nothing else"),
            BankFault::Callback(number, part) => write!(f, "callback {number}: {part}"),
            BankFault::Memory => write!(f, "no memory"),
        }
    }
}
