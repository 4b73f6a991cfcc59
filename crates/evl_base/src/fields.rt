//! The fields of a call: each key with its value, and how a trace writes it.
ghost use Rattle.std.specs.Prelude.{◌≡◌, Some};
ghost use Rattle.evl_base.specs.Fields.{kind_named};

use crate::policy::Policy;
use crate::stage::Stage;
use crate::take::Take;
use crate::transfer::Transfer;
use crate::way::Way;
use std::fmt;

/// The kinds of the values of the keys of calls: numbers of 8, 16, 32 and 64 bits, what else is in texts, the
/// date of a deadline, and truth.
#[derive(Clone, Copy, PartialEq, Eq)]
pub enum Kind {
    Byte,
    Half,
    Word,
    Number,
    Stage,
    Policy,
    Take,
    Way,
    Bytes,
    Until,
    Truth,
}

/// The kind of the value of a key of this name, in each call that has it.
#[tactic(auto, unfolding(crate::specs::Fields::kind_named))]
pub fn kind_named(key: &str) -> Kind
    ensures { result ≡ kind_named key.now }
{
    match key {
        "callback" => Kind::Byte,
        "tag" | "bits" => Kind::Word,
        "delta" | "date" | "interval" => Kind::Number,
        "stage" => Kind::Stage,
        "policy" => Kind::Policy,
        "kind" => Kind::Take,
        "way" => Kind::Way,
        "bytes" => Kind::Bytes,
        "until" => Kind::Until,
        "keep" => Kind::Truth,
        _ => Kind::Half,
    }
}

/// The value of a key of a call, by its kind.
#[derive(Clone, Copy)]
pub enum Field<'a> {
    Byte(u8),
    Half(u16),
    Word(u32),
    Number(u64),
    Stage(Stage),
    Policy(Policy),
    Take(Take),
    Way(Way),
    Bytes(&'a Transfer),
    Until(Option<u64>),
    Truth(bool),
}

/// A key of a call with its value.
#[derive(Clone, Copy)]
pub struct Named<'a> {
    pub key: &'static str,
    pub field: Field<'a>,
}

/// The keys of a call, at most four.
#[derive(Clone, Copy)]
pub enum Fields<'a> {
    Zero,
    One(Named<'a>),
    Two(Named<'a>, Named<'a>),
    Three(Named<'a>, Named<'a>, Named<'a>),
    Four(Named<'a>, Named<'a>, Named<'a>, Named<'a>),
}

// The date of a deadline, or `none`.
#[derive(Drop)]
pub(crate) struct Until(pub Option<u64>);

impl fmt::Display for Until {
    ghost use Rattle.evl_base.specs.Fields.{until_text};

    ghost output = { λ until. Some (until_text until.0) };

    fn fmt<W: fmt::Write>(&self, f: &mut fmt::Formatter<W>) -> fmt::Result {
        match self.0 {
            Some(date) => write!(f, "{date}"),
            None => write!(f, "none"),
        }
    }
}
