//! A call's text in a trace: its word, then each key with its value.
ghost use Rattle.std.specs.Prelude.{Some};

use crate::call::Call;
use crate::calls::{fields_in, step_word};
use crate::fields::{Field, Fields, Named, Until};
use crate::way::Hex;
use std::fmt;

/// The value of a key of a call.
#[derive(Drop)]
struct Shown<'a>(Field<'a>);

impl<'a> fmt::Display for Shown<'a> {
    ghost use Rattle.evl_base.specs.Fields.{seen, value_text};

    ghost output = { λ shown. Some (value_text (seen shown.0)) };

    fn fmt<W: fmt::Write>(&self, f: &mut fmt::Formatter<W>) -> fmt::Result {
        match self.0 {
            Field::Byte(number) => write!(f, "{number}"),
            Field::Half(number) => write!(f, "{number}"),
            Field::Word(number) => write!(f, "{number}"),
            Field::Number(number) => write!(f, "{number}"),
            Field::Stage(stage) => stage.fmt(f),
            Field::Policy(policy) => policy.fmt(f),
            Field::Take(take) => take.fmt(f),
            Field::Way(way) => way.fmt(f),
            Field::Bytes(bytes) => Hex(bytes.as_slice()).fmt(f),
            Field::Until(until) => Until(until).fmt(f),
            Field::Truth(truth) => write!(f, "{truth}"),
        }
    }
}

/// A key of a call with its value.
#[derive(Drop)]
struct Pair<'a>(Named<'a>);

impl<'a> fmt::Display for Pair<'a> {
    ghost use Rattle.std.specs.Prelude.{◌∷◌, []};
    ghost use Rattle.evl_base.specs.Fields.{keys_text, told_of};

    ghost output = { λ pair. Some (keys_text (told_of pair.0 ∷ [])) };

    fn fmt<W: fmt::Write>(&self, f: &mut fmt::Formatter<W>) -> fmt::Result {
        let key = self.0.key;
        let value = Shown(self.0.field);
        write!(f, " {key}={value}")
    }
}

/// The keys of a call.
#[derive(Drop)]
struct Pairs<'a>(Fields<'a>);

impl<'a> fmt::Display for Pairs<'a> {
    ghost use Rattle.evl_base.specs.Fields.{all_told, keys_text};

    ghost output = { λ pairs. Some (keys_text (all_told pairs.0)) };

    fn fmt<W: fmt::Write>(&self, f: &mut fmt::Formatter<W>) -> fmt::Result {
        match self.0 {
            Fields::Zero => Ok(()),
            Fields::One(first) => Pair(first).fmt(f),
            Fields::Two(first, second) => {
                let first = Pair(first);
                let second = Pair(second);
                write!(f, "{first}{second}")
            }
            Fields::Three(first, second, third) => {
                let first = Pair(first);
                let second = Pair(second);
                let third = Pair(third);
                write!(f, "{first}{second}{third}")
            }
            Fields::Four(first, second, third, fourth) => {
                let first = Pair(first);
                let second = Pair(second);
                let third = Pair(third);
                let fourth = Pair(fourth);
                write!(f, "{first}{second}{third}{fourth}")
            }
        }
    }
}

impl fmt::Display for Call {
    ghost use Rattle.evl_base.specs.Call.{call_text};

    ghost output = { λ call. Some (call_text call) };

    fn fmt<W: fmt::Write>(&self, f: &mut fmt::Formatter<W>) -> fmt::Result {
        let word = step_word(self);
        let keys = Pairs(fields_in(self));
        write!(f, "{word}{keys}")
    }
}
