//! The keys of a step's call, as a scenario has them: each with its value on a line of its own.
ghost use Rattle.std.specs.Prelude.{Some};

use crate::value_texts::{Digits, Moment, Until};
use evl_base::{Field, Fields, Named};
use std::fmt;

/// The value of a key of a call.
#[derive(Drop)]
struct Written<'a>(Field<'a>);

impl<'a> fmt::Display for Written<'a> {
    ghost use Rattle.evl_base.specs.Fields.{seen};
    ghost use Rattle.evl_scenario.specs.Writings.{data_of, value_text};

    ghost output = { λ written. Some (value_text (data_of (seen written.0))) };

    fn fmt<W: fmt::Write>(&self, f: &mut fmt::Formatter<W>) -> fmt::Result {
        match self.0 {
            Field::Byte(number) => write!(f, "{number}"),
            Field::Half(number) => write!(f, "{number}"),
            Field::Word(number) => write!(f, "{number}"),
            Field::Number(number) => Moment(number).fmt(f),
            Field::Stage(stage) => write!(f, "\"{stage}\""),
            Field::Policy(policy) => write!(f, "\"{policy}\""),
            Field::Take(take) => write!(f, "\"{take}\""),
            Field::Way(way) => write!(f, "\"{way}\""),
            Field::Bytes(bytes) => {
                let digits = Digits(bytes.as_slice());
                write!(f, "\"{digits}\"")
            }
            Field::Until(until) => Until(until).fmt(f),
            Field::Truth(truth) => write!(f, "{truth}"),
        }
    }
}

/// A key of a call with what comes after it.
#[derive(Drop)]
struct Line<'a>(Named<'a>);

impl<'a> fmt::Display for Line<'a> {
    ghost use Rattle.std.specs.Prelude.{◌∷◌, []};
    ghost use Rattle.evl_base.specs.Fields.{told_of};
    ghost use Rattle.evl_scenario.specs.Writings.{pair_of, pairs_text};

    ghost output = { λ line. Some (pairs_text (pair_of (told_of line.0) ∷ [])) };

    fn fmt<W: fmt::Write>(&self, f: &mut fmt::Formatter<W>) -> fmt::Result {
        let key = self.0.key;
        let value = Written(self.0.field);
        write!(f, "{key} = {value}\n")
    }
}

/// The keys of a call.
#[derive(Drop)]
pub struct Lines<'a>(pub Fields<'a>);

impl<'a> fmt::Display for Lines<'a> {
    ghost use Rattle.std.specs.Prelude.{map};
    ghost use Rattle.evl_base.specs.Fields.{all_told};
    ghost use Rattle.evl_scenario.specs.Writings.{pair_of, pairs_text};

    ghost output = { λ lines. Some (pairs_text (map pair_of (all_told lines.0))) };

    fn fmt<W: fmt::Write>(&self, f: &mut fmt::Formatter<W>) -> fmt::Result {
        match self.0 {
            Fields::Zero => Ok(()),
            Fields::One(first) => Line(first).fmt(f),
            Fields::Two(first, second) => {
                let first = Line(first);
                let second = Line(second);
                write!(f, "{first}{second}")
            }
            Fields::Three(first, second, third) => {
                let first = Line(first);
                let second = Line(second);
                let third = Line(third);
                write!(f, "{first}{second}{third}")
            }
            Fields::Four(first, second, third, fourth) => {
                let first = Line(first);
                let second = Line(second);
                let third = Line(third);
                let fourth = Line(fourth);
                write!(f, "{first}{second}{third}{fourth}")
            }
        }
    }
}
