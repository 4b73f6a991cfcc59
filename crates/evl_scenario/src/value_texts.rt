//! The texts of values, as a scenario has them after their keys.
ghost use Rattle.std.specs.Prelude.{Some};

use evl_base::MutexKind;
use std::fmt;

/// A number of 64 bits: in quotes where no integer of TOML is as large, which have 63.
#[derive(Clone, Copy, PartialEq, Eq)]
pub struct Moment(pub u64);

impl fmt::Display for Moment {
    ghost use Rattle.evl_scenario.specs.Writings.{value_text, wide};

    ghost output = { λ moment. Some (value_text (wide moment.0)) };

    fn fmt<W: fmt::Write>(&self, f: &mut fmt::Formatter<W>) -> fmt::Result {
        let number = self.0;
        if number < 9_223_372_036_854_775_808 {
            write!(f, "{number}")
        } else {
            write!(f, "\"{number}\"")
        }
    }
}

/// The date of a deadline, or `"none"`.
#[derive(Clone, Copy, PartialEq, Eq)]
pub struct Until(pub Option<u64>);

impl fmt::Display for Until {
    ghost use Rattle.evl_scenario.specs.Writings.{until_data, value_text};

    ghost output = { λ until. Some (value_text (until_data until.0)) };

    fn fmt<W: fmt::Write>(&self, f: &mut fmt::Formatter<W>) -> fmt::Result {
        match self.0 {
            Some(date) => Moment(date).fmt(f),
            None => write!(f, "\"none\""),
        }
    }
}

/// Bytes as pairs of digits, without quotes; no bytes have no digit. At most 256 bytes.
#[derive(Drop)]
pub struct Digits<'a>(pub &'a [u8]);

impl<'a> fmt::Display for Digits<'a> {
    ghost use Rattle.hex.specs.Hex.{encode_lower};

    ghost output = { λ digits. Some (encode_lower digits.0.now) };

    fn fmt<W: fmt::Write>(&self, f: &mut fmt::Formatter<W>) -> fmt::Result {
        let mut digits = [0u8; 512];
        let Some(text) = digits.get_mut(..2 * self.0.len()) else {
            return Err(fmt::Error);
        };
        match hex::encode_to_slice(self.0, text) {
            Ok(()) => f.write_str(str::from_utf8(text).map_err(|_| fmt::Error)?),
            Err(_) => Err(fmt::Error),
        }
    }
}

/// The kind of a mutex, without quotes.
#[derive(Clone, Copy, PartialEq, Eq)]
pub struct KindText(pub MutexKind);

impl fmt::Display for KindText {
    ghost use Rattle.evl_scenario.specs.Writings.{kind_text};

    ghost output = { λ text. Some (kind_text text.0) };

    fn fmt<W: fmt::Write>(&self, f: &mut fmt::Formatter<W>) -> fmt::Result {
        match self.0 {
            MutexKind::Normal => write!(f, "normal"),
            MutexKind::Recursive => write!(f, "recursive"),
            MutexKind::Ceiling(prio) => write!(f, "ceiling {prio}"),
        }
    }
}
