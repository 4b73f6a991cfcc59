//! Durations: `2ms`, `1.5ms`, `300us`, `20ns`, `1s`, or a number of nanoseconds.

use crate::faults::FaultKind;
use evl_scenario::{FromToml, number_of_text};
use toml::Value;

// How many nanoseconds it has, and how many digits a fraction of it may have.
#[derive(Clone, Copy)]
struct Unit {
    nanoseconds: u64,
    digits: usize,
}

const NANOSECOND: Unit = Unit {
    nanoseconds: 1,
    digits: 0,
};

const MICROSECOND: Unit = Unit {
    nanoseconds: 1_000,
    digits: 3,
};

const MILLISECOND: Unit = Unit {
    nanoseconds: 1_000_000,
    digits: 6,
};

const SECOND: Unit = Unit {
    nanoseconds: 1_000_000_000,
    digits: 9,
};

// The number in front of a unit's name, and the unit. `s` comes last, since it ends the other names too.
fn number_and_unit(text: &str) -> Option<(&str, Unit)> {
    if let Some(number) = text.strip_suffix("ns") {
        return Some((number, NANOSECOND));
    }
    if let Some(number) = text.strip_suffix("us") {
        return Some((number, MICROSECOND));
    }
    if let Some(number) = text.strip_suffix("ms") {
        return Some((number, MILLISECOND));
    }
    match text.strip_suffix("s") {
        Some(number) => Some((number, SECOND)),
        None => None,
    }
}

// The value of decimal digits, of which there is one at least and at most as many as the unit has, each worth a tenth of
// the one before; the first is worth a tenth of the unit.
fn fraction_of(digits: &str, unit: Unit) -> Option<u64> {
    if digits.is_empty() || digits.len() > unit.digits {
        return None;
    }
    let mut worth = unit.nanoseconds;
    let mut sum: u64 = 0;
    for digit in digits.as_bytes() {
        if *digit < b'0' || *digit > b'9' {
            return None;
        }
        worth /= 10;
        sum = sum.saturating_add(worth.saturating_mul(u64::from(*digit - b'0')));
    }
    Some(sum)
}

// So many units.
fn whole_of(digits: &str, unit: Unit) -> Option<u64> {
    number_of_text(digits)?.checked_mul(unit.nanoseconds)
}

// So many units, with a fraction or without.
fn units_of(number: &str, unit: Unit) -> Option<u64> {
    match number.split_once('.') {
        Some((whole, fraction)) => {
            whole_of(whole, unit)?.checked_add(fraction_of(fraction, unit)?)
        }
        None => whole_of(number, unit),
    }
}

// The nanoseconds that a text names.
fn nanoseconds_of(text: &str) -> Option<u64> {
    let (number, unit) = number_and_unit(text)?;
    units_of(number, unit)
}

/// The nanoseconds that a text names, below 2^64: a number with a unit. `NoUnit` where it is a number alone, else
/// `Value` where it is no duration.
pub fn duration_of(text: &str) -> Result<u64, FaultKind> {
    if number_of_text(text).is_some() {
        return Err(FaultKind::NoUnit);
    }
    match nanoseconds_of(text) {
        Some(time) => Ok(time),
        None => Err(FaultKind::Value),
    }
}

/// As `duration_of`, of a TOML value: a text, or an integer of nanoseconds that isn't negative.
pub fn duration_from(value: &Value) -> Result<u64, FaultKind> {
    match value {
        Value::String(text) => duration_of(text.as_str()),
        _ => match u64::from_toml(value) {
            Some(time) => Ok(time),
            None => Err(FaultKind::Value),
        },
    }
}
