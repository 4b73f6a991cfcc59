//! The values of a scenario, each read from a TOML value.
ghost use Rattle.std.specs.Prelude.{◌≡◌, Option, option_map};
ghost use Rattle.toml.specs.Data.{Data};
ghost use Rattle.toml.specs.View.{view, items_view};
ghost use Rattle.evl_scenario.specs.Values.{number_from, text_number, word_from, half_word_from, byte_from, around_space, past_front, two_sizes, mutex_kind_from, ring_sizes_from, thread_from, stage_from, truth_from, until_from, until_of};

use evl_base::{MutexKind, Stage, ThreadId};
use toml::Value;

/// A value that a TOML value may mean.
pub trait FromToml: Sized {
    /// The meaning of a TOML value, if it has one.
    ghost gives: { Data → Option Self };

    /// The value, where the TOML value means one.
    fn from_toml(value: &Value) -> Option<Self>
        ensures { result ≡ gives (view value.now) };
}

/// The number of 64 bits that a text writes in decimal digits without leading zeros.
pub fn number_of_text(text: &str) -> Option<u64>
    ensures { result ≡ text_number text.now }
{
    match text.parse::<u64>() {
        Ok(number) => {
            if itoa::Buffer::new().format(number) == text {
                Some(number)
            } else {
                None
            }
        }
        Err(_) => None,
    }
}

// The two parts of a text around its first space.
pub(crate) fn parts(text: &str) -> Option<(&str, &str)>
    ensures { option_map (λ parts. (parts.0.now, parts.1.now)) result ≡ around_space text.now }
{
    match text.split_once(' ') {
        Some(parts) => Some(parts),
        None => None,
    }
}

// A TOML integer that isn't negative, or a text of a number.
fn number(value: &Value) -> Option<u64>
    ensures { result ≡ number_from (view value.now) }
{
    match value {
        Value::Integer(number) => u64::try_from(*number).ok(),
        Value::String(text) => number_of_text(text.as_str()),
        _ => None,
    }
}

impl FromToml for u64 {
    ghost gives = { number_from };

    fn from_toml(value: &Value) -> Option<u64> {
        number(value)
    }
}

impl FromToml for u32 {
    ghost gives = { word_from };

    fn from_toml(value: &Value) -> Option<u32> {
        u32::try_from(number(value)?).ok()
    }
}

impl FromToml for u16 {
    ghost gives = { half_word_from };

    fn from_toml(value: &Value) -> Option<u16> {
        u16::try_from(number(value)?).ok()
    }
}

impl FromToml for u8 {
    ghost gives = { byte_from };

    fn from_toml(value: &Value) -> Option<u8> {
        u8::try_from(number(value)?).ok()
    }
}

impl FromToml for ThreadId {
    ghost gives = { thread_from };

    fn from_toml(value: &Value) -> Option<ThreadId> {
        Some(ThreadId(u16::try_from(number(value)?).ok()?))
    }
}

impl FromToml for Stage {
    ghost gives = { stage_from };

    fn from_toml(value: &Value) -> Option<Stage> {
        match value.as_str()? {
            "inband" => Some(Stage::Inband),
            "oob" => Some(Stage::Oob),
            _ => None,
        }
    }
}

impl FromToml for bool {
    ghost gives = { truth_from };

    fn from_toml(value: &Value) -> Option<bool> {
        value.as_bool()
    }
}

// The date of a deadline, or the text that says that there is none.
fn until_of_text(text: &str) -> Option<Option<u64>>
    ensures { result ≡ until_of text.now }
{
    match text {
        "none" => Some(None),
        _ => Some(Some(number_of_text(text)?)),
    }
}

impl FromToml for Option<u64> {
    ghost gives = { until_from };

    fn from_toml(value: &Value) -> Option<Option<u64>> {
        match value {
            Value::String(text) => until_of_text(text.as_str()),
            _ => Some(Some(number(value)?)),
        }
    }
}

// The sizes of the rings of a cross-buffer: that of way `In`, and that of way `Out`.
#[tactic(auto, using(crate::proofs::Sizes::two_sizes_fewer, crate::proofs::Sizes::two_sizes_more))]
fn ring_sizes(values: &[Value]) -> Option<(u16, u16)>
    ensures { result ≡ two_sizes (items_view values.now) }
{
    match values {
        [inbound, outbound] => Some((u16::from_toml(inbound)?, u16::from_toml(outbound)?)),
        _ => None,
    }
}

impl FromToml for (u16, u16) {
    ghost gives = { ring_sizes_from };

    fn from_toml(value: &Value) -> Option<(u16, u16)> {
        ring_sizes(value.as_array()?.as_slice())
    }
}

// The part after this front part of a text.
fn text_after<'a>(front: &str, text: &'a str) -> Option<&'a str>
    ensures { option_map (λ rest. rest.now) result ≡ past_front front.now text.now }
{
    match text.strip_prefix(front) {
        Some(rest) => Some(rest),
        None => None,
    }
}

impl FromToml for MutexKind {
    ghost gives = { mutex_kind_from };

    fn from_toml(value: &Value) -> Option<MutexKind> {
        let text = value.as_str()?;
        match text {
            "normal" => Some(MutexKind::Normal),
            "recursive" => Some(MutexKind::Recursive),
            _ => {
                let prio = number_of_text(text_after("ceiling ", text)?)?;
                Some(MutexKind::Ceiling(u8::try_from(prio).ok()?))
            }
        }
    }
}
