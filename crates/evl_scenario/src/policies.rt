//! The policies of a scenario, each read from the text that a trace prints.
ghost use Rattle.std.specs.Prelude.{◌≡◌};
ghost use Rattle.evl_scenario.specs.Policies.{policy_from, policy_of, small_number};

use crate::values::{FromToml, number_of_text, parts};
use evl_base::Policy;
use toml::Value;

// A priority.
fn prio(text: &str) -> Option<u8>
    ensures { result ≡ small_number text.now }
{
    u8::try_from(number_of_text(text)?).ok()
}

// A policy: its word, and its numbers, with one space between two of them.
fn policy(text: &str) -> Option<Policy>
    ensures { result ≡ policy_of text.now }
{
    let (word, numbers) = parts(text)?;
    match word {
        "fifo" => Some(Policy::Fifo(prio(numbers)?)),
        "rr" => {
            let (first, slice) = parts(numbers)?;
            Some(Policy::Rr {
                prio: prio(first)?,
                slice: number_of_text(slice)?,
            })
        }
        "quota" => {
            let (group, last) = parts(numbers)?;
            Some(Policy::Quota {
                group: u16::try_from(number_of_text(group)?).ok()?,
                prio: prio(last)?,
            })
        }
        "weak" => Some(Policy::Weak(prio(numbers)?)),
        _ => None,
    }
}

impl FromToml for Policy {
    ghost gives = { policy_from };

    fn from_toml(value: &Value) -> Option<Policy> {
        policy(value.as_str()?)
    }
}
