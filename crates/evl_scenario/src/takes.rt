//! Which bits of a flag group a step wants, read from the text that a trace prints.
ghost use Rattle.std.specs.Prelude.{◌≡◌};
ghost use Rattle.evl_scenario.specs.Takes.{mask_of, take_from, take_of};

use crate::values::{FromToml, number_of_text, parts};
use evl_base::Take;
use toml::Value;

// A mask of 32 bits.
fn mask(text: &str) -> Option<u32>
    ensures { result ≡ mask_of text.now }
{
    u32::try_from(number_of_text(text)?).ok()
}

// All bits, or a word and a mask with one space between them.
fn take(text: &str) -> Option<Take>
    ensures { result ≡ take_of text.now }
{
    if text == "any" {
        return Some(Take::Any);
    }
    let (word, bits) = parts(text)?;
    match word {
        "of" => Some(Take::Of(mask(bits)?)),
        "exact" => Some(Take::Exact(mask(bits)?)),
        _ => None,
    }
}

impl FromToml for Take {
    ghost gives = { take_from };

    fn from_toml(value: &Value) -> Option<Take> {
        take(value.as_str()?)
    }
}
