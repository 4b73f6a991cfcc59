//! The bytes that a step sends through a cross-buffer, and which way, read from the texts of a scenario.
ghost use Rattle.std.specs.Prelude.{◌≡◌};
ghost use Rattle.evl_scenario.specs.Transfers.{bytes_from, bytes_of, way_from};

use crate::values::FromToml;
use arrayvec::ArrayVec;
use evl_base::{Bytes, Way};
use toml::Value;

impl FromToml for Way {
    ghost gives = { way_from };

    fn from_toml(value: &Value) -> Option<Way> {
        match value.as_str()? {
            "in" => Some(Way::In),
            "out" => Some(Way::Out),
            _ => None,
        }
    }
}

// The bytes that a text has two hexadecimal digits for, of either case; at most 256 bytes.
#[tactic(auto)]
fn bytes_in(text: &str) -> Option<Bytes>
    ensures { result ≡ bytes_of text.now }
{
    let mut room = [0u8; 256];
    let half = room.get_mut(..text.len() / 2)?;
    if hex::decode_to_slice(text, half).is_err() {
        return None;
    }
    let mut bytes = ArrayVec::new();
    bytes.try_extend_from_slice(half).unwrap();
    Some(bytes)
}

impl FromToml for Bytes {
    ghost gives = { bytes_from };

    fn from_toml(value: &Value) -> Option<Bytes> {
        bytes_in(value.as_str()?)
    }
}
