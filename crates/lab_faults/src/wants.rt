//! The keys of steps and of boards, and what value is wanted at each key.
ghost use Rattle.std.specs.Prelude.{◌≡◌, drop, map, option_map, string_bytes, IfOk};
ghost use Rattle.evl_scenario.specs.Steps.{keys_of, word_of};
ghost use Rattle.lab_faults.specs.Faults.{may_lack};
ghost use Rattle.lab_faults.specs.Wants.{board_keys, board_wanted_text, opening_keys, sample_text, wanted_text};

use evl_base::{Kind, MAX_THREADS, kind_named};
use evl_scenario::step_keys_of;
use std::alloc::{AllocError, Global};

const BOARD_KEYS: [&str; 6] = ["threads", "sems", "flags", "xbufs", "mutexes", "groups"];

const OPENING_KEYS: [&str; 3] = ["limit", "board", "step"];

/// The keys of a board.
#[tactic(auto, unfolding(crate::specs::Wants::board_keys))]
pub fn board_keys() -> &'static [&'static str]
    ensures { map (λ key. key.now) result.now ≡ board_keys }
{
    &BOARD_KEYS
}

/// The keys beside the board.
#[tactic(auto, unfolding(crate::specs::Wants::opening_keys))]
pub fn opening_keys() -> &'static [&'static str]
    ensures { map (λ key. key.now) result.now ≡ opening_keys }
{
    &OPENING_KEYS
}

// The keys after the first two.
fn behind_two(keys: &'static [&'static str]) -> &'static [&'static str]
    ensures { result.now ≡ drop 2 keys.now }
{
    keys.get(2..).unwrap_or(&[])
}

// rule: The keys listed for a step's word are those that the reader accepts, without `do` and `who`; `tag`, `until` and
//   `keep` are listed as optional (no clause says that they may be left out).
//   clauses: keys_of; is_optional
/// The keys of a step with this word, but for `do` and `who`; none where there is no such word.
pub fn keys_of(word: &str) -> Option<&'static [&'static str]>
    ensures { option_map (λ keys. map (λ key. key.now) keys.now) result ≡ option_map (drop 2) (option_map keys_of (word_of word.now)) }
{
    Some(behind_two(step_keys_of(word)?))
}

/// Whether a key of a step may be left out.
pub fn is_optional(key: &str) -> bool
    ensures { result ≡ may_lack key.now }
{
    matches!(key, "tag" | "until" | "keep")
}

/// The value that is wanted at a key of a step.
pub fn wanted(key: &str) -> &'static str
    ensures { result.now ≡ wanted_text key.now }
{
    match kind_named(key) {
        Kind::Byte => "a number from 0 to 255",
        Kind::Half => "a number from 0 to 65535",
        Kind::Word => "a number from 0 to 4294967295",
        Kind::Number =>
            "a number from 0 to 18446744073709551615, above 9223372036854775807 as a string",
        Kind::Stage => "\"inband\" or \"oob\"",
        Kind::Policy => "\"fifo PRIO\", \"rr PRIO SLICE\", \"quota GROUP PRIO\" or \"weak PRIO\"",
        Kind::Take => "\"any\", \"of MASK\" or \"exact MASK\"",
        Kind::Way => "\"in\" or \"out\"",
        Kind::Bytes => "a string of two hexadecimal digits for each of at most 256 bytes",
        Kind::Until =>
            "a number from 0 to 18446744073709551615, above 9223372036854775807 as a string, or \"none\"",
        Kind::Truth => "true or false",
    }
}

/// A value that can be at a key of a step.
pub fn sample(key: &str) -> &'static [u8]
    ensures { result.now ≡ sample_text key.now }
{
    match kind_named(key) {
        Kind::Stage => b"\"oob\"",
        Kind::Policy => b"\"fifo 1\"",
        Kind::Take => b"\"any\"",
        Kind::Way => b"\"in\"",
        Kind::Bytes => b"\"00\"",
        Kind::Truth => b"true",
        _ => b"0",
    }
}

/// The value that is wanted at a key of a board, or at `limit`. `AllocError` where memory couldn't grow.
#[tactic(auto, unfolding(crate::specs::Wants::board_wanted_text))]
pub fn board_wanted(alloc: Global, key: &str) -> Result<String, AllocError>
    ensures { IfOk result (λ words. string_bytes words ≡ board_wanted_text key.now) }
{
    match key {
        "threads" => format!(in alloc; "a number from 1 to {MAX_THREADS}"),
        "sems" => format!(in alloc; "a list of at most 64 numbers from 0 to 2147483647"),
        "flags" => format!(in alloc; "a list of at most 64 numbers from 0 to 4294967295"),
        "xbufs" => format!(in alloc; "a list of at most 16 pairs of numbers from 1 to 256"),
        "mutexes" => {
            format!(in alloc;
                "a list of at most 32 of \"normal\", \"recursive\" or \"ceiling PRIO\" with PRIO from 1 to 99"
            )
        }
        "groups" => format!(in alloc; "a list of at most 16 numbers from 1 to 100"),
        _ => format!(in alloc; "a number from 1 to 1000000"),
    }
}
