//! The places of a line's parts.
ghost use Rattle.std.specs.Prelude.{◌≡◌, ◌<◌, ◌==◌, ◌++◌, ◌∷◌, [], List, IfOk, IfSome, OnOk, position};
ghost use Rattle.lab_lines.specs.Lines as lines;
ghost use Rattle.lab_lines.specs.Lines.{begun_then, ended_word, lengthened, pair_around, pairs_of, with_rest, words_of};
ghost use Rattle.lab_lines.specs.declared.places.Part.{Part as Word};

use std::alloc::{AllocError, Global};

/// A part of a line, from a byte up to another.
#[derive(Clone, Copy, PartialEq, Eq)]
pub struct Part {
    pub from: usize,
    pub to: usize,
}

/// A key of a line, with its value. The value goes up to the next key, so it may have spaces in it.
#[derive(Clone, Copy, PartialEq, Eq)]
pub struct Pair {
    pub key: Part,
    pub value: Part,
}

/// The bytes of a part.
pub fn bytes_at(line: &[u8], part: Part) -> &[u8]
    ensures { result.now ≡ lines.bytes_at line.now part }
{
    line.get(part.from..part.to).unwrap_or(&[])
}

// The place at which a word goes on after one more byte, and a word more where that ends it.
fn step_over(
    words: &mut Vec<Part>,
    begun: Option<usize>,
    at: usize,
    is_space: bool,
) -> Result<Option<usize>, AllocError>
    ensures words { OnOk result (words.new.items ≡ words.old.items ++ ended_word begun at is_space) }
    ensures begun { IfOk result (λ now. now ≡ begun_then begun at is_space) }
{
    match (begun, is_space) {
        (None, false) => Ok(Some(at)),
        (Some(from), true) => {
            words.push(Part { from, to: at })?;
            Ok(None)
        }
        _ => Ok(begun),
    }
}

/// The words of a line: what is between spaces. `AllocError` where the list couldn't grow.
pub fn words_in(alloc: Global, line: &[u8]) -> Result<Vec<Part>, AllocError>
    ensures { IfOk result (λ words. words.items ≡ words_of line.now) }
{
    let mut words = Vec::new(alloc);
    let mut begun: Option<usize> = None;
    for (at, byte) in line.iter().enumerate() {
        begun = step_over(&mut words, begun, at, *byte == b' ')?;
    }
    step_over(&mut words, begun, line.len(), true)?;
    Ok(words)
}

// The place of the first equals sign.
fn equals_at(bytes: &[u8]) -> Option<usize>
    ensures { result ≡ position (λ c. c == 61) bytes.now }
{
    bytes.iter().position(|byte| *byte == b'=')
}

// The place of the equals sign in a word.
fn equals_in(line: &[u8], word: Part) -> Option<usize>
    ensures place { result ≡ lines.equals_in line.now word }
    ensures within { IfSome result (λ at. at < word.to) }
{
    match equals_at(bytes_at(line, word)) {
        Some(at) => Some(word.from + at),
        None => None,
    }
}

// Adds a key with the beginning of its value.
fn add_pair(pairs: &mut Vec<Pair>, word: Part, at: usize) -> Result<(), AllocError>
    requires { at < word.to }
    ensures { OnOk result (pairs.new.items ≡ pairs.old.items ++ pair_around word.from at word.to ∷ []) }
{
    let key = Part {
        from: word.from,
        to: at,
    };
    let value = Part {
        from: at + 1,
        to: word.to,
    };
    pairs.push(Pair { key, value })?;
    Ok(())
}

// The value of the last pair goes up to this byte.
fn lengthen(pairs: &mut Vec<Pair>, to: usize) -> Result<(), AllocError>
    ensures { OnOk result (pairs.new.items ≡ lengthened to pairs.old.items) }
{
    match pairs.pop() {
        Some(last) => {
            let value = Part {
                from: last.value.from,
                to,
            };
            pairs.push(Pair {
                key: last.key,
                value,
            })?;
            Ok(())
        }
        None => Ok(()),
    }
}

// Adds a word: a key with the beginning of its value, or more of the value before it.
fn add_word(pairs: &mut Vec<Pair>, line: &[u8], word: Part) -> Result<(), AllocError>
    ensures { OnOk result ((rest : List Word) → with_rest line.now pairs.new.items rest ≡ with_rest line.now pairs.old.items (word ∷ rest)) }
{
    match equals_in(line, word) {
        Some(at) => {
            add_pair(pairs, word, at)?;
            Ok(())
        }
        None => {
            lengthen(pairs, word.to)?;
            Ok(())
        }
    }
}

/// The keys of these words with their values. `AllocError` where the list couldn't grow.
pub fn pairs_in(alloc: Global, line: &[u8], words: &[Part]) -> Result<Vec<Pair>, AllocError>
    ensures { IfOk result (λ pairs. pairs.items ≡ pairs_of line.now words.now) }
{
    let mut pairs = Vec::new(alloc);
    for word in words {
        add_word(&mut pairs, line, *word)?;
    }
    Ok(pairs)
}

/// The first of these words, if it is no key.
pub fn odd_word(line: &[u8], words: &[Part]) -> Option<Part>
    ensures { result ≡ lines.odd_word line.now words.now }
{
    match words {
        [first, ..] => match equals_in(line, *first) {
            Some(_) => None,
            None => Some(*first),
        },
        [] => None,
    }
}
