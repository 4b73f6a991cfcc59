//! The pieces that a TOML text is made of, as far as places in it need them.
ghost use Rattle.std.specs.Prelude.{◌≡◌, ℕ, ◌+◌, ◌<◌, false, List, [], ◌∷◌, ◌++◌, IfOk, OnOk};
ghost use Rattle.lab_faults.specs.Pieces as pieces;
ghost use Rattle.lab_faults.specs.Pieces.{begun_word, token_marked, pieces_from, to_come};

use std::alloc::{AllocError, Global};

/// The kind of a piece.
#[derive(Clone, Copy, PartialEq, Eq)]
pub enum Kind {
    /// A text between quotes, or anything else without a mark in it.
    Word,
    Equals,
    Comma,
    Bracket,
    EndBracket,
    Brace,
    EndBrace,
    EndLine,
}

/// A piece of a text, from a byte up to another.
#[derive(Clone, Copy, PartialEq, Eq)]
pub struct Token {
    pub kind: Kind,
    pub from: usize,
    pub to: usize,
}

// The part of a text that its reading is in.
#[derive(Clone, Copy)]
enum Reading {
    // Outside quotes and comments, in a word that may have begun.
    Plain(Option<usize>),
    Quoted {
        from: usize,
        quote: u8,
        escaped: bool,
    },
    Comment,
}

// The kind of a byte by itself.
fn mark(byte: u8) -> Option<Kind>
    ensures { result ≡ pieces.mark byte }
{
    match byte {
        b'=' => Some(Kind::Equals),
        b',' => Some(Kind::Comma),
        b'[' => Some(Kind::Bracket),
        b']' => Some(Kind::EndBracket),
        b'{' => Some(Kind::Brace),
        b'}' => Some(Kind::EndBrace),
        b'\n' => Some(Kind::EndLine),
        _ => None,
    }
}

fn is_quote(byte: u8) -> bool
    ensures { result ≡ pieces.is_quote byte }
{
    byte == b'"' || byte == b'\''
}

fn is_blank(byte: u8) -> bool
    ensures { result ≡ pieces.is_blank byte }
{
    byte == b' ' || byte == b'\t' || byte == b'\r'
}

// Whether a byte is one of a word.
fn is_plain(byte: u8) -> bool
    ensures { result ≡ pieces.is_plain byte }
{
    !(mark(byte).is_some() || is_quote(byte) || byte == b'#' || is_blank(byte))
}

// Ends the word that is being read, where there is one.
fn end_word(tokens: &mut Vec<Token>, begun: Option<usize>, to: usize) -> Result<(), AllocError>
    ensures { OnOk result (tokens.new.items ≡ tokens.old.items ++ pieces.token_ended begun to) }
{
    if let Some(from) = begun {
        tokens.push(Token {
            kind: Kind::Word,
            from,
            to,
        })?;
    }
    Ok(())
}

// Notes a byte that is by itself, where it is one.
fn note_mark(tokens: &mut Vec<Token>, at: usize, byte: u8) -> Result<(), AllocError>
    requires { at < 9223372036854775808 }
    ensures { OnOk result (tokens.new.items ≡ tokens.old.items ++ token_marked at (pieces.mark byte)) }
{
    if let Some(kind) = mark(byte) {
        tokens.push(Token {
            kind,
            from: at,
            to: at + 1,
        })?;
    }
    Ok(())
}

// Reads a byte outside words, quotes and comments, which is of no word.
fn read_mark(tokens: &mut Vec<Token>, at: usize, byte: u8) -> Result<Reading, AllocError>
    requires within { at < 9223372036854775808 }
    requires other { pieces.is_plain byte ≡ false }
    ensures { IfOk result (λ next. (rest : List ℕ) → tokens.old.items ++ pieces_from at 0 (byte ∷ rest) ≡ tokens.new.items ++ to_come next (at + 1) rest) }
{
    if is_quote(byte) {
        return Ok(Reading::Quoted {
            from: at,
            quote: byte,
            escaped: false,
        });
    }
    if byte == b'#' {
        return Ok(Reading::Comment);
    }
    note_mark(tokens, at, byte)?;
    Ok(Reading::Plain(None))
}

// Reads a byte that is outside quotes and comments.
fn read_plain(
    tokens: &mut Vec<Token>,
    begun: Option<usize>,
    at: usize,
    byte: u8,
) -> Result<Reading, AllocError>
    requires { at < 9223372036854775808 }
    ensures { IfOk result (λ next. (rest : List ℕ) → tokens.old.items ++ begun_word begun at (byte ∷ rest) ≡ tokens.new.items ++ to_come next (at + 1) rest) }
{
    if is_plain(byte) {
        return Ok(Reading::Plain(Some(begun.unwrap_or(at))));
    }
    end_word(tokens, begun, at)?;
    read_mark(tokens, at, byte)
}

// Whether a byte closes a quoted text.
fn closes(quote: u8, escaped: bool, byte: u8) -> bool
    ensures { result ≡ pieces.closes quote escaped byte }
{
    !escaped && byte == quote
}

// Whether a byte of a quoted text escapes the next one.
fn escapes(quote: u8, escaped: bool, byte: u8) -> bool
    ensures { result ≡ pieces.escapes quote escaped byte }
{
    !escaped && quote == b'"' && byte == b'\\'
}

// Reads a byte of a quoted text.
fn read_quoted(
    tokens: &mut Vec<Token>,
    from: usize,
    quote: u8,
    escaped: bool,
    at: usize,
    byte: u8,
) -> Result<Reading, AllocError>
    requires { at < 9223372036854775808 }
    ensures { IfOk result (λ next. (rest : List ℕ) → tokens.old.items ++ to_come (Reading.Quoted from quote escaped) at (byte ∷ rest) ≡ tokens.new.items ++ to_come next (at + 1) rest) }
{
    if closes(quote, escaped, byte) {
        end_word(tokens, Some(from), at + 1)?;
        return Ok(Reading::Plain(None));
    }
    Ok(Reading::Quoted {
        from,
        quote,
        escaped: escapes(quote, escaped, byte),
    })
}

// Reads a byte of a comment.
fn read_comment(tokens: &mut Vec<Token>, at: usize, byte: u8) -> Result<Reading, AllocError>
    requires { at < 9223372036854775808 }
    ensures { IfOk result (λ next. (rest : List ℕ) → tokens.old.items ++ to_come Reading.Comment at (byte ∷ rest) ≡ tokens.new.items ++ to_come next (at + 1) rest) }
{
    if byte == b'\n' {
        read_mark(tokens, at, byte)
    } else {
        Ok(Reading::Comment)
    }
}

// Reads a byte.
fn read_byte(
    tokens: &mut Vec<Token>,
    reading: Reading,
    at: usize,
    byte: u8,
) -> Result<Reading, AllocError>
    requires { at < 9223372036854775808 }
    ensures { IfOk result (λ next. (rest : List ℕ) → tokens.old.items ++ to_come reading at (byte ∷ rest) ≡ tokens.new.items ++ to_come next (at + 1) rest) }
{
    match reading {
        Reading::Plain(begun) => read_plain(tokens, begun, at, byte),
        Reading::Quoted {
            from,
            quote,
            escaped,
        } => read_quoted(tokens, from, quote, escaped, at, byte),
        Reading::Comment => read_comment(tokens, at, byte),
    }
}

// Ends the piece that is being read, where the text ends.
fn end_reading(tokens: &mut Vec<Token>, reading: Reading, to: usize) -> Result<(), AllocError>
    ensures { OnOk result (tokens.new.items ≡ tokens.old.items ++ to_come reading to []) }
{
    match reading {
        Reading::Plain(begun) => end_word(tokens, begun, to),
        Reading::Quoted { .. } => Ok(()),
        Reading::Comment => Ok(()),
    }
}

/// The pieces of a text, in order. `AllocError` where the list couldn't grow.
pub fn tokens_of(alloc: Global, text: &[u8]) -> Result<Vec<Token>, AllocError>
    ensures { IfOk result (λ found. found.items ≡ pieces.pieces text.now) }
{
    let mut tokens = Vec::new(alloc);
    let mut reading = Reading::Plain(None);
    for (at, byte) in text.iter().enumerate() {
        reading = read_byte(&mut tokens, reading, at, *byte)?;
    }
    end_reading(&mut tokens, reading, text.len())?;
    Ok(tokens)
}
