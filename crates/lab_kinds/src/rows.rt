//! The rows of a bank's callbacks that keys stand in.
ghost use Rattle.std.specs.Prelude.{◌≡◌, ◌<◌, ◌++◌, IfOk, OnOk, drop};
ghost use Rattle.lab_faults.specs.Keys.{first_kind, is_equals};
ghost use Rattle.lab_kinds.specs.Banks as banks;
ghost use Rattle.lab_kinds.specs.Banks.{row_told, rows_from, rows_of};
ghost use Rattle.lab_kinds.specs.declared.rows.Braces.{Braces};

use lab_faults::{Kind, Token, tokens_of};
use std::alloc::{AllocError, Global};

/// How many braces are open, and how many rows were begun since the last key outside them.
#[derive(Clone, Copy, PartialEq, Eq)]
pub struct Braces {
    pub depth: usize,
    pub row: usize,
}

// The kind of a piece; where the text ends, the line does.
fn kind_at(pieces: &[Token], index: usize) -> Kind
    ensures { result ≡ first_kind (drop index pieces.now) }
{
    match pieces.get(index) {
        Some(piece) => piece.kind,
        None => Kind::EndLine,
    }
}

// The row of what is within braces; 0 outside them.
fn row_within(braces: Braces) -> usize
    ensures { result ≡ banks.row_within braces }
{
    if braces.depth == 0 { 0 } else { braces.row }
}

// The row after a brace, which begins one outside all others.
fn row_begun(braces: Braces) -> usize
    requires { braces.row < 9223372036854775808 }
    ensures { result ≡ banks.row_begun braces }
{
    if braces.depth == 0 {
        braces.row + 1
    } else {
        braces.row
    }
}

fn is_equals(kind: Kind) -> bool
    ensures { result ≡ is_equals kind }
{
    matches!(kind, Kind::Equals)
}

// After a word before a piece of the next kind.
fn behind_word(braces: Braces, next: Kind) -> Braces
    ensures { result ≡ banks.behind_word braces next }
{
    if is_equals(next) {
        return Braces {
            row: row_within(braces),
            ..braces
        };
    }
    braces
}

// After a piece before one of the next kind.
fn behind_piece(braces: Braces, kind: Kind, next: Kind) -> Braces
    requires depth { braces.depth < 9223372036854775808 }
    requires row { braces.row < 9223372036854775808 }
    ensures { result ≡ banks.behind_piece braces kind next }
{
    match kind {
        Kind::Brace => Braces {
            depth: braces.depth + 1,
            row: row_begun(braces),
        },
        Kind::EndBrace => Braces {
            depth: braces.depth.saturating_sub(1),
            ..braces
        },
        Kind::Word => behind_word(braces, next),
        _ => braces,
    }
}

// Notes the row of a word that is a key.
fn note_word(rows: &mut Vec<usize>, braces: Braces, next: Kind) -> Result<(), AllocError>
    ensures { OnOk result (rows.new.items ≡ rows.old.items ++ banks.word_row braces next) }
{
    if is_equals(next) {
        rows.push(row_within(braces))?;
    }
    Ok(())
}

// Notes the row of a piece that is one.
fn note_row(rows: &mut Vec<usize>, braces: Braces, kind: Kind, next: Kind) -> Result<(), AllocError>
    ensures { OnOk result (rows.new.items ≡ rows.old.items ++ row_told braces kind next) }
{
    match kind {
        Kind::Word => note_word(rows, braces, next),
        _ => Ok(()),
    }
}

// The rows of the keys among pieces of a text.
fn rows_in(alloc: Global, pieces: &[Token]) -> Result<Vec<usize>, AllocError>
    ensures { IfOk result (λ rows. rows.items ≡ rows_from (record { depth = 0; row = 0 }) pieces.now) }
{
    let mut rows = Vec::new(alloc);
    let mut braces = Braces { depth: 0, row: 0 };
    for (index, piece) in pieces.iter().enumerate() {
        let next = kind_at(pieces, index + 1);
        note_row(&mut rows, braces, piece.kind, next)?;
        braces = behind_piece(braces, piece.kind, next);
    }
    Ok(rows)
}

/// The row that each key of a text is in, from 1; 0 outside braces. `AllocError` where the list couldn't grow.
#[tactic(auto, unfolding(crate::specs::Banks::rows_of))]
pub fn rows_of(alloc: Global, text: &[u8]) -> Result<Vec<usize>, AllocError>
    ensures { IfOk result (λ rows. rows.items ≡ rows_of text.now) }
{
    let pieces = tokens_of(alloc, text)?;
    rows_in(alloc, pieces.as_slice())
}
