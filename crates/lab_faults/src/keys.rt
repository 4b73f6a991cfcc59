//! The headings and the keys of a text, put together from what its pieces say.
ghost use Rattle.std.specs.Prelude.{◌≡◌, ◌∷◌, ◌++◌, List, drop, option_map, IfOk, OnOk};
ghost use Rattle.std.specs.Option.{option_to_list};
ghost use Rattle.lab_faults.specs.Keys as keys;
ghost use Rattle.lab_faults.specs.Keys.{entries, headings_in, keys_in, keys_to_come, text_headings, text_keys, up_to};
ghost use Rattle.lab_faults.specs.declared.items.Entry.{Entry};
ghost use Rattle.lab_faults.specs.declared.items.Item.{Item};

use crate::items::{Entry, Item, Items};
use crate::standings::{behind, entry, opening};
use crate::tokens::{Kind, Token, tokens_of};
use std::alloc::{AllocError, Global};

// The kind of a piece; where the text ends, the line does.
fn kind_at(tokens: &[Token], index: usize) -> Kind
    ensures { result ≡ keys.first_kind (drop index tokens.now) }
{
    match tokens.get(index) {
        Some(token) => token.kind,
        None => Kind::EndLine,
    }
}

// A value with one more of its pieces.
fn up_to(value: (usize, usize), piece: (usize, usize)) -> (usize, usize)
    ensures { result ≡ keys.up_to value piece }
{
    if value.0 == value.1 {
        piece
    } else {
        (value.0, piece.1)
    }
}

// A key with one more piece of its value.
fn grown(last: Option<Item>, piece: (usize, usize)) -> Option<Item>
    ensures { result ≡ option_map (λ (item : Item). record item { value = up_to item.value piece }) last }
{
    match last {
        Some(item) => Some(Item {
            value: up_to(item.value, piece),
            ..item
        }),
        None => None,
    }
}

// Notes the key whose value ends, where there is one.
fn note_key(found: &mut Items, last: Option<Item>) -> Result<(), AllocError>
    ensures headings { OnOk result (found.new.headings.items ≡ found.old.headings.items) }
    ensures keys { OnOk result (found.new.items.items ≡ found.old.items.items ++ option_to_list last) }
{
    if let Some(item) = last {
        found.items.push(item)?;
    }
    Ok(())
}

// Notes what a piece says. The last key is noted once its value ends.
fn note(found: &mut Items, last: Option<Item>, entry: Entry) -> Result<Option<Item>, AllocError>
    ensures headings { IfOk result (λ next. (rest : List Entry) → found.old.headings.items ++ headings_in (entry ∷ rest) ≡ found.new.headings.items ++ headings_in rest) }
    ensures keys { IfOk result (λ next. (rest : List Entry) → found.old.items.items ++ keys_to_come last (entry ∷ rest) ≡ found.new.items.items ++ keys_to_come next rest) }
{
    match entry {
        Entry::Heads(heading) => {
            found.headings.push(heading)?;
            Ok(last)
        }
        Entry::Key(item) => {
            note_key(found, last)?;
            Ok(Some(item))
        }
        Entry::Goes(piece) => Ok(grown(last, piece)),
        Entry::Nothing => Ok(last),
    }
}

// The headings and the keys that pieces of a text give.
fn gathered(alloc: Global, text: &[u8], pieces: &[Token]) -> Result<Items, AllocError>
    ensures headings { IfOk result (λ found. found.headings.items ≡ headings_in (entries text.now keys.opening pieces.now)) }
    ensures keys { IfOk result (λ found. found.items.items ≡ keys_in (entries text.now keys.opening pieces.now)) }
{
    let mut found = Items {
        headings: Vec::new(alloc),
        items: Vec::new(alloc),
    };
    let mut last = None;
    let mut standing = opening();
    for (index, piece) in pieces.iter().enumerate() {
        let next = kind_at(pieces, index + 1);
        last = note(&mut found, last, entry(text, standing, *piece, next))?;
        standing = behind(text, standing, *piece, next);
    }
    note_key(&mut found, last)?;
    Ok(found)
}

/// The headings and the keys of a text. `AllocError` where a list couldn't grow.
#[tactic(auto, unfolding(crate::specs::Keys::text_headings, crate::specs::Keys::text_keys))]
pub fn items_of(alloc: Global, text: &[u8]) -> Result<Items, AllocError>
    ensures headings { IfOk result (λ found. found.headings.items ≡ text_headings text.now) }
    ensures keys { IfOk result (λ found. found.items.items ≡ text_keys text.now) }
{
    let pieces = tokens_of(alloc, text)?;
    gathered(alloc, text, pieces.as_slice())
}
