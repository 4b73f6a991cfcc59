//! The places of a text's pieces, and what each of them says.
ghost use Rattle.std.specs.Prelude.{◌≡◌, ◌<◌, if◌then◌else◌, Some};
ghost use Rattle.lab_faults.specs.Keys as keys;
ghost use Rattle.lab_faults.specs.Keys.{CountsUpTo, bare_between};

use crate::items::{Entry, Heading, Item, Section, bare, slice};
use crate::tokens::{Kind, Token};

/// The place of a piece.
#[derive(Clone, Copy)]
pub struct Standing {
    /// The section that the last heading begins.
    pub section: Section,
    /// The section that the last brace begins.
    pub within: Section,
    /// How many steps were begun.
    pub steps: usize,
    /// How many brackets and braces are open, but for those of a heading.
    pub depth: usize,
    /// By how many brackets the heading begins that is being read.
    pub heading: Option<usize>,
    /// The last key that is in no brackets.
    pub top: (usize, usize),
    /// How many were open where the last key is.
    pub key_depth: usize,
    /// Whether its value is being read.
    pub is_value: bool,
}

/// The place of the first piece.
pub fn opening() -> Standing
    ensures { result ≡ keys.opening }
{
    Standing {
        section: Section::Opening,
        within: Section::Opening,
        steps: 0,
        depth: 0,
        heading: None,
        top: (0, 0),
        key_depth: 0,
        is_value: false,
    }
}

// The name at a place.
fn bare_name(text: &[u8], range: (usize, usize)) -> &[u8]
    ensures { result.now ≡ bare_between text.now range }
{
    bare(slice(text, range))
}

// The section that a heading of this name begins.
fn headed(name: &[u8], brackets: usize, steps: usize) -> Section
    requires { steps < 9223372036854775808 }
    ensures { result ≡ keys.headed name.now brackets steps }
{
    if name == b"step".as_slice() && brackets == 2 {
        Section::Step(steps + 1)
    } else if name == b"board".as_slice() && brackets == 1 {
        Section::Board
    } else {
        Section::Other
    }
}

// The section that braces begin that are the value of a key.
fn braced(key: &[u8], steps: usize) -> Section
    requires { steps < 9223372036854775808 }
    ensures { result ≡ keys.braced key.now steps }
{
    if key == b"board".as_slice() {
        Section::Board
    } else if key == b"step".as_slice() {
        Section::Step(steps + 1)
    } else {
        Section::Other
    }
}

// How many steps were begun.
fn begun_steps(steps: usize, section: Section) -> usize
    ensures { result ≡ keys.begun_steps steps section }
{
    match section {
        Section::Step(number) => number,
        _ => steps,
    }
}

// After the name of a heading.
fn behind_name(standing: Standing, section: Section) -> Standing
    ensures { result ≡ record standing { section = section; steps = keys.begun_steps standing.steps section } }
{
    let steps = begun_steps(standing.steps, section);
    Standing {
        section,
        steps,
        ..standing
    }
}

// After a piece of a heading.
fn behind_head(text: &[u8], standing: Standing, brackets: usize, token: Token) -> Standing
    requires steps { standing.steps < 9223372036854775808 }
    requires brackets { brackets < 9223372036854775808 }
    ensures { result ≡ keys.behind_head text.now standing brackets (token.from, token.to) token.kind }
{
    match token.kind {
        Kind::Bracket => Standing {
            heading: Some(brackets + 1),
            ..standing
        },
        Kind::EndLine => Standing {
            heading: None,
            ..standing
        },
        Kind::Word => {
            let name = bare_name(text, (token.from, token.to));
            behind_name(standing, headed(name, brackets, standing.steps))
        }
        _ => standing,
    }
}

// After a brace that is the value of a key outside brackets.
fn behind_top(text: &[u8], standing: Standing) -> Standing
    requires { standing.steps < 9223372036854775808 }
    ensures { result ≡ keys.in_braces text.now standing Section.Opening }
{
    let within = braced(bare_name(text, standing.top), standing.steps);
    let steps = begun_steps(standing.steps, within);
    Standing {
        within,
        steps,
        ..standing
    }
}

// After a brace.
fn in_braces(text: &[u8], standing: Standing) -> Standing
    requires { standing.steps < 9223372036854775808 }
    ensures { result ≡ keys.in_braces text.now standing standing.section }
{
    match standing.section {
        Section::Opening => behind_top(text, standing),
        Section::Board => Standing {
            within: Section::Other,
            ..standing
        },
        section => Standing {
            within: section,
            ..standing
        },
    }
}

// After a key.
fn behind_key(standing: Standing, key: (usize, usize)) -> Standing
    ensures { result ≡ keys.behind_key standing key }
{
    let top = if standing.depth == 0 {
        key
    } else {
        standing.top
    };
    Standing {
        top,
        key_depth: standing.depth,
        is_value: true,
        ..standing
    }
}

// After what opens.
fn opened(standing: Standing) -> Standing
    requires { standing.depth < 9223372036854775808 }
    ensures { result ≡ keys.bracket_opened standing }
{
    Standing {
        depth: standing.depth + 1,
        ..standing
    }
}

// After what closes.
fn closed(standing: Standing) -> Standing
    ensures { result ≡ keys.bracket_closed standing }
{
    Standing {
        depth: standing.depth.saturating_sub(1),
        is_value: standing.is_value && standing.key_depth < standing.depth,
        ..standing
    }
}

// After the end of a line.
fn behind_line(standing: Standing) -> Standing
    ensures { result ≡ keys.behind_line standing }
{
    Standing {
        is_value: standing.is_value && standing.depth != 0,
        ..standing
    }
}

// After a bracket outside headings.
fn behind_bracket(standing: Standing) -> Standing
    requires { standing.depth < 9223372036854775808 }
    ensures { result ≡ (if keys.begins_heading standing then record standing { heading = Some 1 } else keys.bracket_opened standing) }
{
    if !standing.is_value && standing.depth == 0 {
        return Standing {
            heading: Some(1),
            ..standing
        };
    }
    opened(standing)
}

fn is_equals(kind: Kind) -> bool
    ensures { result ≡ keys.is_equals kind }
{
    matches!(kind, Kind::Equals)
}

// After a word outside headings.
fn behind_word(standing: Standing, word: (usize, usize), next: Kind) -> Standing
    ensures { result ≡ (if keys.is_equals next then keys.behind_key standing word else standing) }
{
    if is_equals(next) {
        return behind_key(standing, word);
    }
    standing
}

// After a piece outside headings.
fn behind_other(text: &[u8], standing: Standing, token: Token, next: Kind) -> Standing
    requires steps { standing.steps < 9223372036854775808 }
    requires depth { standing.depth < 9223372036854775808 }
    ensures { result ≡ keys.behind_other text.now standing (token.from, token.to) next token.kind }
{
    match token.kind {
        Kind::Word => behind_word(standing, (token.from, token.to), next),
        Kind::Bracket => behind_bracket(standing),
        Kind::Brace => in_braces(text, opened(standing)),
        Kind::EndBracket | Kind::EndBrace => closed(standing),
        Kind::EndLine => behind_line(standing),
        Kind::Equals | Kind::Comma => standing,
    }
}

/// The place of the piece after one, before one of the next kind.
#[tactic(auto, unfolding(crate::specs::Keys::behind))]
pub fn behind(text: &[u8], standing: Standing, token: Token, next: Kind) -> Standing
    requires { CountsUpTo standing 9223372036854775807 }
    ensures { result ≡ keys.behind text.now standing token next }
{
    match standing.heading {
        Some(brackets) => behind_head(text, standing, brackets, token),
        None => behind_other(text, standing, token, next),
    }
}

// The section of a key.
fn key_section(standing: Standing) -> Section
    ensures { result ≡ keys.key_section standing }
{
    if standing.depth == 0 {
        standing.section
    } else {
        standing.within
    }
}

// All that a piece of a heading says.
fn head_entry(text: &[u8], standing: Standing, brackets: usize, token: Token) -> Entry
    requires { standing.steps < 9223372036854775808 }
    ensures { result ≡ keys.head_entry text.now standing brackets (token.from, token.to) token.kind }
{
    match token.kind {
        Kind::Word => {
            let name = (token.from, token.to);
            let section = headed(bare_name(text, name), brackets, standing.steps);
            Entry::Heads(Heading { section, name })
        }
        _ => Entry::Nothing,
    }
}

// All that a word outside headings says.
fn word_entry(standing: Standing, word: (usize, usize), next: Kind) -> Entry
    ensures { result ≡ keys.other_entry standing word next Kind.Word }
{
    if is_equals(next) {
        let section = key_section(standing);
        return Entry::Key(Item {
            section,
            key: word,
            value: (word.1, word.1),
        });
    }
    Entry::Goes(word)
}

// All that a piece says that may be of a value.
fn goes_if(is_value: bool, range: (usize, usize)) -> Entry
    ensures { result ≡ keys.goes_if is_value range }
{
    if is_value {
        Entry::Goes(range)
    } else {
        Entry::Nothing
    }
}

// All that a piece outside headings says.
fn other_entry(standing: Standing, token: Token, next: Kind) -> Entry
    ensures { result ≡ keys.other_entry standing (token.from, token.to) next token.kind }
{
    let range = (token.from, token.to);
    match token.kind {
        Kind::Word => word_entry(standing, range, next),
        Kind::Bracket | Kind::Brace => goes_if(standing.is_value, range),
        Kind::EndBracket | Kind::EndBrace => goes_if(standing.key_depth < standing.depth, range),
        Kind::Equals | Kind::Comma | Kind::EndLine => Entry::Nothing,
    }
}

/// All that a piece says, before one of the next kind.
#[tactic(auto, unfolding(crate::specs::Keys::entry))]
pub fn entry(text: &[u8], standing: Standing, token: Token, next: Kind) -> Entry
    requires { CountsUpTo standing 9223372036854775807 }
    ensures { result ≡ keys.entry text.now standing token next }
{
    match standing.heading {
        Some(brackets) => head_entry(text, standing, brackets, token),
        None => other_entry(standing, token, next),
    }
}
