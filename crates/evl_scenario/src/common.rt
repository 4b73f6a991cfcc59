//! Scenarios of the common shape, read a step at a time: bare keys with scalars and lists, `[board]`, and after it
//! nothing but `[[step]]` tables. Nothing is said of any other text.
ghost use Rattle.std.specs.Prelude.{◌≡◌, ℕ, ◌+◌, ◌<◌, ◌≤◌, ◌==◌, ◌++◌, [], true, false, length, string_bytes, Some, IfSome};
ghost use Rattle.toml_parser.specs.Lexical as spec;
ghost use Rattle.toml_parser.specs.Strings.{starts_string};
ghost use Rattle.toml.specs.Data.{no_items};
ghost use Rattle.toml.specs.Parse.{after_element, atom, ends_line, items, line, scalar_data, val};
ghost use Rattle.toml.specs.Tables.{key_value};
ghost use Rattle.toml.specs.View.{items_view, table_view, view};
ghost use Rattle.evl_scenario.specs.Common.{AddsSteps, FillsTable, OpensDocument};

use crate::steps::{Step, read_step_table};
use evl_base::Spares;
use std::alloc::Global;
use toml::{Table, Value};
use toml_parser::text::{first, skip, skip_blank, skip_ws};
use toml_parser::{RECURSION_LIMIT, Scalar, dotted_key, quoted, starts_string, unquoted};

// A whole number or a truth value.
fn scalar_value(scalar: Scalar) -> Option<Value>
    ensures { IfSome result (λ value. view value ≡ scalar_data scalar) }
{
    match scalar {
        Scalar::Boolean(truth) => Some(Value::Boolean(truth)),
        Scalar::Integer(number) => Some(Value::Integer(number)),
        _ => None,
    }
}

// A text and what follows it.
fn read_string(alloc: Global, s: &str) -> Option<(Value, &str)>
    requires { starts_string s.now ≡ true }
    ensures value { IfSome result (λ p. atom s.now ≡ Some (view p.0, p.1.now)) }
    ensures shorter { IfSome result (λ p. length p.1.now < length s.now) }
{
    match quoted(alloc, s) {
        Ok((text, rest)) => Some((Value::String(text), rest)),
        Err(_) => None,
    }
}

// A whole number or a truth value and what follows it.
fn read_scalar(alloc: Global, s: &str) -> Option<(Value, &str)>
    requires { starts_string s.now ≡ false }
    ensures value { IfSome result (λ p. atom s.now ≡ Some (view p.0, p.1.now)) }
    ensures shorter { IfSome result (λ p. length p.1.now < length s.now) }
{
    let Ok((scalar, rest)) = unquoted(alloc, s) else {
        return None;
    };
    let value = scalar_value(scalar)?;
    Some((value, rest))
}

// A text, a whole number or a truth value, and what follows it.
fn read_atom(alloc: Global, s: &str) -> Option<(Value, &str)>
    ensures value { IfSome result (λ p. atom s.now ≡ Some (view p.0, p.1.now)) }
    ensures shorter { IfSome result (λ p. length p.1.now < length s.now) }
{
    if starts_string(s) {
        read_string(alloc, s)
    } else {
        read_scalar(alloc, s)
    }
}

// The part after an element of a list and its comma, or from the closing bracket on.
fn after_item(s: &str) -> Option<&str>
    ensures value { IfSome result (λ rest. after_element 93 s.now ≡ Some rest.now) }
    ensures within { IfSome result (λ rest. length rest.now ≤ length s.now) }
{
    let rest = skip_blank(s, true);
    if first(rest) == b',' {
        Some(skip(rest, 1))
    } else if first(rest) == b']' {
        Some(rest)
    } else {
        None
    }
}

// The rest of a list whose elements nest at most so deep, and what follows it.
#[cycle(read_value)]
fn read_list(alloc: Global, s: &str, depth: usize) -> Option<(Vec<Value>, &str)>
    ensures value { IfSome result (λ p. (n : ℕ) → length s.now < n → items (val depth) n no_items s.now ≡ Some (items_view p.0.items, p.1.now)) }
    ensures shorter { IfSome result (λ p. length p.1.now < length s.now) }
{
    let mut found = Vec::new(alloc);
    let mut rest = s;
    'items: loop {
        let start = skip_blank(rest, true);
        if first(start) == b']' {
            return Some((found, skip(start, 1)));
        }
        let (item, after) = read_value(alloc, start, depth)?;
        match found.push(item) {
            Ok(()) => {}
            Err(_) => return None,
        }
        rest = after_item(after)?;
    }
}

// A value without inline tables, whose lists nest at most so deep, and what follows it.
#[cycle(read_value)]
fn read_value(alloc: Global, s: &str, depth: usize) -> Option<(Value, &str)>
    ensures value { IfSome result (λ p. val depth s.now ≡ Some (view p.0, p.1.now)) }
    ensures shorter { IfSome result (λ p. length p.1.now < length s.now) }
{
    let byte = first(s);
    if byte != b'[' && byte != b'{' {
        return read_atom(alloc, s);
    }
    if byte != b'[' {
        return None;
    }
    if depth == 0 {
        return None;
    }
    let (items, rest) = read_list(alloc, skip(s, 1), depth - 1)?;
    Some((Value::Array(items), rest))
}

// Whether a line may end here.
fn is_line_end(s: &str) -> bool
    ensures { result ≡ ends_line (spec.skip_ws s.now) }
{
    let end = skip_ws(s);
    end.is_empty() || matches!(first(end), b'#' | b'\n' | b'\r')
}

// A key without dots with what comes after it, on a line of their own, and what follows them.
fn read_pair(alloc: Global, s: &str) -> Option<(String, Value, &str)>
    ensures value { IfSome result (λ p. (spec.first s.now == 91) ≡ false → line s.now ≡ Some ((([], string_bytes p.0), key_value (view p.1)), p.2.now)) }
    ensures shorter { IfSome result (λ p. length p.2.now < length s.now) }
{
    let Ok((key, at_sign)) = dotted_key(alloc, s) else {
        return None;
    };
    if !key.path.is_empty() {
        return None;
    }
    if first(at_sign) != b'=' {
        return None;
    }
    let (value, rest) = read_value(alloc, skip_ws(skip(at_sign, 1)), RECURSION_LIMIT)?;
    if is_line_end(rest) {
        Some((key.last, value, rest))
    } else {
        None
    }
}

// The keys with what comes after them up to a header or the end, and what follows them.
fn read_pairs(alloc: Global, s: &str) -> Option<(Table, &str)>
    ensures fills { IfSome result (λ p. FillsTable s.now (table_view p.0) p.1.now) }
    ensures within { IfSome result (λ p. length p.1.now ≤ length s.now) }
{
    let mut table = Table::new(alloc);
    let mut rest = s;
    'pairs: loop {
        let start = skip_blank(rest, true);
        if start.is_empty() || first(start) == b'[' {
            return Some((table, start));
        }
        let (key, value, after) = read_pair(alloc, start)?;
        match table.insert(key, value) {
            Ok(None) => {}
            _ => return None,
        }
        rest = after;
    }
}

// The part after a header on a line of its own.
fn after_header<'a>(header: &str, s: &'a str) -> Option<&'a str>
    ensures front { IfSome result (λ rest. s.now ≡ header.now ++ rest.now) }
    ensures ends { IfSome result (λ rest. ends_line (spec.skip_ws rest.now) ≡ true) }
    ensures shorter { IfSome result (λ rest. length header.now + length rest.now ≡ length s.now) }
{
    let rest = s.strip_prefix(header)?;
    if is_line_end(rest) { Some(rest) } else { None }
}

/// The board and the keys before it as one table, and what follows them; none where the text has another shape.
pub fn read_head(alloc: Global, text: &str) -> Option<(Table, &str)>
    ensures { IfSome result (λ p. OpensDocument text.now (table_view p.0) p.1.now) }
{
    if first(text) == 0xEF {
        return None;
    }
    let (mut table, rest) = read_pairs(alloc, text)?;
    if table.contains_key("step") {
        return None;
    }
    let behind = after_header("[board]", rest)?;
    let (board, start) = read_pairs(alloc, behind)?;
    let Ok(key) = String::from_str(alloc, "board") else {
        return None;
    };
    match table.insert(key, Value::Table(board)) {
        Ok(None) => Some((table, start)),
        _ => None,
    }
}

/// The steps of a text of `[[step]]` tables; none where it has another shape.
pub fn read_step_tables(alloc: Global, s: &str) -> Option<Vec<Step>>
    ensures { IfSome result (λ steps. AddsSteps s.now steps.items) }
{
    let mut steps = Vec::new(alloc);
    let mut spares = Spares::new(alloc, alloc);
    let mut rest = s;
    'steps: loop {
        if rest.is_empty() {
            return Some(steps);
        }
        let behind = after_header("[[step]]", rest)?;
        let (table, after) = read_pairs(alloc, behind)?;
        if spares.keep(1).is_err() {
            return None;
        }
        let step = read_step_table(&table, &mut spares)?;
        match steps.push(step) {
            Ok(()) => {}
            Err(_) => return None,
        }
        rest = after;
    }
}
