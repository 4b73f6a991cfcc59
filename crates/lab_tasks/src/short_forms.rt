//! The keys of a step that a text writes in its short form, put into a table, which the reader of steps reads.

use crate::names::{names_thread, thread_named};
use std::alloc::{AllocError, Global};
use toml::{Table, Value};

// The meaning of a text at a key: a thread by its task's name, a truth value, no bytes, or the text.
fn value_of(alloc: Global, names: &[String], key: &str, text: &str) -> Result<Value, AllocError> {
    if names_thread(key) {
        if let Some(thread) = thread_named(names, text) {
            return Ok(Value::Integer(i64::from(thread)));
        }
    }
    match text {
        "true" => Ok(Value::Boolean(true)),
        "false" => Ok(Value::Boolean(false)),
        "-" => Value::string(alloc, ""),
        _ => Value::string(alloc, text),
    }
}

// Puts a key with its value. Whether the key is new.
fn put(
    alloc: Global,
    table: &mut Table,
    names: &[String],
    key: &str,
    text: &str,
) -> Result<bool, AllocError> {
    let value = value_of(alloc, names, key, text)?;
    let key = String::from_str(alloc, key)?;
    match table.insert(key, value) {
        Ok(None) => Ok(true),
        Ok(Some(_)) => Ok(false),
        Err(_) => Err(AllocError),
    }
}

/// Puts all pairs `key=value` of a text into a table. False where it isn't made of such pairs, each key once. A value may
/// have spaces, as that of `policy=fifo 10 stage=oob`: the next key begins after the last space before its equals sign.
pub fn put_pairs(
    alloc: Global,
    table: &mut Table,
    names: &[String],
    text: &str,
) -> Result<bool, AllocError> {
    let Some((mut key, mut rest)) = text.split_once('=') else {
        return Ok(false);
    };
    for _ in 0..text.len() {
        let Some((front, after)) = rest.split_once('=') else {
            break;
        };
        let Some((value, next)) = front.rsplit_once(' ') else {
            return Ok(false);
        };
        if !put(alloc, table, names, key, value)? {
            return Ok(false);
        }
        key = next;
        rest = after;
    }
    put(alloc, table, names, key, rest)
}

/// Puts a value at a key.
pub fn put_value(
    alloc: Global,
    table: &mut Table,
    key: &str,
    value: Value,
) -> Result<(), AllocError> {
    let key = String::from_str(alloc, key)?;
    match table.insert(key, value) {
        Ok(_) => Ok(()),
        Err(_) => Err(AllocError),
    }
}
