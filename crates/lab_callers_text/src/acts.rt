//! The acts of the steps of a text of callers.
ghost use Rattle.std.specs.Prelude.{◌≡◌, ◌++◌, OnOk, codes, decimal, string_bytes};
ghost use Rattle.lab_callers_text.specs.Acts.{act_text, as_text, spent_text, until_text};

use evl_base::{Call, MutexId, StaxId, ThreadId};
use std::alloc::AllocError;

/// A step's act. A name is that of a pass.
#[derive(Drop)]
pub enum Act {
    /// A call of the kernel.
    Call(Call),
    TryLockStax(StaxId, String),
    UnlockStax(String),
    TryLockMutex(MutexId, String),
    UnlockMutexFast(String),
    TryUnlockMutex(String),
    BeginLockMutex(MutexId, Option<u64>, String),
    FinishLockMutex(String),
    Take,
    Give,
}

/// An act, and which caller does it.
#[derive(Drop)]
pub struct CallersStep {
    pub who: ThreadId,
    pub act: Act,
}

// Writes a word with the name of the pass that it spends.
fn put_spent(text: &mut String, word: &str, name: &String) -> Result<(), AllocError>
    ensures { OnOk result (string_bytes text.new ≡ string_bytes text.old ++ spent_text word.now (string_bytes name.now)) }
{
    let name = name.as_str();
    write!(text, "{word} pass={name}")
}

// Writes the name that a pass gets.
fn put_name(text: &mut String, name: &String) -> Result<(), AllocError>
    ensures { OnOk result (string_bytes text.new ≡ string_bytes text.old ++ as_text (string_bytes name.now)) }
{
    let name = name.as_str();
    write!(text, " as={name}")
}

// Writes a word, its key and a number, with the name of the pass that it may give.
fn put_numbered(
    text: &mut String,
    front: &str,
    number: u16,
    name: &String,
) -> Result<(), AllocError>
    ensures { OnOk result (string_bytes text.new ≡ string_bytes text.old ++ (front.now ++ (decimal number ++ as_text (string_bytes name.now)))) }
{
    write!(text, "{front}{number}")?;
    put_name(text, name)
}

// Writes a deadline.
fn put_until(text: &mut String, until: Option<u64>) -> Result<(), AllocError>
    ensures { OnOk result (string_bytes text.new ≡ string_bytes text.old ++ until_text until) }
{
    match until {
        Some(date) => write!(text, "until={date}"),
        None => text.push_str("until=none"),
    }
}

// Writes a word with the mutex, the deadline and the name of the pass that it may give.
fn put_begin(
    text: &mut String,
    mutex: MutexId,
    until: Option<u64>,
    name: &String,
) -> Result<(), AllocError>
    ensures { OnOk result (string_bytes text.new ≡ string_bytes text.old ++ (codes "begin_lock_mutex mutex=" ++ (decimal mutex.0 ++ (codes " " ++ (until_text until ++ as_text (string_bytes name.now)))))) }
{
    let mutex = mutex.0;
    write!(text, "begin_lock_mutex mutex={mutex} ")?;
    put_until(text, until)?;
    put_name(text, name)
}

// Writes a word with the name of the pass that it may give.
fn put_named(text: &mut String, word: &str, name: &String) -> Result<(), AllocError>
    ensures { OnOk result (string_bytes text.new ≡ string_bytes text.old ++ (word.now ++ as_text (string_bytes name.now))) }
{
    text.push_str(word)?;
    put_name(text, name)
}

impl Act {
    /// Writes the word and its keys after a text, as a trace has them.
    pub fn put(&self, text: &mut String) -> Result<(), AllocError>
        ensures { OnOk result (string_bytes text.new ≡ string_bytes text.old ++ act_text self.now) }
    {
        match self {
            Act::Call(call) => write!(text, "{call}"),
            Act::TryLockStax(stax, name) => put_numbered(text, "try_lock_stax stax=", stax.0, name),
            Act::UnlockStax(name) => put_spent(text, "unlock_stax", name),
            Act::TryLockMutex(mutex, name) => put_numbered(
                text,
                "try_lock_mutex mutex=",
                mutex.0,
                name,
            ),
            Act::UnlockMutexFast(name) => put_spent(text, "unlock_mutex_fast", name),
            Act::TryUnlockMutex(name) => put_spent(text, "try_unlock_mutex", name),
            Act::BeginLockMutex(mutex, until, name) => put_begin(text, *mutex, *until, name),
            Act::FinishLockMutex(name) => put_named(text, "finish_lock_mutex", name),
            Act::Take => text.push_str("take"),
            Act::Give => text.push_str("give"),
        }
    }
}
