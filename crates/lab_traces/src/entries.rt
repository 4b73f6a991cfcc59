//! The line of an entry: its number, who called, the call, and the answer.
ghost use Rattle.std.specs.Prelude.{◌≡◌, Some, option_map};
ghost use Rattle.lab_traces.specs.Entries.{around_arrow, entry_read, number_read, thread_read};

use crate::parts::{around_blank, around_point, before, behind, small_number};
use evl_scenario::number_of_text;

/// The parts of the line of an entry.
#[derive(Clone, Copy, PartialEq, Eq)]
pub struct EntryLine<'a> {
    /// The entry's number, from 1; none where the history was full.
    pub number: Option<u64>,
    /// The thread that called.
    pub thread: u16,
    /// The call: its word, and each key with its value.
    pub call: &'a str,
    /// The answer.
    pub answer: &'a str,
}

// The number of an entry, or none for a dash.
fn entry_number(text: &str) -> Option<Option<u64>>
    ensures { result ≡ number_read text.now }
{
    match text {
        "-" => Some(None),
        _ => Some(Some(number_of_text(text)?)),
    }
}

// The number of the thread after a T.
fn thread(text: &str) -> Option<u16>
    ensures { result ≡ thread_read text.now }
{
    small_number(behind("T", text)?)
}

// A call and its answer.
fn call_and_answer(text: &str) -> Option<(&str, &str)>
    ensures { option_map (λ parts. (parts.0.now, parts.1.now)) result ≡ around_arrow text.now }
{
    let (front, back) = around_point(text)?;
    let call = before(" -", front)?;
    let answer = behind(" ", back)?;
    Some((call, answer))
}

/// The parts of the line of an entry, without its line feed; none where the text is no such line.
pub fn read_entry(text: &str) -> Option<EntryLine<'_>>
    ensures { option_map (λ line. record { number = line.number; thread = line.thread; call = line.call.now; answer = line.answer.now }) result ≡ entry_read text.now }
{
    let (front, back) = around_blank(text)?;
    let number = entry_number(front)?;
    let (who, rest) = around_blank(back)?;
    let thread = thread(who)?;
    let (call, answer) = call_and_answer(rest)?;
    Some(EntryLine {
        number,
        thread,
        call,
        answer,
    })
}
