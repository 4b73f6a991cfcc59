//! The program's statuses, lines and words, over inputs, sinks and error streams that are whole or fail.
use super::texts::{BOARD, FIRST_SEMAPHORE, TEXT, TRACE, puts, spaces};
use super::writers::{Ended, Narrow};
use crate::rows::cases;
use evl_bank::play_program;
use evl_shell::{Over, play};
use std::io::{Read, Write};
use std::rt::Files;

/// The program's name alone.
pub(crate) const NO_WORDS: [&str; 1] = ["evl"];

/// The end of the program on words and an input: its status, and the writers that it had.
pub(crate) fn ended<F: Files + AllocGlobal, I: Read, O: Write, E: Write>(
    rt: &F,
    words: &[&str],
    input: &mut I,
    out: O,
    err: E,
) -> (u8, O, E) {
    let mut out = Over::new(out);
    let mut err = Over::new(err);
    let status = play_program(rt, rt.alloc(), words, input, &mut out, &mut err);
    (status, out.into_inner(), err.into_inner())
}

/// Whether the program ends so on words and an input: its status, what it writes and what it says.
pub(crate) fn ends_over<F: Files + AllocGlobal, I: Read>(
    rt: &F,
    words: &[&str],
    input: &mut I,
    status: u8,
    written: &str,
    said: &str,
) -> bool {
    let out: Vec<u8> = Vec::new(rt.alloc());
    let err: Vec<u8> = Vec::new(rt.alloc());
    let (done, out, err) = ended(rt, words, input, out, err);
    done == status && out.as_slice() == written.as_bytes() && err.as_slice() == said.as_bytes()
}

/// The same on a text.
pub(crate) fn ends_by<F: Files + AllocGlobal>(
    rt: &F,
    words: &[&str],
    text: &str,
    status: u8,
    written: &str,
    said: &str,
) -> bool {
    let mut input = text.as_bytes();
    ends_over(rt, words, &mut input, status, written, said)
}

/// The same on a text, without words.
pub(crate) fn ends<F: Files + AllocGlobal>(
    rt: &F,
    text: &str,
    status: u8,
    written: &str,
    said: &str,
) -> bool {
    ends_by(rt, &NO_WORDS, text, status, written, said)
}

/// All that a writer took of a run that ended at its fault, which the program reported; none where it ended otherwise.
pub(crate) fn taken_at_fault<F: Files + AllocGlobal>(
    rt: &F,
    words: &[&str],
    text: &str,
    out: Narrow,
) -> Option<Vec<u8>> {
    let err: Vec<u8> = Vec::new(rt.alloc());
    let mut input = text.as_bytes();
    let (status, writer, err) = ended(rt, words, &mut input, out, err);
    if status == 1 && err.as_slice() == b"evl: write fault\n".as_slice() {
        Some(writer.taken)
    } else {
        None
    }
}

#[test]
fn ends_done(rt: HostRuntime) {
    assert!(rt; ends(&rt, TEXT, 0, TRACE, ""));
}

#[test]
fn ends_refused(rt: HostRuntime) {
    for (text, line) in cases![
        "[board" => "evl: bad text\n";
        "" => "evl: bad board\n";
        "[board]\nthreads = 1\n[[step]]\ncolour = 1\n" => "evl: bad step 1\n";
    ] {
        assert!(rt; ends(&rt, text, 2, "", line));
    }
}

// There are 1233 steps, and a bad one.
#[test]
fn tells_the_whole_number_of_a_step(rt: HostRuntime) {
    let text = puts(rt.alloc(), BOARD, 1233, "[[step]]\n").expect(&rt, "the text");
    assert!(rt; ends(&rt, text.as_str(), 2, "", "evl: bad step 1234\n"));
}

// Whether the program ends so over a reader that gives a text and then so many ends.
fn ends_given<F: Files + AllocGlobal>(
    rt: &F,
    given: usize,
    status: u8,
    written: &str,
    said: &str,
) -> bool {
    let mut input = Ended::new(TEXT, given);
    ends_over(rt, &NO_WORDS, &mut input, status, written, said)
}

#[test]
fn reads_nothing_after_the_end(rt: HostRuntime) {
    assert!(rt; ends_given(&rt, 1, 0, TRACE, ""));
}

#[test]
fn ends_without_a_file(rt: HostRuntime) {
    assert!(rt; ends_given(&rt, 0, 2, "", "evl: no file\n"));
}

// Whether the program ends at a fault of its output, which took ten bytes of the trace.
fn ends_broken<F: Files + AllocGlobal>(rt: &F) -> bool {
    let idle = Narrow::new(rt.alloc(), 10, 2, false);
    match taken_at_fault(rt, &NO_WORDS, TEXT, idle) {
        Some(taken) => taken.as_slice() == &TRACE.as_bytes()[..10],
        None => false,
    }
}

#[test]
fn ends_at_a_write_fault(rt: HostRuntime) {
    assert!(rt; ends_broken(&rt));
}

// Whether the line of a bad board comes so far over a narrow writer.
fn says<F: Files + AllocGlobal>(rt: &F, err: Narrow, line: &str) -> bool {
    let out: Vec<u8> = Vec::new(rt.alloc());
    let mut input = "".as_bytes();
    let (status, _, said) = ended(rt, &NO_WORDS, &mut input, out, err);
    status == 2 && said.taken.as_slice() == line.as_bytes()
}

#[test]
fn ends_whatever_becomes_of_its_line(rt: HostRuntime) {
    let alloc = rt.alloc();
    assert!(rt; says(&rt, Narrow::new(alloc, 1, 5, true), "evl:"));
    assert!(rt; says(&rt, Narrow::new(alloc, 3, 0, false), "evl: bad board\n"));
}

// Whether `play` ends so with no callbacks, and a plain writer for its line.
fn plays<F: Files + AllocGlobal>(rt: &F, text: &str, status: u8, line: &str) -> bool {
    let alloc = rt.alloc();
    let mut out = Over::new(Vec::new(alloc));
    let mut err = Vec::new(alloc);
    let mut input = text.as_bytes();
    let bank = Vec::new(alloc);
    let ended = play(rt, alloc, &NO_WORDS, bank, &mut input, &mut out, &mut err);
    ended == status && err.as_slice() == line.as_bytes()
}

#[test]
fn plays_over_a_plain_writer(rt: HostRuntime) {
    assert!(rt; plays(&rt, BOARD, 0, ""));
    assert!(rt; plays(&rt, "", 2, "evl: bad board\n"));
}

// How many bytes of an input the program leaves unread; none where it doesn't refuse it as a bad text.
fn left_unread<F: Files + AllocGlobal>(rt: &F, text: &[u8]) -> Option<usize> {
    let mut input = text;
    let ends = ends_over(rt, &NO_WORDS, &mut input, 2, "", "evl: bad text\n");
    if ends { Some(input.len()) } else { None }
}

#[test]
fn reads_no_more_than_a_scenario_may_have(rt: HostRuntime) {
    let text = spaces(rt.alloc(), 1_048_600).expect(&rt, "the text");
    assert!(rt; left_unread(&rt, text.as_slice()) == Some(23));
}

const UNDER_THREE: &str =
    "board threads=1 sems=1 flags=0 xbufs=0 mutexes=0 groups=0 limit=3\n1 T0 try_get sem=0 -> Again\n2 T0 put sem=0 -> done\n3 T0 try_get sem=0 -> done\n- T0 peek sem=0 -> HistoryFull\n";

#[test]
fn threads_3(rt: HostRuntime) {
    let limited = ["evl", "--limit", "3"];
    let limited_input = ["evl", "-", "--limit=3"];
    let absent = ["evl", "there_is_no_such_file.toml"];
    let ends: [(&[&str], u8, &str, &str); 3] = [
        (&limited, 0, UNDER_THREE, ""),
        (&limited_input, 0, UNDER_THREE, ""),
        (&absent, 2, "", "evl: no file\n"),
    ];
    for (words, status, written, said) in ends {
        assert!(rt; ends_by(&rt, words, FIRST_SEMAPHORE, status, written, said));
    }
}

// Whether the program ends with this status on these words, and writes and says something.
fn turns_away<F: Files + AllocGlobal>(
    rt: &F,
    words: &[&str],
    status: u8,
    writes: bool,
    says: bool,
) -> bool {
    let out: Vec<u8> = Vec::new(rt.alloc());
    let err: Vec<u8> = Vec::new(rt.alloc());
    let mut input = FIRST_SEMAPHORE.as_bytes();
    let (done, out, err) = ended(rt, words, &mut input, out, err);
    done == status && out.is_empty() != writes && err.is_empty() != says
}

#[test]
fn refuses_words(rt: HostRuntime) {
    for (
        first,
        second,
    ) in cases!["--limit" => "0"; "--limit" => "1000001"; "--limit" => "x"; "a.toml" => "b.toml";] {
        let words = ["evl", first, second];
        assert!(rt; turns_away(&rt, &words, 3, false, true));
    }
}

// Whether the program reports a write fault where its help isn't taken whole.
fn breaks<F: Files + AllocGlobal>(rt: &F, words: &[&str]) -> bool {
    taken_at_fault(rt, words, "", Narrow::new(rt.alloc(), 10, 2, true)).is_some()
}

#[test]
fn tells_help(rt: HostRuntime) {
    let words = ["evl", "--help"];
    assert!(rt; turns_away(&rt, &words, 0, true, false));
    assert!(rt; breaks(&rt, &words));
}
