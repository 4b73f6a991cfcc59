//! Inputs that come in small parts, and fail at each read in turn.
use super::statuses::{NO_WORDS, ends_over};
use super::texts::{ABOUT_A_PART, LONG, Length, SHORTEST, played};
use super::writers::Parts;
use std::rt::Files;

// Whether the program finds no file where the read with this number fails, and writes nothing.
fn fails_at<F: Files + AllocGlobal>(rt: &F, text: &str, most: usize, stop: usize) -> bool {
    let mut input = Parts::new(text, most, stop);
    ends_over(rt, &NO_WORDS, &mut input, 2, "", "evl: no file\n") && input.reads == stop
}

// How many reads of at most so many bytes give a text whole; none where its trace isn't written.
fn reads_of<F: Files + AllocGlobal>(rt: &F, text: &str, trace: &str, most: usize) -> Option<usize> {
    let mut input = Parts::new(text, most, 0);
    let ends = ends_over(rt, &NO_WORDS, &mut input, 0, trace, "");
    if ends { Some(input.reads) } else { None }
}

// Whether each read in turn ends the program, with nothing written.
fn fails_at_each<F: Files + AllocGlobal>(rt: &F, text: &str, trace: &str, most: usize) -> bool {
    let Some(reads) = reads_of(rt, text, trace, most) else {
        return false;
    };
    for stop in 1..reads.saturating_add(1) {
        if !fails_at(rt, text, most, stop) {
            return false;
        }
    }
    reads > 1
}

// Whether each read of a scenario in turn ends the program, with nothing written.
fn is_unread_at_each<F: Files + AllocGlobal>(rt: &F, length: &Length, most: usize) -> bool {
    match played(rt.alloc(), length) {
        Some((text, trace)) => fails_at_each(rt, text.as_str(), trace.as_str(), most),
        None => false,
    }
}

#[test]
fn each_read_of_an_input_fails_once(rt: HostRuntime) {
    assert!(rt; is_unread_at_each(&rt, &SHORTEST, 1));
    assert!(rt; is_unread_at_each(&rt, &LONG, 1_000_000));
    for length in ABOUT_A_PART.as_slice() {
        assert!(rt; is_unread_at_each(&rt, length, 100));
        assert!(rt; is_unread_at_each(&rt, length, 1_000_000));
    }
}

// Whether each byte is read alone, and then the end.
fn is_read_by_bytes<F: Files + AllocGlobal>(rt: &F, length: &Length) -> bool {
    match played(rt.alloc(), length) {
        Some((text, trace)) => {
            let reads = reads_of(rt, text.as_str(), trace.as_str(), 1);
            reads == Some(text.len().saturating_add(1))
        }
        None => false,
    }
}

#[test]
fn an_input_comes_by_single_bytes(rt: HostRuntime) {
    assert!(rt; is_read_by_bytes(&rt, &SHORTEST));
    assert!(rt; is_read_by_bytes(&rt, &LONG));
    for length in ABOUT_A_PART.as_slice() {
        assert!(rt; is_read_by_bytes(&rt, length));
    }
}
