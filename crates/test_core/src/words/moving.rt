//! Words are shared by host threads, and seats move from one to another.
use evl_base::{MutexId, StaxId};
use evl_words::{MutexWord, StaxGate};

fn moved<T: Send>(value: T) -> T {
    value
}

fn shared<T: Sync>(_value: &T) -> bool {
    true
}

// Whether there is a seat, which moves.
fn seat_moves<S: Send + Drop>(seats: &mut Vec<S>) -> bool {
    match seats.pop() {
        Some(seat) => {
            let _seat = moved(seat);
            true
        }
        None => false,
    }
}

#[test]
fn words_are_shared_and_seats_move(rt: HostRuntime) {
    let of_gate = match StaxGate::new(rt.alloc(), StaxId(0), 1, 1) {
        Ok((gate, mut seats)) => seat_moves(&mut seats) && shared(&gate),
        Err(_) => false,
    };
    assert!(rt; of_gate);
    let of_word = match MutexWord::new(rt.alloc(), MutexId(0), false, 1) {
        Ok((word, mut seats)) => seat_moves(&mut seats) && shared(&word),
        Err(_) => false,
    };
    assert!(rt; of_word);
}
