//! The mutex word's rows as data: which seat does what, and what it is answered.
ghost use Rattle.std.specs.Prelude.{◌≡◌, ◌<◌, true, All, IfOk, IfSome, length};
ghost use Rattle.evl_words.specs.MutexCalls.{IsPassOf, IsSeatOf, IsSameSeat};

use evl_base::{MutexId, Refusal, ThreadId};
use evl_words::{Claim, MutexPass, MutexSeat, MutexWord, Unlock};
use std::alloc::Global;

fn made(alloc: Global, recursive: bool, seats: u16) -> Result<(MutexWord, Vec<MutexSeat>), Refusal>
    ensures { IfOk result (λ made. (made.0.seats ≡ seats) × All (λ seat. IsSeatOf seat made.0) made.1.items) }
{
    match MutexWord::new(alloc, MutexId(0), recursive, seats) {
        Ok(made) => Ok(made),
        Err(refusal) => Err(refusal),
    }
}

// An act of a seat. The pass that it spends is the one that came last.
#[derive(Clone, Copy)]
enum Act {
    Try,
    Unlock,
    Claim,
    Offer(u16, bool),
    Free,
    Accept,
    Forget,
    SeeOffer,
}

// The answer to it.
#[derive(Clone, Copy, PartialEq)]
enum Told {
    Passed,
    Refused(Refusal),
    Done,
    Claimed,
    Found(Claim),
    Offered(bool),
    Nothing,
}

// A step of a row: by which seat, what it does, and what it is answered.
type Step = (u16, Act, Told);

// A pass that came is the last one.
fn passed(passes: &mut Vec<MutexPass>, answer: Result<MutexPass, Refusal>) -> Told {
    match answer {
        Ok(pass) => came_back(passes, pass, Told::Passed),
        Err(refusal) => Told::Refused(refusal),
    }
}

fn came_back(passes: &mut Vec<MutexPass>, pass: MutexPass, told: Told) -> Told {
    match passes.push(pass) {
        Ok(()) => told,
        Err(_) => Told::Nothing,
    }
}

fn unlock(word: &MutexWord, seat: &mut MutexSeat, passes: &mut Vec<MutexPass>) -> Told
    requires { IsSeatOf seat.old word.now }
    ensures { IsSameSeat seat.old seat.new }
{
    let Some(pass) = passes.pop() else {
        return Told::Nothing;
    };
    match word.unlock(seat, pass) {
        Ok(Unlock::Done) => Told::Done,
        Ok(Unlock::Claimed(pass)) => came_back(passes, pass, Told::Claimed),
        Err((refusal, pass)) => came_back(passes, pass, Told::Refused(refusal)),
    }
}

// Whether the pass is the seat's, which holds the mutex once.
fn holds_once(seat: &MutexSeat, pass: &MutexPass) -> bool
    ensures { result ≡ true → IsPassOf pass.now seat.now × (seat.now.depth ≡ 1) }
{
    pass.mutex() == seat.mutex() && pass.seat() == seat.number() && seat.depth() == 1
}

fn offer(
    word: &MutexWord,
    count: u16,
    seat: &mut MutexSeat,
    pass: Option<MutexPass>,
    next: u16,
    more: bool,
) -> Told
    requires mine { IsSeatOf seat.old word.now }
    requires count { word.now.seats ≡ count }
    ensures { IsSameSeat seat.old seat.new }
{
    match pass {
        Some(pass) if next < count && holds_once(seat, &pass) => {
            word.offer(seat, pass, ThreadId(next), more);
            Told::Done
        }
        _ => Told::Nothing,
    }
}

fn free(word: &MutexWord, seat: &mut MutexSeat, pass: Option<MutexPass>) -> Told
    requires { IsSeatOf seat.old word.now }
    ensures { IsSameSeat seat.old seat.new }
{
    match pass {
        Some(pass) if holds_once(seat, &pass) => {
            word.free(seat, pass);
            Told::Done
        }
        _ => Told::Nothing,
    }
}

// The answer to one seat of so many.
fn one_step(
    word: &MutexWord,
    count: u16,
    seat: &mut MutexSeat,
    passes: &mut Vec<MutexPass>,
    act: Act,
) -> Told
    requires mine { IsSeatOf seat.old word.now }
    requires count { word.now.seats ≡ count }
    ensures { IsSameSeat seat.old seat.new }
{
    match act {
        Act::Try => passed(passes, word.try_lock(seat)),
        Act::Accept => passed(passes, word.accept(seat)),
        Act::Claim => Told::Found(word.claim(seat)),
        Act::SeeOffer => Told::Offered(word.seen_offer(seat)),
        Act::Forget => match word.forget(seat) {
            Ok(()) => Told::Done,
            Err(refusal) => Told::Refused(refusal),
        },
        Act::Unlock => unlock(word, seat, passes),
        Act::Offer(next, more) => offer(word, count, seat, passes.pop(), next, more),
        Act::Free => free(word, seat, passes.pop()),
    }
}

// The place of the seat of this number.
fn place_of(seats: &[MutexSeat], number: u16) -> Option<usize>
    ensures { IfSome result (λ place. place < length seats.now) }
{
    for place in 0..seats.len() {
        if seats[place].number() == number {
            return Some(place);
        }
    }
    None
}

// The answer to the seat of this number.
fn answer(
    word: &MutexWord,
    count: u16,
    seats: &mut Vec<MutexSeat>,
    passes: &mut Vec<MutexPass>,
    number: u16,
    act: Act,
) -> Told
    requires count { word.now.seats ≡ count }
    requires mine { All (λ seat. IsSeatOf seat word.now) seats.old.items }
    ensures mine { All (λ seat. IsSeatOf seat word.now) seats.new.items }
{
    match place_of(seats, number) {
        Some(place) => one_step(word, count, &mut seats[place], passes, act),
        None => Told::Nothing,
    }
}

// Whether each step is answered as it is wanted.
fn answers(
    word: &MutexWord,
    count: u16,
    seats: &mut Vec<MutexSeat>,
    passes: &mut Vec<MutexPass>,
    steps: &[Step],
) -> bool
    requires count { word.now.seats ≡ count }
    requires mine { All (λ seat. IsSeatOf seat word.now) seats.old.items }
    ensures mine { All (λ seat. IsSeatOf seat word.now) seats.new.items }
{
    for (number, act, wanted) in steps {
        if answer(word, count, seats, passes, *number, *act) != *wanted {
            return false;
        }
    }
    true
}

// A part of a row.
#[derive(Clone, Copy)]
enum Part<'a> {
    // Steps that are made so often.
    Steps(u16, &'a [Step]),
    // The seat of this number claims a free mutex, and settles only once the others' steps are made.
    Win(u16, &'a [Step]),
}

// Whether the steps are answered as is wanted, made so often.
fn round_answers(
    word: &MutexWord,
    count: u16,
    seats: &mut Vec<MutexSeat>,
    passes: &mut Vec<MutexPass>,
    times: u16,
    steps: &[Step],
) -> bool
    requires count { word.now.seats ≡ count }
    requires mine { All (λ seat. IsSeatOf seat word.now) seats.old.items }
    ensures mine { All (λ seat. IsSeatOf seat word.now) seats.new.items }
{
    for _ in 0..times {
        if !answers(word, count, seats, passes, steps) {
            return false;
        }
    }
    true
}

// Whether there is room for a seat that was away.
fn comes_back(word: &MutexWord, seats: &mut Vec<MutexSeat>, seat: MutexSeat) -> bool
    requires mine { All (λ seat. IsSeatOf seat word.now) seats.old.items }
    requires away { IsSeatOf seat word.now }
    ensures mine { All (λ seat. IsSeatOf seat word.now) seats.new.items }
{
    seats.push(seat).is_ok()
}

// A seat claims a free mutex, and settles only once the others' steps are answered as they are wanted.
fn wins_around(
    word: &MutexWord,
    count: u16,
    seats: &mut Vec<MutexSeat>,
    passes: &mut Vec<MutexPass>,
    number: u16,
    between: &[Step],
) -> bool
    requires count { word.now.seats ≡ count }
    requires mine { All (λ seat. IsSeatOf seat word.now) seats.old.items }
    ensures mine { All (λ seat. IsSeatOf seat word.now) seats.new.items }
{
    let Some(place) = place_of(seats, number) else {
        return false;
    };
    let mut winner = seats.remove(place);
    match word.claim(&mut winner) {
        Claim::Won => {
            let told = answers(word, count, seats, passes, between);
            let settled = passed(passes, Ok(word.settle(&mut winner)));
            let back = comes_back(word, seats, winner);
            told && back && settled == Told::Passed
        }
        _ => false,
    }
}

// Whether one part is answered as is wanted.
fn part_answers(
    word: &MutexWord,
    count: u16,
    seats: &mut Vec<MutexSeat>,
    passes: &mut Vec<MutexPass>,
    part: Part<'_>,
) -> bool
    requires count { word.now.seats ≡ count }
    requires mine { All (λ seat. IsSeatOf seat word.now) seats.old.items }
    ensures mine { All (λ seat. IsSeatOf seat word.now) seats.new.items }
{
    match part {
        Part::Steps(times, steps) => round_answers(word, count, seats, passes, times, steps),
        Part::Win(number, between) => wins_around(word, count, seats, passes, number, between),
    }
}

// Whether parts are answered as is wanted, one after another.
fn all_answer(
    word: &MutexWord,
    count: u16,
    seats: &mut Vec<MutexSeat>,
    passes: &mut Vec<MutexPass>,
    parts: &[Part<'_>],
) -> bool
    requires count { word.now.seats ≡ count }
    requires mine { All (λ seat. IsSeatOf seat word.now) seats.old.items }
    ensures mine { All (λ seat. IsSeatOf seat word.now) seats.new.items }
{
    for part in parts {
        if !part_answers(word, count, seats, passes, *part) {
            return false;
        }
    }
    true
}

// Whether a mutex nests, how many seats it has, and how many of them are there when it is closed.
#[derive(Clone, Copy)]
struct Kind {
    recursive: bool,
    seats: u16,
    handed: usize,
}

// A mutex of so many seats that doesn't nest, all of which are there when it is closed.
fn plain(seats: u16) -> Kind {
    Kind {
        recursive: false,
        seats,
        handed: 256,
    }
}

// The word at which a mutex closes once the parts were made; none where a step isn't answered as it is wanted.
fn word_after(alloc: Global, kind: Kind, parts: &[Part<'_>]) -> Option<u64> {
    match made(alloc, kind.recursive, kind.seats) {
        Ok((word, mut seats)) => {
            let mut passes = Vec::new(alloc);
            let told = all_answer(&word, kind.seats, &mut seats, &mut passes, parts);
            seats.truncate(kind.handed);
            let last = word.close(seats);
            if told { Some(last) } else { None }
        }
        Err(_) => None,
    }
}

// The word at which a mutex of so many seats closes that doesn't nest, whose steps are made once.
fn word_of(alloc: Global, seats: u16, steps: &[Step]) -> Option<u64> {
    word_after(alloc, plain(seats), &[Part::Steps(1, steps)])
}

// After how many of the steps, and at which word.
type Word = (usize, u64);

// Whether the mutex, of three seats, closes at the word that is wanted after so many of the steps, each time from the
// beginning.
fn words_are(alloc: Global, steps: &[Step], wanted: &[Word]) -> bool {
    for (count, word) in wanted {
        let Some(some) = steps.get(..*count) else {
            return false;
        };
        if word_of(alloc, 3, some) != Some(*word) {
            return false;
        }
    }
    true
}

mod rows;
