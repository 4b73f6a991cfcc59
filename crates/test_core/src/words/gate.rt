//! The gate's rows.
ghost use Rattle.std.specs.Prelude.{◌≡◌, ◌<◌, All, vec_len, IfOk};
ghost use Rattle.evl_words.specs.GateCalls.{IsSeatOf, IsSameSeat};

use crate::rows::{cases, steps};
use evl_base::{Refusal, Stage, StaxId};
use evl_words::{Left, StaxGate, StaxPass, StaxSeat};
use std::alloc::Global;

fn made(alloc: Global, limit: u16, seats: u16) -> Result<(StaxGate, Vec<StaxSeat>), Refusal>
    ensures { IfOk result (λ made. All (λ seat. IsSeatOf seat made.0) made.1.items) }
{
    match StaxGate::new(alloc, StaxId(0), limit, seats) {
        Ok(made) => Ok(made),
        Err(refusal) => Err(refusal),
    }
}

// An act of a seat. Each seat's pass lies in a place of its own.
#[derive(Clone, Copy)]
enum Act {
    Enter(Stage),
    // Leaves with the pass of this seat.
    Leave(usize),
    Claim,
    Unclaim,
    Peek,
    // Looks at its pass.
    Show,
    // Looks at which stage it holds the gate.
    Held,
    // Tries to enter in-band, while the last seat enters at this stage between its load and its exchange.
    Race(Stage),
}

// The answer to it.
#[derive(Clone, Copy, PartialEq)]
enum Told {
    Entered,
    Refused(Refusal),
    Left(Left),
    Done,
    Sees(u16, Stage),
    Shows(StaxId, u16),
    Holds(Option<Stage>),
    Nothing,
}

// A step of a row: by which seat, what it does, and what it is answered.
type Step = (usize, Act, Told);

type Passes = [Option<StaxPass>; 4];

fn enter(gate: &StaxGate, seat: &mut StaxSeat, stage: Stage, pass: &mut Option<StaxPass>) -> Told
    requires { IsSeatOf seat.old gate.now }
    ensures { IsSameSeat seat.old seat.new }
{
    match gate.try_lock(seat, stage) {
        Ok(got) => {
            *pass = Some(got);
            Told::Entered
        }
        Err(refusal) => Told::Refused(refusal),
    }
}

// A pass that isn't the seat's comes back.
fn leave(gate: &StaxGate, seat: &mut StaxSeat, pass: &mut Option<StaxPass>) -> Told
    requires { IsSeatOf seat.old gate.now }
    ensures { IsSameSeat seat.old seat.new }
{
    match pass.take() {
        Some(spent) => match gate.unlock(seat, spent) {
            Ok(left) => Told::Left(left),
            Err((refusal, back)) => {
                *pass = Some(back);
                Told::Refused(refusal)
            }
        },
        None => Told::Nothing,
    }
}

fn shows(pass: &Option<StaxPass>) -> Told {
    match pass {
        Some(pass) => Told::Shows(pass.gate(), pass.seat()),
        None => Told::Nothing,
    }
}

// The answer to one seat, with this pass.
fn one_step(gate: &StaxGate, seat: &mut StaxSeat, pass: &mut Option<StaxPass>, act: Act) -> Told
    requires { IsSeatOf seat.old gate.now }
    ensures { IsSameSeat seat.old seat.new }
{
    match act {
        Act::Enter(stage) => enter(gate, seat, stage, pass),
        Act::Leave(_) => leave(gate, seat, pass),
        Act::Claim => {
            gate.claim(seat);
            Told::Done
        }
        Act::Unclaim => {
            gate.unclaim(seat);
            Told::Done
        }
        Act::Peek => {
            let (holders, stage) = gate.peek(seat);
            Told::Sees(holders, stage)
        }
        Act::Show => shows(pass),
        Act::Held => Told::Holds(seat.held()),
        Act::Race(_) => Told::Nothing,
    }
}

// The answer to the first seat's exchange where the second one entered after the first one's load.
fn exchanges(gate: &StaxGate, first: &mut StaxSeat, second: &mut StaxSeat, stage: Stage) -> Told
    requires mine { IsSeatOf first.old gate.now × IsSeatOf second.old gate.now }
    ensures first { IsSameSeat first.old first.new }
    ensures second { IsSameSeat second.old second.new }
{
    if first.held().is_some() {
        return Told::Nothing;
    }
    let Ok(word) = gate.look(first, Stage::Inband) else {
        return Told::Nothing;
    };
    let entered = gate.try_lock(second, stage).is_ok();
    match gate.exchange(first, Stage::Inband, word) {
        Err(refusal) if entered => Told::Refused(refusal),
        _ => Told::Nothing,
    }
}

// Whether there is room for a seat that was away.
fn comes_back(gate: &StaxGate, seats: &mut Vec<StaxSeat>, seat: StaxSeat) -> bool
    requires mine { All (λ seat. IsSeatOf seat gate.now) seats.old.items }
    requires away { IsSeatOf seat gate.now }
    ensures mine { All (λ seat. IsSeatOf seat gate.now) seats.new.items }
{
    seats.push(seat).is_ok()
}

// The answer to the seat of this number, which the last one races.
fn races(gate: &StaxGate, seats: &mut Vec<StaxSeat>, number: usize, stage: Stage) -> Told
    requires mine { All (λ seat. IsSeatOf seat gate.now) seats.old.items }
    ensures mine { All (λ seat. IsSeatOf seat gate.now) seats.new.items }
{
    let Some(mut last) = seats.pop() else {
        return Told::Nothing;
    };
    if number >= seats.len() {
        return Told::Nothing;
    }
    let told = exchanges(gate, &mut seats[number], &mut last, stage);
    let back = comes_back(gate, seats, last);
    if back { told } else { Told::Nothing }
}

// The answer to the seat of this number.
fn answer(
    gate: &StaxGate,
    seats: &mut Vec<StaxSeat>,
    passes: &mut Passes,
    number: usize,
    act: Act,
) -> Told
    requires mine { All (λ seat. IsSeatOf seat gate.now) seats.old.items }
    ensures mine { All (λ seat. IsSeatOf seat gate.now) seats.new.items }
{
    let place = match act {
        Act::Race(stage) => return races(gate, seats, number, stage),
        Act::Leave(of) => of,
        _ => number,
    };
    if number >= seats.len() || place >= 4 {
        return Told::Nothing;
    }
    one_step(gate, &mut seats[number], &mut passes[place], act)
}

// Whether each step is answered as it is wanted.
fn answers(gate: &StaxGate, seats: &mut Vec<StaxSeat>, passes: &mut Passes, steps: &[Step]) -> bool
    requires mine { All (λ seat. IsSeatOf seat gate.now) seats.old.items }
    ensures mine { All (λ seat. IsSeatOf seat gate.now) seats.new.items }
{
    for (number, act, wanted) in steps {
        if answer(gate, seats, passes, *number, *act) != *wanted {
            return false;
        }
    }
    true
}

// Whether the steps are answered as is wanted, made so often, one round after another.
fn all_answer(gate: &StaxGate, seats: &mut Vec<StaxSeat>, times: u16, steps: &[Step]) -> bool
    requires mine { All (λ seat. IsSeatOf seat gate.now) seats.old.items }
    ensures mine { All (λ seat. IsSeatOf seat gate.now) seats.new.items }
{
    let mut passes = [None, None, None, None];
    for _ in 0..times {
        if !answers(gate, seats, &mut passes, steps) {
            return false;
        }
    }
    true
}

// A gate's limit, how many seats it has, and how many of them are there when it is closed.
#[derive(Clone, Copy)]
struct Size {
    limit: u16,
    seats: u16,
    handed: usize,
}

// A gate of this limit, all of whose seats are there when it is closed.
fn whole(limit: u16, seats: u16) -> Size {
    let handed = 4;
    Size {
        limit,
        seats,
        handed,
    }
}

// The word at which a gate closes once the steps were made so often; none where a step isn't answered as it is wanted.
fn word_after(alloc: Global, size: Size, times: u16, steps: &[Step]) -> Option<u64> {
    match made(alloc, size.limit, size.seats) {
        Ok((gate, mut seats)) => {
            let told = all_answer(&gate, &mut seats, times, steps);
            seats.truncate(size.handed);
            let word = gate.close(seats);
            if told { Some(word) } else { None }
        }
        Err(_) => None,
    }
}

// Whether the steps are answered as they are wanted.
fn is_row(alloc: Global, size: Size, steps: &[Step]) -> bool {
    word_after(alloc, size, 1, steps).is_some()
}

// After how many of the steps, and at which word.
type Word = (usize, u64);

// Whether the gate closes at the word that is wanted after so many of the steps, each time from the beginning.
fn words_are(alloc: Global, size: Size, steps: &[Step], wanted: &[Word]) -> bool {
    for (count, word) in wanted {
        let Some(some) = steps.get(..*count) else {
            return false;
        };
        if word_after(alloc, size, 1, some) != Some(*word) {
            return false;
        }
    }
    true
}

const IN: Act = Act::Enter(Stage::Inband);

const OUT: Act = Act::Enter(Stage::Oob);

const ENTERED: Told = Told::Entered;

const OTHERS: Told = Told::Left(Left::Others);

const LAST: Told = Told::Left(Left::Last { claimed: false });

const CLAIMED: Told = Told::Left(Left::Last { claimed: true });

const LIMIT: Told = Told::Refused(Refusal::Limit);

const AGAIN: Told = Told::Refused(Refusal::Again);

const BUSY: Told = Told::Refused(Refusal::Busy);

const NOT_OWNER: Told = Told::Refused(Refusal::NotOwner);

const RACED_BY_ONE: Told = Told::Refused(Refusal::Raced {
    first: 0,
    second: 1,
});

// Row gate_1, while seats 0 and 1 hold the gate in-band, and once one of them has left: whom it keeps out.
const KEPT_OUT: [Step; 7] = steps![
    0 IN => ENTERED, 1 IN => ENTERED, 2 IN => LIMIT, 3 OUT => AGAIN, 0 IN => BUSY,
    0 Act::Leave(0) => OTHERS, 3 OUT => AGAIN,
];

#[test]
fn two_inband_seats_keep_others_out(rt: HostRuntime) {
    assert!(rt; is_row(rt.alloc(), whole(2, 4), &KEPT_OUT));
}

// Row gate_1: the words.
const BOTH_STAGES: [Step; 7] = steps![
    0 IN => ENTERED, 1 IN => ENTERED, 0 Act::Leave(0) => OTHERS, 1 Act::Leave(1) => LAST,
    1 OUT => ENTERED, 1 Act::Leave(1) => LAST, 0 IN => ENTERED,
];

const BOTH_STAGES_WORDS: [Word; 5] = [(2, 2), (4, 0), (5, 1073741825), (6, 1073741824), (7, 1)];

#[test]
fn the_word_shows_holders_and_stage(rt: HostRuntime) {
    assert!(rt; words_are(rt.alloc(), whole(2, 2), &BOTH_STAGES, &BOTH_STAGES_WORDS));
}

// Row gate_2: what the calls answer, and the words.
const CLAIM_ROW: [Step; 6] = steps![
    0 IN => ENTERED, 1 Act::Claim => Told::Done, 0 Act::Leave(0) => CLAIMED, 1 OUT => ENTERED,
    1 Act::Unclaim => Told::Done, 1 Act::Peek => Told::Sees(1, Stage::Oob),
];

const CLAIM_WORDS: [Word; 5] =
    cases![1 => 1; 2 => 2147483649; 3 => 2147483648; 4 => 3221225473; 5 => 1073741825;];

#[test]
fn the_last_to_leave_is_told_of_a_claim(rt: HostRuntime) {
    assert!(rt; is_row(rt.alloc(), whole(1, 2), &CLAIM_ROW));
}

#[test]
fn the_word_shows_the_claim_mark(rt: HostRuntime) {
    assert!(rt; words_are(rt.alloc(), whole(2, 2), &CLAIM_ROW, &CLAIM_WORDS));
}

// Row gate_4: a pass names its gate and its seat, of which alone it is one.
const PASS: [Step; 6] = steps![
    0 OUT => ENTERED, 0 Act::Show => Told::Shows(StaxId(0), 0),
    0 Act::Held => Told::Holds(Some(Stage::Oob)), 1 Act::Held => Told::Holds(None),
    1 Act::Leave(0) => NOT_OWNER, 0 Act::Leave(0) => LAST,
];

#[test]
fn a_pass_is_its_seats(rt: HostRuntime) {
    assert!(rt; is_row(rt.alloc(), whole(3, 2), &PASS));
}

// Row gate_5: on a quiet gate no try is a race, in a thousand rounds of the two stages in turn.
const IN_TURN: [Step; 8] = steps![
    0 IN => ENTERED, 1 IN => ENTERED, 0 Act::Leave(0) => OTHERS, 1 Act::Leave(1) => LAST,
    0 OUT => ENTERED, 1 OUT => ENTERED, 0 Act::Leave(0) => OTHERS, 1 Act::Leave(1) => LAST,
];

#[test]
fn stages_take_turns_on_a_quiet_gate(rt: HostRuntime) {
    assert!(rt; word_after(rt.alloc(), whole(3, 2), 500, &IN_TURN) == Some(1073741824));
}

// Row gate_3: the try of a seat whose exchange finds that another one entered since its load is lost, and its next try
// enters.
const RACED: [Step; 3] = steps![
    0 Act::Race(Stage::Inband) => RACED_BY_ONE, 0 IN => ENTERED, 0 Act::Leave(0) => OTHERS,
];

const RACED_WORDS: [Word; 2] = [(2, 2), (3, 1)];

#[test]
fn next_try_after_a_race_enters(rt: HostRuntime) {
    assert!(rt; words_are(rt.alloc(), whole(3, 2), &RACED, &RACED_WORDS));
}

// Row gate_3: with a full gate, or another stage, the exchange is refused for that.
const FULL: [Step; 1] = steps![0 Act::Race(Stage::Inband) => LIMIT];

const OTHER_STAGE: [Step; 1] = steps![0 Act::Race(Stage::Oob) => AGAIN];

#[test]
fn what_the_exchange_found_decides(rt: HostRuntime) {
    assert!(rt; is_row(rt.alloc(), whole(1, 2), &FULL));
    assert!(rt; is_row(rt.alloc(), whole(3, 2), &OTHER_STAGE));
}

const BOTH_IN: [Step; 2] = steps![0 IN => ENTERED, 1 IN => ENTERED];

// Both of a gate's seats have entered, and only the first ones are handed in.
#[test]
fn a_gate_closes_as_it_stands_whoever_is_handed_in(rt: HostRuntime) {
    for handed in 0..3 {
        let size = Size {
            limit: 2,
            seats: 2,
            handed,
        };
        assert!(rt; word_after(rt.alloc(), size, 1, &BOTH_IN) == Some(2));
    }
}

// Whether a gate of this limit has so many seats; none where it is refused for another reason than its range.
fn fits(alloc: Global, limit: u16, seats: u16) -> Option<bool> {
    match made(alloc, limit, seats) {
        Ok(_) => Some(true),
        Err(Refusal::Range) => Some(false),
        Err(_) => None,
    }
}

const RANGES: [(u16, u16, bool); 6] = [
    (1, 1, true),
    (1000, 256, true),
    (0, 1, false),
    (1001, 1, false),
    (1, 0, false),
    (1, 257, false),
];

#[test]
fn limits_and_seats_have_a_range(rt: HostRuntime) {
    for (limit, seats, wanted) in RANGES {
        assert!(rt; fits(rt.alloc(), limit, seats) == Some(wanted));
    }
}
