//! Plays a scenario into a sink.
ghost use Rattle.std.specs.Prelude.{◌≡◌, ◌≤◌, ◌++◌, length, List, ℕ, [], true, false, Ok, Err, OnOk, OnErr, IfOk, IfErr, drop, string_bytes};
ghost use Rattle.std.specs.Io.KnownBytes.{Appends};
ghost use Rattle.evl_kernel.specs.state.Limits.{callback_limit};
ghost use Rattle.evl_kernel.specs.state.Callbacks.{AnswersByPlan};
ghost use Rattle.evl_kernel.specs.state.KernelViews.{IsOpened};
ghost use Rattle.evl_shell.specs.Sinks.{Passes};
ghost use Rattle.evl_scenario.specs.Faults.{IsRefusal};
ghost use Rattle.evl_shell.specs.Faults.{Stopped, Writes, WritesPart, WritesLines, is_write_fault};
ghost use Rattle.evl_scenario.specs.Lines.{AreLines, board_line_of, board_line_text, play_lines};
ghost use Rattle.evl_shell.specs.Moments as moments;
ghost use Rattle.evl_shell.specs.Moments.{moment, Turns, Tells};
ghost use Rattle.evl_shell.specs.Runs.{turn, turn_lines, lines_from, handlers_of, script_trace, trace_of};

use crate::chunks::Chunks;
use crate::sinks::{Sink, SinkFailed};
use crate::texts::{Called, Texts};
use evl_base::{Board, Play, Refusal, Reply};
use evl_kernel::KernelOf;
use evl_pipeline::{Callback, Handler};
use evl_scenario::{EntryNumber, Fault, Scenario, Step, StepAnswer, read_scenario};
use std::alloc::Global;

/// Whether an answer means want of memory, so that its call made no entry and changed nothing.
pub fn wants_memory(answer: &Result<Reply, Refusal>) -> bool
    ensures { result ≡ moments.wants_memory answer.now }
{
    match answer {
        Err(Refusal::NoMemory) => true,
        _ => false,
    }
}

// The number of an entry that raised the count of entries, if one did.
fn number_after(before: usize, count: usize) -> Option<usize>
    ensures { result ≡ moments.number_after before count }
{
    if before < count { Some(count) } else { None }
}

// Makes the call of a step, which goes into the kernel's history. `NoMemory` is all that it is refused for, and only
// where the kernel had no room: any other refusal of the call is written.
fn make_call<C: Handler>(kernel: &mut KernelOf<C, Global>, step: Step) -> Result<Called, Refusal>
    requires by_plan { AnswersByPlan C.declared C.plan kernel.old.callbacks }
    ensures by_plan { AnswersByPlan C.declared C.plan kernel.new.callbacks }
    ensures memory { IfErr result (λ e. kernel.old.room ≡ 0) }
    ensures turn { IfOk result (λ called. Tells kernel.old kernel.new called.number.0 called.answer.0 (turn kernel.old.limit (moment kernel.old) step)) }
{
    let Step { who, call } = step;
    let before = kernel.history().len();
    let answer = kernel.apply(who, call);
    if wants_memory(&answer) {
        return Err(Refusal::NoMemory);
    }
    let number = number_after(before, kernel.history().len());
    Ok(Called {
        number: EntryNumber(number),
        answer: StepAnswer(answer),
    })
}

// Puts the lines of some plays.
fn put_plays<S: Sink>(
    texts: &mut Texts,
    plays: &[Play],
    chunks: &mut Chunks,
    out: &mut S,
) -> Result<(), Fault>
    requires working { S.has_failed out.old ≡ false }
    ensures ok { OnOk result (Passes (S.told out.old) chunks.old (S.told out.new) chunks.new (play_lines plays.now)) }
    ensures working { OnOk result (S.has_failed out.new ≡ false) }
    ensures stopped { IfErr result (Stopped (S.told out.old) chunks.old (S.told out.new) (play_lines plays.now) (S.has_failed out.new)) }
{
    for play in plays {
        let Ok(()) = texts.write_play(*play) else {
            return Err(chunks.give_up(out));
        };
        match chunks.put(texts.line.as_str(), out) {
            Ok(()) => {}
            Err(fault) => return Err(fault),
        }
    }
    Ok(())
}

// The plays of a kernel from an index on.
fn plays_from<C: Handler>(kernel: &KernelOf<C, Global>, start: usize) -> &[Play]
    ensures { result.now ≡ drop start kernel.now.history.plays }
{
    kernel.plays().get(start..).unwrap_or(&[])
}

// Makes the call of a step, and puts its line and those of its plays. The step's text is written first, since its call
// goes into the history.
fn play_step<C: Handler, S: Sink>(
    texts: &mut Texts,
    kernel: &mut KernelOf<C, Global>,
    step: Step,
    chunks: &mut Chunks,
    out: &mut S,
) -> Result<(), Fault>
    requires working { S.has_failed out.old ≡ false }
    requires by_plan { AnswersByPlan C.declared C.plan kernel.old.callbacks }
    ensures by_plan { AnswersByPlan C.declared C.plan kernel.new.callbacks }
    ensures ok { OnOk result (Passes (S.told out.old) chunks.old (S.told out.new) chunks.new (turn_lines step (turn kernel.old.limit (moment kernel.old) step))) }
    ensures turns { OnOk result (Turns kernel.old kernel.new (turn kernel.old.limit (moment kernel.old) step)) }
    ensures working { OnOk result (S.has_failed out.new ≡ false) }
    ensures stopped { IfErr result (Stopped (S.told out.old) chunks.old (S.told out.new) (turn_lines step (turn kernel.old.limit (moment kernel.old) step)) (S.has_failed out.new)) }
{
    let plays = kernel.plays().len();
    let Ok(()) = texts.write_step(&step) else {
        return Err(chunks.give_up(out));
    };
    let Ok(called) = make_call(kernel, step) else {
        return Err(chunks.give_up(out));
    };
    let Ok(()) = texts.write_answer(called) else {
        return Err(chunks.give_up(out));
    };
    match chunks.put(texts.line.as_str(), out) {
        Ok(()) => {}
        Err(fault) => return Err(fault),
    }
    match put_plays(texts, plays_from(kernel, plays), chunks, out) {
        Ok(()) => Ok(()),
        Err(fault) => Err(fault),
    }
}

// Plays some steps.
fn play_steps<C: Handler, S: Sink>(
    texts: &mut Texts,
    kernel: &mut KernelOf<C, Global>,
    steps: Vec<Step>,
    chunks: &mut Chunks,
    out: &mut S,
) -> Result<(), Fault>
    requires working { S.has_failed out.old ≡ false }
    requires by_plan { AnswersByPlan C.declared C.plan kernel.old.callbacks }
    ensures ok { OnOk result (Passes (S.told out.old) chunks.old (S.told out.new) chunks.new (lines_from kernel.old.limit (moment kernel.old) steps.items)) }
    ensures working { OnOk result (S.has_failed out.new ≡ false) }
    ensures stopped { IfErr result (Stopped (S.told out.old) chunks.old (S.told out.new) (lines_from kernel.old.limit (moment kernel.old) steps.items) (S.has_failed out.new)) }
{
    for step in steps {
        match play_step(texts, kernel, step, chunks, out) {
            Ok(()) => {}
            Err(fault) => return Err(fault),
        }
    }
    Ok(())
}

// Puts the line of a board, which is in the texts, and plays some steps.
fn play_opened<C: Handler, S: Sink>(
    texts: &mut Texts,
    kernel: &mut KernelOf<C, Global>,
    steps: Vec<Step>,
    chunks: &mut Chunks,
    out: &mut S,
) -> Result<(), Fault>
    requires working { S.has_failed out.old ≡ false }
    requires by_plan { AnswersByPlan C.declared C.plan kernel.old.callbacks }
    requires whole { AreLines (string_bytes texts.old.line) }
    ensures ok { OnOk result (Passes (S.told out.old) chunks.old (S.told out.new) chunks.new (string_bytes texts.old.line ++ lines_from kernel.old.limit (moment kernel.old) steps.items)) }
    ensures working { OnOk result (S.has_failed out.new ≡ false) }
    ensures stopped { IfErr result (Stopped (S.told out.old) chunks.old (S.told out.new) (string_bytes texts.old.line ++ lines_from kernel.old.limit (moment kernel.old) steps.items) (S.has_failed out.new)) }
{
    match chunks.put(texts.line.as_str(), out) {
        Ok(()) => {}
        Err(fault) => return Err(fault),
    }
    match play_steps(texts, kernel, steps, chunks, out) {
        Ok(()) => Ok(()),
        Err(fault) => Err(fault),
    }
}

// Writes the line of a board into the texts, and makes its kernel.
fn open<C: Handler>(
    alloc: Global,
    texts: &mut Texts,
    board: Board,
    bank: Vec<C>,
    limit: u32,
) -> Result<KernelOf<C, Global>, Refusal>
    ensures line { OnOk result (string_bytes texts.new.line ≡ board_line_text (board_line_of board limit)) }
    ensures opened { IfOk result (IsOpened C.declared C.plan board bank.items limit) }
    ensures by_plan { IfOk result (λ k. AnswersByPlan C.declared C.plan k.callbacks) }
{
    match texts.write_board(&board, limit) {
        Ok(()) => KernelOf::new(alloc, board, bank, limit),
        Err(refusal) => Err(refusal),
    }
}

/// Lets a kernel go. All that goes with it is proved here once, and not in each crate that is done with a kernel.
pub fn leave<C: Handler>(kernel: KernelOf<C, Global>) {
    drop(kernel);
}

// Plays a scenario, but for what waits at the end.
fn play_scenario<C: Handler, S: Sink>(
    alloc: Global,
    scenario: Scenario,
    bank: Vec<C>,
    chunks: &mut Chunks,
    out: &mut S,
) -> Result<(), Fault>
    requires working { S.has_failed out.old ≡ false }
    ensures ok { OnOk result (Passes (S.told out.old) chunks.old (S.told out.new) chunks.new (script_trace (handlers_of C.declared C.plan bank.items) scenario)) }
    ensures working { OnOk result (S.has_failed out.new ≡ false) }
    ensures stopped { IfErr result (Stopped (S.told out.old) chunks.old (S.told out.new) (script_trace (handlers_of C.declared C.plan bank.items) scenario) (S.has_failed out.new)) }
{
    let (board, limit, steps) = scenario.into_parts();
    let mut texts = Texts::new(alloc);
    match open(alloc, &mut texts, board, bank, limit) {
        Ok(mut kernel) => {
            let played = play_opened(&mut texts, &mut kernel, steps, chunks, out);
            leave(kernel);
            played
        }
        Err(_) => Err(chunks.give_up(out)),
    }
}

// Writes the trace of a scenario, and what waits at its end.
fn write_trace<C: Handler, S: Sink>(
    alloc: Global,
    scenario: Scenario,
    bank: Vec<C>,
    out: &mut S,
) -> Result<(), Fault>
    requires working { S.has_failed out.old ≡ false }
    ensures ok { OnOk result (Appends (S.told out.old) (S.told out.new) (script_trace (handlers_of C.declared C.plan bank.items) scenario)) }
    ensures working { OnOk result (S.has_failed out.new ≡ false) }
    ensures stopped { IfErr result (Stopped (S.told out.old) [] (S.told out.new) (script_trace (handlers_of C.declared C.plan bank.items) scenario) (S.has_failed out.new)) }
{
    let mut chunks = Chunks::new(alloc);
    match play_scenario(alloc, scenario, bank, &mut chunks, out) {
        Ok(()) => match chunks.flush(out) {
            Ok(()) => Ok(()),
            Err(SinkFailed) => Err(Fault::Write),
        },
        Err(fault) => Err(fault),
    }
}

// rule: After `Memory` whole lines from the front of the trace went out and the sink has not failed; after `Write` a
//   front part did and it has.
//   clauses: run; wants_memory
//   rows: each_write_fails_once; fails_after_4096_bytes; a_trace_goes_by_single_bytes;
//   each_write_of_a_long_trace_fails_once; each_write_of_a_short_trace_fails_once; each_write_of_a_trace_fails_once;
//   writes_in_chunks
/// Writes the trace of a text over a bank of at most 64 callbacks, under a limit that may be handed in (1 to 1,000,000;
/// it replaces the text's). The text is checked whole before the first byte is written, and the bank is dropped in the
/// end. `Text`, `Board` and `Step` say what is wrong with the text, `Memory` that a growth was refused: the lines made
/// before it were written whole; and `Write` that the sink has failed, which it has at no other answer.
pub fn run<S: Sink>(
    alloc: Global,
    text: &[u8],
    limit: Option<u32>,
    bank: Vec<Callback>,
    out: &mut S,
) -> Result<(), Fault>
    requires working { S.has_failed out.old ≡ false }
    requires few { length bank.items ≤ callback_limit }

    // The whole trace, and nothing else.
    ensures done { OnOk result (Writes (S.told out.old) (S.told out.new) (trace_of (handlers_of (λ (c : _). c.kinds.0) (λ (c : _). c.plan.value) bank.items) limit text.now)) }

    // A fault of the text, and nothing written.
    ensures refused { IfErr result (λ e. IsRefusal e → (trace_of (handlers_of (λ (c : _). c.kinds.0) (λ (c : _). c.plan.value) bank.items) limit text.now ≡ Err e) × (out.new ≡ out.old)) }

    // Whole lines at the front of the trace, where memory ran out.
    ensures memory { result ≡ Err Fault.Memory → WritesLines (S.told out.old) (S.told out.new) (trace_of (handlers_of (λ (c : _). c.kinds.0) (λ (c : _). c.plan.value) bank.items) limit text.now) }

    // A front part of the trace, where the sink failed; it has failed nowhere else.
    ensures write { result ≡ Err Fault.Write → WritesPart (S.told out.old) (S.told out.new) (trace_of (handlers_of (λ (c : _). c.kinds.0) (λ (c : _). c.plan.value) bank.items) limit text.now) }
    ensures failed { S.has_failed out.new ≡ is_write_fault result }
{
    match read_scenario(alloc, text, limit) {
        Ok(scenario) => write_trace(alloc, scenario, bank, out),
        Err(fault) => Err(fault),
    }
}
