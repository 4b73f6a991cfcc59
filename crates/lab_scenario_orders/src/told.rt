//! The lines that are reported of callers at the end of an order.
ghost use Rattle.std.specs.Prelude.{◌≡◌, ◌≤◌, ◌++◌, [], OnOk, IfOk, length, map, slice_index_or, string_bytes};
ghost use Rattle.lab_scenario_orders.specs.Told.{answered_text, awaited_at, callers_text, elements_text, flags_line, has_more, is_caller, lines_below, mutex_line, pending_text, sem_line, stuck_text, unpicked_text, waiting_text, waits_text, xbuf_line, xbufs_text};

use crate::callers::Callers;
use crate::kernels::goes_on;
use crate::lines::{Lines, Waits, put_lines};
use crate::moments::Moment;
use evl_base::{Board, FlagId, LINES, LineNo, MutexId, SemId, Stage, ThreadId, Way, XbufId};
use evl_kernel::KernelOf;
use std::alloc::{AllocError, Global};

// Writes that a thread waits.
fn put_waits<C>(
    text: &mut String,
    kernel: &KernelOf<C, Global>,
    who: ThreadId,
) -> Result<(), AllocError>
    ensures { OnOk result (string_bytes text.new ≡ string_bytes text.old ++ waits_text who.0 (awaited_at kernel.now.history.state who.0)) }
{
    text.write(Waits {
        who: who.0,
        on: kernel.awaited(who),
    })
}

// Writes that a thread waits whose wait goes on.
fn put_waiting<C>(
    text: &mut String,
    kernel: &KernelOf<C, Global>,
    who: ThreadId,
) -> Result<(), AllocError>
    ensures { OnOk result (string_bytes text.new ≡ string_bytes text.old ++ waiting_text kernel.now.history.state who.0) }
{
    if goes_on(kernel, who) {
        put_waits(text, kernel, who)
    } else {
        Ok(())
    }
}

// Writes that a thread isn't picked.
fn put_unpicked(text: &mut String, who: ThreadId) -> Result<(), AllocError>
    ensures { OnOk result (string_bytes text.new ≡ string_bytes text.old ++ unpicked_text who.0) }
{
    let number = who.0;
    write!(text, "T{number} isn't picked\n")
}

// Writes that a caller is stuck.
fn put_stuck<C>(
    text: &mut String,
    kernel: &KernelOf<C, Global>,
    who: ThreadId,
) -> Result<(), AllocError>
    ensures { OnOk result (string_bytes text.new ≡ string_bytes text.old ++ stuck_text kernel.now.history.state who.0) }
{
    text.push_str("stuck: ")?;
    if goes_on(kernel, who) {
        put_waits(text, kernel, who)
    } else {
        put_unpicked(text, who)
    }
}

// Whether a caller has a step more.
fn has_more(callers: &Callers, moment: &Moment, caller: usize) -> bool
    ensures { result ≡ has_more callers.now moment.now.made.items caller }
{
    let made = moment.made.get(caller).copied().unwrap_or(0);
    callers.next_place(caller, made).is_some()
}

// Whether a thread is a caller.
fn is_caller(callers: &Callers, number: u16) -> bool
    ensures { result ≡ is_caller callers.now number }
{
    callers.callers.iter().any(|caller| caller.who.0 == number)
}

// Lines of the callers that are stuck: they have a step more.
#[derive(Drop)]
struct Stuck<'a, C> {
    kernel: &'a KernelOf<C, Global>,
    callers: &'a Callers,
    moment: &'a Moment,
}

impl<'a, C> Lines for Stuck<'a, C> {
    ghost use Rattle.lab_scenario_orders.specs.Told.{stuck_line};

    ghost line = { λ stuck number. stuck_line stuck.callers.now stuck.moment.now.made.items stuck.kernel.now.history.state number };

    fn put(&self, text: &mut String, number: u16) -> Result<(), AllocError> {
        let caller = usize::from(number);
        if !has_more(self.callers, self.moment, caller) {
            return Ok(());
        }
        match self.callers.callers.get(caller) {
            Some(having) => put_stuck(text, self.kernel, having.who),
            None => Ok(()),
        }
    }
}

// Lines of the callers that wait and have no step more.
#[derive(Drop)]
struct Resting<'a, C> {
    kernel: &'a KernelOf<C, Global>,
    callers: &'a Callers,
    moment: &'a Moment,
}

impl<'a, C> Lines for Resting<'a, C> {
    ghost use Rattle.lab_scenario_orders.specs.Told.{resting_line};

    ghost line = { λ resting number. resting_line resting.callers.now resting.moment.now.made.items resting.kernel.now.history.state number };

    fn put(&self, text: &mut String, number: u16) -> Result<(), AllocError> {
        let caller = usize::from(number);
        if has_more(self.callers, self.moment, caller) {
            return Ok(());
        }
        match self.callers.callers.get(caller) {
            Some(having) => put_waiting(text, self.kernel, having.who),
            None => Ok(()),
        }
    }
}

// Writes what a thread was answered.
fn put_answered(text: &mut String, who: ThreadId, told: &str) -> Result<(), AllocError>
    ensures { OnOk result (string_bytes text.new ≡ string_bytes text.old ++ answered_text who.0 told.now) }
{
    let number = who.0;
    write!(text, "T{number}{told}\n")
}

// A caller's answers.
fn told_at(answers: &[String], caller: usize) -> &str
    ensures { result.now ≡ slice_index_or (map string_bytes answers.now) caller [] }
{
    match answers.get(caller) {
        Some(told) => told.as_str(),
        None => "",
    }
}

// Lines of what callers were answered.
#[derive(Drop)]
struct Answered<'a> {
    callers: &'a Callers,
    moment: &'a Moment,
}

impl<'a> Lines for Answered<'a> {
    ghost use Rattle.std.specs.Prelude.{map, string_bytes};
    ghost use Rattle.lab_scenario_orders.specs.Told.{answered_line};

    ghost line = { λ answered number. answered_line answered.callers.now (map string_bytes answered.moment.now.answers.items) number };

    fn put(&self, text: &mut String, number: u16) -> Result<(), AllocError> {
        let caller = usize::from(number);
        match self.callers.callers.get(caller) {
            Some(having) => {
                put_answered(
                    text,
                    having.who,
                    told_at(self.moment.answers.as_slice(), caller),
                )
            }
            None => Ok(()),
        }
    }
}

// Lines of the threads that wait and are no callers.
#[derive(Drop)]
struct Waiting<'a, C> {
    kernel: &'a KernelOf<C, Global>,
    callers: &'a Callers,
}

impl<'a, C> Lines for Waiting<'a, C> {
    ghost use Rattle.lab_scenario_orders.specs.Told.{waiting_line};

    ghost line = { λ waiting number. waiting_line waiting.callers.now waiting.kernel.now.history.state number };

    fn put(&self, text: &mut String, number: u16) -> Result<(), AllocError> {
        if is_caller(self.callers, number) {
            Ok(())
        } else {
            put_waiting(text, self.kernel, ThreadId(number))
        }
    }
}

// Lines of the mutexes that have recorded owners.
#[derive(Drop)]
struct Mutexes<'a, C> {
    kernel: &'a KernelOf<C, Global>,
}

impl<'a, C> Lines for Mutexes<'a, C> {
    ghost use Rattle.lab_scenario_orders.specs.Told.{mutex_line};

    ghost line = { λ mutexes number. mutex_line mutexes.kernel.now.history.state number };

    fn put(&self, text: &mut String, number: u16) -> Result<(), AllocError> {
        let waiters = self.kernel.waiters(MutexId(number));
        match self.kernel.owner(MutexId(number)) {
            Some(owner) => {
                let owner = owner.0;
                write!(text, "mutex {number}: owner T{owner}, {waiters} wait\n")
            }
            None => Ok(()),
        }
    }
}

// Lines of the semaphores' counts.
#[derive(Drop)]
struct Sems<'a, C> {
    kernel: &'a KernelOf<C, Global>,
}

impl<'a, C> Lines for Sems<'a, C> {
    ghost use Rattle.lab_scenario_orders.specs.Told.{sem_line};

    ghost line = { λ sems number. sem_line sems.kernel.now.history.state number };

    fn put(&self, text: &mut String, number: u16) -> Result<(), AllocError> {
        match self.kernel.count(SemId(number)) {
            Some(count) => write!(text, "sem {number}: {count}\n"),
            None => Ok(()),
        }
    }
}

// Lines of the flag groups' bits.
#[derive(Drop)]
struct Flags<'a, C> {
    kernel: &'a KernelOf<C, Global>,
}

impl<'a, C> Lines for Flags<'a, C> {
    ghost use Rattle.lab_scenario_orders.specs.Told.{flags_line};

    ghost line = { λ flags number. flags_line flags.kernel.now.history.state number };

    fn put(&self, text: &mut String, number: u16) -> Result<(), AllocError> {
        match self.kernel.bits(FlagId(number)) {
            Some(bits) => write!(text, "flags {number}: {bits}\n"),
            None => Ok(()),
        }
    }
}

// Lines of the bytes in a way of the cross-buffers.
#[derive(Drop)]
struct Xbufs<'a, C> {
    kernel: &'a KernelOf<C, Global>,
    way: Way,
}

impl<'a, C> Lines for Xbufs<'a, C> {
    ghost use Rattle.lab_scenario_orders.specs.Told.{xbuf_line};

    ghost line = { λ xbufs number. xbuf_line xbufs.kernel.now.history.state xbufs.way number };

    fn put(&self, text: &mut String, number: u16) -> Result<(), AllocError> {
        let way = self.way;
        match self.kernel.there(XbufId(number), way) {
            Some(there) => write!(text, "xbuf {number} {way}: {there} bytes\n"),
            None => Ok(()),
        }
    }
}

// Lines of the events that are pending on a stage.
#[derive(Drop)]
struct Pending<'a, C> {
    kernel: &'a KernelOf<C, Global>,
    stage: Stage,
}

impl<'a, C> Lines for Pending<'a, C> {
    ghost use Rattle.lab_scenario_orders.specs.Told.{pending_line};

    ghost line = { λ pending number. pending_line pending.kernel.now.history.state pending.stage number };

    fn put(&self, text: &mut String, number: u16) -> Result<(), AllocError> {
        let stage = self.stage;
        if self.kernel.pending(stage, LineNo(number)) {
            write!(text, "line {number} {stage} pending\n")
        } else {
            Ok(())
        }
    }
}

// Writes who waits and what callers were answered.
fn put_callers<C>(
    text: &mut String,
    kernel: &KernelOf<C, Global>,
    callers: &Callers,
    moment: &Moment,
) -> Result<(), AllocError>
    ensures { OnOk result (string_bytes text.new ≡ string_bytes text.old ++ callers_text callers.now moment.now.made.items (map string_bytes moment.now.answers.items) kernel.now.history.state) }
{
    let stuck = Stuck {
        kernel,
        callers,
        moment,
    };
    put_lines(text, &stuck, callers.count())?;
    let resting = Resting {
        kernel,
        callers,
        moment,
    };
    put_lines(text, &resting, callers.count())?;
    put_lines(text, &Answered { callers, moment }, callers.count())?;
    put_lines(text, &Waiting { kernel, callers }, callers.board.threads)
}

// How many there are, at most 64.
fn number_of(count: usize) -> u16
    requires { count ≤ 64 }
    ensures { result ≡ count }
{
    count as u16
}

// Writes the recorded owners.
fn put_mutexes<C>(
    text: &mut String,
    kernel: &KernelOf<C, Global>,
    board: &Board,
) -> Result<(), AllocError>
    ensures { OnOk result (string_bytes text.new ≡ string_bytes text.old ++ lines_below (mutex_line kernel.now.history.state) (length board.now.mutexes.items)) }
{
    put_lines(text, &Mutexes { kernel }, number_of(board.mutexes.len()))
}

// Writes the semaphores' counts.
fn put_sems<C>(
    text: &mut String,
    kernel: &KernelOf<C, Global>,
    board: &Board,
) -> Result<(), AllocError>
    ensures { OnOk result (string_bytes text.new ≡ string_bytes text.old ++ lines_below (sem_line kernel.now.history.state) (length board.now.sems.items)) }
{
    put_lines(text, &Sems { kernel }, number_of(board.sems.len()))
}

// Writes the flag groups' bits.
fn put_flags<C>(
    text: &mut String,
    kernel: &KernelOf<C, Global>,
    board: &Board,
) -> Result<(), AllocError>
    ensures { OnOk result (string_bytes text.new ≡ string_bytes text.old ++ lines_below (flags_line kernel.now.history.state) (length board.now.flags.items)) }
{
    put_lines(text, &Flags { kernel }, number_of(board.flags.len()))
}

// Writes how many bytes stand in a way of the cross-buffers.
fn put_way<C>(
    text: &mut String,
    kernel: &KernelOf<C, Global>,
    board: &Board,
    way: Way,
) -> Result<(), AllocError>
    ensures { OnOk result (string_bytes text.new ≡ string_bytes text.old ++ lines_below (xbuf_line kernel.now.history.state way) (length board.now.xbufs.items)) }
{
    put_lines(text, &Xbufs { kernel, way }, number_of(board.xbufs.len()))
}

// Writes how many bytes stand in the cross-buffers.
fn put_xbufs<C>(
    text: &mut String,
    kernel: &KernelOf<C, Global>,
    board: &Board,
) -> Result<(), AllocError>
    ensures { OnOk result (string_bytes text.new ≡ string_bytes text.old ++ xbufs_text board.now kernel.now.history.state) }
{
    put_way(text, kernel, board, Way::In)?;
    put_way(text, kernel, board, Way::Out)
}

// Writes how the elements of a board stand.
fn put_elements<C>(
    text: &mut String,
    kernel: &KernelOf<C, Global>,
    board: &Board,
) -> Result<(), AllocError>
    ensures { OnOk result (string_bytes text.new ≡ string_bytes text.old ++ elements_text board.now kernel.now.history.state) }
{
    put_mutexes(text, kernel, board)?;
    put_sems(text, kernel, board)?;
    put_flags(text, kernel, board)?;
    put_xbufs(text, kernel, board)
}

// Writes the events that are pending on both stages.
fn put_pending<C>(text: &mut String, kernel: &KernelOf<C, Global>) -> Result<(), AllocError>
    ensures { OnOk result (string_bytes text.new ≡ string_bytes text.old ++ pending_text kernel.now.history.state) }
{
    let stage = Stage::Oob;
    put_lines(text, &Pending { kernel, stage }, LINES as u16)?;
    let stage = Stage::Inband;
    put_lines(text, &Pending { kernel, stage }, LINES as u16)
}

/// The report of an end: lines `stuck: ` of the callers that have a step more, which wait; lines of the others that
/// wait; what each caller was answered; who else waits; recorded owners, counts, bits and bytes; and the events that
/// are pending.
pub(crate) fn told_of<C>(
    alloc: Global,
    kernel: &KernelOf<C, Global>,
    callers: &Callers,
    moment: &Moment,
) -> Result<String, AllocError>
    ensures { IfOk result (λ told. string_bytes told ≡ callers_text callers.now moment.now.made.items (map string_bytes moment.now.answers.items) kernel.now.history.state ++ (elements_text callers.now.board kernel.now.history.state ++ pending_text kernel.now.history.state)) }
{
    let mut text = String::new(alloc);
    put_callers(&mut text, kernel, callers, moment)?;
    put_elements(&mut text, kernel, &callers.board)?;
    put_pending(&mut text, kernel)?;
    Ok(text)
}
