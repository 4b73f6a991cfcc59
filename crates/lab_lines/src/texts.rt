//! Texts of lines.
ghost use Rattle.std.specs.Prelude.{◌≡◌, ◌⊎◌, ◌++◌, ◌∷◌, [], ℕ, IfErr, IfOk, IfSome, None, OnOk, Ok, Err, Some, false, length, map, string_bytes, true};
ghost use Rattle.std.specs.Str.{is_utf8};
ghost use Rattle.std.specs.Str.Lines.{lines};
ghost use Rattle.evl_scenario.specs.Scenarios.{scenario_of};
ghost use Rattle.evl_scenario.specs.Writings.{scenario_text, script_of_history, step_of_entry};
ghost use Rattle.lab_lines.specs.Texts.{IsAt, IsRefused, IsRefusedLines, IsUnsaid, IsUnwrittenAs, Means, MeansAs, MeansLines, MeansSaid, gathered, gathered_in, nothing_said, said_in, said_of, scripted, with_said};

use crate::lines::Unread;
use crate::says::{Says, read_says};
use evl_base::{Board, Entry, Reply};
use evl_scenario::{Step, Unwritten, write_scenario};
use std::alloc::{AllocError, Global};

/// Why a text of lines isn't read.
#[derive(Drop)]
pub enum LinesFault {
    /// Its bytes are no UTF-8.
    Text,
    /// A line, from 1, where it can't be read, and what was wanted there.
    Line(usize, Unread),
    /// No line says a board.
    Board,
    /// Its scenario would have more than 1,048,576 bytes.
    TooLong,
    /// A growth was refused.
    Memory,
}

/// The scenario that a text of lines is.
#[derive(Drop)]
pub struct Meant {
    /// The scenario, as text.
    pub scenario: String,
    /// How many of its first steps are set up.
    pub setup: usize,
}

/// All that lines have said. A step is kept as the entry of a history, since a scenario is written of those.
#[derive(Drop)]
pub struct Gathering {
    pub opening: Option<(Board, u32)>,
    pub limit: Option<u32>,
    pub setup: Vec<Entry>,
    pub steps: Vec<Entry>,
}

// Why what a line says can't be added.
#[derive(Drop)]
enum Unadded {
    Unread(Unread),
    // There is a board already.
    Board,
    // There is a limit already.
    Limit,
    Memory,
}

/// A step as the entry of a history, of which nothing else is written.
pub fn entry_of(step: Step) -> Entry
    ensures { step_of_entry result ≡ step }
{
    let Step { who, call } = step;
    Entry {
        caller: who,
        call,
        reply: Ok(Reply::Done),
        plays: 0,
    }
}

// Adds a board with its limit.
fn add_board(gathering: &mut Gathering, board: Board, limit: u32) -> Result<(), Unadded>
    ensures added { OnOk result (with_said (gathered_in gathering.old) (said_in (Says.Board board limit)) ≡ Some (gathered_in gathering.new)) }
    ensures refused { IfErr result (λ e. with_said (gathered_in gathering.old) (said_in (Says.Board board limit)) ≡ None) }
{
    match gathering.opening {
        Some(_) => Err(Unadded::Board),
        None => {
            gathering.opening = Some((board, limit));
            Ok(())
        }
    }
}

// Adds a limit.
fn add_limit(gathering: &mut Gathering, limit: u32) -> Result<(), Unadded>
    ensures added { OnOk result (with_said (gathered_in gathering.old) (said_in (Says.Limit limit)) ≡ Some (gathered_in gathering.new)) }
    ensures refused { IfErr result (λ e. with_said (gathered_in gathering.old) (said_in (Says.Limit limit)) ≡ None) }
{
    match gathering.limit {
        Some(_) => Err(Unadded::Limit),
        None => {
            gathering.limit = Some(limit);
            Ok(())
        }
    }
}

// Adds a step after others.
fn add_step(steps: &mut Vec<Entry>, step: Step) -> Result<(), Unadded>
    ensures added { OnOk result (map step_of_entry steps.new.items ≡ map step_of_entry steps.old.items ++ step ∷ []) }
    ensures refused { IfErr result (λ e. e ≡ Unadded.Memory) }
{
    match steps.push(entry_of(step)) {
        Ok(()) => Ok(()),
        Err(_) => Err(Unadded::Memory),
    }
}

// Adds what a line says.
fn add(gathering: &mut Gathering, says: Says) -> Result<(), Unadded>
    ensures added { OnOk result (with_said (gathered_in gathering.old) (said_in says) ≡ Some (gathered_in gathering.new)) }
    ensures refused { IfErr result (λ e. (e ≡ Unadded.Memory) ⊎ (with_said (gathered_in gathering.old) (said_in says) ≡ None)) }
{
    match says {
        Says::Nothing => Ok(()),
        Says::Board(board, limit) => add_board(gathering, board, limit),
        Says::Limit(limit) => add_limit(gathering, limit),
        Says::Setup(step) => add_step(&mut gathering.setup, step),
        Says::Step(step) => add_step(&mut gathering.steps, step),
        Says::Unread(unread) => Err(Unadded::Unread(unread)),
    }
}

// The fault of a line that says what is said already.
fn said_again(alloc: Global, number: usize, words: &str) -> LinesFault
    ensures { (result ≡ LinesFault.Memory) ⊎ IsAt number result }
{
    match String::from_str(alloc, words) {
        Ok(words) => LinesFault::Line(number, Unread { column: 1, words }),
        Err(_) => LinesFault::Memory,
    }
}

// The fault of a line that can't be added.
fn fault_of(alloc: Global, number: usize, unadded: Unadded) -> LinesFault
    ensures at { (result ≡ LinesFault.Memory) ⊎ IsAt number result }
    ensures memory { unadded ≡ Unadded.Memory → result ≡ LinesFault.Memory }
{
    match unadded {
        Unadded::Unread(unread) => LinesFault::Line(number, unread),
        Unadded::Board => said_again(alloc, number, "there is a board already"),
        Unadded::Limit => said_again(alloc, number, "there is a limit already"),
        Unadded::Memory => LinesFault::Memory,
    }
}

// Adds what a line says, which has this number.
fn add_line(
    alloc: Global,
    gathering: &mut Gathering,
    number: usize,
    line: &str,
) -> Result<(), LinesFault>
    ensures added { OnOk result (with_said (gathered_in gathering.old) (said_of line.now) ≡ Some (gathered_in gathering.new)) }
    ensures refused { IfErr result (λ e. (e ≡ LinesFault.Memory) ⊎ (IsAt number e × (with_said (gathered_in gathering.old) (said_of line.now) ≡ None))) }
{
    match read_says(alloc, line.as_bytes()) {
        Ok(says) => match add(gathering, says) {
            Ok(()) => Ok(()),
            Err(unadded) => Err(fault_of(alloc, number, unadded)),
        },
        Err(_) => Err(LinesFault::Memory),
    }
}

// Nothing that was said.
fn nothing(alloc: Global) -> Gathering
    ensures { gathered_in result ≡ nothing_said }
{
    Gathering {
        opening: None,
        limit: None,
        setup: Vec::new(alloc),
        steps: Vec::new(alloc),
    }
}

// All that lines say.
fn gather(alloc: Global, lines: &[&str]) -> Result<Gathering, LinesFault>
    ensures said { IfOk result (λ g. gathered 1 nothing_said (map (λ line. line.now) lines.now) ≡ Ok (gathered_in g)) }
    ensures refused { IfErr result (λ e. (e ≡ LinesFault.Memory) ⊎ ((number : ℕ) × IsAt number e × (gathered 1 nothing_said (map (λ line. line.now) lines.now) ≡ Err number))) }
{
    let mut gathering = nothing(alloc);
    for (at, line) in lines.iter().enumerate() {
        match add_line(alloc, &mut gathering, at + 1, *line) {
            Ok(()) => {}
            Err(fault) => return Err(fault),
        }
    }
    Ok(gathering)
}

// The scenario of what lines have said.
fn write_steps(
    alloc: Global,
    board: &Board,
    limit: u32,
    steps: &[Entry],
    setup: usize,
) -> Result<Meant, LinesFault>
    ensures scenario { IfOk result (λ meant. string_bytes meant.scenario ≡ scenario_text (script_of_history board.now limit steps.now)) }
    ensures reads { IfOk result (λ meant. scenario_of None (string_bytes meant.scenario) ≡ Ok (script_of_history board.now limit steps.now)) }
    ensures setup { IfOk result (λ meant. meant.setup ≡ setup) }
    ensures refused { IfErr result (IsUnwrittenAs (script_of_history board.now limit steps.now)) }
{
    match write_scenario(alloc, board, limit, steps) {
        Ok(scenario) => Ok(Meant { scenario, setup }),
        Err(Unwritten::Board) => Err(LinesFault::Board),
        Err(Unwritten::Limit) => Err(LinesFault::Board),
        Err(Unwritten::TooLong) => Err(LinesFault::TooLong),
        Err(Unwritten::Memory) => Err(LinesFault::Memory),
    }
}

// Steps, and others after them.
fn joined(mut first: Vec<Entry>, mut others: Vec<Entry>) -> Result<Vec<Entry>, LinesFault>
    ensures joined { IfOk result (λ all. all.items ≡ first.items ++ others.items) }
    ensures refused { IfErr result (λ e. e ≡ LinesFault.Memory) }
{
    match first.append(&mut others) {
        Ok(()) => Ok(first),
        Err(_) => Err(LinesFault::Memory),
    }
}

// The scenario of what lines have said: first the steps that are set up.
fn write_all(
    alloc: Global,
    opening: (Board, u32),
    limit: Option<u32>,
    setup: Vec<Entry>,
    steps: Vec<Entry>,
) -> Result<Meant, LinesFault>
    ensures means { IfOk result (λ meant. MeansAs (scripted opening limit setup.items steps.items) (length setup.items) meant) }
    ensures refused { IfErr result (IsUnwrittenAs (scripted opening limit setup.items steps.items)) }
{
    let count = setup.len();
    let limit = limit.unwrap_or(opening.1);
    match joined(setup, steps) {
        Ok(all) => write_steps(alloc, &opening.0, limit, all.as_slice(), count),
        Err(fault) => Err(fault),
    }
}

// The scenario of what lines have said.
fn write_said(alloc: Global, gathering: Gathering) -> Result<Meant, LinesFault>
    ensures means { IfOk result (MeansSaid (gathered_in gathering)) }
    ensures refused { IfErr result (IsUnsaid (gathered_in gathering)) }
{
    let Gathering {
        opening,
        limit,
        setup,
        steps,
    } = gathering;
    match opening {
        Some(opening) => write_all(alloc, opening, limit, setup, steps),
        None => Err(LinesFault::Board),
    }
}

/// The text that these bytes are.
pub fn text_of(bytes: &[u8]) -> Option<&str>
    ensures text { IfSome result (λ text. (text.now ≡ bytes.now) × (is_utf8 bytes.now ≡ true)) }
    ensures none { result ≡ None → is_utf8 bytes.now ≡ false }
{
    match std::str::from_utf8(bytes) {
        Ok(text) => Some(text),
        Err(_) => None,
    }
}

/// The lines of a text, in order. `AllocError` where the list couldn't grow.
pub fn lines_of(alloc: Global, text: &str) -> Result<Vec<&str>, AllocError>
    ensures { IfOk result (λ all. map (λ line. line.now) all.items ≡ lines text.now) }
{
    text.lines().collect(alloc)
}

// The scenario that a text of lines is.
fn read_text(alloc: Global, text: &str) -> Result<Meant, LinesFault>
    ensures means { IfOk result (MeansLines (lines text.now)) }
    ensures refused { IfErr result (IsRefusedLines (lines text.now)) }
{
    let Ok(all) = lines_of(alloc, text) else {
        return Err(LinesFault::Memory);
    };
    match gather(alloc, all.as_slice()) {
        Ok(gathering) => write_said(alloc, gathering),
        Err(fault) => Err(fault),
    }
}

/// The scenario that a text of lines is, written as a scenario is: its board, its limit, and first the steps that are
/// set up. Refused where a line can't be read, the first of which is named, where no line says a board, and where the
/// scenario would be too long to be one.
pub fn read_lines(alloc: Global, bytes: &[u8]) -> Result<Meant, LinesFault>
    ensures means { IfOk result (Means bytes.now) }
    ensures refused { IfErr result (IsRefused bytes.now) }
{
    match text_of(bytes) {
        Some(text) => read_text(alloc, text),
        None => Err(LinesFault::Text),
    }
}
