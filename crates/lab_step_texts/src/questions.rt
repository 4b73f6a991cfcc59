//! Questions about moments, each on a line of a table `[ask]`.
ghost use Rattle.std.specs.Prelude.{ℕ, List, ◌≡◌, ◌++◌, ◌<◌, All, IfErr, IfNone, IfOk, IfSome, MatchOption, OnOk, Some, codes, false, is_some, length, map, option_map, string_bytes, true};
ghost use Rattle.evl_scenario.specs.Lines.{line_feed};
ghost use Rattle.lab_scenario_orders.specs.KeyLines as keys;
ghost use Rattle.lab_scenario_orders.specs.Splits.{joined_lines};
ghost use Rattle.lab_step_orders.specs.declared.watches.StepWatch.{StepWatch};
ghost use Rattle.lab_step_texts.specs.FactTexts.{claim_in};
ghost use Rattle.lab_step_texts.specs.Questions.{AreAsked, AreOn, Claims, IsLineFault, IsListed, IsNoFacts, IsOne, IsParted, IsUnasked, IsUnlisted, IsUnread, IsUnreadAt, IsUnreadIn, IsUnreadOf, IsWithout, LineAsks, are_there, has_strange, is_there, joined_by, line_fault, names_there, unasked_line, unasked_lines, value_set, when_asked, when_named, when_set};

use crate::fact_texts::claim_in;
use crate::faults::{StepsFault, Unread};
use crate::near::near_word;
use evl_base::Board;
use evl_scenario::Fault;
use lab_kinds::bare;
use lab_scenario_orders::{When, is_asked};
use lab_step_orders::{StepClaim, StepFact, StepWatch};
use std::alloc::{AllocError, Global};

/// Why a line asks nothing.
#[derive(Clone, Copy, PartialEq, Eq)]
pub(crate) enum NotAsked {
    /// It isn't set to texts in brackets.
    Value,
    /// The text with this number, from 1, isn't facts; this word of facts may be meant.
    Text(usize, Option<&'static str>),
    /// Memory couldn't grow.
    Memory,
}

// The parts before and after the first `=`.
fn around_equals(text: &str) -> Option<(&str, &str)>
    ensures { option_map (λ parts. (parts.0.now, parts.1.now)) result ≡ keys.around_equals text.now }
{
    match text.split_once('=') {
        Some(parts) => Some(parts),
        None => None,
    }
}

// When a key asks for facts.
fn when_named(key: &str) -> Option<When>
    ensures { result ≡ when_named key.now }
{
    match key {
        "never_state" => Some(When::Never),
        "sometimes" => Some(When::Sometimes),
        "always" => Some(When::Always),
        _ => None,
    }
}

// When a line asks for facts.
fn when_set(line: &str) -> Option<When>
    ensures { result ≡ when_set line.now }
{
    match around_equals(bare(line)) {
        Some((key, _)) => when_named(key.trim()),
        None => None,
    }
}

// As `when_set`, of a line that is in a table `[ask]` or not.
fn when_asked(is_in: bool, line: &str) -> Option<When>
    ensures { result ≡ when_asked is_in line.now }
{
    if is_in { when_set(line) } else { None }
}

// To what a line sets its key.
fn value_set(line: &str) -> Option<&str>
    ensures { option_map (λ value. value.now) result ≡ value_set line.now }
{
    match around_equals(bare(line)) {
        Some((_, value)) => Some(value.trim()),
        None => None,
    }
}

// The parts before and after a text in another one.
fn around<'a>(text: &'a str, between: &str) -> Option<(&'a str, &'a str)>
    requires { 0 < length between.now }
    ensures written { IfSome result (λ parts. text.now ≡ parts.0.now ++ (between.now ++ parts.1.now)) }
    ensures first { IfSome result (λ parts. IsWithout between.now parts.0.now) }
    ensures none { IfNone result (IsWithout between.now text.now) }
{
    match text.split_once(between) {
        Some(parts) => Some(parts),
        None => None,
    }
}

// The part after this front part of a text.
fn behind<'a>(text: &'a str, front: &str) -> Option<&'a str>
    ensures { MatchOption result ((rest : List ℕ) → text.now ≡ front.now ++ rest → ⊥) (λ rest. text.now ≡ front.now ++ rest.now) }
{
    match text.strip_prefix(front) {
        Some(rest) => Some(rest),
        None => None,
    }
}

// The part before this end of a text.
fn before<'a>(text: &'a str, end: &str) -> Option<&'a str>
    ensures { MatchOption result ((front : List ℕ) → text.now ≡ front ++ end.now → ⊥) (λ front. text.now ≡ front.now ++ end.now) }
{
    match text.strip_suffix(end) {
        Some(front) => Some(front),
        None => None,
    }
}

// The part within the brackets of a list and its first and last quotes.
fn listed(value: &str) -> Option<&str>
    ensures listed { IfSome result (λ texts. IsListed value.now texts.now) }
    ensures none { IfNone result ((texts : List ℕ) → IsListed value.now texts → ⊥) }
{
    let Some(quoted) = behind(value, "[\"") else {
        return None;
    };
    let Some(texts) = before(quoted, "\"]") else {
        return None;
    };
    if texts.contains("\"]") {
        None
    } else {
        Some(texts)
    }
}

// The texts between which this is.
fn pieces<'a>(alloc: Global, text: &'a str, between: &str) -> Result<Vec<&'a str>, AllocError>
    requires { 0 < length between.now }
    ensures { IfOk result (λ texts. IsParted between.now text.now (map (λ one. one.now) texts.items)) }
{
    let mut texts = Vec::new(alloc);
    let mut rest = text;
    while let Some((one, behind)) = around(rest, between) {
        texts.push(one)?;
        rest = behind;
    }
    texts.push(rest)?;
    Ok(texts)
}

// The claims of these texts; none where one isn't a fact.
fn claims_of(alloc: Global, texts: &[&str]) -> Result<Option<Vec<StepClaim>>, AllocError>
    ensures each { IfOk result (λ all. IfSome all (λ claims. map claim_in (map (λ one. one.now) texts.now) ≡ map (λ claim. Some claim) claims.items)) }
    ensures strange { IfOk result (λ all. IfNone all (has_strange (map (λ one. one.now) texts.now) ≡ true)) }
{
    let mut claims = Vec::new(alloc);
    for text in texts {
        match claim_in(*text) {
            Some(claim) => claims.push(claim)?,
            None => return Ok(None),
        }
    }
    Ok(Some(claims))
}

// The claims of a text; none where it isn't facts with `and` between them.
fn claims_in(alloc: Global, text: &str) -> Result<Option<Vec<StepClaim>>, AllocError>
    ensures claims { IfOk result (λ all. IfSome all (λ claims. Claims text.now claims.items)) }
    ensures none { IfOk result (λ all. IfNone all (IsNoFacts text.now)) }
{
    let texts = pieces(alloc, text, " and ")?;
    claims_of(alloc, texts.as_slice())
}

// A question with this text, which claims this.
fn claimed(
    alloc: Global,
    when: When,
    text: &str,
    claims: Vec<StepClaim>,
) -> Result<StepWatch, AllocError>
    requires { Claims text.now claims.items }
    ensures text { IfOk result (λ watch. string_bytes watch.text ≡ text.now) }
    ensures is { IfOk result (IsOne when) }
{
    let text = String::from_str(alloc, text)?;
    Ok(StepWatch { when, text, claims })
}

// The text with this number isn't facts.
fn unread(alloc: Global, number: usize, text: &str) -> NotAsked
    requires { IsNoFacts text.now }
    ensures { IsUnread number text.now result }
{
    match near_word(alloc, text) {
        Ok(meant) => NotAsked::Text(number, meant),
        Err(_) => NotAsked::Memory,
    }
}

// The question that the text with this number asks.
fn question(alloc: Global, when: When, number: usize, text: &str) -> Result<StepWatch, NotAsked>
    ensures text { IfOk result (λ watch. string_bytes watch.text ≡ text.now) }
    ensures is { IfOk result (IsOne when) }
    ensures unread { IfErr result (IsUnread number text.now) }
{
    let Ok(claims) = claims_in(alloc, text) else {
        return Err(NotAsked::Memory);
    };
    match claims {
        Some(claims) => match claimed(alloc, when, text, claims) {
            Ok(watch) => Ok(watch),
            Err(_) => Err(NotAsked::Memory),
        },
        None => Err(unread(alloc, number, text)),
    }
}

// The questions that these texts ask.
fn questions(alloc: Global, when: When, texts: &[&str]) -> Result<Vec<StepWatch>, NotAsked>
    ensures texts { IfOk result (λ watches. map (λ watch. string_bytes watch.text) watches.items ≡ map (λ one. one.now) texts.now) }
    ensures are { IfOk result (λ watches. All (IsOne when) watches.items) }
    ensures unread { IfErr result (IsUnreadOf (map (λ one. one.now) texts.now)) }
{
    let mut watches = Vec::new(alloc);
    for (i, text) in texts.iter().enumerate() {
        let watch = match question(alloc, when, i + 1, *text) {
            Ok(watch) => watch,
            Err(why) => return Err(why),
        };
        match watches.push(watch) {
            Ok(()) => {}
            Err(_) => return Err(NotAsked::Memory),
        }
    }
    Ok(watches)
}

// The questions of texts in quotes, with commas between them.
fn questions_in_list(alloc: Global, when: When, text: &str) -> Result<Vec<StepWatch>, NotAsked>
    ensures asked { IfOk result (λ watches. (joined_by (codes "\", \"") (map (λ watch. string_bytes watch.text) watches.items) ≡ text.now) × All (IsOne when) watches.items) }
    ensures unread { IfErr result (IsUnreadIn text.now) }
{
    let Ok(texts) = pieces(alloc, text, "\", \"") else {
        return Err(NotAsked::Memory);
    };
    questions(alloc, when, texts.as_slice())
}

// The questions of a key that is set to this.
fn questions_on(alloc: Global, when: When, value: &str) -> Result<Vec<StepWatch>, NotAsked>
    ensures asked { IfOk result (λ watches. AreOn when value.now watches.items) }
    ensures unread { IfErr result (IsUnlisted value.now) }
{
    match listed(value) {
        Some(text) => questions_in_list(alloc, when, text),
        None => Err(NotAsked::Value),
    }
}

// The questions of a line that sets a key for this.
fn questions_at(alloc: Global, when: When, line: &str) -> Result<Vec<StepWatch>, NotAsked>
    ensures asked { IfOk result (λ watches. LineAsks (Some when) line.now watches.items) }
    ensures unread { IfErr result (IsUnreadAt line.now) }
{
    match value_set(line) {
        Some(value) => questions_on(alloc, when, value),
        None => Err(NotAsked::Value),
    }
}

// Why the line with this number asks nothing, which sets a key for this.
fn line_fault(when: When, number: usize, why: NotAsked) -> StepsFault
    ensures { result ≡ line_fault when number why }
{
    match why {
        NotAsked::Value => StepsFault::Question(number),
        NotAsked::Text(text, meant) => StepsFault::Facts(
            number,
            Unread {
                when,
                number: text,
                meant,
            },
        ),
        NotAsked::Memory => StepsFault::Text(Fault::Memory),
    }
}

// These with others after them.
fn joined(watches: Vec<StepWatch>, others: Vec<StepWatch>) -> Result<Vec<StepWatch>, AllocError>
    ensures { IfOk result (λ all. all.items ≡ watches.items ++ others.items) }
{
    let mut all = watches;
    for watch in others {
        all.push(watch)?;
    }
    Ok(all)
}

// These with the questions of a line after them that sets a key for this.
fn with_questions(
    alloc: Global,
    board: &Board,
    all: Vec<StepWatch>,
    when: When,
    line: &str,
    number: usize,
) -> Result<Vec<StepWatch>, StepsFault>
    ensures asked { IfOk result (λ next. (now : List StepWatch) × (next.items ≡ all.items ++ now) × LineAsks (Some when) line.now now × (are_there board.now now ≡ true)) }
    ensures refused { IfErr result (IsLineFault board.now (Some when) line.now number) }
{
    let now = match questions_at(alloc, when, line) {
        Ok(now) => now,
        Err(why) => return Err(line_fault(when, number, why)),
    };
    if !are_there(board, now.as_slice()) {
        return Err(StepsFault::Lacking(number));
    }
    match joined(all, now) {
        Ok(next) => Ok(next),
        Err(_) => Err(StepsFault::Text(Fault::Memory)),
    }
}

// These with the questions of a line after them.
fn with_line(
    alloc: Global,
    board: &Board,
    all: Vec<StepWatch>,
    when: Option<When>,
    line: &str,
    number: usize,
) -> Result<Vec<StepWatch>, StepsFault>
    ensures asked { IfOk result (λ next. (now : List StepWatch) × (next.items ≡ all.items ++ now) × LineAsks when line.now now × (are_there board.now now ≡ true)) }
    ensures refused { IfErr result (IsLineFault board.now when line.now number) }
{
    match when {
        Some(when) => with_questions(alloc, board, all, when, line, number),
        None => Ok(all),
    }
}

/// The questions of a text's lines, which name what the board has.
pub(crate) fn questions_in(
    alloc: Global,
    board: &Board,
    lines: &[&str],
) -> Result<Vec<StepWatch>, StepsFault>
    ensures asked { IfOk result (λ all. AreAsked false (map (λ line. line.now) lines.now) all.items) }
    ensures there { IfOk result (λ all. are_there board.now all.items ≡ true) }
    ensures refused { IfErr result (IsUnasked board.now (map (λ line. line.now) lines.now)) }
{
    let mut all = Vec::new(alloc);
    let mut is = false;
    for (i, line) in lines.iter().enumerate() {
        is = is_asked(is, *line);
        match with_line(alloc, board, all, when_asked(is, *line), *line, i + 1) {
            Ok(next) => all = next,
            Err(fault) => return Err(fault),
        }
    }
    Ok(all)
}

// Whether a line that is in a table `[ask]` or not asks for facts.
fn asks_facts(is_in: bool, line: &str) -> bool
    ensures { result ≡ is_some (when_asked is_in line.now) }
{
    when_asked(is_in, line).is_some()
}

// Puts a line to the text without these lines, blank where it is one.
fn put_unasked(text: &mut String, is_in: bool, line: &str) -> Result<(), AllocError>
    ensures { OnOk result (string_bytes text.new ≡ string_bytes text.old ++ (unasked_line is_in line.now ++ line_feed)) }
{
    if !asks_facts(is_in, line) {
        text.push_str(line)?;
    }
    text.push_str("\n")
}

/// A text without these lines, each other one at its place.
pub(crate) fn unasked_in(alloc: Global, lines: &[&str]) -> Result<String, AllocError>
    ensures { IfOk result (λ text. string_bytes text ≡ joined_lines (unasked_lines false (map (λ line. line.now) lines.now))) }
{
    let mut text = String::new(alloc);
    let mut is = false;
    for line in lines {
        is = is_asked(is, *line);
        put_unasked(&mut text, is, *line)?;
    }
    Ok(text)
}

// Whether a board has what a fact names.
fn is_there(board: &Board, fact: StepFact) -> bool
    ensures { result ≡ is_there board.now fact }
{
    match fact {
        StepFact::HoldsStax(who, stax) => {
            who.0 < board.threads && usize::from(stax.0) < board.staxes.len()
        }
        StepFact::HeldOn(stax, _) => usize::from(stax.0) < board.staxes.len(),
        StepFact::StaxClaimed(stax) => usize::from(stax.0) < board.staxes.len(),
        StepFact::HoldsMutex(who, mutex) => {
            who.0 < board.threads && usize::from(mutex.0) < board.mutexes.len()
        }
        StepFact::MutexFree(mutex) => usize::from(mutex.0) < board.mutexes.len(),
        StepFact::MutexClaimed(mutex) => usize::from(mutex.0) < board.mutexes.len(),
        StepFact::HasCore(who) => who.0 < board.threads,
        StepFact::CoreFree => true,
    }
}

// Whether it has what a question names.
fn names_there(board: &Board, watch: &StepWatch) -> bool
    ensures { result ≡ names_there board.now watch.now }
{
    for claim in &watch.claims {
        if !is_there(board, claim.fact) {
            return false;
        }
    }
    true
}

// Whether it has what these name.
fn are_there(board: &Board, watches: &[StepWatch]) -> bool
    ensures { result ≡ are_there board.now watches.now }
{
    for watch in watches {
        if !names_there(board, watch) {
            return false;
        }
    }
    true
}
