//! Callers with their calls, and the words that they step on.
ghost use Rattle.std.specs.Prelude.{◌≡◌, ◌↔◌, ◌≤◌, IfErr, IfOk, length, true};
ghost use Rattle.std.specs.List.{list_all};
ghost use Rattle.evl_base.specs.Limits.{stax_fits, thread_limit};
ghost use Rattle.evl_base.specs.declared.refusal.Refusal.TheVariants.{Range};

use crate::calls::WordCall;
use crate::steps::{CoreUse, WhatIf};
use crate::watches::StepWatch;
use evl_base::{Board, MAX_THREADS, Refusal, Stage};
use evl_scenario::Step;

/// A caller: the stage of its thread, and the calls that it makes, in order.
#[derive(Drop)]
pub struct CrewCaller {
    pub stage: Stage,
    pub calls: Vec<WordCall>,
    /// How each call comes by the core; one that isn't there is whole.
    pub uses: Vec<CoreUse>,
}

/// A board, what is set up, and the callers that come then, by the numbers of their threads.
#[derive(Drop)]
pub struct Crew {
    /// The board, with the limits of its staxes. No mutex nests, and none has a ceiling.
    pub board: Board,
    /// How many entries the kernel's history may have.
    pub limit: u32,
    /// The steps that are set up.
    pub setup: Vec<Step>,
    /// The calls of the kernel that callers make, in no order.
    pub steps: Vec<Step>,
    pub callers: Vec<CrewCaller>,
    /// The wrong step that they make, if any.
    pub what_if: Option<WhatIf>,
    /// The questions about each moment.
    pub watches: Vec<StepWatch>,
    // How many callers there are.
    count: u16,
    ghost counted: { count ≡ length callers.items },
    ghost few: { length callers.items ≤ thread_limit },
    ghost fits: { list_all stax_fits board.staxes.items ≡ true },
}

// Whether each stax may have its limit.
fn all_fit(limits: &[u16]) -> bool
    ensures { result ≡ list_all stax_fits limits.now }
{
    limits.iter().all(|limit| 1 <= *limit && *limit <= 1000)
}

impl Crew {
    // rule: Staxes have limits of 1 to 1000, and there are at most 256 callers; otherwise `Range`.
    //   rows: limits_are_those_of_a_board
    /// Callers over a board. `Range` where a stax's limit isn't within 1 and 1000, or where there are more callers than a
    /// board has threads.
    pub fn new(
        board: Board,
        limit: u32,
        setup: Vec<Step>,
        steps: Vec<Step>,
        callers: Vec<CrewCaller>,
        what_if: Option<WhatIf>,
        watches: Vec<StepWatch>,
    ) -> Result<Crew, Refusal>
        ensures board { IfOk result (λ crew. crew.board ≡ board) }
        ensures limit { IfOk result (λ crew. crew.limit ≡ limit) }
        ensures setup { IfOk result (λ crew. crew.setup ≡ setup) }
        ensures steps { IfOk result (λ crew. crew.steps ≡ steps) }
        ensures callers { IfOk result (λ crew. crew.callers ≡ callers) }
        ensures what_if { IfOk result (λ crew. crew.what_if ≡ what_if) }
        ensures watches { IfOk result (λ crew. crew.watches ≡ watches) }
        ensures range { (result ≡ Err Range) ↔ ¬ ((length callers.items ≤ thread_limit) × (list_all stax_fits board.staxes.items ≡ true)) }
        ensures err { IfErr result (λ refusal. refusal ≡ Range) }
    {
        if callers.len() > MAX_THREADS || !all_fit(board.staxes.as_slice()) {
            return Err(Refusal::Range);
        }
        let count = callers.len() as u16;
        Ok(Crew {
            board,
            limit,
            setup,
            steps,
            callers,
            what_if,
            watches,
            count,
        })
    }

    /// How many callers there are.
    pub(crate) fn count(&self) -> u16
        ensures { result ≡ length self.now.callers.items }
    {
        self.count
    }
}
