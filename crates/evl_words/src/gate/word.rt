//! A gate's word: the number of holders in bits 0 to 15, their stage in bit 30, and the claim mark in bit 31.
ghost use Rattle.std.specs.Prelude.{◌≡◌};
ghost use Rattle.evl_words.specs.Gate.{entry_refusal};
ghost use Rattle.evl_words.specs.GateWord.{count_in, stage_in, mark_in, packed_gate};

use evl_base::{Refusal, Stage};

/// The stage of the holders: clear in-band, set oob.
pub const STAGE_BIT: u64 = 1 << 30;

/// The claim mark.
pub const CLAIM_MARK: u64 = 1 << 31;

/// The bits of the number of holders.
pub const COUNT_MASK: u64 = (1 << 16) - 1;

/// A gate's word, taken apart: how many hold the gate, at which stage, and the claim mark.
#[derive(Clone, Copy)]
pub struct GateWord {
    pub holders: u16,
    pub stage: Stage,
    pub claimed: bool,
}

impl GateWord {
    /// All that a word says.
    pub fn of(word: u64) -> GateWord
        ensures { (result.holders ≡ count_in word) × (result.stage ≡ stage_in word) × (result.claimed ≡ mark_in word) }
    {
        GateWord {
            holders: (word & COUNT_MASK) as u16,
            stage: if word & STAGE_BIT == 0 {
                Stage::Inband
            } else {
                Stage::Oob
            },
            claimed: word & CLAIM_MARK != 0,
        }
    }

    /// The word that says it.
    pub fn pack(self) -> u64
        ensures { result ≡ packed_gate self.holders self.stage self.claimed }
    {
        let mut word = u64::from(self.holders);
        if self.stage == Stage::Oob {
            word += STAGE_BIT;
        }
        if self.claimed {
            word += CLAIM_MARK;
        }
        word
    }

    /// Why the gate refuses one holder more of the stage.
    pub fn refusal(self, limit: u16, stage: Stage) -> Option<Refusal>
        ensures { result ≡ entry_refusal limit self.holders self.stage stage }
    {
        if self.holders > 0 && self.stage != stage {
            Some(Refusal::Again)
        } else if self.holders >= limit {
            Some(Refusal::Limit)
        } else {
            None
        }
    }
}
