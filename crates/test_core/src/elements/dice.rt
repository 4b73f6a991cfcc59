//! Random numbers from a seed.
ghost use Rattle.std.specs.Prelude.{◌<◌};

use rand_core::utils::NextWord;
use rand_pcg::Pcg32;

/// A small generator: the same seed gives the same numbers.
#[derive(Drop)]
pub struct Dice {
    words: Pcg32,
}

impl Dice {
    pub fn new(seed: u64) -> Dice {
        Dice {
            words: Pcg32::new(seed, 1),
        }
    }

    /// A number below `n`.
    pub fn below(&mut self, n: u16) -> u16
        requires { 0 < n }
        ensures { result < n }
    {
        (self.words.next_word() % u32::from(n)) as u16
    }
}
