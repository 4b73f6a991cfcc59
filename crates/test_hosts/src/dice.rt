//! Random numbers from a seed.
ghost use Rattle.std.specs.Prelude.{◌<◌};

use rand_core::utils::NextWord;
use rand_pcg::Pcg32;

/// A small generator: the same seed and stream give the same numbers.
#[derive(Drop)]
pub struct Dice {
    words: Pcg32,
}

impl Dice {
    pub fn new(seed: u64, stream: u64) -> Dice {
        Dice {
            words: Pcg32::new(seed, stream),
        }
    }

    /// A number below `n`.
    pub fn below(&mut self, n: u32) -> u32
        requires { 0 < n }
        ensures { result < n }
    {
        self.words.next_word() % n
    }

    /// Whether one of `n` equal chances came.
    pub fn one_in(&mut self, n: u32) -> bool
        requires { 0 < n }
    {
        self.below(n) == 0
    }

    /// A number of 16 bits below `n`.
    pub fn short(&mut self, n: u16) -> u16
        requires { 0 < n }
    {
        (self.below(u32::from(n)) & 0xffff) as u16
    }

    /// A number of 8 bits below `n`.
    pub fn byte(&mut self, n: u8) -> u8
        requires { 0 < n }
    {
        (self.below(u32::from(n)) & 0xff) as u8
    }

    /// So many nanoseconds, below `n`.
    pub fn time(&mut self, n: u32) -> u64
        requires { 0 < n }
    {
        u64::from(self.below(n))
    }
}
