//! Whether two words are alike.
ghost use Rattle.std.specs.Prelude.{◌≡◌, true};

use super::Word;
use crate::bits::is_same;
use crate::level::Level;

impl Word {
    /// Whether both sets have the same members.
    pub fn is_like(&self, other: &Word) -> bool
        ensures alike { result ≡ true → self.now ≡ other.now }
        ensures other { ⟦<Word as Level>⟧.members self.now ≡ ⟦<Word as Level>⟧.members other.now → result ≡ true }
    {
        is_same(self.bits, other.bits)
    }
}
