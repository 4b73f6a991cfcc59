//! The words of mutexes: who has each, which the kernel knows only while somebody waits for it, or it has a ceiling.
ghost use Rattle.std.specs.Prelude.{◌≡◌, IfOk, map};
ghost use Rattle.lab_schedules.specs.Words.{free, handed, has_ceiling, nested, nests, taken};

use evl_base::{MutexKind, ThreadId};
use std::alloc::{AllocError, Global};

/// The owner of a mutex, and how often it locked it.
#[derive(Clone, Copy, PartialEq, Eq)]
pub struct Owner {
    pub thread: ThreadId,
    pub depth: u32,
}

/// A mutex, and who has it.
#[derive(Clone, Copy, PartialEq, Eq)]
pub struct Word {
    pub kind: MutexKind,
    pub owner: Option<Owner>,
}

impl Word {
    /// The word of a mutex that nobody has.
    pub fn free(kind: MutexKind) -> Word
        ensures { result ≡ free kind }
    {
        Word { kind, owner: None }
    }

    /// The word of a mutex that a thread has, for the first time.
    pub fn taken(self, thread: ThreadId) -> Word
        ensures { result ≡ taken self thread }
    {
        self.nested(thread, 1)
    }

    /// The word with so many locks of its owner.
    pub fn nested(self, thread: ThreadId, depth: u32) -> Word
        ensures { result ≡ nested self thread depth }
    {
        Word {
            kind: self.kind,
            owner: Some(Owner { thread, depth }),
        }
    }

    /// The word of a mutex that was handed on.
    pub fn handed(self, next: Option<ThreadId>) -> Word
        ensures { result ≡ handed self next }
    {
        match next {
            Some(thread) => self.taken(thread),
            None => Word::free(self.kind),
        }
    }

    /// Whether it has a ceiling.
    pub fn has_ceiling(self) -> bool
        ensures { result ≡ has_ceiling self.kind }
    {
        match self.kind {
            MutexKind::Ceiling(_) => true,
            _ => false,
        }
    }

    /// Whether its owner may lock it again.
    pub fn nests(self) -> bool
        ensures { result ≡ nests self.kind }
    {
        match self.kind {
            MutexKind::Recursive => true,
            _ => false,
        }
    }
}

/// The words of mutexes of these kinds, which nobody has.
pub fn free_words(alloc: Global, kinds: &[MutexKind]) -> Result<Vec<Word>, AllocError>
    ensures { IfOk result (λ words. words.items ≡ map free kinds.now) }
{
    let mut words = Vec::new(alloc);
    for kind in kinds {
        words.push(Word::free(*kind))?;
    }
    Ok(words)
}
