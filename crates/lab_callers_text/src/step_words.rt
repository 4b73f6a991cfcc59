//! The words of steps that aren't calls of the kernel.

ghost use Rattle.std.specs.Prelude.{◌≡◌, option_map};
ghost use Rattle.lab_callers_text.specs.StepWords.{name_key, number_key, other_word, own_word, stand_in};

/// A word that names a step of a caller.
#[derive(Clone, Copy, PartialEq, Eq)]
pub enum OwnWord {
    TryLockStax,
    UnlockStax,
    TryLockMutex,
    UnlockMutexFast,
    TryUnlockMutex,
    BeginLockMutex,
    FinishLockMutex,
    Take,
    Give,
}

// The word of a step on mutexes, or on the core.
fn other_word(text: &str) -> Option<OwnWord>
    ensures { result ≡ other_word text.now }
{
    match text {
        "try_unlock_mutex" => Some(OwnWord::TryUnlockMutex),
        "begin_lock_mutex" => Some(OwnWord::BeginLockMutex),
        "finish_lock_mutex" => Some(OwnWord::FinishLockMutex),
        "take" => Some(OwnWord::Take),
        "give" => Some(OwnWord::Give),
        _ => None,
    }
}

/// The word that a text is, if it isn't that of a call of the kernel.
pub fn own_word(text: &str) -> Option<OwnWord>
    ensures { result ≡ own_word text.now }
{
    match text {
        "try_lock_stax" => Some(OwnWord::TryLockStax),
        "unlock_stax" => Some(OwnWord::UnlockStax),
        "try_lock_mutex" => Some(OwnWord::TryLockMutex),
        "unlock_mutex_fast" => Some(OwnWord::UnlockMutexFast),
        _ => other_word(text),
    }
}

impl OwnWord {
    /// The key at which the name of a pass is, if the word has one.
    pub fn name_key(self) -> Option<&'static str>
        ensures { option_map (λ key. key.now) result ≡ name_key self }
    {
        match self {
            OwnWord::TryLockStax => Some("as"),
            OwnWord::UnlockStax => Some("pass"),
            OwnWord::TryLockMutex => Some("as"),
            OwnWord::UnlockMutexFast => Some("pass"),
            OwnWord::TryUnlockMutex => Some("pass"),
            OwnWord::BeginLockMutex => Some("as"),
            OwnWord::FinishLockMutex => Some("as"),
            OwnWord::Take => None,
            OwnWord::Give => None,
        }
    }

    /// The key whose number is read as that of a semaphore, if the word has one.
    pub fn number_key(self) -> Option<&'static str>
        ensures { option_map (λ key. key.now) result ≡ number_key self }
    {
        match self {
            OwnWord::TryLockStax => Some("stax"),
            OwnWord::BeginLockMutex => Some("mutex"),
            _ => None,
        }
    }

    /// The word of a scenario whose step has the same other keys.
    pub fn stand_in(self) -> &'static str
        ensures { result.now ≡ stand_in self }
    {
        match self {
            OwnWord::TryLockStax => "peek",
            OwnWord::TryLockMutex => "release",
            OwnWord::BeginLockMutex => "begin_get",
            _ => "now",
        }
    }
}
