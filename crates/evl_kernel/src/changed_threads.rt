//! The threads whose effective rank may be another one than the scheduler was given.
ghost use Rattle.std.specs.Prelude.{◌≡◌, ◌<◌, length, slice_set, IfSome};
ghost use Rattle.evl_bitmap.specs.NumberSet.{least};
ghost use Rattle.evl_kernel.specs.state.ChangedThreads.{of_word, without_least};

use evl_base::{MAX_THREADS, ThreadId};
use evl_bitmap::{Level, Word};
use evl_mutex::RankChanges;
use std::marker::Model;

/// The threads whose effective rank may be another one than the scheduler was given, a bit for each. To a contract it
/// is for each word the set of their places in it.
#[derive(Drop)]
pub(crate) struct ChangedThreads {
    words: [Word; 8],
}

impl Model for ChangedThreads {
    ghost use Rattle.std.specs.Prelude.{◌≡◌, List, length, map};
    ghost use Rattle.evl_bitmap.specs.NumberSet.{NumberSet};

    ghost Value = { List NumberSet };

    ghost view = { λ c. map (λ word. ⟦<Word as Level>⟧.members word) c.words };

    ghost invariant = { λ c. length c.words ≡ 8 };
}

impl ChangedThreads {
    /// No thread is noted.
    pub(crate) fn new() -> ChangedThreads {
        ChangedThreads {
            words: [Word::new(); 8],
        }
    }

    /// Takes the least thread of a word out, if one is noted there: its place in the word.
    #[inline(always)]
    pub(crate) fn take(&mut self, word: u16) -> Option<u16>
        requires there { word < 8 }
        ensures taken { result ≡ least (of_word self.old word) }
        ensures range { IfSome result (λ place. place < 32) }
        ensures left { self.new ≡ slice_set self.old word (without_least (of_word self.old word)) }
    {
        let mut noted = self.places(word);
        let place = noted.least()?;
        noted.remove(place);
        self.set_places(word, noted);
        Some(place)
    }

    // The threads of a word that are noted.
    #[inline(always)]
    fn places(&self, word: u16) -> Word
        requires there { word < 8 }
        ensures places { ⟦<Word as Level>⟧.members result ≡ of_word self.now word }
        ensures within { word < length self.now }
    {
        self.words[word as usize]
    }

    // Notes these threads of a word, and no others of it.
    #[inline(always)]
    fn set_places(&mut self, word: u16, places: Word)
        requires there { word < 8 }
        ensures set { self.new ≡ slice_set self.old word (⟦<Word as Level>⟧.members places) }
    {
        self.words[word as usize] = places;
    }
}

impl RankChanges for ChangedThreads {
    ghost use Rattle.evl_kernel.specs.state.ChangedThreads.{is_noted};

    ghost is_noted = { is_noted };

    #[inline(always)]
    fn note(&mut self, thread: ThreadId) {
        if usize::from(thread.0) < MAX_THREADS {
            let word = thread.0 / 32;
            let mut noted = self.places(word);
            noted.insert(thread.0 % 32);
            self.set_places(word, noted);
        }
    }
}
