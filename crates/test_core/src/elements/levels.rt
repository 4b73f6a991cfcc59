//! Numbers that come and go, in sets of one, two and three levels, and at random in a list in rising order too.
ghost use Rattle.std.specs.Prelude.{◌≡◌, ◌<◌, ◌≤◌, []};

use super::dice::Dice;
use evl_bitmap::{Bitmap, Level, Word};
use linked_list_allocator::LocalHeap;
use std::alloc::{AllocError, Allocator};

// Whether the set, which is empty, has just 7, 31 and 8 after they came, one of them twice, and is empty after they
// went.
fn keeps_a_word<L: Level>(set: &mut L) -> bool
    requires { 32 ≤ L.limit set.old }
    ensures { L.limit set.new ≡ L.limit set.old }
{
    set.insert(31);
    set.insert(7);
    set.insert(8);
    set.insert(7);
    let all = set.least() == Some(7) && set.greatest() == Some(31);
    let these = set.contains(8) && !set.contains(9) && !set.contains(65535);
    set.remove(7);
    set.remove(9);
    let two = set.least() == Some(8) && !set.contains(7);
    set.remove(31);
    let one = set.greatest() == Some(8) && !set.is_empty();
    set.remove(8);
    all && these && two && one && set.is_empty() && set.greatest().is_none()
}

// The same over the border of two words, and in the last of them.
fn keeps_words<L: Level>(set: &mut L) -> bool
    requires { 1024 ≤ L.limit set.old }
    ensures { L.limit set.new ≡ L.limit set.old }
{
    set.insert(64);
    set.insert(63);
    set.insert(32);
    set.insert(31);
    set.insert(1023);
    let all = set.least() == Some(31) && set.greatest() == Some(1023);
    set.remove(31);
    let second = set.least() == Some(32);
    set.remove(32);
    let third = set.least() == Some(63);
    set.remove(63);
    set.remove(1023);
    let last = set.least() == Some(64) && set.greatest() == Some(64);
    set.remove(64);
    all && second && third && last && set.is_empty()
}

// The same over the border of two words of the second level.
fn keeps_many<L: Level>(set: &mut L) -> bool
    requires { 4096 ≤ L.limit set.old }
    ensures { L.limit set.new ≡ L.limit set.old }
{
    set.insert(4095);
    set.insert(1024);
    set.insert(1023);
    let all = set.least() == Some(1023) && set.greatest() == Some(4095);
    set.remove(1023);
    let second = set.least() == Some(1024);
    set.remove(4095);
    let one = set.greatest() == Some(1024) && set.contains(1024);
    set.remove(1024);
    all && second && one && set.is_empty()
}

// Whether a number and the one before it come and go, in a set that is empty.
fn keeps_two<L: Level>(set: &mut L, number: u16) -> bool
    requires some { 0 < number }
    requires within { number < L.limit set.old }
    ensures { L.limit set.new ≡ L.limit set.old }
{
    set.insert(number);
    let first = set.least() == Some(number) && !set.contains(number - 1);
    set.insert(number - 1);
    let both = set.least() == Some(number - 1) && set.greatest() == Some(number);
    set.remove(number);
    let second = set.greatest() == Some(number - 1) && !set.contains(number);
    set.remove(number - 1);
    first && both && second && set.is_empty()
}

// Whether all numbers below a limit do: so on both sides of each word's edge, in each level.
fn keeps_neighbours<L: Level>(set: &mut L, limit: u16) -> bool
    requires { limit ≤ L.limit set.old }
    ensures { L.limit set.new ≡ L.limit set.old }
{
    let mut all = true;
    for number in 1..limit {
        all = keeps_two(set, number) && all;
    }
    all
}

/// All that is asked of an empty set: that it keeps its numbers, or does as a list over random calls.
#[derive(Clone, Copy)]
pub(crate) enum Asked {
    Keeps,
    Random(u64),
}

// Whether a set of two levels does, beside a list that takes its memory from here.
fn do_two<L: Level, A: Allocator>(alloc: A, set: &mut L, asked: Asked) -> bool
    requires { 1024 ≤ L.limit set.old }
{
    match asked {
        Asked::Keeps => keeps_neighbours(set, 1024) && keeps_a_word(set) && keeps_words(set),
        Asked::Random(seed) => stays_alike(alloc, set, 1024, seed),
    }
}

// Whether numbers come and go in each level of three.
fn keeps_all<L: Level>(set: &mut L) -> bool
    requires { 4096 ≤ L.limit set.old }
{
    keeps_neighbours(set, 4096) && keeps_a_word(set) && keeps_words(set) && keeps_many(set)
}

// Whether a set of three levels does.
fn do_three<L: Level, A: Allocator>(alloc: A, set: &mut L, asked: Asked) -> bool
    requires { 4096 ≤ L.limit set.old }
{
    match asked {
        Asked::Keeps => keeps_all(set),
        Asked::Random(seed) => stays_alike(alloc, set, 4096, seed),
    }
}

/// Whether a new set of two levels does.
pub(crate) fn two_levels<A: Allocator + Clone>(alloc: A, asked: Asked) -> Result<bool, AllocError> {
    match Bitmap::new(alloc.clone()?, 32, Word::new()) {
        Ok(mut set) => Ok(do_two(alloc, &mut set, asked)),
        Err(refused) => Err(refused),
    }
}

// Whether a set over these words does.
fn over_words<A: Allocator>(
    alloc: A,
    copy: A,
    used: Bitmap<Word, A>,
    asked: Asked,
) -> Result<bool, AllocError>
    requires room { 128 ≤ used.limit }
    requires empty { used.members ≡ [] }
{
    match Bitmap::new(alloc, 128, used) {
        Ok(mut set) => Ok(do_three(copy, &mut set, asked)),
        Err(refused) => Err(refused),
    }
}

/// Whether a new set of three levels does.
pub(crate) fn three_levels<A: Allocator + Clone>(
    alloc: A,
    asked: Asked,
) -> Result<bool, AllocError> {
    let copy = alloc.clone()?;
    match Bitmap::new(alloc.clone()?, 4, Word::new()) {
        Ok(used) => over_words(alloc, copy, used, asked),
        Err(refused) => Err(refused),
    }
}

#[test]
fn one_word(rt: HostRuntime) {
    let mut set = Word::new();
    assert!(rt; keeps_neighbours(&mut set, 32) && keeps_a_word(&mut set));
}

#[test]
fn thirty_two_words(rt: HostRuntime) {
    assert!(rt; two_levels(rt.alloc(), Asked::Keeps) == Ok(true));
}

#[test]
fn a_hundred_and_twenty_eight_words(rt: HostRuntime) {
    assert!(rt; three_levels(rt.alloc(), Asked::Keeps) == Ok(true));
}

// All that was taken goes back where the words of either level get no memory.
#[test]
fn a_short_heap_is_refused(rt: HostRuntime) {
    for size in [64, 256] {
        let heap = LocalHeap::new(rt.alloc(), size).expect(&rt, "heap");
        assert!(rt; three_levels(&heap, Asked::Keeps).is_err());
        assert!(rt; heap.used() == 0);
    }
}

// The plain program: a list in rising order.
#[derive(Drop)]
struct Plain<A: Allocator> {
    numbers: Vec<u16, A>,
}

impl<A: Allocator> Plain<A> {
    // The place of the first number that isn't below this one.
    fn place_of(&self, number: u16) -> usize {
        for (place, other) in self.numbers.iter().enumerate() {
            if *other >= number {
                return place;
            }
        }
        self.numbers.len()
    }

    fn insert(&mut self, number: u16) {
        let place = self.place_of(number).min(self.numbers.len());
        if self.numbers.get(place) != Some(&number) {
            let _ = self.numbers.insert(place, number);
        }
    }

    fn remove(&mut self, number: u16) {
        self.numbers
            .retain(|other: &u16| -> bool { *other != number });
    }

    // Whether a set has just these ends, and this number or not.
    fn is_like<L: Level>(&self, set: &L, number: u16) -> bool {
        set.least() == self.numbers.first().copied()
            && set.greatest() == self.numbers.last().copied()
            && set.contains(number) == self.numbers.contains(&number)
            && set.is_empty() == self.numbers.is_empty()
    }
}

// Whether one random call on both leaves them alike: a number comes or goes, or the least or the greatest one goes.
fn is_alike<L: Level, A: Allocator>(
    set: &mut L,
    plain: &mut Plain<A>,
    limit: u16,
    dice: &mut Dice,
) -> bool
    requires some { 0 < limit }
    requires room { limit ≤ L.limit set.old }
    ensures { L.limit set.new ≡ L.limit set.old }
{
    let number = dice.below(limit);
    match dice.below(5) {
        0 | 1 => {
            set.insert(number);
            plain.insert(number);
        }
        2 => {
            set.remove(number);
            plain.remove(number);
        }
        3 => {
            if let Some(least) = set.least() {
                set.remove(least);
                plain.remove(least);
            }
        }
        _ => {
            if let Some(greatest) = set.greatest() {
                set.remove(greatest);
                plain.remove(greatest);
            }
        }
    }
    plain.is_like(set, number)
}

/// Whether a set of numbers below a limit, which is empty, and a list stay alike over two thousand random calls.
pub(crate) fn stays_alike<L: Level, A: Allocator>(
    alloc: A,
    set: &mut L,
    limit: u16,
    seed: u64,
) -> bool
    requires some { 0 < limit }
    requires room { limit ≤ L.limit set.old }
{
    let mut plain = Plain {
        numbers: Vec::new(alloc),
    };
    let mut dice = Dice::new(seed);
    let mut alike = true;
    for _ in 0..2000u32 {
        alike = is_alike(set, &mut plain, limit, &mut dice) && alike;
    }
    alike
}

#[test]
fn a_bitmap_is_a_list_in_rising_order(rt: HostRuntime) {
    for seed in [1, 2, 3] {
        assert!(rt; two_levels(rt.alloc(), Asked::Random(seed)) == Ok(true));
        assert!(rt; three_levels(rt.alloc(), Asked::Random(seed)) == Ok(true));
    }
}
