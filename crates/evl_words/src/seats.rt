//! The seats of a word, whatever the word is: dealt out of a new table, and handed in where it is closed.
ghost use Rattle.std.specs.Prelude.{◌≡◌, ◌≤◌, ◌<◌, ℕ, [], map, All, vec_capacity};
ghost use Rattle.std.specs.List.{range_with_len};
ghost use Rattle.evl_words.specs.Endings.{Ends, EndsWith, JoinsBy, SplitsBy, joined, left_after};

use atomic_table::{Join, Seat, Split, Table, TableRule};
use std::alloc::Allocator;

/// A seat of a word: a token of the word's table that has one place.
pub trait WordSeat<H>: Drop {
    ghost use Rattle.atomic_table.specs.Seated.{TableId};

    /// The table that it is of.
    ghost table: { Self → TableId };

    /// Its place there, as a hand.
    ghost hand: { Self → H };

    /// Its token.
    fn into_token(self) -> Seat<(), H>
        ensures { (result.table_id ≡ table self) × (result.me ≡ (hand self, [])) };
}

/// A seat that a word is made with.
pub trait NewSeat<H, I>: Drop {
    ghost use Rattle.std.specs.Prelude.{ℕ};
    ghost use Rattle.atomic_table.specs.Seated.{TableId};

    /// Whether a seat of this number may begin with this hand.
    ghost begins: { ℕ → H → Type 0 };

    /// The seat of this table and this word, with its number and its hand.
    ghost made: { TableId → I → ℕ → H → Self };

    /// The seat that has this token.
    fn of_token(token: Seat<(), H>, id: I, number: u16) -> Self
        requires { begins number token.me.0 × (token.me.1 ≡ []) }
        ensures { result ≡ made token.table_id id number token.me.0 };
}

/// Deals out the hand of a new table to so many seats, in the order of their numbers.
pub fn deal<
    H,
    M: Split<H>,
    K,
    P: TableRule<(), H, K>,
    A: Allocator,
    I: Copy,
    S: NewSeat<H, I>,
    B: Allocator,
>(table: &Table<(), H, K, P, A>, hand: Seat<(), H>, dealt: &mut Vec<S, B>, id: I, seats: u16)
    requires room { (dealt.old.items ≡ []) × (seats ≤ vec_capacity dealt.old) }
    requires table { (table.now.shared.table_id.words ≡ 1) × (hand.table_id ≡ table.now.shared.table_id) × (hand.me.1 ≡ []) }
    requires splits { SplitsBy M.left M.right (P.holds table.now.shared.key) }
    requires begins { (k : ℕ) → k < seats → S.begins k (M.left (left_after M.right hand.me.0 k)) }
    ensures { dealt.new.items ≡ map (λ k. S.made table.now.shared.table_id id k (M.left (left_after M.right hand.me.0 k))) (range_with_len 0 seats) }
{
    let mut rest = hand;
    for number in 0..seats {
        let others = table.shared.split_seat::<M>(&mut rest);
        dealt.push_reserved(S::of_token(rest, id, number));
        rest = others;
    }
}

/// The word of a table of which no seat is handed in.
pub fn close_alone<H, K, P: TableRule<(), H, K>, A: Allocator>(table: Table<(), H, K, P, A>) -> u64
    requires { (table.shared.table_id.words ≡ 1) × (table.shared.table_id.slots ≡ 0) }
    ensures { Ends (P.holds table.shared.key) result }
{
    let closed = table.close();
    let word = closed.word(0);
    closed.free();
    word
}

/// The word of a table, once these seats are joined into the last one.
pub fn close_with<
    H,
    M: Join<H>,
    K,
    P: TableRule<(), H, K>,
    A: Allocator,
    S: WordSeat<H>,
    B: Allocator,
>(table: Table<(), H, K, P, A>, mut seats: Vec<S, B>, last: S) -> u64
    requires table { (table.shared.table_id.words ≡ 1) × (table.shared.table_id.slots ≡ 0) }
    requires joins { JoinsBy M.both M.spent (P.holds table.shared.key) }
    requires seats { All (λ seat. S.table seat ≡ table.shared.table_id) seats.items }
    requires last { S.table last ≡ table.shared.table_id }
    ensures { EndsWith (P.holds table.shared.key) (joined M.both S.hand (S.hand last) seats.items) result }
{
    let mut hand = last.into_token();
    while let Some(seat) = seats.pop() {
        let other = seat.into_token();
        table.shared.join_seat::<M>(&mut hand, other);
    }
    let closed = table.close_with(hand);
    let word = closed.word(0);
    closed.free();
    word
}
