//! A look that two tokens of one table make together.
ghost use Rattle.std.specs.Prelude.{◌≡◌, ◌<◌};
ghost use Rattle.atomic_table.specs.Table.{Joins, Splits};
ghost use Rattle.std.specs.Prelude.{ℕ, [], ◌++◌};
ghost use Rattle.evl_words.specs.Hands.{Hand, first_of, rest_of};
ghost use Rattle.evl_words.specs.Looks.{AreTogether, IsAlone, TellsOfTwo};

use crate::hands::{Deal, Gather, HandOf};
use atomic_table::{Play, Seat, Table, TableRule};
use std::alloc::Allocator;
use std::marker::PhantomData;
use std::mem;

/// How two seats of one table are together. Only contracts have it.
pub trait Together<V> {
    ghost use Rattle.evl_words.specs.declared.history.Place.{Place};

    ghost together: { Place V → Place V → Type 0 };
}

/// The load of a word by a token that has two seats.
pub struct Look<T>(PhantomData<T>);

impl<S, V, T: Together<V>> Play<S, HandOf<V>> for Look<T> {
    ghost use Rattle.evl_words.specs.Looks.{looked};

    ghost then = { looked T.together };
}

/// Two tokens are one for a moment, in which word 0 is read, and two again. It says how their seats are together, and
/// changes nothing.
pub fn look_together<S, V, T: Together<V>, K, P: TableRule<S, HandOf<V>, K>, A: Allocator>(
    table: &Table<S, HandOf<V>, K, P, A>,
    one: &mut Seat<S, HandOf<V>>,
    other: &mut Seat<S, HandOf<V>>,
)
    requires table { (one.old.table_id ≡ table.now.shared.table_id) × (other.old.table_id ≡ table.now.shared.table_id) × (0 < table.now.shared.table_id.words) }
    requires alone { IsAlone one.old.me × IsAlone other.old.me }
    requires splits { (id : ℕ) (v : Hand V) → Splits (P.holds table.now.shared.key) id v (first_of v) (rest_of v) }
    requires joins { (id : ℕ) (v : Hand V) (other : ℕ) (w : Hand V) → Joins (P.holds table.now.shared.key) id v other w (v ++ w) [] }
    requires tells { TellsOfTwo (P.holds table.now.shared.key) T.together }
    ensures table { (one.new.table_id ≡ one.old.table_id) × (other.new.table_id ≡ other.old.table_id) }
    ensures same { (one.new.me ≡ one.old.me) × (other.new.me ≡ other.old.me) }
    ensures together { AreTogether T.together one.old.me.0 other.old.me.0 }
{
    let shared = &table.shared;
    let nobody = shared.split_seat::<Deal>(one);
    let theirs = mem::replace(other, nobody);
    shared.join_seat::<Gather>(one, theirs);
    shared.load::<Look<T>>(one, 0);
    let again = shared.split_seat::<Deal>(one);
    let _nobody = mem::replace(other, again);
}
