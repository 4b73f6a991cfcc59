//! The bank: the callbacks that a kernel was made with, each in its place or out on a line.
ghost use Rattle.std.specs.Prelude.{◌≡◌, ◌<◌, Some, None, IfNone, map, option_map, slice_get, slice_set, true, vec_len};
ghost use Rattle.evl_kernel.specs.state.Callbacks.{is_home};

use evl_base::ActionKinds;
use evl_pipeline::{Answer, Fire, Handler, Named, Plan};
use std::alloc::Allocator;
use std::mem;
use std::snapshot::Snapshot;

/// A place of the bank: what its callback declares and, for contracts alone, its plan; and the callback where it is
/// there.
#[derive(Drop)]
pub(crate) struct BankPlace<C> {
    pub(crate) kinds: ActionKinds,
    pub(crate) plan: Snapshot<Snapshot<Plan>>,
    pub(crate) callback: Option<C>,
}

/// A callback on its way out of the bank, with the number of its place.
#[derive(Drop)]
pub(crate) struct Numbered<C> {
    pub(crate) number: u8,
    pub(crate) callback: C,
}

impl<C: Handler> Handler for Numbered<C> {
    ghost plan = { λ numbered. C.plan numbered.callback };

    ghost declared = { λ numbered. C.declared numbered.callback };

    ghost gives = { λ numbered fire answer. C.gives numbered.callback fire answer };

    fn fire(&self, fire: Fire) -> Answer {
        self.callback.fire(fire)
    }

    fn kinds(&self) -> ActionKinds {
        self.callback.kinds()
    }

    fn told(&self) -> &Snapshot<Plan> {
        self.callback.told()
    }
}

impl<C> Named for Numbered<C> {
    ghost name = { λ numbered. numbered.number };

    fn name(&self) -> u8 {
        self.number
    }
}

/// The kinds that the callback of a place declares, if there is such a place.
pub(crate) fn kinds_in<C, A: Allocator>(
    bank: &Vec<BankPlace<C>, A>,
    number: u8,
) -> Option<ActionKinds>
    ensures { result ≡ option_map (λ place. place.kinds) (slice_get bank.now.items number) }
{
    match bank.get(usize::from(number)) {
        Some(place) => Some(place.kinds),
        None => None,
    }
}

/// Takes the callback out of a place, if it is there.
pub(crate) fn take_out<C: Drop, A: Allocator>(
    bank: &mut Vec<BankPlace<C>, A>,
    number: u8,
) -> Option<C>
    requires { number < vec_len bank.old }
    ensures taken { (place : BankPlace C) → slice_get bank.old.items number ≡ Some place
        → (result ≡ place.callback) × (bank.new.items ≡ slice_set bank.old.items number (record place { callback = None })) }
    ensures none { IfNone result (bank.new.items ≡ bank.old.items) }
{
    mem::replace(&mut bank[usize::from(number)].callback, None)
}

/// Puts a callback into a place.
pub(crate) fn put_back<C: Drop, A: Allocator>(
    bank: &mut Vec<BankPlace<C>, A>,
    number: u8,
    callback: C,
)
    requires { number < vec_len bank.old }
    ensures put { (place : BankPlace C) → slice_get bank.old.items number ≡ Some place
        → bank.new.items ≡ slice_set bank.old.items number (record place { callback = Some callback }) }
{
    bank[usize::from(number)].callback = Some(callback);
}

/// Whether in two banks the callbacks of the same places are there.
pub(crate) fn are_homes_alike<C>(one: &[BankPlace<C>], other: &[BankPlace<C>]) -> bool
    ensures alike { result ≡ true → map is_home one.now ≡ map is_home other.now }
    ensures other { map is_home one.now ≡ map is_home other.now → result ≡ true }
{
    if one.len() != other.len() {
        return false;
    }
    for i in 0..one.len() {
        if !are_both_home(&one[i], &other[i]) {
            return false;
        }
    }
    true
}

// Whether the callbacks of both places are there, or both are out.
fn are_both_home<C>(one: &BankPlace<C>, other: &BankPlace<C>) -> bool
    ensures alike { result ≡ true → is_home one.now ≡ is_home other.now }
    ensures other { is_home one.now ≡ is_home other.now → result ≡ true }
{
    match one.callback {
        Some(_) => other.callback.is_some(),
        None => other.callback.is_none(),
    }
}
