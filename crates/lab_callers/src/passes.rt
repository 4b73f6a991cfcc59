//! Passes by their names.
ghost use Rattle.std.specs.Prelude.{◌≡◌, IfErr, IfOk, MatchOption, OnOk, count_by, false, position, string_bytes, true};
ghost use Rattle.std.specs.List.{remove};
ghost use Rattle.lab_callers.specs.Faults.{fault_words};
ghost use Rattle.lab_callers.specs.Holdings.{awaited_mutex, is_held, is_of_stax, is_wait_of, nothing_held, stax_holder, with_mutex, with_mutexes, with_stax, with_staxes, with_wait, without_wait};
ghost use Rattle.lab_callers.specs.Names.{TakesPass, has_pass, is_named, is_of_name};

use evl_base::{MutexId, StaxId, ThreadId};
use evl_words::{MutexPass, StaxPass};
use std::alloc::{AllocError, Global};
use std::marker::Model;

/// Why a step of a text can't be made.
#[derive(Clone, Copy, PartialEq, Eq)]
pub enum StepFault {
    /// `who`: the board has no such thread.
    NoCaller,
    /// `who`: the caller has the core, and all that it can do is a call of the kernel or `give`.
    HasCore,
    /// `who`: the caller hasn't the core that it is to give.
    HasNoCore,
    /// `as`: the name holds a pass already.
    Held,
    /// `pass`: the name holds no pass of this kind.
    HoldsNothing,
}

impl StepFault {
    /// The key that is at fault, and what is wrong with it.
    pub fn words(self) -> &'static str
        ensures { result.now ≡ fault_words self }
    {
        match self {
            StepFault::NoCaller => "who: there is no such thread",
            StepFault::HasCore => "who: it has the core, and makes calls of the kernel or gives it",
            StepFault::HasNoCore => "who: it hasn't the core",
            StepFault::Held => "as: the name holds a pass already",
            StepFault::HoldsNothing => "pass: the name holds no such pass",
        }
    }
}

/// The passes that callers have, and the mutexes for which they wait.
#[derive(Drop)]
pub struct Passes {
    staxes: Vec<(String, StaxPass)>,
    mutexes: Vec<(String, MutexPass)>,
    waits: Vec<(ThreadId, MutexId)>,
}

impl Model for Passes {
    ghost use Rattle.lab_callers.specs.Holdings.{Holdings};

    ghost Value = { Holdings };

    ghost view = { λ p. record { staxes = p.staxes.items; mutexes = p.mutexes.items; waits = p.waits.items } };
}

// Whether a name is among these.
fn is_among<P>(passes: &[(String, P)], name: &str) -> bool
    ensures { result ≡ is_named name.now passes.now }
{
    passes.iter().any(|named| named.0.as_str() == name)
}

impl Passes {
    /// None.
    pub fn new(alloc: Global) -> Passes
        ensures { result ≡ nothing_held }
    {
        Passes {
            staxes: Vec::new(alloc),
            mutexes: Vec::new(alloc),
            waits: Vec::new(alloc),
        }
    }

    // The place of a name among the passes of staxes.
    fn stax_place(&self, name: &str) -> Option<usize>
        ensures { result ≡ position (is_of_name name.now) self.now.staxes }
    {
        self.staxes
            .iter()
            .position(|named| named.0.as_str() == name)
    }

    // The place of a name among the passes of mutexes.
    fn mutex_place(&self, name: &str) -> Option<usize>
        ensures { result ≡ position (is_of_name name.now) self.now.mutexes }
    {
        self.mutexes
            .iter()
            .position(|named| named.0.as_str() == name)
    }

    /// Whether a name holds a pass.
    pub fn holds(&self, name: &str) -> bool
        ensures { result ≡ is_held name.now self.now }
    {
        is_among(self.staxes.as_slice(), name) || is_among(self.mutexes.as_slice(), name)
    }

    /// The pass of a stax that a name holds, which is taken away.
    pub fn take_stax(&mut self, name: &String) -> Result<StaxPass, StepFault>
        ensures taken { IfOk result (λ pass. TakesPass (string_bytes name.now) self.old.staxes pass self.new.staxes) }
        ensures others { (self.new.mutexes ≡ self.old.mutexes) × (self.new.waits ≡ self.old.waits) }
        ensures left { self.new ≡ with_staxes self.old self.new.staxes }
        ensures there { OnOk result (has_pass (string_bytes name.now) self.old.staxes ≡ true) }
        ensures refused { IfErr result (λ e. (e ≡ StepFault.HoldsNothing) × (has_pass (string_bytes name.now) self.old.staxes ≡ false) × (self.new ≡ self.old)) }
    {
        match self.stax_place(name.as_str()) {
            Some(place) => Ok(self.staxes.remove(place).1),
            None => Err(StepFault::HoldsNothing),
        }
    }

    /// The pass of a mutex that a name holds, which is taken away.
    pub fn take_mutex(&mut self, name: &String) -> Result<MutexPass, StepFault>
        ensures taken { IfOk result (λ pass. TakesPass (string_bytes name.now) self.old.mutexes pass self.new.mutexes) }
        ensures others { (self.new.staxes ≡ self.old.staxes) × (self.new.waits ≡ self.old.waits) }
        ensures left { self.new ≡ with_mutexes self.old self.new.mutexes }
        ensures there { OnOk result (has_pass (string_bytes name.now) self.old.mutexes ≡ true) }
        ensures refused { IfErr result (λ e. (e ≡ StepFault.HoldsNothing) × (has_pass (string_bytes name.now) self.old.mutexes ≡ false) × (self.new ≡ self.old)) }
    {
        match self.mutex_place(name.as_str()) {
            Some(place) => Ok(self.mutexes.remove(place).1),
            None => Err(StepFault::HoldsNothing),
        }
    }

    /// Has a name hold a pass of a stax.
    pub fn put_stax(&mut self, name: String, pass: StaxPass) -> Result<(), AllocError>
        ensures held { OnOk result (self.new ≡ with_stax self.old name pass) }
        ensures others { (self.new.mutexes ≡ self.old.mutexes) × (self.new.waits ≡ self.old.waits) }
    {
        match self.staxes.push((name, pass)) {
            Ok(()) => Ok(()),
            Err(_) => Err(AllocError),
        }
    }

    /// Has a name hold a pass of a mutex.
    pub fn put_mutex(&mut self, name: String, pass: MutexPass) -> Result<(), AllocError>
        ensures held { OnOk result (self.new ≡ with_mutex self.old name pass) }
        ensures others { (self.new.staxes ≡ self.old.staxes) × (self.new.waits ≡ self.old.waits) }
    {
        match self.mutexes.push((name, pass)) {
            Ok(()) => Ok(()),
            Err(_) => Err(AllocError),
        }
    }

    /// How many callers hold a stax.
    pub fn holders(&self, stax: StaxId) -> usize
        ensures { result ≡ count_by (is_of_stax stax.0) self.now.staxes }
    {
        self.staxes
            .iter()
            .filter(|named| named.1.gate() == stax)
            .count()
    }

    /// The number of a caller that holds a stax.
    pub fn holder(&self, stax: StaxId) -> Option<u16>
        ensures { result ≡ stax_holder self.now stax.0 }
    {
        match self.staxes.iter().find(|named| named.1.gate() == stax) {
            Some(named) => Some(named.1.seat()),
            None => None,
        }
    }

    /// A caller waits for a mutex from now on.
    pub fn begin_wait(&mut self, who: ThreadId, mutex: MutexId) -> Result<(), AllocError>
        ensures waits { OnOk result (self.new ≡ with_wait self.old who mutex) }
        ensures others { (self.new.staxes ≡ self.old.staxes) × (self.new.mutexes ≡ self.old.mutexes) }
    {
        match self.waits.push((who, mutex)) {
            Ok(()) => Ok(()),
            Err(_) => Err(AllocError),
        }
    }

    // The place of a caller among those that wait.
    fn wait_place(&self, who: ThreadId) -> Option<usize>
        ensures { result ≡ position (is_wait_of who.0) self.now.waits }
    {
        self.waits.iter().position(|wait| wait.0 == who)
    }

    /// For which mutex a caller waits.
    pub fn awaited(&self, who: ThreadId) -> Option<MutexId>
        ensures { result ≡ awaited_mutex self.now who }
    {
        match self.waits.iter().find(|wait| wait.0 == who) {
            Some(wait) => Some(wait.1),
            None => None,
        }
    }

    /// A caller waits no more.
    pub fn end_wait(&mut self, who: ThreadId)
        ensures waits { MatchOption (position (is_wait_of who.0) self.old.waits) (self.new ≡ self.old) (λ place. self.new.waits ≡ remove self.old.waits place) }
        ensures over { self.new ≡ without_wait self.old who }
        ensures others { (self.new.staxes ≡ self.old.staxes) × (self.new.mutexes ≡ self.old.mutexes) }
    {
        if let Some(place) = self.wait_place(who) {
            self.waits.remove(place);
        }
    }
}
