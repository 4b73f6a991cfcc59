//! Quick ways: a call at which nobody is served and nothing is played, with its entry, or else nothing.
ghost use Rattle.std.specs.Prelude.{◌≡◌, ◌+◌, ◌≤◌, ◌<◌, [], length, true, false, IfNone, IfSome, Ok};
ghost use Rattle.evl_base.specs.declared.reply.Reply.{Reply};
ghost use Rattle.evl_kernel.specs.histories.Histories.{IsLegal, Step};
ghost use Rattle.evl_kernel.specs.state.Places.{AreInOnePlace};
ghost use Rattle.evl_kernel.specs.state.KernelViews.{AddsEntry};
ghost use Rattle.evl_kernel.specs.state.Records.{state_of, whereabouts};

use super::KernelOf;
use crate::kernel::room::{is_within, keep_box};
use crate::records::Records;
use evl_base::{Call, SemId, ThreadId, Transfer, Way, XbufId};
use evl_history::History;
use evl_pipeline::Handler;
use std::alloc::Allocator;

impl<C: Handler, A: Allocator> KernelOf<C, A> {
    // Answers a call at which nobody is served and nothing is played, where that takes one look and one step, and says
    // whether it did; nothing changes else.
    #[inline(always)]
    pub(super) fn answers_quickly(&mut self, caller: ThreadId, call: &Call) -> bool
        ensures entry { result ≡ true → AddsEntry self.old.history caller.0 call.now (Ok Reply.Done) self.new.history }
        ensures plays { self.new.history.plays ≡ self.old.history.plays }
        ensures within { result ≡ true → length self.old.history.entries < self.old.limit }
        ensures kept { result ≡ false → self.new ≡ self.old }
        ensures callbacks { self.new.callbacks ≡ self.old.callbacks }
        ensures limit { self.new.limit ≡ self.old.limit }
        ensures room { self.old.room ≤ self.new.room + 1 }
        ensures legal { IsLegal self.new.history }
        ensures places { AreInOnePlace self.new.callbacks }
    {
        let _ = &self.board;
        match call {
            Call::Put { sem } => self.put_quickly(caller, *sem),
            Call::TryGet { sem } => self.get_quickly(caller, *sem),
            _ => false,
        }
    }

    // Answers a put at which nobody is served and nothing is played, and says whether it did; nothing changes else.
    #[inline(always)]
    fn put_quickly(&mut self, caller: ThreadId, sem: SemId) -> bool
        ensures entry { result ≡ true → AddsEntry self.old.history caller.0 (Call.Put sem) (Ok Reply.Done) self.new.history }
        ensures plays { self.new.history.plays ≡ self.old.history.plays }
        ensures within { result ≡ true → length self.old.history.entries < self.old.limit }
        ensures kept { result ≡ false → self.new ≡ self.old }
        ensures callbacks { self.new.callbacks ≡ self.old.callbacks }
        ensures limit { self.new.limit ≡ self.old.limit }
        ensures room { self.old.room ≤ self.new.room + 1 }
        ensures legal { IsLegal self.new.history }
        ensures places { AreInOnePlace self.new.callbacks }
    {
        if !is_within(&self.history, self.fence) {
            return false;
        }
        if !self.records.put_quickly(caller, sem) {
            return false;
        }
        self.history.push_put(caller, sem);
        true
    }

    // Answers a get at which nothing is played, and says whether it did; nothing changes else.
    #[inline(always)]
    fn get_quickly(&mut self, caller: ThreadId, sem: SemId) -> bool
        ensures entry { result ≡ true → AddsEntry self.old.history caller.0 (Call.TryGet sem) (Ok Reply.Done) self.new.history }
        ensures plays { self.new.history.plays ≡ self.old.history.plays }
        ensures within { result ≡ true → length self.old.history.entries < self.old.limit }
        ensures kept { result ≡ false → self.new ≡ self.old }
        ensures callbacks { self.new.callbacks ≡ self.old.callbacks }
        ensures limit { self.new.limit ≡ self.old.limit }
        ensures room { self.old.room ≤ self.new.room + 1 }
        ensures legal { IsLegal self.new.history }
        ensures places { AreInOnePlace self.new.callbacks }
    {
        if !is_within(&self.history, self.fence) {
            return false;
        }
        if !self.records.get_quickly(caller, sem) {
            return false;
        }
        self.history.push_get(caller, sem);
        true
    }

    // Answers a read of a cross-buffer at which nobody is served and nothing is played; none, and nothing changes, else.
    #[inline(always)]
    pub(super) fn reads_quickly(&mut self, caller: ThreadId, call: &Call) -> Option<Transfer>
        ensures entry { IfSome result (λ bytes. AddsEntry self.old.history caller.0 call.now (Ok (Reply.Bytes bytes)) self.new.history) }
        ensures plays { self.new.history.plays ≡ self.old.history.plays }
        ensures within { IfSome result (λ _. length self.old.history.entries < self.old.limit) }
        ensures kept { IfNone result (self.new ≡ self.old) }
        ensures callbacks { self.new.callbacks ≡ self.old.callbacks }
        ensures limit { self.new.limit ≡ self.old.limit }
        ensures room { self.old.room ≤ self.new.room + 1 }
        ensures legal { IsLegal self.new.history }
        ensures places { AreInOnePlace self.new.callbacks }
    {
        let _ = &self.board;
        match call {
            Call::Read { xbuf, way, len } => self.read_quickly(caller, *xbuf, *way, *len),
            _ => None,
        }
    }

    // As `reads_quickly`, of only a read.
    #[inline(never)]
    fn read_quickly(
        &mut self,
        caller: ThreadId,
        xbuf: XbufId,
        way: Way,
        len: u16,
    ) -> Option<Transfer>
        ensures entry { IfSome result (λ bytes. AddsEntry self.old.history caller.0 (Call.Read xbuf way len) (Ok (Reply.Bytes bytes)) self.new.history) }
        ensures plays { self.new.history.plays ≡ self.old.history.plays }
        ensures within { IfSome result (λ _. length self.old.history.entries < self.old.limit) }
        ensures kept { IfNone result (self.new ≡ self.old) }
        ensures callbacks { self.new.callbacks ≡ self.old.callbacks }
        ensures limit { self.new.limit ≡ self.old.limit }
        ensures room { self.old.room ≤ self.new.room + 1 }
        ensures legal { IsLegal self.new.history }
        ensures places { AreInOnePlace self.new.callbacks }
    {
        if !is_within(&self.history, self.fence) {
            return None;
        }
        let Some(read) = self
            .records
            .read_quickly(caller, xbuf, way, len, &mut self.spares)
        else {
            return None;
        };
        let call = Call::Read { xbuf, way, len };
        self.history.push_transfer(caller, call, read.as_slice());
        keep_box(&mut self.fence, &mut self.spares);
        Some(read)
    }
}

// Answers a write at which nobody is served and nothing is played, where the history is shorter than the fence, and says
// whether it did; nothing changes else. Its entry, which takes the call, is left to the caller.
#[inline(always)]
pub(super) fn writes_quickly<C: Handler, A: Allocator>(
    records: &mut Records<C, A>,
    history: &History<A>,
    fence: usize,
    caller: ThreadId,
    call: &Call,
) -> bool
    ensures within { result ≡ true → length history.now.entries < fence }
    ensures room { result ≡ true → 1 ≤ history.now.room }
    ensures done { result ≡ true → Step (state_of records.old) caller.0 call.now (Ok Reply.Done) [] (state_of records.new) }
    ensures kept { result ≡ false → records.new ≡ records.old }
    ensures stands { whereabouts records.new ≡ whereabouts records.old }
{
    match call {
        Call::Write { xbuf, way, bytes } => {
            is_within(history, fence) && records.write_quickly(caller, *xbuf, *way, bytes)
        }
        _ => false,
    }
}
