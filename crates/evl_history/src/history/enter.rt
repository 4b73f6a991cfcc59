//! How a call enters a history: as a row where it has one, else as a whole entry.
ghost use Rattle.std.specs.Prelude.{ℕ, ◌≡◌, ◌≤◌, ◌<◌, ◌+◌, ◌++◌, ◌∷◌, List, [], length, Ok};
ghost use Rattle.evl_base.specs.declared.entry.Entry.{Entry};
ghost use Rattle.evl_history.specs.Histories.{made_entry};
ghost use Rattle.evl_history.specs.Limits.{entry_limit, transfer_limit};
ghost use Rattle.evl_history.specs.Rows.{Codes, IsWithin, entry, told, transfer};

use super::History;
use crate::answers::{brief, told};
use crate::coding::{brief_row, head, number_row};
use crate::row::{Brief, Head, Row};
use evl_base::{Call, Refusal, Reply, SemId, ThreadId};
use std::alloc::Allocator;

impl<A: Allocator> History<A> {
    /// Enters a call of a thread with its answer and the number of the plays that it made, after all others. There is
    /// room for it, and there are fewer than 1,000,000.
    pub fn push(
        &mut self,
        caller: ThreadId,
        call: Call,
        reply: &Result<Reply, Refusal>,
        plays: usize,
    )
        requires room { 1 ≤ self.old.room }
        requires few { length self.old.entries < entry_limit }
        ensures entry { self.new.entries ≡ self.old.entries ++ made_entry caller.0 call reply.now plays ∷ [] }
        ensures room { self.old.room ≤ self.new.room + 1 }
    {
        let Some(head) = head(caller, plays) else {
            return self.push_whole(caller, call, reply, plays);
        };
        if let Some(answer) = brief(reply) {
            return self.push_brief(answer, head, call);
        }
        match reply {
            Ok(Reply::Bytes(read)) => self.push_bytes(head, call, read.as_slice()),
            Ok(number) => match number_row(head, &call, number) {
                Some(row) => self.push_short(row),
                None => self.push_whole(caller, call, reply, plays),
            },
            Err(_) => self.push_whole(caller, call, reply, plays),
        }
    }

    /// Enters a put that was done and made no play, as `push` does.
    #[inline(always)]
    pub fn push_put(&mut self, caller: ThreadId, sem: SemId)
        requires room { 1 ≤ self.old.room }
        requires few { length self.old.entries < entry_limit }
        ensures entry { self.new.entries ≡ self.old.entries ++ made_entry caller.0 (Call.Put sem) (Ok Reply.Done) 0 ∷ [] }
        ensures room { self.old.room ≤ self.new.room + 1 }
    {
        match head(caller, 0) {
            Some(head) => self.push_short(Row::Put(Brief::Done, head, sem)),
            None => self.push_whole(caller, Call::Put { sem }, &Ok(Reply::Done), 0),
        }
    }

    /// Enters a get that was done and made no play, as `push` does.
    #[inline(always)]
    pub fn push_get(&mut self, caller: ThreadId, sem: SemId)
        requires room { 1 ≤ self.old.room }
        requires few { length self.old.entries < entry_limit }
        ensures entry { self.new.entries ≡ self.old.entries ++ made_entry caller.0 (Call.TryGet sem) (Ok Reply.Done) 0 ∷ [] }
        ensures room { self.old.room ≤ self.new.room + 1 }
    {
        match head(caller, 0) {
            Some(head) => self.push_short(Row::TryGet(Brief::Done, head, sem)),
            None => self.push_whole(caller, Call::TryGet { sem }, &Ok(Reply::Done), 0),
        }
    }

    /// Enters a call that answered these bytes, at most 256, and made no play, as `push` does.
    pub fn push_transfer(&mut self, caller: ThreadId, call: Call, read: &[u8])
        requires room { 1 ≤ self.old.room }
        requires few { length self.old.entries < entry_limit }
        requires read { length read.now ≤ transfer_limit }
        ensures entry { self.new.entries ≡ self.old.entries ++ made_entry caller.0 call (Ok (Reply.Bytes (transfer read.now))) 0 ∷ [] }
        ensures room { self.old.room ≤ self.new.room + 1 }
    {
        match head(caller, 0) {
            Some(head) => self.push_bytes(head, call, read),
            None => self.push_whole_bytes(caller, call, read, 0),
        }
    }

    // Enters the row of an entry that names no bytes and no whole entry.
    #[inline(always)]
    fn push_short(&mut self, row: Row)
        requires room { 1 ≤ self.old.room }
        requires within { (wide : List Entry) → (bytes : List ℕ) → IsWithin wide bytes row }
        ensures entry { (e : Entry) → Codes row e → self.new.entries ≡ self.old.entries ++ e ∷ [] }
        ensures room { self.old.room ≤ self.new.room + 1 }
    {
        self.rows.push_reserved(row);
    }

    // Enters a call whose answer has no number.
    fn push_brief(&mut self, answer: Brief, head: Head, call: Call)
        requires room { 1 ≤ self.old.room }
        requires few { length self.old.entries < entry_limit }
        ensures entry { self.new.entries ≡ self.old.entries ++ entry head call (told answer) ∷ [] }
        ensures room { self.old.room ≤ self.new.room + 1 }
    {
        if let Some(row) = brief_row(answer, head, &call) {
            return self.push_short(row);
        }
        match &call {
            Call::Write { xbuf, way, bytes } => {
                self.push_write(answer, head, *xbuf, *way, bytes.as_slice())
            }
            Call::BeginWrite {
                xbuf,
                way,
                bytes,
                until: None,
            } => self.push_begin_write(answer, head, *xbuf, *way, bytes.as_slice()),
            _ => {
                let caller = ThreadId(u16::from(head.caller));
                self.push_whole(caller, call, &told(answer), usize::from(head.plays));
            }
        }
    }

    // Enters a call that answered these bytes.
    fn push_bytes(&mut self, head: Head, call: Call, read: &[u8])
        requires room { 1 ≤ self.old.room }
        requires few { length self.old.entries < entry_limit }
        requires read { length read.now ≤ transfer_limit }
        ensures entry { self.new.entries ≡ self.old.entries ++ entry head call (Ok (Reply.Bytes (transfer read.now))) ∷ [] }
        ensures room { self.old.room ≤ self.new.room + 1 }
    {
        match &call {
            Call::Read { xbuf, way, len } => self.push_read(head, *xbuf, *way, *len, read),
            Call::Finish { keep } => self.push_finish(head, *keep, read),
            _ => {
                let caller = ThreadId(u16::from(head.caller));
                self.push_whole_bytes(caller, call, read, usize::from(head.plays));
            }
        }
    }
}
