//! How calls that fit in no row enter a history: as whole entries.
ghost use Rattle.std.specs.Prelude.{◌≡◌, ◌≤◌, ◌<◌, ◌+◌, ◌++◌, ◌∷◌, [], length, Ok};
ghost use Rattle.evl_base.specs.declared.reply.Reply.{Reply};
ghost use Rattle.evl_history.specs.Histories.{made_entry};
ghost use Rattle.evl_history.specs.Limits.{entry_limit, transfer_limit};
ghost use Rattle.evl_history.specs.Rows.{has_bytes, transfer};

use super::History;
use super::enter_bytes::append;
use crate::answers::bare_reply;
use crate::row::Row;
use evl_base::{Call, Entry, Refusal, Reply, ThreadId};
use std::alloc::Allocator;

impl<A: Allocator> History<A> {
    // Enters a call as a whole entry.
    #[cold]
    #[inline(never)]
    pub(super) fn push_whole(
        &mut self,
        caller: ThreadId,
        call: Call,
        reply: &Result<Reply, Refusal>,
        plays: usize,
    )
        requires room { 1 ≤ self.old.room }
        requires few { length self.old.entries < entry_limit }
        ensures entry { self.new.entries ≡ self.old.entries ++ made_entry caller.0 call reply.now plays ∷ [] }
        ensures room { self.old.room ≤ self.new.room + 1 }
    {
        match reply {
            Ok(Reply::Bytes(read)) => {
                self.push_whole_bytes(caller, call, read.as_slice(), plays);
            }
            Ok(reply) => {
                let reply = Ok(bare_reply(reply));
                self.push_entry(Entry {
                    caller,
                    call,
                    reply,
                    plays,
                });
            }
            Err(refusal) => {
                let reply = Err(*refusal);
                self.push_entry(Entry {
                    caller,
                    call,
                    reply,
                    plays,
                });
            }
        }
    }

    // Enters a whole entry whose answer is these bytes.
    #[cold]
    #[inline(never)]
    pub(super) fn push_whole_bytes(
        &mut self,
        caller: ThreadId,
        call: Call,
        read: &[u8],
        plays: usize,
    )
        requires room { 1 ≤ self.old.room }
        requires few { length self.old.entries < entry_limit }
        requires read { length read.now ≤ transfer_limit }
        ensures entry { self.new.entries ≡ self.old.entries ++ made_entry caller.0 call (Ok (Reply.Bytes (transfer read.now))) plays ∷ [] }
        ensures room { self.old.room ≤ self.new.room + 1 }
    {
        let place = self.wide.len() as u32;
        let start = append(&mut self.bytes, read);
        let long = read.len() as u16;
        self.wide.push_reserved(Entry {
            caller,
            call,
            reply: Ok(Reply::Done),
            plays,
        });
        self.rows.push_reserved(Row::WideBytes(long, place, start));
    }

    // Enters a whole entry.
    fn push_entry(&mut self, entry: Entry)
        requires room { 1 ≤ self.old.room }
        requires few { length self.old.entries < entry_limit }
        ensures entry { self.new.entries ≡ self.old.entries ++ entry ∷ [] }
        ensures room { self.old.room ≤ self.new.room + 1 }
    {
        let place = self.wide.len() as u32;
        self.wide.push_reserved(entry);
        self.rows.push_reserved(Row::Wide(place));
    }
}
