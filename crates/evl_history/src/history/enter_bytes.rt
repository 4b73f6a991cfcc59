//! How calls with bytes enter a history: the bytes after those of all rows.
ghost use Rattle.std.specs.Prelude.{◌≡◌, ◌≤◌, ◌<◌, ◌+◌, ◌++◌, ◌∷◌, [], None, length, vec_len, vec_capacity, Ok};
ghost use Rattle.evl_base.specs.declared.call.Call.{Call};
ghost use Rattle.evl_base.specs.declared.reply.Reply.{Reply};
ghost use Rattle.evl_history.specs.Limits.{entry_limit, transfer_limit};
ghost use Rattle.evl_history.specs.Rows.{entry, told, transfer};

use super::History;
use crate::row::{Brief, Head, Row};
use evl_base::{Way, XbufId};
use std::alloc::Allocator;

impl<A: Allocator> History<A> {
    // Enters a write of these bytes whose answer has no number.
    pub(super) fn push_write(
        &mut self,
        answer: Brief,
        head: Head,
        xbuf: XbufId,
        way: Way,
        written: &[u8],
    )
        requires room { 1 ≤ self.old.room }
        requires few { length self.old.entries < entry_limit }
        requires written { length written.now ≤ transfer_limit }
        ensures entry { self.new.entries ≡ self.old.entries ++ entry head (Call.Write xbuf way (transfer written.now)) (told answer) ∷ [] }
        ensures room { self.old.room ≤ self.new.room + 1 }
    {
        let start = append(&mut self.bytes, written);
        let long = written.len() as u16;
        self.rows
            .push_reserved(Row::Write(answer, head, xbuf, way, long, start));
    }

    // Enters the beginning of a wait without a deadline to write these bytes, whose answer has no number.
    pub(super) fn push_begin_write(
        &mut self,
        answer: Brief,
        head: Head,
        xbuf: XbufId,
        way: Way,
        written: &[u8],
    )
        requires room { 1 ≤ self.old.room }
        requires few { length self.old.entries < entry_limit }
        requires written { length written.now ≤ transfer_limit }
        ensures entry { self.new.entries ≡ self.old.entries ++ entry head (Call.BeginWrite xbuf way (transfer written.now) None) (told answer) ∷ [] }
        ensures room { self.old.room ≤ self.new.room + 1 }
    {
        let start = append(&mut self.bytes, written);
        let long = written.len() as u16;
        self.rows
            .push_reserved(Row::BeginWrite(answer, head, xbuf, way, long, start));
    }

    // Enters a read that answered these bytes.
    pub(super) fn push_read(&mut self, head: Head, xbuf: XbufId, way: Way, len: u16, read: &[u8])
        requires room { 1 ≤ self.old.room }
        requires few { length self.old.entries < entry_limit }
        requires read { length read.now ≤ transfer_limit }
        ensures entry { self.new.entries ≡ self.old.entries ++ entry head (Call.Read xbuf way len) (Ok (Reply.Bytes (transfer read.now))) ∷ [] }
        ensures room { self.old.room ≤ self.new.room + 1 }
    {
        let start = append(&mut self.bytes, read);
        let long = read.len() as u16;
        self.rows
            .push_reserved(Row::ReadBytes(head, way, xbuf, len, long, start));
    }

    // Enters the end of a wait that answered these bytes.
    pub(super) fn push_finish(&mut self, head: Head, keep: bool, read: &[u8])
        requires room { 1 ≤ self.old.room }
        requires few { length self.old.entries < entry_limit }
        requires read { length read.now ≤ transfer_limit }
        ensures entry { self.new.entries ≡ self.old.entries ++ entry head (Call.Finish keep) (Ok (Reply.Bytes (transfer read.now))) ∷ [] }
        ensures room { self.old.room ≤ self.new.room + 1 }
    {
        let start = append(&mut self.bytes, read);
        let long = read.len() as u16;
        self.rows
            .push_reserved(Row::FinishBytes(head, keep, long, start));
    }
}

// Adds bytes after all others, and says where they begin.
#[inline(always)]
pub(super) fn append<A: Allocator>(bytes: &mut Vec<u8, A>, more: &[u8]) -> u32
    requires more { length more.now ≤ transfer_limit }
    requires room { vec_len bytes.old + transfer_limit ≤ vec_capacity bytes.old }
    requires few { vec_len bytes.old < 4294967296 }
    ensures bytes { bytes.new.items ≡ bytes.old.items ++ more.now }
    ensures start { result ≡ vec_len bytes.old }
    ensures len { vec_len bytes.new ≡ vec_len bytes.old + length more.now }
    ensures room { vec_capacity bytes.old ≤ vec_capacity bytes.new }
{
    let start = bytes.len() as u32;
    let _ = bytes.extend_from_slice(more);
    start
}
