//! The entries of rows.
ghost use Rattle.std.specs.Prelude.{ℕ, ◌≡◌, ◌<◌, List, length, IfErr, IfOk, None, Ok, true};
ghost use Rattle.evl_base.specs.Call.{boxes_in_call};
ghost use Rattle.evl_base.specs.Reply.{boxes_in};
ghost use Rattle.evl_history.specs.Rows.{IsThere, IsWithin, answering, decode, entry, has_number, is_late, is_short, span, told, wide_at};

use crate::answers::told;
use crate::row::{Brief, Head, Row};
use evl_base::{
    Call, Entry, MutexId, Refusal, Reply, SemId, Spares, ThreadId, Transfer, Way, XbufId,
};
use std::alloc::Global;

/// The entry of a row, its bytes in boxes of their own. `NoMemory` where one was refused.
pub(crate) fn entry_of(
    boxes: Global,
    wide: &[Entry],
    bytes: &[u8],
    row: Row,
) -> Result<Entry, Refusal>
    requires within { IsWithin wide.now bytes.now row }
    ensures entry { IfOk result (λ read. read ≡ decode wide.now bytes.now row) }
    ensures refusal { IfErr result (λ e. e ≡ Refusal.NoMemory) }
{
    match row {
        Row::Wide(place) => copied(boxes, wide, place),
        Row::WideBytes(long, place, start) => {
            let read = span(boxes, bytes, start, long)?;
            Ok(answering(read, copied(boxes, wide, place)?))
        }
        Row::Write(answer, head, xbuf, way, long, start) => {
            let bytes = span(boxes, bytes, start, long)?;
            Ok(made(answer, head, Call::Write { xbuf, way, bytes }))
        }
        Row::BeginWrite(answer, head, xbuf, way, long, start) => {
            let bytes = span(boxes, bytes, start, long)?;
            Ok(begun_write(answer, head, xbuf, way, bytes))
        }
        Row::ReadBytes(head, way, xbuf, len, long, start) => {
            let read = span(boxes, bytes, start, long)?;
            Ok(numbered(head, Call::Read { xbuf, way, len }, Reply::Bytes(read)))
        }
        Row::FinishBytes(head, keep, long, start) => {
            let read = span(boxes, bytes, start, long)?;
            Ok(numbered(head, Call::Finish { keep }, Reply::Bytes(read)))
        }
        _ => Ok(short_entry(row)),
    }
}

// An entry of the one that a head names, with its number of plays.
fn entry(head: Head, call: Call, reply: Result<Reply, Refusal>) -> Entry
    ensures same { result ≡ entry head call reply }
{
    Entry {
        caller: ThreadId(u16::from(head.caller)),
        call,
        reply,
        plays: usize::from(head.plays),
    }
}

// The same with an answer without a number.
fn made(answer: Brief, head: Head, call: Call) -> Entry
    ensures same { result ≡ entry head call (told answer) }
{
    entry(head, call, told(answer))
}

// The same with any other answer.
fn numbered(head: Head, call: Call, reply: Reply) -> Entry
    ensures same { result ≡ entry head call (Ok reply) }
{
    entry(head, call, Ok(reply))
}

fn begun_get(answer: Brief, head: Head, sem: SemId, until: Option<u64>) -> Entry
    ensures same { result ≡ entry head (Call.BeginGet sem until) (told answer) }
{
    made(answer, head, Call::BeginGet { sem, until })
}

fn begun_write(answer: Brief, head: Head, xbuf: XbufId, way: Way, bytes: Transfer) -> Entry
    ensures same { result ≡ entry head (Call.BeginWrite xbuf way bytes None) (told answer) }
{
    let call = Call::BeginWrite {
        xbuf,
        way,
        bytes,
        until: None,
    };
    made(answer, head, call)
}

fn begun_read(answer: Brief, head: Head, xbuf: XbufId, way: Way, len: u16) -> Entry
    ensures same { result ≡ entry head (Call.BeginRead xbuf way len None) (told answer) }
{
    let call = Call::BeginRead {
        xbuf,
        way,
        len,
        until: None,
    };
    made(answer, head, call)
}

fn claimed(answer: Brief, head: Head, mutex: MutexId, owner: ThreadId, until: Option<u64>) -> Entry
    ensures same { result ≡ entry head (Call.Claim mutex owner until) (told answer) }
{
    let call = Call::Claim {
        mutex,
        owner,
        until,
    };
    made(answer, head, call)
}

// An entry with these bytes in the place of its answer.
fn answering(read: Transfer, entry: Entry) -> Entry
    ensures same { result ≡ answering read entry }
{
    Entry {
        caller: entry.caller,
        call: entry.call,
        reply: Ok(Reply::Bytes(read)),
        plays: entry.plays,
    }
}

// So many bytes from a place on, in a box of their own. `NoMemory` where that was refused.
fn span(boxes: Global, bytes: &[u8], start: u32, long: u16) -> Result<Transfer, Refusal>
    requires there { IsThere bytes.now start long }
    ensures bytes { IfOk result (λ read. read ≡ span bytes.now start long) }
    ensures refusal { IfErr result (λ e. e ≡ Refusal.NoMemory) }
{
    let start = start as usize;
    let end = start + long as usize;
    let there = &bytes[start..end];
    Transfer::of(boxes, there)
}

// The entry at a place of the wide list once more. `NoMemory` where a box was refused.
fn copied(boxes: Global, wide: &[Entry], place: u32) -> Result<Entry, Refusal>
    requires there { place < length wide.now }
    ensures entry { IfOk result (λ same. same ≡ wide_at wide.now place) }
    ensures refusal { IfErr result (λ e. e ≡ Refusal.NoMemory) }
{
    let found = &wide[place as usize];
    let call = copied_call(boxes, &found.call)?;
    let reply = copied_reply(boxes, &found.reply)?;
    Ok(Entry {
        caller: found.caller,
        call,
        reply,
        plays: found.plays,
    })
}

fn copied_call(boxes: Global, call: &Call) -> Result<Call, Refusal>
    ensures same { IfOk result (λ same. same ≡ call.now) }
    ensures refusal { IfErr result (λ e. e ≡ Refusal.NoMemory) }
{
    let mut spares = Spares::new(boxes, boxes);
    match spares.keep(1) {
        Ok(()) => Ok(call.copied(&mut spares)),
        Err(refusal) => Err(refusal),
    }
}

fn copied_reply(
    boxes: Global,
    reply: &Result<Reply, Refusal>,
) -> Result<Result<Reply, Refusal>, Refusal>
    ensures same { IfOk result (λ same. same ≡ reply.now) }
    ensures refusal { IfErr result (λ e. e ≡ Refusal.NoMemory) }
{
    let reply = match reply {
        Ok(reply) => reply,
        Err(refusal) => return Ok(Err(*refusal)),
    };
    let mut spares = Spares::new(boxes, boxes);
    match spares.keep(1) {
        Ok(()) => Ok(Ok(reply.copied(&mut spares))),
        Err(refusal) => Err(refusal),
    }
}

// The entry of a row that has all of it.
fn short_entry(row: Row) -> Entry
    ensures entry { is_short row ≡ true → (wide : List Entry) → (bytes : List ℕ) → result ≡ decode wide bytes row }
{
    match row {
        Row::Free(answer, head, line, stage) => made(answer, head, Call::Free { line, stage }),
        Row::Arrive(answer, head, line) => made(answer, head, Call::Arrive { line }),
        Row::Post(answer, head, line, stage) => made(answer, head, Call::Post { stage, line }),
        Row::Stall(answer, head, stage) => made(answer, head, Call::Stall { stage }),
        Row::Unstall(answer, head, stage) => made(answer, head, Call::Unstall { stage }),
        Row::Tick(answer, head, delta) => made(answer, head, Call::Tick { delta }),
        Row::StopTimer(answer, head, timer) => made(answer, head, Call::StopTimer { timer }),
        Row::Detach(answer, head) => made(answer, head, Call::Detach),
        Row::SetStage(answer, head, stage) => made(answer, head, Call::SetStage { stage }),
        Row::Pick(answer, head) => made(answer, head, Call::Pick),
        Row::RankOf(answer, head, thread) => made(answer, head, Call::RankOf { thread }),
        Row::TryGet(answer, head, sem) => made(answer, head, Call::TryGet { sem }),
        Row::Put(answer, head, sem) => made(answer, head, Call::Put { sem }),
        Row::TryTake(answer, head, flags, kind) => made(
            answer,
            head,
            Call::TryTake { flags, kind },
        ),
        Row::PostFlags(answer, head, flags, bits) => made(
            answer,
            head,
            Call::PostFlags { flags, bits },
        ),
        Row::Read(answer, head, xbuf, way, len) => made(
            answer,
            head,
            Call::Read { xbuf, way, len },
        ),
        Row::Release(answer, head, mutex) => made(answer, head, Call::Release { mutex }),
        Row::Raise(answer, head, mutex) => made(answer, head, Call::Raise { mutex }),
        Row::Finish(answer, head, keep) => made(answer, head, Call::Finish { keep }),
        _ => wait_entry(row),
    }
}

// As `short_entry`, of the beginning of a wait.
fn wait_entry(row: Row) -> Entry
    ensures entry { is_late row ≡ true → (wide : List Entry) → (bytes : List ℕ) → result ≡ decode wide bytes row }
{
    match row {
        Row::BeginGet(answer, head, sem) => begun_get(answer, head, sem, None),
        Row::BeginGetUntil(answer, head, sem, date) => begun_get(answer, head, sem, Some(date)),
        Row::BeginTake(answer, head, flags, kind) => {
            let until = None;
            made(answer, head, Call::BeginTake { flags, kind, until })
        }
        Row::BeginRead(answer, head, xbuf, way, len) => begun_read(answer, head, xbuf, way, len),
        Row::Claim(answer, head, mutex, owner) => claimed(answer, head, mutex, owner, None),
        Row::ClaimUntil(answer, head, mutex, owner, date) => {
            claimed(answer, head, mutex, owner, Some(date))
        }
        _ => number_entry(row),
    }
}

// As `short_entry`, of a row with a number, bits or a thread as its answer.
fn number_entry(row: Row) -> Entry
    ensures entry { has_number row ≡ true → (wide : List Entry) → (bytes : List ℕ) → result ≡ decode wide bytes row }
{
    match row {
        Row::Date(head, date) => numbered(head, Call::Now, Reply::Number(date)),
        Row::Picked(head, thread) => numbered(head, Call::Pick, Reply::Chosen(Some(thread))),
        Row::Rank(head, thread, rank) => numbered(
            head,
            Call::RankOf { thread },
            Reply::Number(rank),
        ),
        Row::Count(head, sem, count) => numbered(head, Call::Peek { sem }, Reply::Count(count)),
        Row::Bits(head, flags, bits) => numbered(
            head,
            Call::PeekFlags { flags },
            Reply::Bits(bits),
        ),
        Row::Room(head, way, xbuf, free) => numbered(
            head,
            Call::Room { xbuf, way },
            Reply::Number(free),
        ),
        Row::HandedOn(head, mutex, next, more) => numbered(
            head,
            Call::Release { mutex },
            Reply::Handed {
                next: Some(next),
                more,
            },
        ),
        Row::FinishBits(head, keep, bits) => numbered(
            head,
            Call::Finish { keep },
            Reply::Bits(bits),
        ),
        _ => nothing(),
    }
}

// The entry where there is none.
fn nothing() -> Entry {
    Entry {
        caller: ThreadId(0),
        call: Call::Now,
        reply: Ok(Reply::Done),
        plays: 0,
    }
}
