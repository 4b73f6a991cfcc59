//! Texts, numbers and names.
use crate::rows::cases;
use evl_base::{
    Call, FlagId, LineNo, MutexId, Play, Policy, Refusal, Reply, SemId, Spares, Stage, Take,
    ThreadId, TimerId, Transfer, Way, XbufId, put_call, put_play, put_reply,
};
use std::alloc::Global;

const RACED: Refusal = Refusal::Raced {
    first: 0,
    second: 1,
};

fn reply_text(alloc: Global, outcome: &Result<Reply, Refusal>) -> Result<Vec<u8>, Refusal> {
    let mut text = Vec::new(alloc);
    put_reply(&mut text, outcome)?;
    Ok(text)
}

fn play_text(alloc: Global, play: Play) -> Result<Vec<u8>, Refusal> {
    let mut text = Vec::new(alloc);
    put_play(&mut text, play)?;
    Ok(text)
}

// The texts of these calls, one after another.
fn call_texts(alloc: Global, calls: &[Call]) -> Result<Vec<u8>, Refusal> {
    let mut text = Vec::new(alloc);
    for call in calls {
        put_call(&mut text, call)?;
    }
    Ok(text)
}

// Whether this text was written, and is the one that is wanted.
fn is_text(written: Result<Vec<u8>, Refusal>, wanted: &str) -> bool {
    match written {
        Ok(text) => text.as_slice() == wanted.as_bytes(),
        Err(_) => false,
    }
}

#[test]
fn calls_are_appended(rt: HostRuntime) {
    let calls = [
        Call::TryGet { sem: SemId(0) },
        Call::Put { sem: SemId(63) },
        Call::Peek { sem: SemId(65535) },
    ];
    let wanted = "try_get sem=0put sem=63peek sem=65535";
    assert!(rt; is_text(call_texts(rt.alloc(), &calls), wanted));
}

#[test]
fn waits_have_their_texts(rt: HostRuntime) {
    let sem = SemId(1);
    let calls = cases![
        Call::BeginGet { sem, until: None } => "begin_get sem=1 until=none";
        Call::BeginGet { sem, until: Some(u64::MAX) } => "begin_get sem=1 until=18446744073709551615";
        Call::Finish { keep: false } => "finish keep=false";
    ];
    for (call, wanted) in &calls {
        assert!(rt; is_call_copied(rt.alloc(), call, wanted));
    }
}

#[test]
fn flag_calls_have_their_texts(rt: HostRuntime) {
    let flags = FlagId(63);
    let calls = cases![
        Call::TryTake { flags, kind: Take::Of(4_294_967_295) } => "try_take flags=63 kind=of 4294967295";
        Call::PostFlags { flags, bits: 6 } => "post_flags flags=63 bits=6";
        Call::PeekFlags { flags } => "peek_flags flags=63";
        Call::BeginTake { flags, kind: Take::Any, until: Some(9) } => "begin_take flags=63 kind=any until=9";
    ];
    for (call, wanted) in &calls {
        assert!(rt; is_call_copied(rt.alloc(), call, wanted));
    }
}

#[test]
fn mutex_calls_have_their_texts(rt: HostRuntime) {
    let mutex = MutexId(31);
    let (none, most) = (MutexId(0), MutexId(65535));
    let calls = cases![
        Call::Claim { mutex, owner: ThreadId(63), until: None } => "claim mutex=31 owner=63 until=none";
        Call::Claim { mutex: none, owner: ThreadId(65535), until: Some(100) } => "claim mutex=0 owner=65535 until=100";
        Call::Release { mutex } => "release mutex=31";
        Call::Raise { mutex: most } => "raise mutex=65535";
    ];
    for (call, wanted) in &calls {
        assert!(rt; is_call_copied(rt.alloc(), call, wanted));
    }
}

// Three bytes and none, in boxes that were kept.
fn two_transfers(alloc: Global) -> Result<(Transfer, Transfer), Refusal> {
    let mut spares = Spares::new(alloc, alloc);
    spares.keep(2)?;
    let three = spares.take(&[0x61, 0x0a, 0xff]);
    Ok((three, spares.take(&[])))
}

// The text of a call that was copied.
fn copied_call_text(alloc: Global, call: &Call) -> Result<Vec<u8>, Refusal> {
    let mut spares = Spares::new(alloc, alloc);
    spares.keep(1)?;
    let copy = call.copied(&mut spares);
    let mut text = Vec::new(alloc);
    put_call(&mut text, &copy)?;
    Ok(text)
}

// Whether a call that was copied has this text.
fn is_call_copied(alloc: Global, call: &Call, wanted: &str) -> bool {
    is_text(copied_call_text(alloc, call), wanted)
}

// The text of a reply that was copied.
fn copied_reply_text(alloc: Global, reply: &Reply) -> Result<Vec<u8>, Refusal> {
    let mut spares = Spares::new(alloc, alloc);
    spares.keep(1)?;
    let copy = Ok(reply.copied(&mut spares));
    reply_text(alloc, &copy)
}

#[test]
fn buffer_calls_have_their_texts(rt: HostRuntime) {
    let (bytes, _) = two_transfers(rt.alloc()).ok().expect(&rt, "boxes");
    let xbuf = XbufId(15);
    let calls = cases![
        Call::Write { xbuf, way: Way::In, bytes } => "write xbuf=15 way=in bytes=610aff";
        Call::Read { xbuf, way: Way::Out, len: 257 } => "read xbuf=15 way=out len=257";
        Call::Room { xbuf, way: Way::In } => "room xbuf=15 way=in";
    ];
    for (call, wanted) in &calls {
        assert!(rt; is_call_copied(rt.alloc(), call, wanted));
    }
}

#[test]
fn buffer_waits_have_their_texts(rt: HostRuntime) {
    let (_, bytes) = two_transfers(rt.alloc()).ok().expect(&rt, "boxes");
    let xbuf = XbufId(15);
    let calls = cases![
        Call::BeginWrite { xbuf, way: Way::Out, bytes, until: None } => "begin_write xbuf=15 way=out bytes=- until=none";
        Call::BeginRead { xbuf, way: Way::In, len: 0, until: Some(5) } => "begin_read xbuf=15 way=in len=0 until=5";
    ];
    for (call, wanted) in &calls {
        assert!(rt; is_call_copied(rt.alloc(), call, wanted));
    }
}

#[test]
fn bytes_are_copied(rt: HostRuntime) {
    let (three, _) = two_transfers(rt.alloc()).ok().expect(&rt, "boxes");
    let reply = Reply::Bytes(three);
    assert!(rt; is_text(copied_reply_text(rt.alloc(), &reply), "bytes 610aff"));
}

#[test]
fn replies_have_their_texts(rt: HostRuntime) {
    let (three, none) = two_transfers(rt.alloc()).ok().expect(&rt, "boxes");
    let cases = cases![
        Ok(Reply::Done) => "done"; Ok(Reply::Begun) => "begun"; Ok(Reply::Count(-2)) => "count -2";
        Ok(Reply::Bits(4_294_967_295)) => "bits 4294967295"; Ok(Reply::Number(540)) => "number 540";
        Ok(Reply::Bytes(three)) => "bytes 610aff"; Ok(Reply::Bytes(none)) => "bytes -";
        Ok(Reply::Chosen(None)) => "thread none"; Ok(Reply::Chosen(Some(ThreadId(63)))) => "thread 63";
        Ok(Reply::TimedOut) => "timed out"; Err(RACED) => "Raced";
    ];
    for (outcome, wanted) in &cases {
        assert!(rt; is_text(reply_text(rt.alloc(), outcome), wanted));
    }
}

#[test]
fn handed_mutexes_have_their_texts(rt: HostRuntime) {
    let cases = cases![
        Ok(Reply::Handed { next: Some(ThreadId(3)), more: true }) => "next 3 more";
        Ok(Reply::Handed { next: Some(ThreadId(0)), more: false }) => "next 0";
        Ok(Reply::Handed { next: None, more: true }) => "next none";
    ];
    for (outcome, wanted) in &cases {
        assert!(rt; is_text(reply_text(rt.alloc(), outcome), wanted));
    }
}

#[test]
fn plays_have_their_texts(rt: HostRuntime) {
    let (line, timer, thread, stage) = (LineNo(4), TimerId(0), ThreadId(2), Stage::Oob);
    let plays = cases![
        Play::Line { line, stage, count: 65, handled: true } => "line 4 oob count 65 handled";
        Play::Timer { timer, count: 1, missed: 3, handled: false } => "timer 0 count 1 missed 3 none";
        Play::Clock => "clock"; Play::Deadline { thread } => "deadline T2";
    ];
    for (play, wanted) in plays {
        assert!(rt; is_text(play_text(rt.alloc(), play), wanted));
    }
}

#[test]
fn refusals_have_their_numbers_and_names(rt: HostRuntime) {
    let table = cases![
        Refusal::NoMemory => "NoMemory"; Refusal::HistoryFull => "HistoryFull"; Refusal::CoreBusy => "CoreBusy";
        Refusal::Unknown => "Unknown"; Refusal::Invalid => "Invalid"; Refusal::Again => "Again"; Refusal::Busy => "Busy";
        Refusal::NotOwner => "NotOwner"; Refusal::Deadlock => "Deadlock"; Refusal::Limit => "Limit";
        Refusal::Range => "Range"; Refusal::TooBig => "TooBig"; Refusal::WrongStage => "WrongStage";
        Refusal::HoldsStax => "HoldsStax"; RACED => "Raced";
    ];
    let mut number = 0u16;
    for (refusal, name) in table {
        number = number.saturating_add(1);
        assert!(rt; refusal.number() == number && refusal.name() == name);
        assert!(rt; is_numbered(number, name));
    }
    assert!(rt; Refusal::numbered(0).is_none() && Refusal::numbered(16).is_none());
}

// Whether the refusal with this number has this name.
fn is_numbered(number: u16, name: &str) -> bool {
    match Refusal::numbered(number) {
        Some(refusal) => refusal.number() == number && refusal.name() == name,
        None => false,
    }
}

// Whether a value is shown so.
fn is_shown<T: ToString>(alloc: Global, value: &T, wanted: &str) -> bool {
    match value.to_string(alloc) {
        Ok(text) => text.as_str() == wanted,
        Err(_) => false,
    }
}

#[test]
fn policies_have_their_texts(rt: HostRuntime) {
    let policies = cases![
        Policy::Fifo(99) => "fifo 99"; Policy::Rr { prio: 10, slice: 100 } => "rr 10 100";
        Policy::Quota { group: 0, prio: 5 } => "quota 0 5"; Policy::Weak(0) => "weak 0";
    ];
    for (policy, wanted) in policies {
        assert!(rt; is_shown(rt.alloc(), &policy, wanted));
    }
}

#[test]
fn takes_and_ways_have_their_texts(rt: HostRuntime) {
    for (
        take,
        wanted,
    ) in cases![Take::Any => "any"; Take::Of(1) => "of 1"; Take::Exact(6) => "exact 6";] {
        assert!(rt; is_shown(rt.alloc(), &take, wanted));
    }
    for (way, wanted) in [(Way::In, "in"), (Way::Out, "out")] {
        assert!(rt; is_shown(rt.alloc(), &way, wanted));
    }
}
