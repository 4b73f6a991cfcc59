//! Threads that wait, are served in turn, or stop waiting.
ghost use Rattle.std.specs.Prelude.{◌≡◌};
ghost use Rattle.evl_xbuf.specs.Xbufs.{opened_xbuf};

use evl_base::{Refusal, Stage, ThreadId, Way};
use evl_xbuf::{Service, Services, XbufOf};
use linked_list_allocator::LocalHeap;
use std::alloc::Allocator;

const ONE: ThreadId = ThreadId(1);

const TWO: ThreadId = ThreadId(2);

const THREE: ThreadId = ThreadId(3);

// Whether a thread read these bytes.
fn is_got(service: Option<Service<'_>>, thread: ThreadId, wanted: &[u8]) -> bool {
    match service {
        Some(Service::Got(reader, bytes)) => reader == thread && bytes == wanted,
        _ => false,
    }
}

// Whether two readers were served, with two bytes and with one.
fn are_shares(served: &Services) -> bool {
    served.len() == 2
        && is_got(served.get(0), TWO, b"ab")
        && is_got(served.get(1), ONE, b"c")
        && served.get(2).is_none()
}

// Whether three readers wait, and two of them share a write.
fn is_shared<A: Allocator>(xbuf: &mut XbufOf<A>) -> bool
    requires { xbuf.old ≡ opened_xbuf 8 4 }
{
    let Ok(None) = xbuf.begin_read(TWO, Stage::Oob, Way::In, 2) else {
        return false;
    };
    let Ok(None) = xbuf.begin_read(ONE, Stage::Oob, Way::In, 9) else {
        return false;
    };
    let Ok(None) = xbuf.begin_read(THREE, Stage::Oob, Way::In, 1) else {
        return false;
    };
    match xbuf.try_write(Stage::Inband, Way::In, b"abc") {
        Ok(served) => are_shares(&served),
        Err(_) => false,
    }
}

#[test]
fn readers_share_a_write(rt: HostRuntime) {
    let shared = match XbufOf::new(rt.alloc(), 8, 4) {
        Ok(mut xbuf) => is_shared(&mut xbuf),
        Err(_) => false,
    };
    assert!(rt; shared);
}

// Whether one writer was served, and it is this one.
fn is_written(served: &Services, thread: ThreadId) -> bool {
    let wrote = matches!(served.get(0), Some(Service::Wrote(writer)) if writer == thread);
    wrote && served.len() == 1
}

// Whether these are the bytes that were written.
fn is_read<A: Allocator>(xbuf: &mut XbufOf<A>, wanted: &[u8]) -> bool {
    match xbuf.try_read(Stage::Inband, Way::Out, 256) {
        Ok((bytes, _)) => bytes.as_slice() == wanted,
        Err(_) => false,
    }
}

// Whether a writer that waits no more lets the next one in.
fn lets_in<A: Allocator>(xbuf: &mut XbufOf<A>) -> bool
    requires { xbuf.old ≡ opened_xbuf 1 4 }
{
    let Ok(_) = xbuf.try_write(Stage::Oob, Way::Out, b"a") else {
        return false;
    };
    let Ok(None) = xbuf.begin_write(ONE, Stage::Oob, Way::Out, b"bcde") else {
        return false;
    };
    let Ok(None) = xbuf.begin_write(TWO, Stage::Oob, Way::Out, b"f") else {
        return false;
    };
    let nobody = xbuf.drop_waiter(THREE, Way::Out).len() == 0;
    let served = xbuf.drop_waiter(ONE, Way::Out);
    nobody && is_written(&served, TWO) && is_read(xbuf, b"af")
}

// Whether a writer that waits no more lets the next one in, of a new cross-buffer.
fn new_lets_in<A: Allocator + Clone>(alloc: A) -> bool {
    match XbufOf::new(alloc, 1, 4) {
        Ok(mut xbuf) => lets_in(&mut xbuf),
        Err(_) => false,
    }
}

#[test]
fn a_dropped_writer_lets_others_in(rt: HostRuntime) {
    let heap = LocalHeap::new(rt.alloc(), 262144).expect(&rt, "heap");
    assert!(rt; new_lets_in(&heap));
}

// Whether a cross-buffer is refused for want of memory.
fn is_refused<A: Allocator + Clone>(alloc: A) -> bool {
    matches!(XbufOf::new(alloc, 4, 4), Err(Refusal::NoMemory))
}

#[test]
fn a_short_heap_is_refused(rt: HostRuntime) {
    let heap = LocalHeap::new(rt.alloc(), 4096).expect(&rt, "heap");
    assert!(rt; is_refused(&heap));
}
