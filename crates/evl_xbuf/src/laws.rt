//! Laws of one way of a cross-buffer. Each is the contract of a function without a body.
ghost use Rattle.evl_xbuf.specs.Arrivals.{ServicesGoByArrival};
ghost use Rattle.evl_xbuf.specs.Flows.{ReadsFollowWrites};

/// Whatever is called on one way, from an empty ring on: all bytes that were accepted so far, in order, are those that
/// were read so far, in order, and after them those that are there. So a read gives the next part of what was written
/// (Xenomai 4: EVL cross-buffer).
pub fn reads_follow_writes()
    ensures { ReadsFollowWrites }
{}

/// Those whom a change serves stood first in their queues, in that order, and the others stand as they stood.
pub fn services_go_by_arrival()
    ensures { ServicesGoByArrival }
{}
