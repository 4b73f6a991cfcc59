//! The rows of calls.
ghost use Rattle.std.specs.Prelude.{◌≡◌, IfSome, Ok};
ghost use Rattle.evl_history.specs.Rows.{Codes, entry, told};

use crate::row::{Brief, Head, Row};
use evl_base::{Call, Reply, ThreadId};

/// The caller that made a call, and how many plays it made; none where either is above 255.
#[inline(always)]
pub(crate) fn head(caller: ThreadId, plays: usize) -> Option<Head>
    ensures caller { IfSome result (λ head. head.caller ≡ caller.0) }
    ensures plays { IfSome result (λ head. head.plays ≡ plays) }
{
    if caller.0 > 255 || plays > 255 {
        return None;
    }
    Some(Head {
        caller: caller.0 as u8,
        plays: plays as u8,
    })
}

/// The row of a call without bytes whose answer has no number; none where it has no row.
#[inline(always)]
pub(crate) fn brief_row(answer: Brief, head: Head, call: &Call) -> Option<Row>
    ensures row { IfSome result (λ row. Codes row (entry head call.now (told answer))) }
{
    let row = match call {
        Call::Arrive { line } => Row::Arrive(answer, head, *line),
        Call::Tick { delta } => Row::Tick(answer, head, *delta),
        Call::SetStage { stage } => Row::SetStage(answer, head, *stage),
        Call::Pick => Row::Pick(answer, head),
        Call::TryGet { sem } => Row::TryGet(answer, head, *sem),
        Call::Put { sem } => Row::Put(answer, head, *sem),
        Call::PostFlags { flags, bits } => Row::PostFlags(answer, head, *flags, *bits),
        Call::Release { mutex } => Row::Release(answer, head, *mutex),
        Call::Finish { keep } => Row::Finish(answer, head, *keep),
        Call::BeginGet { .. }
        | Call::BeginTake { .. }
        | Call::BeginRead { .. }
        | Call::Claim { .. } => return wait_row(answer, head, call),
        _ => return rarer_row(answer, head, call),
    };
    Some(row)
}

// As `brief_row`, of the beginning of a wait.
#[inline(always)]
fn wait_row(answer: Brief, head: Head, call: &Call) -> Option<Row>
    ensures row { IfSome result (λ row. Codes row (entry head call.now (told answer))) }
{
    match call {
        Call::BeginGet { sem, until: None } => Some(Row::BeginGet(answer, head, *sem)),
        Call::BeginGet {
            sem,
            until: Some(date),
        } => Some(Row::BeginGetUntil(answer, head, *sem, *date)),
        Call::BeginTake {
            flags,
            kind,
            until: None,
        } => Some(Row::BeginTake(answer, head, *flags, *kind)),
        Call::BeginRead {
            xbuf,
            way,
            len,
            until: None,
        } => Some(Row::BeginRead(answer, head, *xbuf, *way, *len)),
        Call::Claim {
            mutex,
            owner,
            until: None,
        } => Some(Row::Claim(answer, head, *mutex, *owner)),
        Call::Claim {
            mutex,
            owner,
            until: Some(date),
        } => Some(Row::ClaimUntil(answer, head, *mutex, *owner, *date)),
        _ => None,
    }
}

// As `brief_row`, of the rarer calls.
#[inline(never)]
fn rarer_row(answer: Brief, head: Head, call: &Call) -> Option<Row>
    ensures row { IfSome result (λ row. Codes row (entry head call.now (told answer))) }
{
    match call {
        Call::Free { line, stage } => Some(Row::Free(answer, head, *line, *stage)),
        Call::Post { stage, line } => Some(Row::Post(answer, head, *line, *stage)),
        Call::Stall { stage } => Some(Row::Stall(answer, head, *stage)),
        Call::Unstall { stage } => Some(Row::Unstall(answer, head, *stage)),
        Call::StopTimer { timer } => Some(Row::StopTimer(answer, head, *timer)),
        Call::Detach => Some(Row::Detach(answer, head)),
        Call::RankOf { thread } => Some(Row::RankOf(answer, head, *thread)),
        Call::TryTake { flags, kind } => Some(Row::TryTake(answer, head, *flags, *kind)),
        Call::Read { xbuf, way, len } => Some(Row::Read(answer, head, *xbuf, *way, *len)),
        Call::Raise { mutex } => Some(Row::Raise(answer, head, *mutex)),
        _ => None,
    }
}

/// The row of a call with a number, bits or a thread as its answer; none where it has no row.
pub(crate) fn number_row(head: Head, call: &Call, reply: &Reply) -> Option<Row>
    ensures row { IfSome result (λ row. Codes row (entry head call.now (Ok reply.now))) }
{
    match (call, reply) {
        (Call::Now, Reply::Number(date)) => Some(Row::Date(head, *date)),
        (Call::Pick, Reply::Chosen(Some(thread))) => Some(Row::Picked(head, *thread)),
        (Call::RankOf { thread }, Reply::Number(rank)) => Some(Row::Rank(head, *thread, *rank)),
        (Call::Peek { sem }, Reply::Count(count)) => Some(Row::Count(head, *sem, *count)),
        (Call::PeekFlags { flags }, Reply::Bits(bits)) => Some(Row::Bits(head, *flags, *bits)),
        (Call::Room { xbuf, way }, Reply::Number(free)) => {
            Some(Row::Room(head, *way, *xbuf, *free))
        }
        (Call::Finish { keep }, Reply::Bits(bits)) => Some(Row::FinishBits(head, *keep, *bits)),
        (
            Call::Release { mutex },
            Reply::Handed {
                next: Some(next),
                more,
            },
        ) => Some(Row::HandedOn(head, *mutex, *next, *more)),
        _ => None,
    }
}
