//! Answers without a number, in a byte.
ghost use Rattle.std.specs.Prelude.{◌≡◌, IfSome, Ok, Err, false};
ghost use Rattle.evl_history.specs.Rows.{has_bytes, told};

use crate::row::Brief;
use evl_base::{Refusal, Reply};

/// An answer that has no number, in a byte; none where it has one.
#[inline(always)]
pub(crate) fn brief(reply: &Result<Reply, Refusal>) -> Option<Brief>
    ensures same { IfSome result (λ answer. told answer ≡ reply.now) }
{
    match reply {
        Ok(reply) => brief_reply(reply),
        Err(refusal) => brief_refusal(*refusal),
    }
}

#[inline(always)]
fn brief_reply(reply: &Reply) -> Option<Brief>
    ensures same { IfSome result (λ answer. told answer ≡ Ok reply.now) }
{
    match reply {
        Reply::Done => Some(Brief::Done),
        Reply::Begun => Some(Brief::Begun),
        Reply::TimedOut => Some(Brief::TimedOut),
        Reply::Chosen(None) => Some(Brief::NobodyChosen),
        Reply::Handed {
            next: None,
            more: false,
        } => Some(Brief::NobodyNext),
        _ => None,
    }
}

#[inline(always)]
fn brief_refusal(refusal: Refusal) -> Option<Brief>
    ensures same { IfSome result (λ answer. told answer ≡ Err refusal) }
{
    match refusal {
        Refusal::Unknown => Some(Brief::Unknown),
        Refusal::Invalid => Some(Brief::Invalid),
        Refusal::Again => Some(Brief::Again),
        Refusal::Busy => Some(Brief::Busy),
        Refusal::NotOwner => Some(Brief::NotOwner),
        Refusal::Deadlock => Some(Brief::Deadlock),
        Refusal::Limit => Some(Brief::Limit),
        Refusal::Range => Some(Brief::Range),
        Refusal::TooBig => Some(Brief::TooBig),
        Refusal::WrongStage => Some(Brief::WrongStage),
        _ => None,
    }
}

/// The answer that a byte holds.
pub(crate) fn told(answer: Brief) -> Result<Reply, Refusal>
    ensures same { result ≡ told answer }
{
    match answer {
        Brief::Done => Ok(Reply::Done),
        Brief::Begun => Ok(Reply::Begun),
        Brief::TimedOut => Ok(Reply::TimedOut),
        Brief::NobodyChosen => Ok(Reply::Chosen(None)),
        Brief::NobodyNext => Ok(Reply::Handed {
            next: None,
            more: false,
        }),
        Brief::Unknown => Err(Refusal::Unknown),
        Brief::Invalid => Err(Refusal::Invalid),
        Brief::Again => Err(Refusal::Again),
        Brief::Busy => Err(Refusal::Busy),
        Brief::NotOwner => Err(Refusal::NotOwner),
        Brief::Deadlock => Err(Refusal::Deadlock),
        Brief::Limit => Err(Refusal::Limit),
        Brief::Range => Err(Refusal::Range),
        Brief::TooBig => Err(Refusal::TooBig),
        Brief::WrongStage => Err(Refusal::WrongStage),
    }
}

/// The same answer once more, `Done` in the place of bytes.
pub(crate) fn bare_reply(reply: &Reply) -> Reply
    ensures same { has_bytes reply.now ≡ false → result ≡ reply.now }
{
    match reply {
        Reply::Done | Reply::Bytes(_) => Reply::Done,
        Reply::Begun => Reply::Begun,
        Reply::Count(count) => Reply::Count(*count),
        Reply::Bits(bits) => Reply::Bits(*bits),
        Reply::Number(number) => Reply::Number(*number),
        Reply::Chosen(thread) => Reply::Chosen(*thread),
        Reply::Handed { next, more } => Reply::Handed {
            next: *next,
            more: *more,
        },
        Reply::TimedOut => Reply::TimedOut,
    }
}
