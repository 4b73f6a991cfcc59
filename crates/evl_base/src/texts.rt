//! The texts of a trace, appended to a buffer of bytes.
ghost use Rattle.std.specs.Prelude.{◌≡◌, ◌++◌, OnOk, OnErr, IfErr};
ghost use Rattle.evl_base.specs.Call.{call_text};
ghost use Rattle.evl_base.specs.Play.{play_text};
ghost use Rattle.evl_base.specs.Reply.{outcome_text};

use crate::call::Call;
use crate::play::Play;
use crate::refusal::Refusal;
use crate::reply::Reply;

// rule: A text is appended whole, or not at all.
//   clauses: put_call; put_reply; put_play: same, text
// refusals: put_call, put_reply, put_play
//   order: NoMemory
//   clauses: put_call: refusal
/// Appends the text of a call: its step word, then each key with its value. `NoMemory` where the buffer couldn't grow;
/// it is then as it was.
pub fn put_call(buffer: &mut Vec<u8>, call: &Call) -> Result<(), Refusal>
    ensures text { OnOk result (buffer.new.items ≡ buffer.old.items ++ call_text call.now) }
    ensures same { OnErr result (buffer.new.items ≡ buffer.old.items) }
    ensures refusal { IfErr result (λ e. e ≡ Refusal.NoMemory) }
{
    let text = call
        .to_string(*buffer.allocator())
        .map_err(|_| Refusal::NoMemory)?;
    buffer
        .extend_from_slice(text.as_bytes())
        .map_err(|_| Refusal::NoMemory)
}

/// Appends the text of an answer, or the name of a refusal. `NoMemory` where the buffer couldn't grow; it is then as it
/// was.
pub fn put_reply(buffer: &mut Vec<u8>, outcome: &Result<Reply, Refusal>) -> Result<(), Refusal>
    ensures text { OnOk result (buffer.new.items ≡ buffer.old.items ++ outcome_text outcome.now) }
    ensures same { OnErr result (buffer.new.items ≡ buffer.old.items) }
    ensures refusal { IfErr result (λ e. e ≡ Refusal.NoMemory) }
{
    match outcome {
        Ok(reply) => {
            let text = reply
                .to_string(*buffer.allocator())
                .map_err(|_| Refusal::NoMemory)?;
            buffer
                .extend_from_slice(text.as_bytes())
                .map_err(|_| Refusal::NoMemory)
        }
        Err(refusal) => {
            buffer
                .extend_from_slice(refusal.name().as_bytes())
                .map_err(|_| Refusal::NoMemory)
        }
    }
}

/// Appends the text of a play, without the spaces before it in a trace. `NoMemory` where the buffer couldn't grow; it
/// is then as it was.
pub fn put_play(buffer: &mut Vec<u8>, play: Play) -> Result<(), Refusal>
    ensures text { OnOk result (buffer.new.items ≡ buffer.old.items ++ play_text play) }
    ensures same { OnErr result (buffer.new.items ≡ buffer.old.items) }
    ensures refusal { IfErr result (λ e. e ≡ Refusal.NoMemory) }
{
    let text = play
        .to_string(*buffer.allocator())
        .map_err(|_| Refusal::NoMemory)?;
    buffer
        .extend_from_slice(text.as_bytes())
        .map_err(|_| Refusal::NoMemory)
}
