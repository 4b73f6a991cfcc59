//! Whether an answer is a refusal.
ghost use Rattle.std.specs.Prelude.{◌≡◌, is_err, Result};
ghost use Rattle.evl_base.specs.Reply.{outcome_text};
ghost use Rattle.evl_base.specs.declared.refusal.Refusal.{Refusal};
ghost use Rattle.evl_base.specs.declared.reply.Reply.{Reply};
ghost use Rattle.lab_traces.specs.Entries.{names_refusal};

// Whether a text begins with a capital letter.
fn is_capital(text: &str) -> bool
    ensures { result ≡ names_refusal text.now }
{
    match text.as_bytes().first() {
        Some(byte) => b'A' <= *byte && *byte <= b'Z',
        None => false,
    }
}

/// Whether the text of an answer names a refusal: these begin with a capital letter, and the texts of replies don't.
#[tactic(auto, using(crate::proofs::RefusalLaws::refusals_are_told))]
pub fn is_refused(answer: &str) -> bool
    ensures told { (outcome : Result Reply Refusal) → answer.now ≡ outcome_text outcome → result ≡ is_err outcome }
    ensures named { result ≡ names_refusal answer.now }
{
    is_capital(answer)
}
