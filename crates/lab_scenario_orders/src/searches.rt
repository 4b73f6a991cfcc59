//! Texts searched line by line.
ghost use Rattle.std.specs.Prelude.{◌≡◌, option_map};
ghost use Rattle.evl_scenario.specs.Values.{past_front};
ghost use Rattle.lab_scenario_orders.specs.Asks.{begins, text_behind, is_answered, is_end, later_line, some_line, stands_here, waits_behind_number};

/// A question about a text that begins with a line.
pub(crate) trait Question {
    ghost use Rattle.std.specs.Prelude.{ℕ, List, Bool};

    /// The texts of which it holds.
    ghost holds: { Self → List ℕ → Bool };

    /// Whether it holds of a text.
    fn asks(&self, text: &[u8]) -> bool
        ensures { result ≡ holds self.now text.now };
}

// Whether something holds of what comes after some line feed.
fn later_line<Q: Question>(question: &Q, text: &[u8]) -> bool
    ensures { result ≡ later_line (Q.holds question.now) text.now }
{
    let mut rest = text;
    while let Some((first, behind)) = rest.split_first() {
        if *first == b'\n' && question.asks(behind) {
            return true;
        }
        rest = behind;
    }
    false
}

/// Whether something holds of a text from the beginning of some line on.
pub(crate) fn some_line<Q: Question>(question: &Q, text: &[u8]) -> bool
    ensures { result ≡ some_line (Q.holds question.now) text.now }
{
    question.asks(text) || later_line(question, text)
}

/// The text after the first text in the second, if that begins with it.
pub(crate) fn behind<'a>(front: &[u8], text: &'a [u8]) -> Option<&'a [u8]>
    ensures { option_map (λ rest. rest.now) result ≡ text_behind front.now text.now }
{
    text.strip_prefix(front)
}

/// Whether the second text begins with the first.
pub(crate) fn begins(front: &[u8], text: &[u8]) -> bool
    ensures { result ≡ begins front.now text.now }
{
    behind(front, text).is_some()
}

/// The text after this front part of a text, as text.
pub fn past<'a>(front: &str, text: &'a str) -> Option<&'a str>
    ensures { option_map (λ rest. rest.now) result ≡ past_front front.now text.now }
{
    match text.strip_prefix(front) {
        Some(rest) => Some(rest),
        None => None,
    }
}

/// Whether after the digits that a text begins with it says that somebody waits.
pub(crate) fn waits_behind_number(text: &[u8]) -> bool
    ensures { result ≡ waits_behind_number text.now }
{
    let mut rest = text;
    while let Some((first, next)) = rest.split_first() {
        if !first.is_ascii_digit() {
            return begins(b" waits", rest);
        }
        rest = next;
    }
    false
}

// Whether an answer ends before this text.
fn is_end(text: &[u8]) -> bool
    ensures { result ≡ is_end text.now }
{
    begins(b" -> ", text) || begins(b"\n", text)
}

/// Whether an arrow and this answer, whole, stand here.
pub(crate) fn stands_here(answer: &[u8], text: &[u8]) -> bool
    ensures { result ≡ stands_here answer.now text.now }
{
    match behind(b" -> ", text) {
        Some(rest) => match behind(answer, rest) {
            Some(rest) => is_end(rest),
            None => false,
        },
        None => false,
    }
}

/// Whether this answer is somewhere in the rest of the line.
pub(crate) fn is_answered(answer: &[u8], text: &[u8]) -> bool
    ensures { result ≡ is_answered answer.now text.now }
{
    let mut rest = text;
    while let Some((first, next)) = rest.split_first() {
        if *first == b'\n' {
            return false;
        }
        if stands_here(answer, rest) {
            return true;
        }
        rest = next;
    }
    false
}
