//! The parts of a line's text, and the numbers in it.
ghost use Rattle.std.specs.Prelude.{◌≡◌, ◌^◌, IfSome, option_map};
ghost use Rattle.evl_scenario.specs.Values.{around_space, number_below, past_front, text_number};
ghost use Rattle.lab_traces.specs.Parts.{around, before_end, Lacks};

use evl_scenario::number_of_text;

/// The parts before and after the first space.
pub fn around_blank(text: &str) -> Option<(&str, &str)>
    ensures { option_map (λ parts. (parts.0.now, parts.1.now)) result ≡ around_space text.now }
{
    match text.split_once(' ') {
        Some(parts) => Some(parts),
        None => None,
    }
}

/// The parts before and after the first `>`.
pub fn around_point(text: &str) -> Option<(&str, &str)>
    ensures { option_map (λ parts. (parts.0.now, parts.1.now)) result ≡ around 62 text.now }
{
    match text.split_once('>') {
        Some(parts) => Some(parts),
        None => None,
    }
}

/// The first line, without the line feed at its end, and what follows it.
pub fn around_line_feed(text: &str) -> Option<(&str, &str)>
    ensures cut { option_map (λ parts. (parts.0.now, parts.1.now)) result ≡ around 10 text.now }
    ensures apart { IfSome result (λ parts. Lacks 10 parts.0.now) }
{
    match text.split_once('\n') {
        Some(parts) => Some(parts),
        None => None,
    }
}

/// The part after this front part of a text.
pub fn behind<'a>(front: &str, text: &'a str) -> Option<&'a str>
    ensures { option_map (λ rest. rest.now) result ≡ past_front front.now text.now }
{
    match text.strip_prefix(front) {
        Some(rest) => Some(rest),
        None => None,
    }
}

/// The part before this end of a text.
pub fn before<'a>(end: &str, text: &'a str) -> Option<&'a str>
    ensures { option_map (λ front. front.now) result ≡ before_end end.now text.now }
{
    match text.strip_suffix(end) {
        Some(front) => Some(front),
        None => None,
    }
}

/// The number that a text writes in decimal digits without leading zeros, of a thread, a line or a timer.
pub fn small_number(text: &str) -> Option<u16>
    ensures { result ≡ number_below (2 ^ 16) (text_number text.now) }
{
    u16::try_from(number_of_text(text)?).ok()
}
