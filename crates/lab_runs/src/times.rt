//! Times and shares in words.
ghost use Rattle.std.specs.Prelude.{◌≤◌};

use crate::texts::Text;

// The greatest unit of which a time has one at least: how many nanoseconds it has, and its name.
fn unit_of(time: u64) -> (u64, &'static str)
    ensures { 1 ≤ result.0 }
{
    if time >= 1_000_000 || time == 0 {
        (1_000_000, "ms")
    } else if time >= 1_000 {
        (1_000, "us")
    } else {
        (1, "ns")
    }
}

/// Appends a number of `unit`s, with a fraction where it is no whole one.
pub fn put_units(text: &mut Text, time: u64, unit: u64)
    requires { 1 ≤ unit }
{
    text.put_number(time / unit);
    let mut rest = time % unit;
    let mut worth = unit / 10;
    if rest > 0 {
        text.put_char('.');
    }
    for _ in 0..9 {
        if rest == 0 || worth == 0 {
            break;
        }
        text.put_number(rest / worth);
        rest = rest % worth;
        worth = worth / 10;
    }
}

/// Appends a time in nanoseconds, in the greatest unit of which it has one at least: as `10.5ms`.
pub fn put_time(text: &mut Text, time: u64) {
    let (unit, name) = unit_of(time);
    put_units(text, time, unit);
    text.put(name);
}

/// How many thousandths of a whole a part is; 0 of nothing.
pub fn thousandths(part: u64, whole: u64) -> u64 {
    if whole == 0 {
        return 0;
    }
    let share = part as u128 * 1000 / whole as u128;
    share.min(u64::MAX as u128) as u64
}

/// Appends a share in percent with one decimal, as `12.5 %`.
pub fn put_share(text: &mut Text, part: u64, whole: u64) {
    let share = thousandths(part, whole);
    text.put_number(share / 10);
    text.put_char('.');
    text.put_number(share % 10);
    text.put(" %");
}
