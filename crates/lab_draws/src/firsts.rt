//! The first marks of a picture.
ghost use Rattle.std.specs.Prelude.{◌≡◌, take};
ghost use Rattle.lab_draws.specs.Draws.{first_of};

use lab_drawing::Mark;

// The first marks, so many at most.
fn first_count<'a, 'b>(marks: &'b [Mark<'a>], count: usize) -> &'b [Mark<'a>]
    ensures { result.now ≡ take count marks.now }
{
    if marks.len() <= count {
        marks
    } else {
        &marks[..count]
    }
}

/// The first marks, so many where a number is asked for.
pub(crate) fn first_of<'a, 'b>(marks: &'b [Mark<'a>], upto: Option<u32>) -> &'b [Mark<'a>]
    ensures { result.now ≡ first_of upto marks.now }
{
    match upto {
        None => marks,
        Some(count) => first_count(marks, count as usize),
    }
}
