//! The things that are drawn.
ghost use Rattle.std.specs.Prelude.{◌≡◌};
ghost use Rattle.lab_drawing.specs.Pictures as pictures;

use crate::frames::{Goes, Shows};
use crate::marks::Mark;
use crate::moments::Moment;

/// All that is drawn: a page, from 0, of marks, with the machine's state after the entry of each as far as it is known,
/// what is shown of that, and which way the marks go.
#[derive(Drop)]
pub struct Drawn<'a, 'b> {
    pub marks: &'b [Mark<'a>],
    pub moments: Vec<Moment>,
    pub shows: Shows,
    pub goes: Goes,
    pub page: usize,
}

/// The part that is shown of a machine's state, by the moments that are known.
pub fn shown_with(moments: &[Moment]) -> Shows
    ensures { result ≡ pictures.shown_with moments.now }
{
    if moments.is_empty() {
        Shows::Waits
    } else {
        Shows::Machine
    }
}
