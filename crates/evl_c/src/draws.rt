//! Pictures of texts for C: what `lab draw` draws.
ghost use Rattle.std.specs.Prelude.{◌≡◌, ◌≢◌, ◌↔◌, false, map, true};
ghost use Rattle.evl_bank.specs.Bank.{program_bank};
ghost use Rattle.evl_c.specs.Draws as draws;
ghost use Rattle.evl_c.specs.Draws.{Draws, is_asked, nothing};
ghost use Rattle.evl_c.specs.Forms.{are_plans, handler_of};
ghost use Rattle.evl_c.specs.Pictures.{DrawsBytes, Ends, failed};

use crate::forms::{PlanForm, are_plans, read_plans};
use crate::pictures::{Asked, Form, Picture, Undrawn, draw};
use crate::plans::program_plans;
use crate::plays;
use crate::windows::put_window;
use lab_drawing::Goes;
use std::alloc::Global;

/// The report of drawing (embed/include/evlsim/abi.h: `evlsim_drawn`).
#[repr(C)]
#[derive(Clone, Copy)]
pub struct Drawn {
    /// How many bytes the picture has; 0 where there is none.
    pub length: usize,
    /// How many pages the text makes; 0 where it isn't drawn.
    pub pages: usize,
    /// The line of a text that isn't drawn that is none of a trace, from 1; else 0.
    pub line: usize,
    /// The step at fault, from 1; 0 where no step is.
    pub step: u32,
}

// The report that C gets where there is nothing to report.
const NOTHING: Drawn = Drawn {
    length: 0,
    pages: 0,
    line: 0,
    step: 0,
};

// Whether a form is one of the four, and a page is counted from 1.
fn is_asked(form: u8, page: u32) -> bool
    ensures { result ≡ is_asked form page }
{
    form <= 3 && 1 <= page
}

// The form of a number.
fn form_of(number: u8) -> Form
    ensures { result ≡ draws.form_of number }
{
    match number {
        0 => Form::Svg(None),
        1 => Form::Svg(Some(Goes::Down)),
        2 => Form::Svg(Some(Goes::Across)),
        _ => Form::Events,
    }
}

// The status that says why nothing is drawn.
fn status_of(why: Undrawn) -> u32
    ensures told { result ≡ draws.status_of (failed why) }
    ensures other { result ≢ 5 }
{
    match why {
        Undrawn::Text => 1,
        Undrawn::Neither(_, fault) => plays::status_of(fault),
        Undrawn::Beyond(_) => 7,
        Undrawn::Memory => 4,
    }
}

// The other results that C learns of it.
fn drawn_of(why: Undrawn) -> Drawn
    ensures { result ≡ draws.drawn_of (failed why) }
{
    match why {
        Undrawn::Neither(line, fault) => Drawn {
            line,
            step: plays::step_of(fault),
            ..NOTHING
        },
        Undrawn::Beyond(pages) => Drawn { pages, ..NOTHING },
        Undrawn::Text | Undrawn::Memory => NOTHING,
    }
}

// The picture of a text over callbacks with these plans.
fn picture_over(
    alloc: Global,
    plans: &[PlanForm],
    form: Form,
    page: u32,
    text: &[u8],
) -> Result<Picture, Undrawn>
    requires plans { are_plans plans.now ≡ true }
    ensures { Ends (DrawsBytes (map handler_of plans.now) page form text.now) result }
{
    match read_plans(alloc, plans) {
        Ok(read) => {
            let asked = Asked {
                plans: read.as_slice(),
                form,
                page,
            };
            draw(alloc, asked, text)
        }
        Err(_) => Err(Undrawn::Memory),
    }
}

// Draws a text over callbacks with these plans.
fn draw_over(
    alloc: Global,
    plans: &[PlanForm],
    form: u8,
    page: u32,
    text: &[u8],
    start: usize,
    out: &mut [u8],
    drawn: &mut Drawn,
) -> u32
    requires plans { are_plans plans.now ≡ true }
    ensures drawn { Draws (map handler_of plans.now) form page text.now start out.old out.new drawn.new result }
    ensures other { result ≢ 5 }
{
    match picture_over(alloc, plans, form_of(form), page, text) {
        Ok(picture) => {
            let bytes = picture.text.as_slice();
            put_window(bytes, start, out);
            *drawn = Drawn {
                length: bytes.len(),
                pages: picture.pages,
                ..NOTHING
            };
            0
        }
        Err(why) => {
            *drawn = drawn_of(why);
            status_of(why)
        }
    }
}

/// Puts the picture of a trace, of a scenario over the program's callbacks, or of what `lab callers` prints, from the
/// byte `start` on, into the buffer, as much as there is room for. `form`: 0 to 2 SVG (fitting, down, across), 3
/// trace events; `page`: of SVG, from 1.
///
/// 0: done. 1: no text. 2: bad board. 3: bad step. 4: no memory. 7: no such form or page. But for 0 no byte is put.
#[unsafe(no_mangle)]
pub extern "C" fn evlsim_c_draw(
    alloc: Global,
    form: u8,
    page: u32,
    text: &[u8],
    start: usize,
    out: &mut [u8],
    drawn: &mut Drawn,
) -> u32
    ensures drawn { is_asked form page ≡ true → Draws program_bank form page text.now start out.old out.new drawn.new result }
    ensures numbers { is_asked form page ≡ false → (result ≡ 7) × (out.new ≡ out.old) × (drawn.new ≡ nothing) }
{
    if !is_asked(form, page) {
        *drawn = NOTHING;
        return 7;
    }
    draw_over(alloc, &program_plans(), form, page, text, start, out, drawn)
}

/// The same over callbacks with these plans, at most 64. 5: a number of a plan is out of its range, it declares fewer
/// kinds than it has, or there are more than 64; it comes before all else, and no byte is put.
#[unsafe(no_mangle)]
pub extern "C" fn evlsim_c_draw_over(
    alloc: Global,
    plans: &[PlanForm],
    form: u8,
    page: u32,
    text: &[u8],
    start: usize,
    out: &mut [u8],
    drawn: &mut Drawn,
) -> u32
    ensures drawn { are_plans plans.now ≡ true → is_asked form page ≡ true → Draws (map handler_of plans.now) form page text.now start out.old out.new drawn.new result }
    ensures numbers { are_plans plans.now ≡ true → is_asked form page ≡ false → (result ≡ 7) × (out.new ≡ out.old) × (drawn.new ≡ nothing) }
    ensures plans { (result ≡ 5) ↔ (are_plans plans.now ≡ false) }
    ensures untouched { result ≡ 5 → (out.new ≡ out.old) × (drawn.new ≡ nothing) }
{
    if !are_plans(plans) {
        *drawn = NOTHING;
        return 5;
    }
    if !is_asked(form, page) {
        *drawn = NOTHING;
        return 7;
    }
    draw_over(alloc, plans, form, page, text, start, out, drawn)
}
