//! Boards as C gives them.
ghost use Rattle.std.specs.Prelude.{◌≡◌, ◌≤◌, length, map, true};
ghost use Rattle.std.specs.List.{list_all};
ghost use Rattle.evl_c.specs.Boards.{board_of, has_kind, is_board, kind_of, ring_of};

use arrayvec::ArrayVec;
use evl_base::{Board, MutexKind};

/// The rings of a cross-buffer (embed/include/evlsim/abi.h: `evlsim_rings`).
#[repr(C)]
#[derive(Clone, Copy)]
pub struct RingsForm {
    /// Bytes of the ring that is written in-band.
    pub in_size: u16,
    /// Bytes of the ring that is written out-of-band.
    pub out_size: u16,
}

/// A mutex (embed/include/evlsim/abi.h: `evlsim_mutex`).
#[repr(C)]
#[derive(Clone, Copy)]
pub struct MutexForm {
    /// The kind: 0 to 2.
    pub kind: u8,
    /// Its ceiling, where the kind has one.
    pub ceiling: u8,
}

/// A board (embed/include/evlsim/abi.h: `evlsim_board`).
#[repr(C)]
#[derive(Clone, Copy)]
pub struct BoardForm<'a> {
    /// How many threads there are.
    pub threads: u16,
    /// The opening counts of the semaphores.
    pub sems: &'a [u32],
    /// The opening bits of the flag groups.
    pub flags: &'a [u32],
    /// The rings of the cross-buffers.
    pub xbufs: &'a [RingsForm],
    /// The mutexes.
    pub mutexes: &'a [MutexForm],
    /// The percents of the quota groups.
    pub groups: &'a [u8],
}

// The rings of a cross-buffer.
fn ring_of(form: &RingsForm) -> (u16, u16)
    ensures { result ≡ ring_of form.now }
{
    (form.in_size, form.out_size)
}

// The kind of a mutex.
fn kind_of(form: &MutexForm) -> MutexKind
    ensures { result ≡ kind_of form.now }
{
    match form.kind {
        0 => MutexKind::Normal,
        1 => MutexKind::Recursive,
        _ => MutexKind::Ceiling(form.ceiling),
    }
}

// Whether each mutex has a kind.
fn have_kinds(forms: &[MutexForm]) -> bool
    ensures { result ≡ list_all has_kind forms.now }
{
    forms.iter().all(|form| form.kind <= 2)
}

/// Whether a form is a board: no list of it is longer than a board's, and each mutex has a kind.
pub fn is_board(form: &BoardForm<'_>) -> bool
    ensures { result ≡ is_board form.now }
{
    form.sems.len() <= 64
        && form.flags.len() <= 64
        && form.xbufs.len() <= 16
        && form.mutexes.len() <= 32
        && form.groups.len() <= 16
        && have_kinds(form.mutexes)
}

/// A list of a board.
pub fn read_list<T: Copy + Default + Drop, const N: usize>(items: &[T]) -> ArrayVec<T, N>
    requires { length items.now ≤ N }
    ensures { result.items ≡ items.now }
{
    let mut list = ArrayVec::new();
    list.try_extend_from_slice(items).unwrap();
    list
}

// The rings of the cross-buffers.
fn read_rings(forms: &[RingsForm]) -> ArrayVec<(u16, u16), 16>
    requires { length forms.now ≤ 16 }
    ensures { result.items ≡ map ring_of forms.now }
{
    let mut rings = ArrayVec::new();
    for form in forms {
        rings.push(ring_of(form));
    }
    rings
}

// The kinds of the mutexes.
fn read_kinds(forms: &[MutexForm]) -> ArrayVec<MutexKind, 32>
    requires { length forms.now ≤ 32 }
    ensures { result.items ≡ map kind_of forms.now }
{
    let mut kinds = ArrayVec::new();
    for form in forms {
        kinds.push(kind_of(form));
    }
    kinds
}

/// The board that a form describes; it has no stage exclusion locks.
pub fn read_board(form: &BoardForm<'_>) -> Board
    requires { is_board form.now ≡ true }
    ensures { result ≡ board_of form.now }
{
    Board {
        threads: form.threads,
        sems: read_list(form.sems),
        flags: read_list(form.flags),
        xbufs: read_rings(form.xbufs),
        mutexes: read_kinds(form.mutexes),
        groups: read_list(form.groups),
        staxes: ArrayVec::new(),
    }
}
