//! All that there is at the beginning.
ghost use Rattle.std.specs.Prelude.{◌≡◌};
ghost use Rattle.std.specs.List.{list_all};
ghost use Rattle.evl_base.specs.Limits.{count_fits, sizes_fit, kind_fits, percent_fits, stax_fits};

use crate::limits::MAX_THREADS;
use crate::mutex_kind::MutexKind;
use crate::refusal::Refusal;
use arrayvec::ArrayVec;

// rule: By the types: at most 64 semaphores, 64 flag groups, 16 cross-buffers, 32 mutexes, 16 quota groups, 16 staxes;
//   transfers of at most 256 bytes; two stages, two ways, four policies, three takes with 32-bit masks, three kinds of
//   mutex, 16-bit numbers of objects.
//   also: Stage; Way; Policy; Take; MutexKind
/// The elements of a kernel, as they are opened.
#[derive(Drop)]
pub struct Board {
    /// How many threads there are, 1 to `MAX_THREADS`.
    pub threads: u16,
    /// The opening count of each semaphore, 0 to 2,147,483,647.
    pub sems: ArrayVec<u32, 64>,
    /// The opening bits of each flag group.
    pub flags: ArrayVec<u32, 64>,
    /// For each cross-buffer the sizes of the rings of way `In` and way `Out`, each 1 to 256 bytes.
    pub xbufs: ArrayVec<(u16, u16), 16>,
    /// The kind of each mutex.
    pub mutexes: ArrayVec<MutexKind, 32>,
    /// For each quota group its part of the processor, 1 to 100 percent.
    pub groups: ArrayVec<u8, 16>,
    /// For each stage exclusion lock how many may hold it together, 1 to 1000.
    pub staxes: ArrayVec<u16, 16>,
}

impl Board {
    ghost use Rattle.evl_base.specs.Board.{check_of};

    /// `Range` exactly where a number is outside its limits.
    pub fn check(&self) -> Result<(), Refusal>
        ensures { result ≡ check_of self.now }
    {
        let fits = 1 <= self.threads
            && usize::from(self.threads) <= MAX_THREADS
            && counts_fit(self.sems.as_slice())
            && rings_fit(self.xbufs.as_slice())
            && kinds_fit(self.mutexes.as_slice())
            && groups_fit(self.groups.as_slice())
            && staxes_fit(self.staxes.as_slice());
        if fits { Ok(()) } else { Err(Refusal::Range) }
    }

    /// The same board once more.
    pub fn copied(&self) -> Board
        ensures { result ≡ self.now }
    {
        Board {
            threads: self.threads,
            sems: copied_list(&self.sems),
            flags: copied_list(&self.flags),
            xbufs: copied_list(&self.xbufs),
            mutexes: copied_list(&self.mutexes),
            groups: copied_list(&self.groups),
            staxes: copied_list(&self.staxes),
        }
    }
}

// The same list once more.
fn copied_list<T: Copy + Default, const N: usize>(list: &ArrayVec<T, N>) -> ArrayVec<T, N>
    ensures { result.items ≡ list.now.items }
{
    let mut other = ArrayVec::new();
    other.try_extend_from_slice(list.as_slice()).unwrap();
    other
}

fn counts_fit(counts: &[u32]) -> bool
    ensures { result ≡ list_all count_fits counts.now }
{
    counts.iter().all(|count| *count <= 2_147_483_647)
}

fn rings_fit(rings: &[(u16, u16)]) -> bool
    ensures { result ≡ list_all sizes_fit rings.now }
{
    rings.iter().all(|sizes| { 1 <= sizes.0 && sizes.0 <= 256 && 1 <= sizes.1 && sizes.1 <= 256 })
}

fn kinds_fit(kinds: &[MutexKind]) -> bool
    ensures { result ≡ list_all kind_fits kinds.now }
{
    kinds.iter().all(|kind| match kind {
        MutexKind::Ceiling(prio) => 1 <= *prio && *prio <= 99,
        _ => true,
    })
}

fn groups_fit(groups: &[u8]) -> bool
    ensures { result ≡ list_all percent_fits groups.now }
{
    groups
        .iter()
        .all(|percent| 1 <= *percent && *percent <= 100)
}

fn staxes_fit(limits: &[u16]) -> bool
    ensures { result ≡ list_all stax_fits limits.now }
{
    limits.iter().all(|limit| 1 <= *limit && *limit <= 1000)
}
