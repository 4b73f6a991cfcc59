//! Which bits a kind of take gets.
ghost use Rattle.std.specs.Prelude.{◌≡◌};
ghost use Rattle.evl_sync.specs.FlagGroups.{is_empty_mask, some_bits, bits_taken};

use evl_base::Take;

/// Whether the kind asks for nothing: a mask without bits.
pub fn is_empty_mask(kind: Take) -> bool
    ensures empty { result ≡ is_empty_mask kind }
{
    match kind {
        Take::Any => false,
        Take::Of(mask) => mask == 0,
        Take::Exact(mask) => mask == 0,
    }
}

/// Which of the bits the kind takes, or none where it isn't satisfied by them: `Any` takes all bits and `Of` those of
/// its mask, where there are any; `Exact` takes its whole mask, where all of it is there.
pub fn taken(kind: Take, bits: u32) -> Option<u32>
    ensures taken { result ≡ bits_taken kind bits }
{
    match kind {
        Take::Any => some_bits(bits),
        Take::Of(mask) => some_bits(bits & mask),
        Take::Exact(mask) => {
            if bits & mask == mask {
                Some(mask)
            } else {
                None
            }
        }
    }
}

fn some_bits(bits: u32) -> Option<u32>
    ensures some { result ≡ some_bits bits }
{
    if bits == 0 { None } else { Some(bits) }
}
