//! Lists that are compared place by place.
ghost use Rattle.std.specs.Prelude.{◌≡◌, true};

/// All that can be distinguished from others of its type.
pub trait Alike {
    ghost use Rattle.std.specs.Prelude.{◌≡◌, true};

    /// Whether both are the same.
    fn is_alike(&self, other: &Self) -> bool
        ensures alike { result ≡ true → self.now ≡ other.now }
        ensures other { self.now ≡ other.now → result ≡ true };
}

/// Whether the same is in the same places of both.
pub fn are_alike<T: Alike>(ours: &[T], theirs: &[T]) -> bool
    ensures alike { result ≡ true → ours.now ≡ theirs.now }
    ensures other { ours.now ≡ theirs.now → result ≡ true }
{
    if ours.len() != theirs.len() {
        return false;
    }
    for n in 0..ours.len() {
        if !ours[n].is_alike(&theirs[n]) {
            return false;
        }
    }
    true
}
