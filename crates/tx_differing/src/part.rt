//! The part in which two texts differ.
ghost use Rattle.std.specs.Prelude.{◌≡◌, ◌≤◌, length};
ghost use Rattle.tx_differing.specs.Differing as spec;

/// The part in which two texts differ: where it begins in both, how many bytes the old text has there, and how many the new one.
#[derive(Clone, Copy)]
pub struct Differing {
    pub place: usize,
    pub removed: usize,
    pub put: usize,
}

/// With how many equal bytes two texts begin.
fn common(old: &[u8], new: &[u8]) -> usize
    ensures count { result ≡ spec.common old.now new.now }
    ensures in_old { result ≤ length old.now }
    ensures in_new { result ≤ length new.now }
{
    let most = old.len().min(new.len());
    for at in 0..most {
        if old[at] != new[at] {
            return at;
        }
    }
    most
}

/// With how many they end.
fn common_end(old: &[u8], new: &[u8]) -> usize
    ensures count { result ≡ spec.common_end old.now new.now }
    ensures in_old { result ≤ length old.now }
    ensures in_new { result ≤ length new.now }
{
    let most = old.len().min(new.len());
    for at in 0..most {
        if old[old.len() - 1 - at] != new[new.len() - 1 - at] {
            return at;
        }
    }
    most
}

/// The part in which two texts differ: what stands between their longest common beginning and, behind it, their longest common
/// end. Each text is gone over once, and no memory is taken.
pub fn differing_part(old: &[u8], new: &[u8]) -> Differing
    ensures part { result ≡ spec.differing old.now new.now }
    ensures shortest { spec.IsShortest old.now new.now result }
{
    let place = common(old, new);
    let end = common_end(&old[place..], &new[place..]);
    Differing {
        place,
        removed: old.len() - place - end,
        put: new.len() - place - end,
    }
}
