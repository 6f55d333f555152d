//! The lengths of prefixes, a number for each partition that there may be.
ghost use Rattle.std.specs.Prelude.{◌≡◌, ℕ, ◌<◌, max, slice_index};

use album_stamps::MAX_PARTS;

/// `MAX_PARTS`, as the length of an array.
pub const PARTS: usize = MAX_PARTS as usize;

/// The greater of the two at each index.
pub fn greater_each(one: &[u64; PARTS], other: &[u64; PARTS]) -> [u64; PARTS]
    ensures { (part : ℕ) → part < MAX_PARTS
        → slice_index result part ≡ max (slice_index one.now part) (slice_index other.now part) }
{
    let mut all = [0; PARTS];
    for part in 0..PARTS {
        all[part] = one[part].max(other[part]);
    }
    all
}
