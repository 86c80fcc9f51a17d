//! The size of a slab by the open limit, and where each slab begins.
ghost use Rattle.std.specs.Prelude.{◌≡◌, ◌*◌, false, MatchOption};
ghost use Rattle.orders.specs.Slabs.{slab_size};
ghost use Rattle.van_slab.specs.Limits.{open_limit, is_limit, LimitOf};

use super::OpenLimit;

/// The most nodes of a van's tree, by the open limit.
const SLAB_SIZES: [usize; 5] = [0, 2, 18, 270, 7_364];

impl OpenLimit {
    /// The open limit of `k` bookings, if that is 1 to 4.
    pub fn new(k: u32) -> Option<OpenLimit>
        ensures { MatchOption result (is_limit k ≡ false) (LimitOf k) }
    {
        // Kept: the pattern says both what is allowed and that it fits; a conversion would be a second test.
        match k {
            1..=4 => Some(OpenLimit { value: k as u8 }),
            _ => None,
        }
    }

    /// How many bookings may be open at once.
    pub fn value(self) -> u32
        ensures { result ≡ open_limit self }
    {
        u32::from(self.value)
    }

    /// How many nodes a slab has.
    pub fn slab_size(self) -> usize
        ensures { result ≡ slab_size (open_limit self) }
    {
        SLAB_SIZES[usize::from(self.value)]
    }

    /// The place of a slab's first node, where the slabs stand one after the other.
    pub fn slab_start(self, slab: u8) -> usize
        ensures { result ≡ slab * slab_size (open_limit self) }
    {
        usize::from(slab) * self.slab_size()
    }
}
