// A collection of regions over a table that the caller holds.
ghost use Rattle.std.specs.Prelude.{◌≡◌, ◌≤◌, ⊤, map, length, take};
ghost use Rattle.region.specs.Regions.{shown};
ghost use Rattle.region.specs.Grounds.{KeepsMeaning};

use region::region::{AddressRange, GuestMemoryRegion};
use std::alloc::AllocError;

/// The first `count` regions of a table, for a host buffer of `host_len` bytes.
pub struct GuestRegionCollection<'a, R: GuestMemoryRegion> {
    // a rule of the project: a collection is a count of regions over a table that the caller holds
    pub(crate) table: &'a [R],
    pub(crate) count: usize,
    pub(crate) host_len: u64,
    pub ghost counted: { count ≤ length table.now },
    // the table passed its questions when the collection was made
    pub ghost lawful: { KeepsMeaning (record { host = host_len; regions = map (shown R.AddressRange.range R.GuestMemoryRegion.place) (take count table.now) }) },
}

// by hand: over a type parameter, a derive of `Clone` is refused beside a ghost field
impl<'a, R: GuestMemoryRegion> Clone for GuestRegionCollection<'a, R> {
    ghost is_clone = { λ x y. y ≡ x };

    ghost is_infallible = { λ _. ⊤ };

    fn clone(&self) -> Result<Self, AllocError> {
        Ok(*self)
    }
}

impl<'a, R: GuestMemoryRegion> Copy for GuestRegionCollection<'a, R> {}
