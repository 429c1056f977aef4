// Why a table of regions is refused.
ghost use Rattle.std.specs.Prelude.{◌≡◌};
ghost use Rattle.table.specs.Refused.{table_refusal};

use refusal::Refusal;

#[derive(Clone, Copy, Debug, PartialEq, Eq)]
pub enum GuestRegionCollectionError {
    /// There is no region, or none with this start and length.
    NoMemoryRegion,
    /// A region starts later than its right neighbour.
    UnsortedMemoryRegions,
    /// Two regions share an address.
    MemoryRegionOverlap,
    /// The region at this index is not sound.
    BadRegion(usize),
    /// The destination table has too few entries.
    NoRoom,
}

impl From<GuestRegionCollectionError> for Refusal {
    ghost from_gives = { λ e r. r ≡ table_refusal e };

    fn from(error: GuestRegionCollectionError) -> Refusal {
        match error {
            GuestRegionCollectionError::NoMemoryRegion => Refusal::NoMemoryRegion,
            GuestRegionCollectionError::UnsortedMemoryRegions => Refusal::UnsortedMemoryRegions,
            GuestRegionCollectionError::MemoryRegionOverlap => Refusal::MemoryRegionOverlap,
            GuestRegionCollectionError::BadRegion(index) => Refusal::BadRegion(index as u64),
            GuestRegionCollectionError::NoRoom => Refusal::NoRoom,
        }
    }
}
