// The questions that a table of regions is put. A collection has the table and the host length in one; it
// is made of what passed here.
ghost use Rattle.std.specs.Prelude.{◌≡◌, map};
ghost use Rattle.std.specs.Result.{result_err};
ghost use Rattle.region.specs.Regions.{shown};
ghost use Rattle.table.specs.Questions.{pair_fault, neighbours, first_unsound, table_fault};

use crate::error::GuestRegionCollectionError;
use address::address::Address;
use region::region::{AddressRange, GuestMemoryRegion, is_sound};

/// The index of the first region that is not sound for a host buffer of `host_len` bytes.
pub fn first_unsound_index<R: GuestMemoryRegion>(table: &[R], host_len: u64) -> Option<usize>
    ensures { result ≡ first_unsound host_len (map (shown R.AddressRange.range R.GuestMemoryRegion.place) table.now) }
{
    // a rule of the project: a check visits each region in table order, by a `for`, with the index that it tells
    for (i, region) in table.iter().enumerate() {
        if !is_sound(region, host_len) {
            return Some(i);
        }
    }
    None
}

/// Refuses a pair of neighbours that is not in order, or that shares an address.
pub(crate) fn check_pair<R: AddressRange>(
    left: &R,
    right: &R,
) -> Result<(), GuestRegionCollectionError>
    ensures { result_err result ≡ pair_fault (R.AddressRange.range left.now) (R.AddressRange.range right.now) }
{
    let gap = right
        .start_addr()
        .checked_offset_from(left.start_addr())
        .ok_or(GuestRegionCollectionError::UnsortedMemoryRegions)?;
    if gap < left.len() {
        return Err(GuestRegionCollectionError::MemoryRegionOverlap);
    }
    Ok(())
}

/// Refuses a table for its first bad pair of neighbours, from the left.
pub fn check_neighbours<R: AddressRange>(table: &[R]) -> Result<(), GuestRegionCollectionError>
    ensures { result_err result ≡ neighbours (map R.AddressRange.range table.now) }
{
    for (left, right) in table.iter().zip(table.iter().skip(1)) {
        check_pair(left, right)?;
    }
    Ok(())
}

/// Refuses a table for its first region that is not sound, or else for its first bad pair.
pub fn check_table<R: GuestMemoryRegion>(
    table: &[R],
    host_len: u64,
) -> Result<(), GuestRegionCollectionError>
    ensures { result_err result ≡ table_fault host_len (map (shown R.AddressRange.range R.GuestMemoryRegion.place) table.now) }
{
    match first_unsound_index(table, host_len) {
        Some(i) => Err(GuestRegionCollectionError::BadRegion(i)),
        None => check_neighbours(table),
    }
}
