// Making a collection, and asking it about itself.
ghost use Rattle.std.specs.Prelude.{◌≡◌, [], map, length, take, IfOk, Some, None, MatchResult};
ghost use Rattle.region.specs.Regions.{shown};
ghost use Rattle.collection.specs.Collections.{items, ground_of, make_fault, edited_fault, highest};

use crate::collection::GuestRegionCollection;
use address::address::GuestAddress;
use region::region::{AddressRange, GuestMemoryRegion};
use table::checks::check_table;
use table::error::GuestRegionCollectionError;

impl<'a, R: GuestMemoryRegion> GuestRegionCollection<'a, R> {
    /// The collection without a region.
    pub fn new(host_len: u64) -> Self
        ensures items { (items result ≡ []) × (result.host_len ≡ host_len) }
    {
        GuestRegionCollection {
            table: &[],
            count: 0,
            host_len,
        }
    }

    /// The collection of a whole table. Refused, the first no: the table is empty, a region is not
    /// sound, a region starts later than the next one, or does not end before it.
    pub fn from_regions(table: &'a [R], host_len: u64) -> Result<Self, GuestRegionCollectionError>
        ensures answer { MatchResult result (λ c. (make_fault host_len (map (shown R.AddressRange.range R.GuestMemoryRegion.place) table.now) ≡ None) × (items c ≡ table.now) × (c.host_len ≡ host_len)) (λ e. make_fault host_len (map (shown R.AddressRange.range R.GuestMemoryRegion.place) table.now) ≡ Some e) }
    {
        if table.is_empty() {
            return Err(GuestRegionCollectionError::NoMemoryRegion);
        }
        check_table(table, host_len)?;
        Ok(GuestRegionCollection {
            table,
            count: table.len(),
            host_len,
        })
    }

    // a rule of the project: a count of regions beside the table that the caller holds

    /// The collection that an insertion or a removal left in the first `count` entries of a table; it
    /// may be empty. Refused where the table has fewer entries, then as for a whole table.
    pub fn from_edited(
        table: &'a [R],
        count: usize,
        host_len: u64,
    ) -> Result<Self, GuestRegionCollectionError>
        ensures answer { MatchResult result (λ c. (edited_fault host_len count (map (shown R.AddressRange.range R.GuestMemoryRegion.place) table.now) ≡ None) × (items c ≡ take count table.now) × (c.host_len ≡ host_len)) (λ e. edited_fault host_len count (map (shown R.AddressRange.range R.GuestMemoryRegion.place) table.now) ≡ Some e) }
    {
        if table.len() < count {
            return Err(GuestRegionCollectionError::NoRoom);
        }
        check_table(&table[..count], host_len)?;
        Ok(GuestRegionCollection {
            table,
            count,
            host_len,
        })
    }

    /// The host length that the collection was made for.
    pub fn host_len(&self) -> u64
        ensures { result ≡ self.now.host_len }
    {
        self.host_len
    }

    /// The regions, in ascending order.
    pub fn regions(&self) -> &'a [R]
        ensures { result.now ≡ items self.now }
    {
        let table = self.table;
        &table[..self.count]
    }

    /// The number of regions.
    pub fn num_regions(&self) -> usize
        ensures { result ≡ length (items self.now) }
    {
        self.regions().len()
    }

    /// The highest address of any region; 0 where there is none.
    pub fn last_addr(&self) -> GuestAddress
        ensures { result.0 ≡ highest (ground_of self.now).regions }
    {
        match self.regions().last() {
            Some(region) => region.last_addr(),
            None => GuestAddress(0),
        }
    }
}
