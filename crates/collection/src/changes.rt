// A new collection from an old one, with a region more or a region less.
ghost use Rattle.std.specs.Prelude.{◌≡◌, ◌≤◌, length, MatchResult};
ghost use Rattle.collection.specs.Collections.{items};
ghost use Rattle.table.specs.Edits.{Inserts, Removes};

use crate::collection::GuestRegionCollection;
use address::address::GuestAddress;
use region::region::{AddressRange, GuestMemoryRegion};
use table::edits::{insert, remove};
use table::error::GuestRegionCollectionError;

impl<'a, R: GuestMemoryRegion + Copy> GuestRegionCollection<'a, R> {
    /// Writes the regions with one more into `dest`, and answers their number. Refused, the first no:
    /// `dest` has too few entries, the region is not sound, it shares an address with another.
    pub fn insert_region(
        &self,
        region: R,
        dest: &mut [R],
    ) -> Result<usize, GuestRegionCollectionError>
        ensures within { MatchResult result (λ n. n ≤ length dest.new) (λ _. dest.new ≡ dest.old) }
        ensures exact { Inserts R.AddressRange.range R.GuestMemoryRegion.place self.now.host_len (items self.now) region dest.old dest.new result }
    {
        let table = self.regions();
        insert(table, self.host_len, region, dest)
    }

    /// Writes the regions without the one of exactly this start and length into `dest`, and answers
    /// their number and the removed region. Refused, the first no: there is no such region, `dest`
    /// has too few entries.
    pub fn remove_region(
        &self,
        start: GuestAddress,
        len: u64,
        dest: &mut [R],
    ) -> Result<(usize, R), GuestRegionCollectionError>
        ensures within { MatchResult result (λ p. p.0 ≤ length dest.new) (λ _. dest.new ≡ dest.old) }
        ensures exact { Removes R.AddressRange.range R.GuestMemoryRegion.place self.now.host_len (items self.now) start.0 len dest.old dest.new result }
    {
        let table = self.regions();
        remove(table, start, len, dest)
    }
}
