// Finding the region that holds an address.
ghost use Rattle.std.specs.Prelude.{◌≡◌, map, slice_get, option_map, option_and_then};
ghost use Rattle.region.specs.Regions.{shown};
ghost use Rattle.region.specs.Grounds.{holding};
ghost use Rattle.table.specs.Questions.{holder};
ghost use Rattle.collection.specs.Collections.{items, ground_of};

use crate::collection::GuestRegionCollection;
use address::address::GuestAddress;
use region::region::{AddressRange, GuestMemoryRegion};
use table::search::find_index;

impl<'a, R: GuestMemoryRegion> GuestRegionCollection<'a, R> {
    /// The region that holds the address, or none.
    pub fn find_region(&self, addr: GuestAddress) -> Option<&'a R>
        ensures item { option_map (λ x. x.now) result ≡ option_and_then (slice_get (items self.now)) (holder (map R.AddressRange.range (items self.now)) addr.0) }
        ensures region { option_map (λ x. shown R.AddressRange.range R.GuestMemoryRegion.place x.now) result ≡ holding (ground_of self.now).regions addr.0 }
    {
        let table = self.regions();
        let i = find_index(table, addr)?;
        Some(&table[i])
    }
}
