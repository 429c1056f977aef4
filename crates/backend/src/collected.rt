// A collection of regions is a backend.
ghost use Rattle.std.specs.Prelude.{⊤};
ghost use Rattle.collection.specs.Collections.{ground_of};

use crate::backend::{GuestMemoryBackend, Surveyed};
use address::address::GuestAddress;
use collection::collection::GuestRegionCollection;
use region::region::{AddressRange, GuestMemoryRegion};
use region::slot::{SlotRegion, slot_of};

impl<'a, R: GuestMemoryRegion> GuestMemoryBackend for GuestRegionCollection<'a, R> {
    ghost meant = { λ c. ground_of c };

    // each value carries it
    ghost lawful = { λ _. ⊤ };

    ghost keeps = { λ c _. c.lawful };

    fn host_len(&self) -> u64 {
        self.host_len()
    }

    fn region_at(&self, addr: GuestAddress) -> Option<SlotRegion> {
        self.find_region(addr).map(slot_of)
    }
}

impl<'a, R: GuestMemoryRegion> Surveyed for GuestRegionCollection<'a, R> {
    fn num_regions(&self) -> usize {
        self.num_regions()
    }

    fn last_addr(&self) -> GuestAddress {
        self.last_addr()
    }
}
