// What a backend is asked, and what follows from its answers.
ghost use Rattle.std.specs.Prelude.{◌≡◌, length, is_some, option_map};
ghost use Rattle.region.specs.Regions.{shown};
ghost use Rattle.region.specs.Slots.{slot_range, slot_place};
ghost use Rattle.region.specs.Grounds.{Ground, KeepsMeaning, holding};
ghost use Rattle.collection.specs.Collections.{highest};
ghost use Rattle.backend.specs.Resolution.{present, present_plus, located, resolved};

use address::address::{Address, GuestAddress, MemoryRegionAddress};
use region::region::{AddressRange, GuestMemoryRegion};
use region::slot::SlotRegion;

/// A backend means a host length and an ascending list of sound regions, no two sharing an address.
/// Its questions change nothing.
pub trait GuestMemoryBackend {
    ghost meant: { Self → Ground };

    // what making a backend gives and each call keeps
    ghost lawful: { Self → Type 0 };

    ghost keeps: { (b : Self) → lawful b → KeepsMeaning (meant b) };

    /// The length that the host buffer has to have.
    fn host_len(&self) -> u64
        ensures { result ≡ (meant self.now).host };

    /// The region that holds the address, or none.
    fn region_at(&self, addr: GuestAddress) -> Option<SlotRegion>
        ensures { lawful self.now → option_map (shown slot_range slot_place) result ≡ holding (meant self.now).regions addr.0 };

    /// The region that holds the address, and how far the address lies above its start.
    fn to_region_addr(&self, addr: GuestAddress) -> Option<(SlotRegion, MemoryRegionAddress)>
        ensures { lawful self.now → option_map (λ p. (shown slot_range slot_place p.0, p.1.0)) result ≡ located (meant self.now).regions addr.0 }
    {
        let region = self.region_at(addr)?;
        let offset = region.to_region_addr(addr)?;
        Some((region, offset))
    }

    /// The region that holds the address, and the place of the address in the host buffer, where the
    /// region has host memory.
    fn resolve(&self, addr: GuestAddress) -> Option<(SlotRegion, Option<u64>)>
        ensures { lawful self.now → option_map (λ p. (shown slot_range slot_place p.0, p.1)) result ≡ resolved (meant self.now).regions addr.0 }
    {
        let (region, offset) = self.to_region_addr(addr)?;
        let place = region
            .host_place()
            .and_then(|place| place.checked_add(offset.0));
        Some((region, place))
    }

    /// Whether some region holds the address.
    fn address_in_range(&self, addr: GuestAddress) -> bool
        ensures { lawful self.now → result ≡ is_some (holding (meant self.now).regions addr.0) }
    {
        self.region_at(addr).is_some()
    }

    // as of a region's offsets: a trait for both would need an `impl` for each, longer than these lines

    /// The address itself where some region holds it.
    fn check_address(&self, addr: GuestAddress) -> Option<GuestAddress>
        ensures { lawful self.now → option_map (λ a. a.0) result ≡ present (meant self.now).regions addr.0 }
    {
        self.address_in_range(addr).then_some(addr)
    }

    /// The address plus `offset` where some region holds that.
    fn checked_offset(&self, base: GuestAddress, offset: u64) -> Option<GuestAddress>
        ensures { lawful self.now → option_map (λ a. a.0) result ≡ present_plus (meant self.now).regions base.0 offset }
    {
        self.check_address(base.checked_add(offset)?)
    }
}

/// A backend that also tells how many regions it has and where they end.
pub trait Surveyed: GuestMemoryBackend {
    /// The number of regions.
    fn num_regions(&self) -> usize
        ensures { result ≡ length (Self.GuestMemoryBackend.meant self.now).regions };

    /// The highest address of any region; 0 where there is none.
    fn last_addr(&self) -> GuestAddress
        ensures { Self.GuestMemoryBackend.lawful self.now → result.0 ≡ highest (Self.GuestMemoryBackend.meant self.now).regions };
}
