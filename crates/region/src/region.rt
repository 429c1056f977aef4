// What a region is asked, and what follows from its answers.
ghost use Rattle.std.specs.Prelude.{◌≡◌, ℕ, Option, option_map};
ghost use Rattle.region.specs.Ranges.{Range, last_address, within, offset_within, offset_plus, offset_of};
ghost use Rattle.region.specs.Regions.{shown, sound};

use address::address::{Address, GuestAddress, MemoryRegionAddress};

/// A range of guest addresses: a start and a length, answered alike each time.
pub trait AddressRange {
    ghost range: { Self → Range };

    fn start_addr(&self) -> GuestAddress
        ensures { result.0 ≡ (range self.now).start };

    fn len(&self) -> u64
        ensures { result ≡ (range self.now).len };

    /// The last address of the range, 2^64 - 1 at most; the start where the range is empty.
    fn last_addr(&self) -> GuestAddress
        ensures { result.0 ≡ last_address (range self.now) }
    {
        let start = self.start_addr();
        GuestAddress(start.0.saturating_add(self.len().saturating_sub(1)))
    }

    /// Whether an offset lies within the range.
    fn address_in_range(&self, addr: MemoryRegionAddress) -> bool
        ensures { result ≡ within (range self.now) addr.0 }
    {
        addr.0 < self.len()
    }

    /// The offset itself where it lies within the range.
    fn check_address(&self, addr: MemoryRegionAddress) -> Option<MemoryRegionAddress>
        ensures { option_map (λ a. a.0) result ≡ offset_within (range self.now) addr.0 }
    {
        self.address_in_range(addr).then_some(addr)
    }

    /// The offset plus `offset`, where that lies within the range.
    fn checked_offset(&self, base: MemoryRegionAddress, offset: u64) -> Option<MemoryRegionAddress>
        ensures { option_map (λ a. a.0) result ≡ offset_plus (range self.now) base.0 offset }
    {
        self.check_address(base.checked_add(offset)?)
    }

    /// How far an address lies above the start, where the range holds it.
    fn to_region_addr(&self, addr: GuestAddress) -> Option<MemoryRegionAddress>
        ensures { option_map (λ a. a.0) result ≡ offset_of (range self.now) addr.0 }
    {
        let offset = addr.checked_offset_from(self.start_addr())?;
        self.check_address(MemoryRegionAddress(offset))
    }
}

/// A region of guest memory: a range, and the place of its bytes in the host buffer, or none.
pub trait GuestMemoryRegion: AddressRange {
    ghost place: { Self → Option ℕ };

    fn host_place(&self) -> Option<u64>
        ensures { result ≡ place self.now };
}

/// Whether a region is sound for a host buffer of `host_len` bytes.
pub fn is_sound<R: GuestMemoryRegion>(region: &R, host_len: u64) -> bool
    ensures { result ≡ sound host_len (shown R.AddressRange.range R.GuestMemoryRegion.place region.now) }
{
    let len = region.len();
    len != 0
        && region.start_addr().0 <= u64::MAX - (len - 1)
        && region
            .host_place()
            .is_none_or(|place| place <= host_len && len <= host_len - place)
}
