// The two kinds of region: RAM, and a slot that is RAM or a window.
ghost use Rattle.std.specs.Prelude.{◌≡◌};
ghost use Rattle.region.specs.Regions.{shown};
ghost use Rattle.region.specs.Slots.{ram_range, ram_place, slot_range, slot_place};

use crate::region::{AddressRange, GuestMemoryRegion};
use address::address::GuestAddress;

/// Guest RAM: it always has a place in the host buffer.
#[derive(Clone, Copy)]
pub struct RamRegion {
    pub start: GuestAddress,
    pub len: u64,
    pub place: u64,
}

impl AddressRange for RamRegion {
    ghost range = { ram_range };

    fn start_addr(&self) -> GuestAddress {
        self.start
    }

    fn len(&self) -> u64 {
        self.len
    }
}

impl GuestMemoryRegion for RamRegion {
    ghost place = { ram_place };

    fn host_place(&self) -> Option<u64> {
        Some(self.place)
    }
}

/// RAM, or a window: addresses without host memory. The project tells the two apart by these words.
#[derive(Clone, Copy)]
pub enum SlotRegion {
    Ram(RamRegion),
    Window { start: GuestAddress, len: u64 },
}

impl SlotRegion {
    /// The start, the length and the host place.
    fn parts(&self) -> (GuestAddress, u64, Option<u64>)
        ensures { (result.0.0 ≡ (slot_range self.now).start) × (result.1 ≡ (slot_range self.now).len) × (result.2 ≡ slot_place self.now) }
    {
        match self {
            SlotRegion::Ram(ram) => (ram.start, ram.len, Some(ram.place)),
            SlotRegion::Window { start, len } => (*start, *len, None),
        }
    }
}

impl AddressRange for SlotRegion {
    ghost range = { slot_range };

    fn start_addr(&self) -> GuestAddress {
        self.parts().0
    }

    fn len(&self) -> u64 {
        self.parts().1
    }
}

impl GuestMemoryRegion for SlotRegion {
    ghost place = { slot_place };

    fn host_place(&self) -> Option<u64> {
        self.parts().2
    }
}

/// The slot that means what a region of any kind means.
pub fn slot_of<R: GuestMemoryRegion>(region: &R) -> SlotRegion
    ensures { shown slot_range slot_place result ≡ shown R.AddressRange.range R.GuestMemoryRegion.place region.now }
{
    let start = region.start_addr();
    let len = region.len();
    match region.host_place() {
        Some(place) => SlotRegion::Ram(RamRegion { start, len, place }),
        None => SlotRegion::Window { start, len },
    }
}
