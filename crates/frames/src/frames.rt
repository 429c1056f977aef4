// Making frame memory, and asking it as a backend.
ghost use Rattle.std.specs.Prelude.{◌≡◌, ◌≢◌, ⊤, ℕ, ◌*◌, ◌<◌, length, slice_index, Some, None, MatchOption, MatchResult};
ghost use Rattle.region.specs.Regions.{shown};
ghost use Rattle.region.specs.Slots.{slot_range, slot_place};
ghost use Rattle.region.specs.Grounds.{holding};
ghost use Rattle.collection.specs.Collections.{highest};
ghost use Rattle.frames.specs.Frames.{frames, frames_fault, well_shaped, first_outside};
ghost use Rattle.frames.specs.Memories.{frames_ground};

use crate::memory::FrameMemory;
use address::address::{Address, GuestAddress};
use backend::backend::{GuestMemoryBackend, Surveyed};
use region::slot::{RamRegion, SlotRegion};
use table::error::GuestRegionCollectionError;

/// The bytes of a frame.
const FRAME: u64 = 4096;

/// Whether the base and the number of entries are those of frame memory.
fn is_well_shaped(base: GuestAddress, entries: &[u32]) -> bool
    ensures { result ≡ well_shaped base.0 entries.now }
{
    let count = entries.len();
    base.0 % FRAME == 0
        && count >= 1
        && count <= 1024
        && base.0 <= u64::MAX - (FRAME * count as u64 - 1)
}

/// The end of a present frame in the host buffer, by its entry.
fn host_end(entry: u32) -> u64
    ensures { result ≡ 4096 * entry }
{
    FRAME * u64::from(entry)
}

/// The index of the first entry whose frame does not end within the host length.
fn first_outside_index(entries: &[u32], host_len: u64) -> Option<usize>
    ensures { result ≡ first_outside host_len entries.now }
{
    entries.iter().position(|entry| host_end(*entry) > host_len)
}

/// The index of the last entry whose frame is present.
fn last_present(entries: &[u32]) -> Option<usize>
    ensures { MatchOption result ((k : ℕ) → k < length entries.now → slice_index entries.now k ≡ 0) (λ n. (n < length entries.now) × (slice_index entries.now n ≢ 0) × ((k : ℕ) → n < k → k < length entries.now → slice_index entries.now k ≡ 0)) }
{
    entries.iter().rposition(|entry| *entry != 0)
}

impl<'a> FrameMemory<'a> {
    /// Frame memory over these entries. Refused with index 0 where the base, the number of entries or
    /// their end is not as it has to be, else with the first frame that ends past the host length.
    pub fn new(
        base: GuestAddress,
        entries: &'a [u32],
        host_len: u64,
    ) -> Result<Self, GuestRegionCollectionError>
        ensures answer { MatchResult result (λ m. (frames_fault host_len base.0 entries.now ≡ None) × (m.base ≡ base) × (m.entries.now ≡ entries.now) × (m.host_len ≡ host_len)) (λ e. frames_fault host_len base.0 entries.now ≡ Some e) }
    {
        if !is_well_shaped(base, entries) {
            return Err(GuestRegionCollectionError::BadRegion(0));
        }
        match first_outside_index(entries, host_len) {
            Some(i) => Err(GuestRegionCollectionError::BadRegion(i)),
            None => Ok(FrameMemory {
                base,
                entries,
                host_len,
            }),
        }
    }

    /// The number of present frames.
    pub fn num_regions(&self) -> usize
        ensures { result ≡ length (frames_ground self.now).regions }
    {
        // `filter` and `count` (tried) take twice the time, and of a `sum` the proof does not close
        let mut count = 0;
        for entry in self.entries {
            if *entry != 0 {
                count += 1;
            }
        }
        count
    }

    /// The last address of the last present frame; 0 where none is present.
    pub fn last_addr(&self) -> GuestAddress
        ensures { result.0 ≡ highest (frames_ground self.now).regions }
    {
        match last_present(self.entries) {
            Some(n) => GuestAddress(self.base.0 + FRAME * n as u64 + (FRAME - 1)),
            None => GuestAddress(0),
        }
    }
}

impl<'a> GuestMemoryBackend for FrameMemory<'a> {
    ghost meant = { frames_ground };

    // each value carries it
    ghost lawful = { λ _. ⊤ };

    ghost keeps = { λ m _. m.lawful };

    fn host_len(&self) -> u64 {
        self.host_len
    }

    fn region_at(&self, addr: GuestAddress) -> Option<SlotRegion> {
        let offset = addr.checked_offset_from(self.base)?;
        let entry = *self.entries.get((offset / FRAME) as usize)?;
        if entry == 0 {
            return None;
        }
        Some(SlotRegion::Ram(RamRegion {
            start: GuestAddress(addr.0 - offset % FRAME),
            len: FRAME,
            place: host_end(entry) - FRAME,
        }))
    }
}

impl<'a> Surveyed for FrameMemory<'a> {
    fn num_regions(&self) -> usize {
        self.num_regions()
    }

    fn last_addr(&self) -> GuestAddress {
        self.last_addr()
    }
}
