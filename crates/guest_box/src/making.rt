// Making the box: its host bytes, the regions to collect, its memory.
ghost use Rattle.std.specs.Prelude.{◌≡◌, ℕ, ◌<◌, [], ◌∷◌, ◌++◌, length, IfOk, OnOk, MatchResult, slice_index};
ghost use Rattle.frames.specs.Frames.{frames, frames_fault};
ghost use Rattle.answers.specs.declared.Answer.TheVariants.{Refused};
ghost use Rattle.asks.specs.Asked.{filler};
ghost use Rattle.guest_box.specs.Memories.{Kept, absent, over, framed, with_memory, collect_fault, counted_or_refused, held_if};

use crate::guest_box::GuestBox;
use crate::memory::Memory;
use address::address::GuestAddress;
use answers::Answer;
use asks::host::new_host;
use collection::collection::GuestRegionCollection;
use frames::memory::FrameMemory;
use refusal::Refusal;
use region::region::AddressRange;
use region::slot::SlotRegion;
use std::alloc::{AllocError, Global};

impl GuestBox {
    /// A box of `len` host bytes, each of which tells its place, with nothing collected.
    pub fn new(heap: Global, len: u64) -> Result<GuestBox, AllocError>
        ensures state { IfOk result (λ b. (length b.host ≡ len) × ((p : ℕ) → p < len → slice_index b.host p ≡ filler p) × (b.pending ≡ []) × (b.memory ≡ absent)) }
        ensures kept { IfOk result (λ b. Kept b) }
    {
        let host = new_host(heap, len)?;
        Ok(GuestBox {
            host,
            pending: Vec::new(heap),
            memory: Memory::Absent,
        })
    }

    /// Adds a region to those that the next collection is made from.
    pub fn add_region(&mut self, region: SlotRegion) -> Result<(), AllocError>
        ensures state { OnOk result (self.new ≡ record { host = self.old.host; pending = self.old.pending ++ (region ∷ []); memory = self.old.memory }) }
        ensures kept { Kept self.new }
    {
        self.pending.push(region)?;
        Ok(())
    }

    /// Makes the collection of the regions added; after it, refused or not, none is left to collect.
    pub fn collect(&mut self, heap: Global) -> Answer
        ensures answer { result ≡ counted_or_refused (length self.old.pending) (collect_fault self.old) }
        ensures state { self.new ≡ record { host = self.old.host; pending = []; memory = held_if (collect_fault self.old) (over self.old.pending) self.old.memory } }
        ensures kept { Kept self.new }
    {
        self.try_collect(heap).unwrap_or_else(Answer::Refused)
    }

    /// The number of regions collected, or the refusal.
    fn try_collect(&mut self, heap: Global) -> Result<Answer, Refusal>
        ensures answer { let answer = counted_or_refused (length self.old.pending) (collect_fault self.old) in MatchResult result (λ x. x ≡ answer) (λ r. Refused r ≡ answer) }
        ensures state { self.new ≡ record { host = self.old.host; pending = []; memory = held_if (collect_fault self.old) (over self.old.pending) self.old.memory } }
        ensures kept { Kept self.new }
    {
        let regions = std::mem::replace(&mut self.pending, Vec::new(heap));
        let host_len = self.host_len();
        GuestRegionCollection::from_regions(regions.as_slice(), host_len)?;
        let count = regions.len() as u64;
        self.memory = Memory::Regions(regions);
        Ok(Answer::Number(count))
    }

    /// Makes frame memory from its entries.
    pub fn frame(&mut self, base: u64, entries: Vec<u32>) -> Answer
        ensures answer { result ≡ counted_or_refused (length (frames base entries.items)) (frames_fault (length self.old.host) base entries.items) }
        ensures state { self.new ≡ with_memory self.old (held_if (frames_fault (length self.old.host) base entries.items) (framed base entries.items) self.old.memory) }
        ensures kept { Kept self.new }
    {
        self.try_frame(base, entries)
            .unwrap_or_else(Answer::Refused)
    }

    /// The number of regions of the frame memory made, or the refusal.
    fn try_frame(&mut self, base: u64, entries: Vec<u32>) -> Result<Answer, Refusal>
        ensures answer { let answer = counted_or_refused (length (frames base entries.items)) (frames_fault (length self.old.host) base entries.items) in MatchResult result (λ x. x ≡ answer) (λ r. Refused r ≡ answer) }
        ensures state { self.new ≡ with_memory self.old (held_if (frames_fault (length self.old.host) base entries.items) (framed base entries.items) self.old.memory) }
        ensures kept { Kept self.new }
    {
        let base = GuestAddress(base);
        let host_len = self.host_len();
        let memory = FrameMemory::new(base, entries.as_slice(), host_len)?;
        let count = memory.num_regions() as u64;
        self.memory = Memory::Frames(base, entries);
        Ok(Answer::Number(count))
    }
}
