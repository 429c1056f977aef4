// Inserting a region into the collection of the box, and removing one.
ghost use Rattle.std.specs.Prelude.{◌≡◌, length};
ghost use Rattle.answers.specs.Failures.{Settles};
ghost use Rattle.guest_box.specs.Changes.{insert_answer, insert_held, remove_answer, remove_held};
ghost use Rattle.guest_box.specs.Memories.{Kept, with_memory};

use crate::guest_box::GuestBox;
use crate::memory::Memory;
use answers::Answer;
use answers::failure::Failure;
use asks::memory::span_of;
use region::region::GuestMemoryRegion;
use region::slot::SlotRegion;
use regions::{with_region, without_region};
use std::alloc::Global;

// Both begin by taking the regions out of the memory: a function of that would have to promise more than
// the lines say. A start and a length go side by side, as the command has them.

impl GuestBox {
    /// Inserts a region, the table for the new collection having `room` entries. An error where the
    /// memory is no collection.
    pub fn insert(&mut self, heap: Global, room: u64, region: SlotRegion) -> Result<Answer, Failure>
        ensures answer { Settles result (λ x. (x ≡ insert_answer (length self.old.host) room self.old.memory region) × (self.new ≡ with_memory self.old (insert_held (length self.old.host) room self.old.memory region))) }
        ensures kept { Kept self.new }
    {
        let Memory::Regions(regions) = &self.memory else {
            return Err(Failure::Error);
        };
        let inserted = with_region(heap, regions.as_slice(), self.host_len(), room, region)?;
        let count = inserted.len() as u64;
        self.memory = Memory::Regions(inserted);
        Ok(Answer::Number(count))
    }

    /// Removes the region of exactly this start and length, likewise.
    pub fn remove(
        &mut self,
        heap: Global,
        room: u64,
        start: u64,
        len: u64,
    ) -> Result<Answer, Failure>
        ensures answer { Settles result (λ x. (x ≡ remove_answer room self.old.memory start len) × (self.new ≡ with_memory self.old (remove_held room self.old.memory start len))) }
        ensures kept { Kept self.new }
    {
        let Memory::Regions(regions) = &self.memory else {
            return Err(Failure::Error);
        };
        let (left, removed) = without_region(
            heap,
            regions.as_slice(),
            self.host_len(),
            room,
            start,
            len,
        )?;
        let count = left.len() as u64;
        self.memory = Memory::Regions(left);
        Ok(Answer::Removed(count, span_of(&removed), removed.host_place()))
    }
}
