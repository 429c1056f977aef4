// What a box is asked: about its memory, and about its host bytes.
ghost use Rattle.std.specs.Prelude.{◌≡◌, length};
ghost use Rattle.pieces.specs.Pieces.{piece_bytes};
ghost use Rattle.answers.specs.declared.Answer.TheVariants.{Number};
ghost use Rattle.answers.specs.Failures.{Settles};
ghost use Rattle.asks.specs.Asked.{fnv, Shown};
ghost use Rattle.survey.specs.Questions.{AnswersTo};
ghost use Rattle.guest_box.specs.Memories.{Kept, ground_held};

use crate::guest_box::GuestBox;
use crate::memory::Memory;
use answers::Answer;
use answers::failure::Failure;
use collection::collection::GuestRegionCollection;
use frames::memory::FrameMemory;
use pieces::piece::Piece;
use region::region::AddressRange;
use region::slot::SlotRegion;
use std::alloc::Global;
use survey::question::Question;
use survey::surveyed::ask_memory;

impl GuestBox {
    /// The answer of the memory, which is made anew from its parts; an error where there is none yet.
    pub fn ask(&self, heap: Global, question: Question) -> Result<Answer, Failure>
        ensures answer { Settles result (λ x. AnswersTo (ground_held (length self.now.host) self.now.memory) question x) }
        ensures kept { Kept self.now }
    {
        let host_len = self.host_len();
        // the parts passed their questions once, so each `unwrap` is proved to find what they make
        match &self.memory {
            Memory::Absent => Err(Failure::Error),
            Memory::Regions(regions) => {
                let table = regions.as_slice();
                let made = GuestRegionCollection::from_edited(table, table.len(), host_len);
                ask_memory(heap, &made.unwrap(), question)
            }
            Memory::Frames(base, entries) => {
                let made = FrameMemory::new(*base, entries.as_slice(), host_len);
                ask_memory(heap, &made.unwrap(), question)
            }
        }
    }

    /// The bytes of a piece of the host buffer.
    pub fn bytes(&self, heap: Global, piece: Piece) -> Result<Answer, Failure>
        ensures answer { Settles result (λ x. Shown (piece_bytes (length self.now.host) self.now.host piece) x) }
        ensures kept { Kept self.now }
    {
        let memory: GuestRegionCollection<'_, SlotRegion> = GuestRegionCollection::new(
            self.host_len(),
        );
        asks::host::bytes(heap, &memory, self.host.as_slice(), piece)
    }

    /// The hash of the whole host buffer.
    pub fn digest(&self) -> Answer
        ensures answer { result ≡ Number (fnv 0xcbf29ce484222325 self.now.host) }
        ensures kept { Kept self.now }
    {
        Answer::Number(asks::host::digest(self.host.as_slice()))
    }
}
