// Questions about a memory of any kind.
ghost use Rattle.std.specs.Prelude.{◌≡◌};
ghost use Rattle.answers.specs.Failures.{Settles};
ghost use Rattle.asks.specs.Asked.{found, Sliced};

use address::address::GuestAddress;
use address::permissions::Permissions;
use answers::failure::Failure;
use answers::{Answer, Span};
use backend::backend::GuestMemoryBackend;
use pieces::piece::PhysicalCursor;
use refusal::Refusal;
use region::region::{AddressRange, GuestMemoryRegion};
use std::alloc::Global;

/// A range by its start and its length.
pub fn span_of<R: AddressRange>(range: &R) -> Span
    ensures { result ≡ record { start = (R.AddressRange.range range.now).start; len = (R.AddressRange.range range.now).len } }
{
    Span {
        start: range.start_addr().0,
        len: range.len(),
    }
}

/// The region that holds an address.
pub fn find<M: GuestMemoryBackend>(memory: &M, address: u64) -> Answer
    ensures { M.GuestMemoryBackend.lawful memory.now → result ≡ found (M.GuestMemoryBackend.meant memory.now) address }
{
    memory
        .region_at(GuestAddress(address))
        .map_or(Answer::Absent, |region| {
            Answer::Region(span_of(&region), region.host_place())
        })
}

/// The pieces of a range, for an access by its raw value, and what a further draw is refused for.
pub fn slices<M: GuestMemoryBackend>(
    heap: Global,
    memory: &M,
    address: u64,
    count: u64,
    access: u64, // raw: it is asked here whether it is one
) -> Result<Answer, Failure>
    ensures { Settles result (λ x. M.GuestMemoryBackend.lawful memory.now → Sliced (M.GuestMemoryBackend.meant memory.now) address count access x) }
{
    Permissions::try_from(access).map_err(Refusal::from)?;
    let mut cursor = PhysicalCursor::new(GuestAddress(address), count);
    let mut pieces = Vec::new(heap);
    // a rule of the project: a cursor is numbers, given the memory at each draw, so it is no iterator
    loop {
        match cursor.draw(memory) {
            Ok(Some(piece)) => pieces.push(Span {
                start: piece.place,
                len: piece.len,
            })?,
            Ok(None) => return Ok(Answer::Pieces(pieces, None)),
            Err(error) => return Ok(Answer::Pieces(pieces, Some(error.into()))),
        }
    }
}
