// Questions about the host bytes. The allocator goes first to whatever makes a vector, here and above.
ghost use Rattle.std.specs.Prelude.{◌≡◌, ℕ, ◌<◌, IfOk, vec_len, slice_index};
ghost use Rattle.pieces.specs.Pieces.{piece_bytes};
ghost use Rattle.answers.specs.Failures.{Settles};
ghost use Rattle.asks.specs.Asked.{Shown, filler, fnv};

use answers::Answer;
use answers::failure::Failure;
use backend::backend::GuestMemoryBackend;
use pieces::bytes::bytes_of;
use pieces::piece::Piece;
use refusal::Refusal;
use std::alloc::{AllocError, Global};

/// A new host buffer: each byte tells its place.
pub fn new_host(heap: Global, len: u64) -> Result<Vec<u8>, AllocError>
    ensures { IfOk result (λ v. (vec_len v ≡ len) × ((p : ℕ) → p < len → slice_index v.items p ≡ filler p)) }
{
    (0..len)
        .map(|place| (((place % 256) * 7 + 3) % 256) as u8)
        .collect(heap)
}

/// The FNV-1a hash of the host bytes.
pub fn digest(host: &[u8]) -> u64
    ensures { result ≡ fnv 0xcbf29ce484222325 host.now }
{
    host.iter().fold(0xcbf2_9ce4_8422_2325, |hash, byte| {
        (hash ^ u64::from(*byte)).wrapping_mul(0x100_0000_01b3)
    })
}

/// The bytes of a piece.
pub fn bytes<M: GuestMemoryBackend>(
    heap: Global,
    memory: &M,
    host: &[u8],
    piece: Piece,
) -> Result<Answer, Failure>
    ensures { Settles result (λ x. Shown (piece_bytes (M.GuestMemoryBackend.meant memory.now).host host.now piece) x) }
{
    let part = bytes_of(memory, host, piece).map_err(Refusal::from)?;
    Ok(Answer::Bytes(Vec::from_slice(heap, part)?))
}
