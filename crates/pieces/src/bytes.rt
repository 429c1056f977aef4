// The bytes of a piece.
ghost use Rattle.std.specs.Prelude.{◌≡◌};
ghost use Rattle.pieces.specs.Pieces.{piece_bytes, seen};

use crate::error::GuestMemoryError;
use crate::piece::Piece;
use backend::backend::GuestMemoryBackend;

/// The part of the host buffer that a piece names. Refused, the first no: the buffer has not the length
/// that the memory states, the piece does not end within it.
pub fn bytes_of<'a, M: GuestMemoryBackend>(
    memory: &M,
    host: &'a [u8],
    piece: Piece,
) -> Result<&'a [u8], GuestMemoryError>
    ensures { seen result ≡ piece_bytes (M.GuestMemoryBackend.meant memory.now).host host.now piece }
{
    if host.len() as u64 != memory.host_len() {
        return Err(GuestMemoryError::BadHost);
    }
    piece
        .place
        .checked_add(piece.len)
        .and_then(|end| host.get(piece.place as usize..end as usize))
        .ok_or(GuestMemoryError::InvalidBackendAddress)
}
