// Drawing the pieces of a range without translation: the memory is given at each draw.
ghost use Rattle.std.specs.Prelude.{◌≡◌, ◌+◌, ◌≤◌, IfSome, IfOk, Decides};
ghost use Rattle.pieces.specs.Pieces.{drawn, some_piece, left_after, Longest, Within};

use crate::error::GuestMemoryError;
use crate::piece::{PhysicalCursor, Piece};
use address::address::{Address, GuestAddress, MemoryRegionAddress};
use backend::backend::GuestMemoryBackend;
use region::region::{AddressRange, GuestMemoryRegion};
use region::slot::SlotRegion;

/// Whether `len` bytes at a distance from a place end within the host buffer.
fn ends_within(place: u64, offset: u64, len: u64, host_len: u64) -> bool
    ensures { Decides result (place + offset + len ≤ host_len) }
{
    place <= host_len && offset <= host_len - place && len <= host_len - place - offset
}

/// The piece of at most `count` bytes, at least one, from the address on. Where a backend does not keep
/// its meaning the comparisons refuse what would lie outside the region or the host buffer.
fn piece_at<M: GuestMemoryBackend>(
    memory: &M,
    addr: GuestAddress,
    count: u64,
) -> Result<Piece, GuestMemoryError>
    requires { 1 ≤ count }
    ensures within { IfOk result (λ p. Within (M.GuestMemoryBackend.meant memory.now).host count p) }
    ensures exact { M.GuestMemoryBackend.lawful memory.now → some_piece result ≡ drawn (M.GuestMemoryBackend.meant memory.now) addr.0 count }
{
    // the backend's `to_region_addr` in place of these two (tried) leaves six goals open, these two leave two
    let region = memory
        .region_at(addr)
        .ok_or(GuestMemoryError::InvalidGuestAddress(addr))?;
    let MemoryRegionAddress(offset) = region
        .to_region_addr(addr)
        .ok_or(GuestMemoryError::InvalidGuestAddress(addr))?;
    let len = count.min(region.len() - offset);
    if len - 1 > u64::MAX - addr.0 {
        return Err(GuestMemoryError::GuestAddressOverflow);
    }
    let place = region
        .host_place()
        .ok_or(GuestMemoryError::HostAddressNotAvailable)?;
    if !ends_within(place, offset, len, memory.host_len()) {
        return Err(GuestMemoryError::HostAddressNotAvailable);
    }
    Ok(Piece {
        place: place + offset,
        len,
    })
}

impl PhysicalCursor {
    /// A cursor over `count` bytes from the address on.
    pub fn new(addr: GuestAddress, count: u64) -> Self
        ensures { (result.addr ≡ addr) × (result.count ≡ count) }
    {
        PhysicalCursor { addr, count }
    }

    /// The longest piece from the cursor that stays in the range and in one region; nothing after the
    /// end. A refusal ends the cursor.
    pub fn draw<M: GuestMemoryBackend>(
        &mut self,
        memory: &M,
    ) -> Result<Option<Piece>, GuestMemoryError>
        ensures cursor { self.new ≡ left_after self.old result }
        ensures within { IfOk result (λ o. IfSome o (λ p. Within (M.GuestMemoryBackend.meant memory.now).host self.old.count p)) }
        ensures answer { M.GuestMemoryBackend.lawful memory.now → result ≡ drawn (M.GuestMemoryBackend.meant memory.now) self.old.addr.0 self.old.count }
        ensures longest { M.GuestMemoryBackend.lawful memory.now → IfOk result (λ o. IfSome o (λ p. Longest (M.GuestMemoryBackend.meant memory.now) self.old.addr.0 self.old.count p)) }
    {
        if self.count == 0 {
            return Ok(None);
        }
        match piece_at(memory, self.addr, self.count) {
            Ok(piece) => {
                let (next, _) = self.addr.overflowing_add(piece.len);
                self.addr = next;
                self.count -= piece.len;
                Ok(Some(piece))
            }
            Err(error) => {
                self.count = 0;
                Err(error)
            }
        }
    }
}
