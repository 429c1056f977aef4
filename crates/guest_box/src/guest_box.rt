// A box: its host bytes, the regions to collect, and its memory.
ghost use Rattle.std.specs.Prelude.{◌≡◌, length};
ghost use Rattle.guest_box.specs.Memories.{Kept};

use crate::memory::Memory;
use region::slot::SlotRegion;
use std::marker::Model;

#[derive(Drop)]
pub struct GuestBox {
    pub(crate) host: Vec<u8>,
    pub(crate) pending: Vec<SlotRegion>,
    pub(crate) memory: Memory,
}

impl Model for GuestBox {
    ghost use Rattle.std.specs.Prelude.{◌≡◌, true, length};
    ghost use Rattle.guest_box.specs.Memories.{BoxState, held, passes};

    ghost Value = { BoxState };

    ghost view = { λ b. record { host = b.host.items; pending = b.pending.items; memory = held b.memory } };

    // the memory passed its questions when it was made, so it does so again
    ghost invariant = { λ b. passes (length b.host.items) (held b.memory) ≡ true };
}

impl GuestBox {
    /// The number of host bytes.
    pub fn host_len(&self) -> u64
        ensures answer { result ≡ length self.now.host }
        ensures kept { Kept self.now }
    {
        self.host.len() as u64
    }
}
