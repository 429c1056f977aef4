// A piece of host memory, and a cursor over the pieces of a range.
use address::address::GuestAddress;

/// `len` bytes of the host buffer from `place` on.
#[derive(Clone, Copy, PartialEq, Eq)]
pub struct Piece {
    pub place: u64,
    pub len: u64,
}

/// What is left of a range: its next address and how many bytes.
#[derive(Clone, Copy)]
pub struct PhysicalCursor {
    pub(crate) addr: GuestAddress,
    pub(crate) count: u64,
}
