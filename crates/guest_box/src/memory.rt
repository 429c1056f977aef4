// What the memory of a box is made from.
use address::address::GuestAddress;
use region::slot::SlotRegion;

/// The parts that a memory is made from anew at each command: a struct cannot lend to itself.
#[derive(Drop)]
pub enum Memory {
    /// Nothing was collected yet.
    Absent,
    /// The regions of a collection.
    Regions(Vec<SlotRegion>),
    /// The base and the entries of frame memory.
    Frames(GuestAddress, Vec<u32>),
}
