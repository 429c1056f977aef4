// The regions of the box with one more or one less, in a table of their own.
#![tactic(auto)]

ghost use Rattle.std.specs.Prelude.{◌≡◌, min, map, length, IfOk, None, vec_len};
ghost use Rattle.region.specs.Regions.{shown};
ghost use Rattle.region.specs.Slots.{slot_range, slot_place};
ghost use Rattle.table.specs.Questions.{table_fault};
ghost use Rattle.regions.specs.Changes.{ComesTo, Insertion, Removal};

pub mod error;

use crate::error::EditError;
use address::address::GuestAddress;
use collection::collection::GuestRegionCollection;
use region::region::AddressRange;
use region::slot::SlotRegion;
use std::alloc::{AllocError, Global};

/// A table for the new regions: of the room that is offered it has what can be of use.
fn table_of(heap: Global, room: u64, most: usize) -> Result<Vec<SlotRegion>, AllocError>
    ensures { IfOk result (λ v. vec_len v ≡ min room most) }
{
    let blank = SlotRegion::Window {
        start: GuestAddress(0),
        len: 0,
    };
    Vec::from_elem(heap, blank, room.min(most as u64) as usize)
}

// A start and a length, a table and a host length go side by side, as the command and the box have them.
// The two edits are alike but for the call, the room and the answer. One function over a closure would need
// a contract of what the closure writes, longer than these lines.

/// The regions with one more, the table for them having `room` entries.
pub fn with_region(
    heap: Global,
    table: &[SlotRegion],
    host_len: u64,
    room: u64,
    region: SlotRegion,
) -> Result<Vec<SlotRegion>, EditError>
    ensures { ComesTo result (λ x. (table_fault host_len (map (shown slot_range slot_place) table.now) ≡ None → Insertion host_len room table.now region x)) }
{
    let collection = GuestRegionCollection::from_edited(table, table.len(), host_len)?;
    let mut dest = table_of(heap, room, table.len().saturating_add(1))?;
    let count = collection.insert_region(region, dest.as_mut_slice())?;
    dest.truncate(count);
    Ok(dest)
}

/// The regions without the one of exactly this start and length, and that one.
pub fn without_region(
    heap: Global,
    table: &[SlotRegion],
    host_len: u64,
    room: u64,
    start: u64,
    len: u64,
) -> Result<(Vec<SlotRegion>, SlotRegion), EditError>
    ensures { ComesTo result (λ x. (table_fault host_len (map (shown slot_range slot_place) table.now) ≡ None → Removal host_len room table.now start len x)) }
{
    let collection = GuestRegionCollection::from_edited(table, table.len(), host_len)?;
    let mut dest = table_of(heap, room, table.len())?;
    let (count, removed) = collection.remove_region(GuestAddress(start), len, dest.as_mut_slice())?;
    dest.truncate(count);
    Ok((dest, removed))
}
