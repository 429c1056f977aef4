// Insertion and removal, written once for tables of any region type: the new table goes into a second
// one, whose further entries keep their values. The two tables are lent apart: one is read, one written.
ghost use Rattle.std.specs.Prelude.{◌≡◌, ℕ, ◌+◌, ◌-◌, ◌<◌, ◌≤◌, ◌++◌, map, length, drop, IfSome, Decides, MatchResult};
ghost use Rattle.std.specs.List.{insert, remove};
ghost use Rattle.region.specs.Grounds.{Apart, Ascending, KeepsMeaning};
ghost use Rattle.region.specs.Regions.{shown};
ghost use Rattle.table.specs.Edits.{Fitted, Inserts, Removes, exactly, exact_index};

use crate::checks::check_pair;
use crate::error::GuestRegionCollectionError;
use crate::search::find_index;
use address::address::GuestAddress;
use region::region::{AddressRange, GuestMemoryRegion, is_sound};

/// Whether the left range ends before the right one starts.
fn ends_before<R: AddressRange>(left: &R, right: &R) -> bool
    ensures { Decides result (Apart (R.AddressRange.range left.now) (R.AddressRange.range right.now)) }
{
    check_pair(left, right).is_ok()
}

/// The index at which a range fits between those of an ascending table, where it is clear of them.
fn free_place<R: AddressRange>(table: &[R], new: &R) -> Option<usize>
    ensures within { IfSome result (λ i. i ≤ length table.now) }
    ensures exact { Ascending (map R.AddressRange.range table.now) (length table.now) → 0 < (R.AddressRange.range new.now).len → Fitted (map R.AddressRange.range table.now) (R.AddressRange.range new.now) result }
{
    let i = table
        .iter()
        .take_while(|&range| ends_before(range, new))
        .count();
    let clear = table.get(i).is_none_or(|range| ends_before(new, range));
    clear.then_some(i)
}

/// Writes the table with `new` at index `i` into `dest`.
fn insert_into<R: Copy>(table: &[R], i: usize, new: R, dest: &mut [R])
    requires place { i ≤ length table.now }
    requires room { length table.now < length dest.old }
    ensures { dest.new ≡ insert table.now i new ++ drop (length table.now + 1) dest.old }
{
    dest[..i].copy_from_slice(&table[..i]);
    dest[i] = new;
    dest[i + 1..table.len() + 1].copy_from_slice(&table[i..]);
}

/// Writes the table without its entry at index `i` into `dest`.
fn remove_into<R: Copy>(table: &[R], i: usize, dest: &mut [R])
    requires place { i < length table.now }
    requires room { length table.now ≤ length dest.old + 1 }
    ensures { dest.new ≡ remove table.now i ++ drop (length table.now - 1) dest.old }
{
    dest[..i].copy_from_slice(&table[..i]);
    dest[i..table.len() - 1].copy_from_slice(&table[i + 1..]);
}

// A table is not known to keep its meaning, as a collection is: `exact` has it as a premise, and the host
// length stands beside the table.

/// Writes the regions of a table with one more into `dest`, and answers their number.
pub fn insert<R: GuestMemoryRegion + Copy>(
    table: &[R],
    host_len: u64,
    region: R,
    dest: &mut [R],
) -> Result<usize, GuestRegionCollectionError>
    ensures within { MatchResult result (λ n. n ≤ length dest.new) (λ _. dest.new ≡ dest.old) }
    ensures exact { KeepsMeaning (record { host = host_len; regions = map (shown R.AddressRange.range R.GuestMemoryRegion.place) table.now }) → Inserts R.AddressRange.range R.GuestMemoryRegion.place host_len table.now region dest.old dest.new result }
{
    if dest.len() <= table.len() {
        return Err(GuestRegionCollectionError::NoRoom);
    }
    if !is_sound(&region, host_len) {
        return Err(GuestRegionCollectionError::BadRegion(0));
    }
    let i = free_place(table, &region).ok_or(GuestRegionCollectionError::MemoryRegionOverlap)?;
    insert_into(table, i, region, dest);
    Ok(table.len() + 1)
}

// a start and a length side by side, as in the Rust's `remove_region`

/// Whether a range has exactly this start and length.
fn is_exactly<R: AddressRange>(range: &R, start: GuestAddress, len: u64) -> bool
    ensures { result ≡ exactly start.0 len (R.AddressRange.range range.now) }
{
    range.start_addr().0 == start.0 && range.len() == len
}

/// The index of the region of exactly this start and length: if there is one, it holds the start.
fn index_of<R: GuestMemoryRegion>(table: &[R], start: GuestAddress, len: u64) -> Option<usize>
    ensures within { IfSome result (λ i. i < length table.now) }
    ensures exact { (host : ℕ) → KeepsMeaning (record { host = host; regions = map (shown R.AddressRange.range R.GuestMemoryRegion.place) table.now }) → result ≡ exact_index (map R.AddressRange.range table.now) start.0 len }
{
    let i = find_index(table, start)?;
    is_exactly(&table[i], start, len).then_some(i)
}

/// Writes the regions of a table without the one of exactly this start and length into `dest`, and
/// answers their number and the removed region.
pub fn remove<R: GuestMemoryRegion + Copy>(
    table: &[R],
    start: GuestAddress,
    len: u64,
    dest: &mut [R],
) -> Result<(usize, R), GuestRegionCollectionError>
    ensures within { MatchResult result (λ p. p.0 ≤ length dest.new) (λ _. dest.new ≡ dest.old) }
    ensures exact { (host : ℕ) → KeepsMeaning (record { host = host; regions = map (shown R.AddressRange.range R.GuestMemoryRegion.place) table.now }) → Removes R.AddressRange.range R.GuestMemoryRegion.place host table.now start.0 len dest.old dest.new result }
{
    let i = index_of(table, start, len).ok_or(GuestRegionCollectionError::NoMemoryRegion)?;
    if dest.len() < table.len() - 1 {
        return Err(GuestRegionCollectionError::NoRoom);
    }
    remove_into(table, i, dest);
    Ok((table.len() - 1, table[i]))
}
