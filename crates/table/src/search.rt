// The search for the range that holds an address.
ghost use Rattle.std.specs.Prelude.{◌≡◌, ◌<◌, map, length, IfSome};
ghost use Rattle.region.specs.Grounds.{Ascending};
ghost use Rattle.table.specs.Questions.{holder};

use address::address::GuestAddress;
use region::region::AddressRange;

/// The index of the range that holds the address, by halving a table whose ranges ascend.
pub fn find_index<R: AddressRange>(table: &[R], addr: GuestAddress) -> Option<usize>
    ensures within { IfSome result (λ i. i < length table.now) }
    ensures exact { Ascending (map R.AddressRange.range table.now) (length table.now) → result ≡ holder (map R.AddressRange.range table.now) addr.0 }
{
    // `partition_point` (tried) goes on to the end where the middle region holds the address, and takes up to
    // eight times as long
    let mut low = 0;
    let mut high = table.len();
    while low < high {
        let mid = low + (high - low) / 2;
        let range = &table[mid];
        let start = range.start_addr().0;
        if addr.0 < start {
            high = mid;
        } else if addr.0 - start < range.len() {
            return Some(mid);
        } else {
            low = mid + 1;
        }
    }
    None
}
