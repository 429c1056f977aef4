// Questions about addresses alone.
ghost use Rattle.std.specs.Prelude.{◌≡◌, bit_and, option_map};
ghost use Rattle.address.specs.Addresses.{sum, difference, wrapped_sum, passes_top, wrapped_difference, passes_bottom};
ghost use Rattle.answers.specs.declared.Answer.TheVariants.{Checked, Number};
ghost use Rattle.asks.specs.Asked.{number_or_none};

use address::address::{Address, GuestAddress};
use answers::Answer;

/// A checked result, and the wrapped one with whether it wrapped.
fn both(checked: Option<GuestAddress>, overflowing: (GuestAddress, bool)) -> Answer
    ensures { result ≡ Checked (option_map (λ a. a.0) checked) overflowing.0.0 overflowing.1 }
{
    let (wrapped, over) = overflowing;
    Answer::Checked(checked.map(|addr| addr.0), wrapped.0, over)
}

/// An address plus a number: the sum where it fits 64 bits, the sum modulo 2^64, and whether it passed
/// the top.
pub fn add(address: u64, by: u64) -> Answer
    ensures { result ≡ Checked (sum address by) (wrapped_sum address by) (passes_top address by) }
{
    let addr = GuestAddress(address);
    both(addr.checked_add(by), addr.overflowing_add(by))
}

/// An address less a number, likewise.
pub fn sub(address: u64, by: u64) -> Answer
    ensures { result ≡ Checked (difference address by) (wrapped_difference address by) (passes_bottom address by) }
{
    let addr = GuestAddress(address);
    both(addr.checked_sub(by), addr.overflowing_sub(by))
}

/// How far an address lies above a base, if it does.
pub fn offset(address: u64, base: u64) -> Answer
    ensures { result ≡ number_or_none (difference address base) }
{
    GuestAddress(address)
        .checked_offset_from(GuestAddress(base))
        .map_or(Answer::Absent, Answer::Number)
}

/// The bits that an address and a mask both have.
pub fn mask(address: u64, mask: u64) -> Answer
    ensures { result ≡ Number (bit_and address mask) }
{
    Answer::Number(GuestAddress(address).mask(mask))
}
