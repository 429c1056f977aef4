// An address within an address space, and the operations that every kind of address shares.
ghost use Rattle.std.specs.Prelude.{◌≡◌, ℕ, bit_and, option_map};
ghost use Rattle.address.specs.Addresses.{sum, difference, wrapped_sum, passes_top, wrapped_difference, passes_bottom};

/// An address is a raw number from 0 to 2^64 - 1. The operations are written once, here.
pub trait Address: Sized + Copy {
    ghost raw: { Self → ℕ };

    /// The address of a raw number.
    fn new(raw_value: u64) -> Self
        ensures { raw result ≡ raw_value };

    /// The raw number of this address.
    fn raw_value(&self) -> u64
        ensures { result ≡ raw self.now };

    /// The bits of the address that the mask has too.
    fn mask(&self, mask: u64) -> u64
        ensures { result ≡ bit_and (raw self.now) mask }
    {
        self.raw_value() & mask
    }

    /// How far this address lies above `base`; absent where it lies below.
    fn checked_offset_from(&self, base: Self) -> Option<u64>
        ensures { result ≡ difference (raw self.now) (raw base) }
    {
        self.raw_value().checked_sub(base.raw_value())
    }

    // The four sums and differences are the Rust's: each is a call of the number's own, so one function over
    // a closure would save nothing, and of `map(Self::new)` no proof is made. An address beside a bool is a rule
    // of the project.

    /// This address plus `other`; absent where that passes 2^64 - 1.
    fn checked_add(&self, other: u64) -> Option<Self>
        ensures { option_map raw result ≡ sum (raw self.now) other }
    {
        let raw = self.raw_value().checked_add(other)?;
        Some(Self::new(raw))
    }

    /// This address plus `other` modulo 2^64, and whether that went past the top.
    fn overflowing_add(&self, other: u64) -> (Self, bool)
        ensures { (raw result.0 ≡ wrapped_sum (raw self.now) other) × (result.1 ≡ passes_top (raw self.now) other) }
    {
        let (raw, over) = self.raw_value().overflowing_add(other);
        (Self::new(raw), over)
    }

    /// This address less `other`; absent where that falls below 0.
    fn checked_sub(&self, other: u64) -> Option<Self>
        ensures { option_map raw result ≡ difference (raw self.now) other }
    {
        let raw = self.raw_value().checked_sub(other)?;
        Some(Self::new(raw))
    }

    /// This address less `other` modulo 2^64, and whether that went below the bottom.
    fn overflowing_sub(&self, other: u64) -> (Self, bool)
        ensures { (raw result.0 ≡ wrapped_difference (raw self.now) other) × (result.1 ≡ passes_bottom (raw self.now) other) }
    {
        let (raw, under) = self.raw_value().overflowing_sub(other);
        (Self::new(raw), under)
    }
}

/// An address in the guest's physical memory.
#[derive(Clone, Copy, Debug, PartialEq, Eq)]
pub struct GuestAddress(pub u64);

/// An offset from the start of a region.
#[derive(Clone, Copy, Debug, PartialEq, Eq)]
pub struct MemoryRegionAddress(pub u64);

// written out for each type: the gate refuses an impl that a macro writes
impl Address for GuestAddress {
    ghost raw = { λ a. a.0 };

    fn new(raw_value: u64) -> Self {
        GuestAddress(raw_value)
    }

    fn raw_value(&self) -> u64 {
        self.0
    }
}

impl Address for MemoryRegionAddress {
    ghost raw = { λ a. a.0 };

    fn new(raw_value: u64) -> Self {
        MemoryRegionAddress(raw_value)
    }

    fn raw_value(&self) -> u64 {
        self.0
    }
}
