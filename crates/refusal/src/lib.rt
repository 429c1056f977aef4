// What a request is refused for.
#![tactic(auto)]

ghost use Rattle.std.specs.Prelude.{◌≡◌};
ghost use Rattle.refusal.specs.Refusals.{number, name};

/// Why a request was refused, with what a reader needs to find the fault.
#[derive(Clone, Copy, Debug, PartialEq, Eq, Drop)]
pub enum Refusal {
    NoMemoryRegion,
    UnsortedMemoryRegions,
    MemoryRegionOverlap,
    /// The index of the region at fault.
    BadRegion(u64),
    NoRoom,
    BadHost,
    /// The target address that no region holds.
    InvalidGuestAddress(u64),
    GuestAddressOverflow,
    HostAddressNotAvailable,
    InvalidBackendAddress,
    BadPermissions,
}

impl Refusal {
    /// The number under which the refusal is listed.
    pub fn number(&self) -> u8
        ensures { result ≡ number self.now }
    {
        match self {
            Refusal::NoMemoryRegion => 1,
            Refusal::UnsortedMemoryRegions => 2,
            Refusal::MemoryRegionOverlap => 3,
            Refusal::BadRegion(_) => 4,
            Refusal::NoRoom => 5,
            Refusal::BadHost => 7,
            Refusal::InvalidGuestAddress(_) => 8,
            Refusal::GuestAddressOverflow => 9,
            Refusal::HostAddressNotAvailable => 10,
            Refusal::InvalidBackendAddress => 11,
            Refusal::BadPermissions => 14,
        }
    }

    // by hand: a derived `Debug` prints the details too, and is no name to be lent
    /// The name under which the refusal is listed.
    pub fn name(&self) -> &'static str
        ensures { result.now ≡ name self.now }
    {
        match self {
            Refusal::NoMemoryRegion => "NoMemoryRegion",
            Refusal::UnsortedMemoryRegions => "UnsortedMemoryRegions",
            Refusal::MemoryRegionOverlap => "MemoryRegionOverlap",
            Refusal::BadRegion(_) => "BadRegion",
            Refusal::NoRoom => "NoRoom",
            Refusal::BadHost => "BadHost",
            Refusal::InvalidGuestAddress(_) => "InvalidGuestAddress",
            Refusal::GuestAddressOverflow => "GuestAddressOverflow",
            Refusal::HostAddressNotAvailable => "HostAddressNotAvailable",
            Refusal::InvalidBackendAddress => "InvalidBackendAddress",
            Refusal::BadPermissions => "BadPermissions",
        }
    }
}
