// Why guest memory is not reached.
ghost use Rattle.std.specs.Prelude.{◌≡◌};
ghost use Rattle.pieces.specs.Refused.{memory_refusal};

use address::address::GuestAddress;
use refusal::Refusal;

#[derive(Clone, Copy, Debug, PartialEq, Eq)]
pub enum GuestMemoryError {
    /// The host buffer has not the stated length.
    BadHost,
    /// No region holds this address.
    InvalidGuestAddress(GuestAddress),
    /// A step goes past 2^64.
    GuestAddressOverflow,
    /// The region has no host memory.
    HostAddressNotAvailable,
    /// The piece does not end within the host buffer.
    InvalidBackendAddress,
}

impl From<GuestMemoryError> for Refusal {
    ghost from_gives = { λ e r. r ≡ memory_refusal e };

    fn from(error: GuestMemoryError) -> Refusal {
        match error {
            GuestMemoryError::BadHost => Refusal::BadHost,
            GuestMemoryError::InvalidGuestAddress(addr) => Refusal::InvalidGuestAddress(addr.0),
            GuestMemoryError::GuestAddressOverflow => Refusal::GuestAddressOverflow,
            GuestMemoryError::HostAddressNotAvailable => Refusal::HostAddressNotAvailable,
            GuestMemoryError::InvalidBackendAddress => Refusal::InvalidBackendAddress,
        }
    }
}
