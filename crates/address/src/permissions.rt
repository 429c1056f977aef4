// Permissions of an access, and of what is held against it.
ghost use Rattle.std.specs.Prelude.{◌≡◌, ◌<◌, ◌≤◌, Decides, MatchResult, bit_and, bit_or};
ghost use Rattle.address.specs.Permitted.{bits, Allows};
ghost use Rattle.refusal.specs.declared.Refusal.TheVariants.{BadPermissions as Number14};

use refusal::Refusal;

/// What may be done at an address. The numbers are the raw values.
#[derive(Clone, Copy, Debug, PartialEq, Eq)]
pub enum Permissions {
    No = 0,
    Read = 1,
    Write = 2,
    ReadWrite = 3,
}

/// Refusal 14: the raw value is no permissions.
#[derive(Clone, Copy, Debug, PartialEq, Eq)]
pub struct BadPermissions;

impl From<BadPermissions> for Refusal {
    ghost from_gives = { λ e r. r ≡ Number14 };

    fn from(_: BadPermissions) -> Refusal {
        Refusal::BadPermissions
    }
}

/// The permissions of a raw value, which is at most 3.
impl TryFrom<u64> for Permissions {
    type Error = BadPermissions;

    ghost try_from_gives = { λ raw r. MatchResult r (λ p. bits p ≡ raw) (λ _. 3 < raw) };

    fn try_from(raw: u64) -> Result<Permissions, BadPermissions> {
        if raw > 3 {
            return Err(BadPermissions);
        }
        Ok(Permissions::of_bits(raw as u8))
    }
}

/// The raw value.
impl From<Permissions> for u8 {
    ghost from_gives = { λ p raw. raw ≡ bits p };

    fn from(permissions: Permissions) -> u8 {
        permissions as u8
    }
}

impl Permissions {
    /// The permissions of two bits.
    fn of_bits(raw: u8) -> Permissions
        requires { raw ≤ 3 }
        ensures { bits result ≡ raw }
    {
        match raw {
            0 => Permissions::No,
            1 => Permissions::Read,
            2 => Permissions::Write,
            _ => Permissions::ReadWrite,
        }
    }

    /// What either of the two has.
    pub fn union(self, other: Permissions) -> Permissions
        ensures { bits result ≡ bit_or (bits self) (bits other) }
    {
        Permissions::of_bits(self as u8 | other as u8)
    }

    /// What both of the two have.
    pub fn intersection(self, other: Permissions) -> Permissions
        ensures { bits result ≡ bit_and (bits self) (bits other) }
    {
        Permissions::of_bits(self as u8 & other as u8)
    }

    /// Whether these permissions, held, allow the access.
    pub fn allow(self, access: Permissions) -> bool
        ensures { Decides result (Allows (bits self) (bits access)) }
    {
        self.intersection(access) == access
    }

    /// Whether these permissions include Write.
    pub fn has_write(self) -> bool
        ensures { Decides result (Allows (bits self) 2) }
    {
        self.allow(Permissions::Write)
    }
}
