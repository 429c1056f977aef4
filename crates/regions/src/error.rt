// Why the regions are not edited.
ghost use Rattle.std.specs.Prelude.{◌≡◌};
ghost use Rattle.regions.specs.Failures.{edit_failure};
ghost use Rattle.regions.specs.declared.error.EditError.TheVariants as edit;

use answers::failure::Failure;
use refusal::Refusal;
use std::alloc::AllocError;
use table::error::GuestRegionCollectionError;

/// Why the regions are not edited: a refusal, or want of memory for the new table.
#[derive(Clone, Copy, Debug, PartialEq, Eq)]
pub enum EditError {
    Refused(GuestRegionCollectionError),
    Alloc(AllocError),
}

impl From<GuestRegionCollectionError> for EditError {
    ghost from_gives = { λ e r. r ≡ edit.Refused e };

    fn from(error: GuestRegionCollectionError) -> Self {
        Self::Refused(error)
    }
}

impl From<AllocError> for EditError {
    ghost from_gives = { λ e r. r ≡ edit.Alloc e };

    fn from(error: AllocError) -> Self {
        Self::Alloc(error)
    }
}

impl From<EditError> for Failure {
    ghost from_gives = { λ e r. r ≡ edit_failure e };

    fn from(error: EditError) -> Self {
        match error {
            EditError::Refused(error) => Refusal::from(error).into(),
            EditError::Alloc(error) => error.into(),
        }
    }
}
