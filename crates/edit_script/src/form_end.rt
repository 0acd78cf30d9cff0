ghost use Rattle.std.specs.Prelude.{◌≡◌};
ghost use Rattle.edit_script.specs.declared.form_end.FormEnd.TheVariants.{Memory};

use params::ParamFault;
use std::alloc::{AllocError, AllocFailed};

/// What has the form: the value, or the first of its numbers that is outside its range.
pub(crate) type Ranged<T> = Result<T, ParamFault>;

// Why a value has no form: it hasn't, or memory ran out.
#[derive(Drop)]
pub(crate) enum FormEnd {
    Form,
    Memory,
}

impl From<AllocError> for FormEnd {
    ghost from_gives = { λ _ e. e ≡ Memory };

    fn from(_error: AllocError) -> FormEnd {
        FormEnd::Memory
    }
}

impl<T: Drop> From<AllocFailed<T>> for FormEnd {
    ghost from_gives = { λ _ e. e ≡ Memory };

    fn from(_error: AllocFailed<T>) -> FormEnd {
        FormEnd::Memory
    }
}
