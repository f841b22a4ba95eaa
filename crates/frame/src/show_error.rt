ghost use Rattle.std.specs.Prelude.{◌≡◌};
ghost use Rattle.frame.specs.declared.show_error.ShowError.TheVariants.{Rejected};

use crate::rejection::Rejection;

// Why a frame is not shown.
#[derive(Clone, Copy, PartialEq, Eq, Debug)]
pub enum ShowError {
    // A block would be taken from over an edge.
    Invalid,
    Rejected(Rejection),
}

impl From<Rejection> for ShowError {
    ghost from_gives = { λ e r. r ≡ Rejected e };

    fn from(rejection: Rejection) -> ShowError {
        ShowError::Rejected(rejection)
    }
}
