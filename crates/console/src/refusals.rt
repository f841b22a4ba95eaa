// What `?` makes a refusal of.
ghost use Rattle.std.specs.Prelude.{◌≡◌};
ghost use Rattle.console.specs.Refusals.{of_packet};
ghost use Rattle.console.specs.declared.refusal.Refusal.TheVariants.{OutOfMemory, Rejected, System, Unpictured, Words};

use crate::refusal::Refusal;
use frame::Rejection;
use pictures::PictureError;
use std::alloc::{AllocError, AllocFailed};
use std::io;
use text::PacketError;

impl From<Rejection> for Refusal {
    ghost from_gives = { λ e r. r ≡ Rejected e };

    fn from(rejection: Rejection) -> Refusal {
        Refusal::Rejected(rejection)
    }
}

impl From<PictureError> for Refusal {
    ghost from_gives = { λ e r. r ≡ Unpictured e };

    fn from(error: PictureError) -> Refusal {
        Refusal::Unpictured(error)
    }
}

impl From<&'static str> for Refusal {
    ghost from_gives = { λ e r. r ≡ Words e };

    fn from(words: &'static str) -> Refusal {
        Refusal::Words(words)
    }
}

impl From<io::Error> for Refusal {
    ghost from_gives = { λ e r. r ≡ System e };

    fn from(error: io::Error) -> Refusal {
        Refusal::System(error)
    }
}

impl From<AllocError> for Refusal {
    ghost from_gives = { λ _ r. r ≡ OutOfMemory };

    fn from(_error: AllocError) -> Refusal {
        Refusal::OutOfMemory
    }
}

impl<T: Drop> From<AllocFailed<T>> for Refusal {
    ghost from_gives = { λ _ r. r ≡ OutOfMemory };

    fn from(_refused: AllocFailed<T>) -> Refusal {
        Refusal::OutOfMemory
    }
}

impl From<PacketError> for Refusal {
    ghost from_gives = { λ e r. r ≡ of_packet e };

    fn from(error: PacketError) -> Refusal {
        match error {
            PacketError::Rejected(rejection) => Refusal::Rejected(rejection),
            PacketError::OutOfMemory => Refusal::OutOfMemory,
        }
    }
}
