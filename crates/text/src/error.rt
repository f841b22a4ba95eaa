ghost use Rattle.std.specs.Prelude.{◌≡◌};
ghost use Rattle.text.specs.declared.error.PacketError.TheVariants.{OutOfMemory, Rejected};

use frame::Rejection;
use std::alloc::{AllocError, AllocFailed};

// Why a packet is not read or not written.
#[derive(Clone, Copy, PartialEq, Eq, Debug)]
pub enum PacketError {
    Rejected(Rejection),
    OutOfMemory,
}

impl From<Rejection> for PacketError {
    ghost from_gives = { λ e r. r ≡ Rejected e };

    fn from(rejection: Rejection) -> PacketError {
        PacketError::Rejected(rejection)
    }
}

impl From<AllocError> for PacketError {
    ghost from_gives = { λ _ r. r ≡ OutOfMemory };

    fn from(_error: AllocError) -> PacketError {
        PacketError::OutOfMemory
    }
}

impl<T: Drop> From<AllocFailed<T>> for PacketError {
    ghost from_gives = { λ _ r. r ≡ OutOfMemory };

    fn from(_refused: AllocFailed<T>) -> PacketError {
        PacketError::OutOfMemory
    }
}
