// Why a call or a case fails, or a group cannot go on.
use frame::{Rejection, ShowError};
use std::alloc::{AllocError, AllocFailed};

#[derive(Clone, Copy, PartialEq, Eq, Debug)]
pub enum Failure {
    OutOfMemory,
    // A call that is rejected with this code and position.
    Rejected(u64, u64),
    // A call that is rejected and yet changes what was lent to it.
    Changed,
    // A call that is not rejected and yet changes nothing.
    Unchanged,
    // A frame that is invalid.
    Invalid,
    // A quantiser step that there is not.
    NoStep,
    // A picture that is not the one that the encoder says its bytes mean.
    OtherPicture,
    // A pixel that is further than half a step from its source.
    FarFromSource,
    // More bytes than a still picture takes.
    TooManyBytes,
    // A screen that is sure, and has shown nothing.
    NothingShown,
    // A screen that is sure of a frame that there is not.
    NoSuchFrame,
}

impl From<AllocError> for Failure {
    fn from(_error: AllocError) -> Failure {
        Failure::OutOfMemory
    }
}

impl<T: Drop> From<AllocFailed<T>> for Failure {
    fn from(_error: AllocFailed<T>) -> Failure {
        Failure::OutOfMemory
    }
}

impl From<Rejection> for Failure {
    fn from(rejection: Rejection) -> Failure {
        Failure::Rejected(rejection.code(), rejection.position())
    }
}

impl From<ShowError> for Failure {
    fn from(error: ShowError) -> Failure {
        match error {
            ShowError::Invalid => Failure::Invalid,
            ShowError::Rejected(rejection) => rejection.into(),
        }
    }
}
