// What a call answers, before it is packed into one number.
ghost use Rattle.std.specs.Prelude.{◌≡◌, cond};
ghost use Rattle.camera.specs.Camera.{code_answer, show_answer};
ghost use Rattle.camera.specs.declared.answer.Answer.TheVariants.{Sure, Unsure};

use frame::{Rejection, ShowError};
use stream::Receiver;

// What was done, where the call is not rejected.
#[derive(Clone, Copy, PartialEq, Eq, Debug)]
pub enum Answer {
    // A frame was coded in so many bytes, or any frame fits in so many.
    Length(u64),
    // The frame is valid, and its picture is in the output.
    Shown,
    // The frame is invalid.
    Invalid,
    // The packet was received, and the receiver is sure of its picture.
    Sure,
    // The packet was received, and the receiver is not sure.
    Unsure,
}

impl From<Receiver> for Answer {
    ghost from_gives = { λ receiver answer. answer ≡ cond receiver.sure Sure Unsure };

    fn from(receiver: Receiver) -> Answer {
        if receiver.sure {
            Answer::Sure
        } else {
            Answer::Unsure
        }
    }
}

pub(crate) fn answer_coded(coded: Result<usize, Rejection>) -> Result<Answer, Rejection>
    ensures { result ≡ code_answer coded }
{
    coded.map(|length| Answer::Length(length as u64))
}

// An invalid frame is answered, and not rejected.
pub(crate) fn answer_shown(shown: Result<(), ShowError>) -> Result<Answer, Rejection>
    ensures { result ≡ show_answer shown }
{
    match shown {
        Ok(()) => Ok(Answer::Shown),
        Err(ShowError::Invalid) => Ok(Answer::Invalid),
        Err(ShowError::Rejected(rejection)) => Err(rejection),
    }
}
