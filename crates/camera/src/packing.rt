// Answers packed into one number, since C has one for all of them.
ghost use Rattle.std.specs.Prelude.{◌≡◌, Ok, Err};
ghost use Rattle.camera.specs.Packed.{Fitting, Packs, packed};

use crate::answer::Answer;
use frame::Rejection;

// The kind is in the low four bits, and a length is above the four of a rejection's code.
#[tactic(auto, unfolding(crate::specs::Packed::packed))]
fn pack_answer(answer: Answer) -> u64
    requires { Fitting (Ok answer) }
    ensures { result ≡ packed (Ok answer) }
{
    match answer {
        Answer::Length(length) => 256 * length,
        Answer::Shown => 1,
        Answer::Invalid => 2,
        Answer::Sure => 3,
        Answer::Unsure => 4,
    }
}

// The kind is 5, and the code and the position are above. A rejected source's length has all bits but the high one,
// since it can be any slice's.
fn pack_rejection(rejection: Rejection) -> u64
    requires { Fitting (Err rejection) }
    ensures { result ≡ packed (Err rejection) }
{
    match rejection {
        Rejection::SourceLength(length) => (1 << 63) + length,
        _ => 5 + 16 * rejection.code() + 256 * rejection.position(),
    }
}

pub(crate) fn pack(answer: Result<Answer, Rejection>) -> u64
    requires { Fitting answer }
    ensures { Packs answer result }
{
    match answer {
        Ok(answer) => pack_answer(answer),
        Err(rejection) => pack_rejection(rejection),
    }
}
