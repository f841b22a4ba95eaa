// What a rejection says to a person and to a program.
ghost use Rattle.std.specs.Prelude.{◌≡◌};
ghost use Rattle.frame.specs.Rejection.{code_of, position_of};

use crate::rejection::{Extent, Plane, Rejection};
use std::fmt;

impl Rejection {
    // C and the messages of the programs have these numbers.
    pub fn code(self) -> u64
        ensures { result ≡ code_of self }
    {
        match self {
            Rejection::BlockCount(_) => 1,
            Rejection::StepRange => 2,
            Rejection::PictureLength(_) => 3,
            Rejection::SourceLength(_) => 4,
            Rejection::BufferTooShort(_) => 5,
            Rejection::PacketCut(_) => 6,
            Rejection::BadText(_) => 7,
        }
    }

    // A length or a position; of several things that can be wrong, which it is in their order.
    pub fn position(self) -> u64
        ensures { result ≡ position_of self }
    {
        match self {
            Rejection::BlockCount(extent) => extent as u64,
            Rejection::StepRange => 0,
            Rejection::PictureLength(plane) => plane as u64,
            Rejection::SourceLength(number)
            | Rejection::BufferTooShort(number)
            | Rejection::PacketCut(number)
            | Rejection::BadText(number) => number,
        }
    }

    fn reason(self) -> &'static str {
        match self {
            Rejection::BlockCount(Extent::Across) => "there must be 1 to 60 blocks across",
            Rejection::BlockCount(Extent::Down) => "there must be 1 to 60 blocks down",
            Rejection::BlockCount(Extent::Total) => "there may be at most 224 blocks in all",
            Rejection::StepRange => "the step must be 1 to 64",
            Rejection::PictureLength(Plane::Reference) =>
                "the reference picture has the wrong length",
            Rejection::PictureLength(Plane::Output) => "the output picture has the wrong length",
            Rejection::SourceLength(_) => "the source picture has the wrong length",
            Rejection::BufferTooShort(_) => "the buffer is too short for the frame",
            Rejection::PacketCut(_) => "the file is cut short in a packet",
            Rejection::BadText(_) => "not what should stand here, or a number out of range",
        }
    }
}

impl fmt::Display for Rejection {
    fn fmt<W: fmt::Write>(&self, f: &mut fmt::Formatter<W>) -> fmt::Result {
        write!(
            f,
            "{} (code {}, position {})",
            self.reason(),
            self.code(),
            self.position()
        )
    }
}
