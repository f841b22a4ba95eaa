// A step that the formats share.
ghost use Rattle.std.specs.Prelude.{◌≡◌};
ghost use Rattle.pictures.specs.Faults.{required};

use crate::error::{Fault, PictureError};

// `test.then_some(()).ok_or(..)?` at each step would be no plainer.
pub(crate) fn require(test: bool, fault: Fault, position: usize) -> Result<(), PictureError>
    ensures { result ≡ required test fault position }
{
    if test {
        Ok(())
    } else {
        Err(fault.at(position))
    }
}
