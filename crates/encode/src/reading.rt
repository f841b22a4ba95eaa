// Reads as much of the input as it takes to make something of it.
ghost use Rattle.std.specs.Prelude.{◌≡◌};

use console::{Refusal, Source};
use pictures::PictureError;

// No header and no frame of a picture that can be coded is longer.
const LONGEST: usize = 65536;

// What is made of the input's front, or why nothing is, with the position in the whole input.
pub(crate) fn read_whole<T: Drop, F: FnMut(&[u8]) -> Result<T, PictureError>>(
    source: &mut Source,
    mut parse: F,
) -> Result<T, Refusal>
    requires { F.IsAlwaysCallable parse }
{
    loop {
        let error = match parse(source.front()) {
            Ok(parsed) => return Ok(parsed),
            Err(error) => error,
        };
        if source.front().len() >= LONGEST || !source.read_more()? {
            return Err(error.placed(source.position() as usize).into());
        }
    }
}
