// Frame rates as people write them.
ghost use Rattle.std.specs.Prelude.{◌≡◌};
ghost use Rattle.pictures.specs.Y4m.{rate_of};

use crate::forms::FrameRate;
use crate::number::parse_size;
use crate::words::find_byte;

// `25`, or `30000:1001` for so many frames in so many seconds. Both are 1 to 65535.
pub fn parse_rate(word: &[u8]) -> Option<FrameRate>
    ensures { result ≡ rate_of word.now }
{
    let (frames, seconds) = match find_byte(word, b':') {
        Some(colon) => (parse_size(&word[..colon])?, parse_size(&word[colon + 1..])?),
        None => (parse_size(word)?, 1),
    };
    Some(FrameRate {
        frames: u32::from(frames),
        seconds: u32::from(seconds),
    })
}
