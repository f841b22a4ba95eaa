// Which pictures are to be key frames.
ghost use Rattle.std.specs.Prelude.{◌≡◌, MatchOption};
ghost use Rattle.pictures.specs.Picture.{key_frame};

use crate::key_interval::KeyInterval;

impl KeyInterval {
    // None of no pictures.
    pub fn new(pictures: u64) -> Option<KeyInterval>
        ensures { MatchOption result (pictures ≡ 0) (λ interval. interval.pictures ≡ pictures) }
    {
        if pictures == 0 {
            None
        } else {
            Some(KeyInterval { pictures })
        }
    }

    // Whether the picture with that number is to be one.
    pub fn is_key(self, number: u64) -> bool
        ensures { result ≡ key_frame self.pictures number }
    {
        number % self.pictures == 0
    }
}
