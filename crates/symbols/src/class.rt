ghost use Rattle.std.specs.Prelude.{◌≡◌, ◌≤◌};
ghost use Rattle.symbols.specs.Class.{first_context};
ghost use Rattle.symbols.specs.Reading.{level_context};

// What a signed number is for, which decides its contexts.
#[derive(Clone, Copy, Debug, PartialEq, Eq)]
pub enum NumberClass {
    MotionX,
    MotionY,
    FirstLevel,
    LaterLevel,
}

impl NumberClass {
    // A number's fifteen contexts follow one another, so that none is past the coder's 64.
    pub fn first_context(self) -> usize
        ensures is { result ≡ first_context self }
        ensures small { result ≤ 48 }
    {
        match self {
            NumberClass::MotionX => 2,
            NumberClass::MotionY => 18,
            NumberClass::FirstLevel => 33,
            NumberClass::LaterLevel => 48,
        }
    }

    pub fn of_level(k: usize) -> NumberClass
        ensures { first_context result ≡ level_context k }
    {
        if k == 0 {
            NumberClass::FirstLevel
        } else {
            NumberClass::LaterLevel
        }
    }
}
