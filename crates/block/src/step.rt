// The quantiser step: which levels coefficients become, and what levels then are.
ghost use Rattle.std.specs.Prelude.{◌≡◌, ◌/◌, ◌^◌, ◌<◌, ◌≤◌, ◌⊎◌, pos, ◌*ℤ◌, unsigned_abs, MatchOption};
ghost use Rattle.block.specs.Stages.{nearest};

// A quantiser step, 1 to 64.
#[derive(Clone, Copy, PartialEq, Eq, Debug)]
pub struct Step {
    value: u8,
    ghost positive: { 1 ≤ value },
    ghost most: { value ≤ 64 },
}

impl Step {
    // The step of that value, where there is one.
    pub fn new(value: u64) -> Option<Step>
        ensures { MatchOption result ((value < 1) ⊎ (64 < value)) (λ step. (step.value ≡ value) × (1 ≤ value) × (value ≤ 64)) }
    {
        match u8::try_from(value) {
            Ok(value @ 1..=64) => Some(Step { value }),
            _ => None,
        }
    }

    pub fn value(self) -> u8
        ensures { result ≡ self.value }
    {
        self.value
    }

    // How far a rounded coefficient, and so a pixel, may be off.
    pub fn half(self) -> u8
        ensures { result ≡ self.value / 2 }
    {
        self.value / 2
    }

    // How much of a basis function a level is.
    pub(crate) fn scaled(self, level: i32) -> i64
        ensures value { result ≡ pos self.value *ℤ level }
        ensures small { unsigned_abs result ≤ 2 ^ 37 }
    {
        i64::from(self.value) * i64::from(level)
    }

    // The level that is nearest to a coefficient: how many steps it is.
    pub(crate) fn nearest(self, coefficient: i64) -> i32
        requires { unsigned_abs coefficient ≤ 4080 }
        ensures { result ≡ nearest self.value coefficient }
    {
        (coefficient + i64::from(self.half())).div_euclid(i64::from(self.value)) as i32
    }
}
