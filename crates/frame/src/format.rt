ghost use Rattle.std.specs.Prelude.{◌*◌, ◌≤◌};

use block::Step;

// How many pixels a picture of any format has at most.
pub const MAX_PIXELS: usize = 3584;

// A video's size in blocks, and its quantiser step.
#[derive(Clone, Copy, PartialEq, Eq, Debug)]
pub struct Format {
    pub(crate) across: usize,
    pub(crate) down: usize,
    pub(crate) step: Step,
    ghost some_across: { 1 ≤ across },
    ghost few_across: { across ≤ 60 },
    ghost some_down: { 1 ≤ down },
    ghost few_down: { down ≤ 60 },
    ghost few: { across * down ≤ 224 },
}
