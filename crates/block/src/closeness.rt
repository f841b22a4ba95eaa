// How far pixels are apart, and whether that is within half a step.
ghost use Rattle.std.specs.Prelude.{◌≡◌, ℕ, ◌/◌, ◌<◌, ◌≤◌, MatchBool, slice_index};
ghost use Rattle.block.specs.Transform.{distance};

use crate::step::Step;

pub fn distance(a: u8, b: u8) -> u8
    ensures { result ≡ distance a b }
{
    a.abs_diff(b)
}

// Whether every pixel of one block is within half a step of the other's.
// All sixteen are looked at: a loop without a way out is three times as fast as `all`.
pub fn is_close(step: Step, a: [u8; 16], b: [u8; 16]) -> bool
    ensures { MatchBool result ((i : ℕ) → i < 16 → distance (slice_index a i) (slice_index b i) ≤ step.value / 2) ((i : ℕ) × (i < 16) × (step.value / 2 < distance (slice_index a i) (slice_index b i))) }
{
    let half = step.half();
    let mut close = true;
    for (x, y) in a.iter().zip(&b) {
        close &= distance(*x, *y) <= half;
    }
    close
}
