// The arithmetic that reading and writing share.
ghost use Rattle.std.specs.Prelude.{◌≡◌, ◌+◌, ◌*◌, ◌<◌, ◌≤◌};
ghost use Rattle.range_coder.specs.Coding.{split};

// The part of the range that belongs to `false`, which has probability p in 256ths.
#[tactic(auto, unfolding(crate::specs::Coding::split))]
pub(crate) fn split(range: u64, p: u8) -> u64
    requires { (128 ≤ range) × (range ≤ 256) }
    ensures is { result ≡ split range p }
    ensures some { 1 ≤ result }
    ensures below { result < range }
{
    1 + (range - 1) * u64::from(p) / 256
}
