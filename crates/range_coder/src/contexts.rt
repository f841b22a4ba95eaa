ghost use Rattle.std.specs.Prelude.{ℕ, ◌<◌, ◌≤◌, slice_index_or};

// Each context's probability of `false`, in 256ths.
#[derive(Clone, Copy)]
pub struct Contexts {
    pub(crate) probability: [u8; 64],
    ghost fair: { (c : ℕ) → c < 64 → (1 ≤ slice_index_or probability c 128) × (slice_index_or probability c 128 ≤ 255) },
}
