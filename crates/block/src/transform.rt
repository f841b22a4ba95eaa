// The Walsh–Hadamard transform of a block, forward and back.
// A step and levels stand side by side and not in one value, since the step is the video's and the levels are the block's.
ghost use Rattle.std.specs.Prelude.{◌≡◌, ℕ, ◌+◌, ◌*◌, ◌%◌, ◌^◌, ◌<◌, ◌≤◌, pos, ◌+ℤ◌, ◌-ℤ◌, ◌*ℤ◌, slice_index, slice_index_or, unsigned_abs};
ghost use Rattle.block.specs.Stages.{Nearest, nearest, positive_at, transform4, Transformed};
ghost use Rattle.block.specs.Promise.{Close, Within};
ghost use Rattle.block.specs.Transform.{clipped, floor16, inverse_transform, pixel_in, reconstructed, residual, signed, value_in};

use crate::step::Step;
use crate::syntax::is_all_zero;
use std::array;

// The sum and the difference.
fn butterfly(a: i64, b: i64) -> (i64, i64)
    requires { (unsigned_abs a ≤ 2 ^ 60) × (unsigned_abs b ≤ 2 ^ 60) }
    ensures sum { result.0 ≡ a +ℤ b }
    ensures difference { result.1 ≡ a -ℤ b }
{
    (a + b, a - b)
}

// A row transformed: the sum of four basis functions at each of four places.
fn transformed_row(rows: [i64; 16], row: usize) -> [i64; 4]
    requires row { row < 4 }
    requires small { Within (2 ^ 40) rows }
    ensures { (y : ℕ) → y < 4 → slice_index_or result y (pos 0) ≡ transform4 (λ u. value_in rows u row) y }
{
    let (early_sum, early_difference) = butterfly(rows[4 * row], rows[4 * row + 1]);
    let (late_sum, late_difference) = butterfly(rows[4 * row + 2], rows[4 * row + 3]);
    let (first, third) = butterfly(early_sum, late_sum);
    let (second, fourth) = butterfly(early_difference, late_difference);
    [first, second, third, fourth]
}

// Each row transformed. A row comes out as a column, so that two passes transform a block both ways.
fn pass(rows: [i64; 16]) -> [i64; 16]
    requires { Within (2 ^ 40) rows }
    ensures { Transformed rows result 4 }
{
    let columns = [
        transformed_row(rows, 0),
        transformed_row(rows, 1),
        transformed_row(rows, 2),
        transformed_row(rows, 3),
    ];
    array::from_fn(|i| columns[i % 4][i / 4])
}

// The sum of sixteen basis functions at each pixel, of which `values` says how much there is.
// It is its own inverse, up to 16.
fn transform_block(values: [i64; 16]) -> [i64; 16]
    requires { Within (2 ^ 38) values }
    ensures value { (x y : ℕ) → x < 4 → y < 4 → value_in result x y ≡ inverse_transform (value_in values) x y }
    ensures size { (n : ℕ) → Within n values → Within (4 * (4 * n)) result }
{
    pass(pass(values))
}

fn all_scaled(step: Step, levels: [i32; 16]) -> [i64; 16]
    ensures value { (i : ℕ) → i < 16 → slice_index_or result i (pos 0) ≡ pos step.value *ℤ slice_index_or levels i (pos 0) }
    ensures small { Within (2 ^ 37) result }
{
    array::from_fn(|i| step.scaled(levels[i]))
}

// The sum of what sixteen levels are, at each pixel.
fn level_sums(step: Step, levels: [i32; 16]) -> [i64; 16]
    ensures value { (x y : ℕ) → x < 4 → y < 4 → value_in result x y ≡ inverse_transform (λ u v. pos step.value *ℤ value_in levels u v) x y }
    ensures small { Within (2 ^ 41) result }
{
    transform_block(all_scaled(step, levels))
}

// A sixteenth, rounded to nearest, a half up.
fn rounded_sixteenth(sum: i64) -> i64
    requires { unsigned_abs sum ≤ 2 ^ 41 }
    ensures value { result ≡ floor16 (sum +ℤ pos 8) }
    ensures small { unsigned_abs result ≤ 2 ^ 41 }
{
    (sum + 8) >> 4
}

// What levels add at each pixel of a block, row by row.
pub fn residuals(step: Step, levels: [i32; 16]) -> [i64; 16]
    ensures { (x y : ℕ) → x < 4 → y < 4 → slice_index_or result (4 * y + x) (pos 0) ≡ residual step.value levels x y }
{
    let sums = level_sums(step, levels);
    array::from_fn(|i| rounded_sixteenth(sums[i]))
}

// Where basis function 4 v + u is negative, as bits: bit 4 y + x of its entry is the pixel at column x and row y.
const SIGNS: [u16; 16] = [
    0x0000, 0xaaaa, 0xcccc, 0x6666, 0xf0f0, 0x5a5a, 0x3c3c, 0x9696, 0xff00, 0x55aa, 0x33cc, 0x9966,
    0x0ff0, 0xa55a, 0xc33c, 0x6996,
];

fn is_positive(function: usize, pixel: usize) -> bool
    requires { (function < 16) × (pixel < 16) }
    ensures { result ≡ positive_at function pixel }
{
    (SIGNS[function] >> pixel) % 2 == 0
}

// What a level of one basis function is at one pixel.
fn level_at(step: Step, level: i32, function: usize, pixel: usize) -> i64
    requires { (function < 16) × (pixel < 16) }
    ensures value { result ≡ signed (positive_at function pixel) (pos step.value *ℤ level) }
    ensures small { unsigned_abs result ≤ 2 ^ 37 }
{
    let amount = step.scaled(level);
    if is_positive(function, pixel) {
        amount
    } else {
        -amount
    }
}

// What levels add at column `x % 4` and row `y % 4` of a block, by the plain sum.
pub fn residual_at(step: Step, levels: [i32; 16], x: usize, y: usize) -> i64
    ensures { result ≡ residual step.value levels (x % 4) (y % 4) }
{
    let pixel = 4 * (y % 4) + x % 4;
    let mut sum = 0;
    for (function, level) in levels.iter().enumerate() {
        sum += level_at(step, *level, function, pixel);
    }
    rounded_sixteenth(sum)
}

// The pixel nearest to a number.
fn clip(value: i64) -> u8
    ensures { result ≡ clipped value }
{
    value.clamp(0, 255) as u8
}

// A pixel as it is shown: its prediction, and a sixteenth of what its levels sum up to.
fn shown(prediction: u8, sum: i64) -> u8
    requires { unsigned_abs sum ≤ 2 ^ 41 }
    ensures { result ≡ clipped (pos prediction +ℤ floor16 (sum +ℤ pos 8)) }
{
    clip(i64::from(prediction) + rounded_sixteenth(sum))
}

// A prediction, and what levels add.
fn add_levels(step: Step, levels: [i32; 16], prediction: [u8; 16]) -> [u8; 16]
    ensures { (x y : ℕ) → x < 4 → y < 4 → pixel_in result x y ≡ reconstructed step.value levels (pixel_in prediction x y) x y }
{
    let sums = level_sums(step, levels);
    array::from_fn(|i| shown(prediction[i], sums[i]))
}

// A block as it is shown: its prediction, and what levels add. Most blocks of a still picture have none.
pub fn reconstruct(step: Step, levels: [i32; 16], prediction: [u8; 16]) -> [u8; 16]
    ensures { (x y : ℕ) → x < 4 → y < 4 → pixel_in result x y ≡ reconstructed step.value levels (pixel_in prediction x y) x y }
{
    if is_all_zero(levels) {
        prediction
    } else {
        add_levels(step, levels, prediction)
    }
}

fn difference(source: u8, prediction: u8) -> i64
    ensures value { result ≡ pos source -ℤ pos prediction }
    ensures small { unsigned_abs result ≤ 255 }
{
    i64::from(source) - i64::from(prediction)
}

fn differences(source: [u8; 16], prediction: [u8; 16]) -> [i64; 16]
    ensures value { (i : ℕ) → i < 16 → slice_index_or result i (pos 0) ≡ pos (slice_index source i) -ℤ pos (slice_index prediction i) }
    ensures small { Within 255 result }
{
    array::from_fn(|i| difference(source[i], prediction[i]))
}

fn all_nearest(step: Step, coefficients: [i64; 16]) -> [i32; 16]
    requires { Within 4080 coefficients }
    ensures { (i : ℕ) → i < 16 → slice_index_or result i (pos 0) ≡ nearest step.value (slice_index_or coefficients i (pos 0)) }
{
    array::from_fn(|i| step.nearest(coefficients[i]))
}

// The levels nearest to the difference, which bring a predicted block within half a step of its source, at every pixel.
pub fn nearest_levels(step: Step, source: [u8; 16], prediction: [u8; 16]) -> [i32; 16]
    ensures is { Nearest step.value result prediction source }
    ensures small { Within 4080 result }
    ensures close { Close step.value result prediction source }
{
    all_nearest(step, transform_block(differences(source, prediction)))
}
