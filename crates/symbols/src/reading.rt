// Reading symbols.
ghost use Rattle.std.specs.Prelude.{◌^◌, ◌<◌, ◌≤◌, unsigned_abs};
ghost use Rattle.range_coder.specs.Code.{HasRead};
ghost use Rattle.symbols.specs.Class.{first_context};
ghost use Rattle.symbols.specs.Promise.{Sayable, largest};
ghost use Rattle.symbols.specs.Reading.{read_bits, read_levels, read_number, read_prefix, read_signed};

use crate::class::NumberClass;
use range_coder::Reader;

// How many decisions are true before one is false, at most 15. A loop, as in `read_bits`.
fn read_prefix(reader: &mut Reader, class: NumberClass) -> usize
    ensures read { HasRead (read_prefix 15 (first_context class)) reader.old reader.new result }
    ensures small { result ≤ 15 }
{
    let context = class.first_context();
    for k in 0..15 {
        if !reader.adaptive(context + k) {
            return k;
        }
    }
    15
}

// So many bits, the high one first. A loop: what `fold` leaves of a reader that its closure changes, no proof knows.
fn read_bits(reader: &mut Reader, count: usize) -> u32
    requires { count ≤ 15 }
    ensures read { HasRead (read_bits count 0) reader.old reader.new result }
    ensures small { result < 2 ^ count }
{
    let mut value = 0;
    for _ in 0..count {
        value = 2 * value + u32::from(reader.bypass());
    }
    value
}

fn read_number(reader: &mut Reader, class: NumberClass) -> u32
    ensures read { HasRead (read_number (first_context class)) reader.old reader.new result }
    ensures small { result ≤ largest }
{
    let length = read_prefix(reader, class);
    (1 << length) - 1 + read_bits(reader, length)
}

// A byte in eight equiprobable bits.
pub fn read_byte(reader: &mut Reader) -> u8
    ensures { HasRead (read_bits 8 0) reader.old reader.new result }
{
    read_bits(reader, 8) as u8
}

pub fn read_signed(reader: &mut Reader, class: NumberClass) -> i32
    ensures read { HasRead (read_signed (first_context class)) reader.old reader.new result }
    ensures small { unsigned_abs result ≤ largest }
{
    let size = read_number(reader, class) as i32;
    if size != 0 && reader.bypass() {
        -size
    } else {
        size
    }
}

// Sixteen levels.
pub fn read_levels(reader: &mut Reader) -> [i32; 16]
    ensures read { HasRead (read_levels 16 0) reader.old reader.new result }
    ensures small { Sayable result }
{
    let mut levels = [0; 16];
    for (k, level) in levels.iter_mut().enumerate() {
        *level = read_signed(reader, NumberClass::of_level(k));
    }
    levels
}
