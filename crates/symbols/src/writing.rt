// Writing symbols.
ghost use Rattle.std.specs.Prelude.{◌≡◌, ◌+◌, ◌^◌, ◌<◌, ◌≤◌};
ghost use Rattle.range_coder.specs.Code.{HasWritten};
ghost use Rattle.symbols.specs.Class.{first_context};
ghost use Rattle.symbols.specs.Saying.{bits_decisions, exponent, levels_decisions, number_decisions, prefix_decisions, signed_decisions};

use crate::class::NumberClass;
use range_coder::Writer;

// How long a number's prefix is.
fn exponent(value: u32) -> usize
    requires { value ≤ 2 ^ 31 }
    ensures is { result ≡ exponent 15 value }
    ensures most { result ≤ 15 }
    ensures low { 2 ^ result ≤ value + 1 }
{
    (value + 1).ilog2().min(15) as usize
}

// So many decisions that are true, and one that is false unless there are 15.
fn write_prefix(writer: &mut Writer, class: NumberClass, length: usize)
    requires { length ≤ 15 }
    ensures { HasWritten 105 (prefix_decisions 15 length (first_context class)) writer.old writer.new }
{
    let context = class.first_context();
    for i in 0..length {
        writer.adaptive(context + i, true);
    }
    if length < 15 {
        writer.adaptive(context + length, false);
    }
}

// The low bits of a value, the high one first.
fn write_bits(writer: &mut Writer, count: usize, value: u32)
    requires { count ≤ 15 }
    ensures { HasWritten count (bits_decisions count value) writer.old writer.new }
{
    for i in (0..count).rev() {
        writer.bypass((value >> i) % 2 == 1);
    }
}

fn write_number(writer: &mut Writer, class: NumberClass, value: u32)
    requires { value ≤ 2 ^ 31 }
    ensures { HasWritten 120 (number_decisions (first_context class) value) writer.old writer.new }
{
    let length = exponent(value);
    write_prefix(writer, class, length);
    write_bits(writer, length, value + 1 - (1 << length));
}

// A byte in eight equiprobable bits.
pub fn write_byte(writer: &mut Writer, value: u8)
    ensures { HasWritten 8 (bits_decisions 8 value) writer.old writer.new }
{
    write_bits(writer, 8, u32::from(value));
}

// A signed number; one past the largest is not read back as it was.
pub fn write_signed(writer: &mut Writer, class: NumberClass, value: i32)
    ensures { HasWritten 121 (signed_decisions (first_context class) value) writer.old writer.new }
{
    write_number(writer, class, value.unsigned_abs());
    if value != 0 {
        writer.bypass(value < 0);
    }
}

pub fn write_levels(writer: &mut Writer, levels: [i32; 16])
    ensures { HasWritten 1936 (levels_decisions 0 levels) writer.old writer.new }
{
    for (k, level) in levels.iter().enumerate() {
        write_signed(writer, NumberClass::of_level(k), *level);
    }
}
