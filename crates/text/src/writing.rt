// The line that says a value. These are functions and no `impl Display`, since a header and a packet are types of `frame`.
ghost use Rattle.std.specs.Prelude.{◌≡◌, ◌++◌, map, IfOk, string_bytes, decimal, OnOk};
ghost use Rattle.text.specs.Text.{header_text, lent_fields, packet_text, row_text, spaced, sure_text, unsure_text, worst_text};

use frame::{Packet, VideoHeader};
use std::alloc::{AllocError, Global};

pub fn write_header(heap: Global, header: VideoHeader) -> Result<String, AllocError>
    ensures { IfOk result (λ line. string_bytes line ≡ header_text header) }
{
    let VideoHeader { across, down, step } = header;
    format!(in heap; "size {across} {down} step {step}")
}

pub fn write_row(heap: Global, row: &[u8]) -> Result<String, AllocError>
    ensures { IfOk result (λ line. string_bytes line ≡ row_text row.now) }
{
    let Some((first, rest)) = row.split_first() else {
        return Ok(String::new(heap));
    };
    let mut line = first.to_string(heap)?;
    push_numbers(&mut line, rest)?;
    Ok(line)
}

pub fn write_packet(heap: Global, packet: Packet<'_>) -> Result<String, AllocError>
    ensures { IfOk result (λ line. string_bytes line ≡ packet_text (lent_fields packet.entry)) }
{
    let Packet { number, frame } = packet;
    let mut line = number.to_string(heap)?;
    if frame.header.key {
        line.push_str(" key")?;
    }
    push_numbers(&mut line, frame.bytes)?;
    Ok(line)
}

// Adds each number with a space before it.
fn push_numbers(line: &mut String, numbers: &[u8]) -> Result<(), AllocError>
    ensures { OnOk result (string_bytes line.new ≡ string_bytes line.old ++ spaced (map decimal numbers.now)) }
{
    for number in numbers {
        write!(line, " {number}")?;
    }
    Ok(())
}

// How far a picture's worst pixel is from its source.
pub fn write_worst(heap: Global, distance: u8) -> Result<String, AllocError>
    ensures { IfOk result (λ line. string_bytes line ≡ worst_text distance) }
{
    format!(in heap; "worst {distance}")
}

pub fn write_sure(heap: Global, number: u64) -> Result<String, AllocError>
    ensures { IfOk result (λ line. string_bytes line ≡ sure_text number) }
{
    format!(in heap; "sure {number}")
}

// What is shown though it may not be the video's, if any.
pub fn write_unsure(heap: Global, shown: Option<u64>) -> Result<String, AllocError>
    ensures { IfOk result (λ line. string_bytes line ≡ unsure_text shown) }
{
    match shown {
        Some(number) => format!(in heap; "unsure, {number} shown"),
        None => String::from_str(heap, "unsure, none shown"),
    }
}
