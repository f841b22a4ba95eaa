// What a line means. A line that has no meaning is rejected at its first bad word.
ghost use Rattle.std.specs.Prelude.{◌≡◌, true, length, is_ok, Ok, vec_items};
ghost use Rattle.text.specs.Line.{left};
ghost use Rattle.text.specs.Text.{Reads, blank_line, bytes_to_end, fields, header_of, key_line, outcome, packet_of, pixels_of, row_after, row_of, worst_line, worst_of};

use crate::error::PacketError;
use crate::packet::Packet;
use crate::reader::LineReader;
use frame::{MAX_SEQUENCE_NUMBER, Rejection, VideoHeader};
use std::alloc::Global;

pub fn parse_header(line: &str) -> Result<VideoHeader, Rejection>
    ensures { result ≡ header_of line.now }
{
    let mut words = LineReader::new(line);
    words.keyword("size")?;
    let across = words.number(u64::MAX)?;
    let down = words.number(u64::MAX)?;
    words.keyword("step")?;
    let step = words.number(u64::MAX)?;
    words.end()?;
    Ok(VideoHeader { across, down, step })
}

// Fills the row with as many numbers. The line is checked first, since one that is rejected leaves the row as it was.
pub fn parse_row(line: &str, row: &mut [u8]) -> Result<(), Rejection>
    ensures answer { result ≡ outcome (row_of (length row.old) line.now) }
    ensures row { row.new ≡ row_after (row_of (length row.old) line.now) row.old }
{
    let words = LineReader::new(line);
    check_row(words, row.len())?;
    fill_row(words, row);
    Ok(())
}

fn check_row(mut words: LineReader<'_>, count: usize) -> Result<(), Rejection>
    ensures { result ≡ outcome (pixels_of count (left words.entry)) }
{
    for _ in 0..count {
        words.byte()?;
    }
    words.end()
}

fn fill_row(mut words: LineReader<'_>, row: &mut [u8])
    requires { is_ok (pixels_of (length row.old) (left words)) ≡ true }
    ensures { Ok row.new ≡ pixels_of (length row.old) (left words.entry) }
{
    for pixel in row.iter_mut() {
        *pixel = words.byte().unwrap();
    }
}

pub fn parse_packet(heap: Global, line: &str) -> Result<Packet, PacketError>
    ensures { Reads fields (packet_of line.now) result }
{
    let mut words = LineReader::new(line);
    let number = words.number(MAX_SEQUENCE_NUMBER)?;
    let key = words.skip("key");
    let bytes = read_bytes(heap, words)?;
    Ok(Packet { number, key, bytes })
}

fn read_bytes(heap: Global, mut words: LineReader<'_>) -> Result<Vec<u8>, PacketError>
    ensures { Reads vec_items (bytes_to_end (left words.entry)) result }
{
    let mut bytes = Vec::new(heap);
    while !words.is_done() {
        bytes.push(words.byte()?)?;
    }
    Ok(bytes)
}

pub fn is_key_line(line: &str) -> bool
    ensures { result ≡ key_line line.now }
{
    let mut words = LineReader::new(line);
    words.skip("key") && words.is_done()
}

pub fn is_blank_line(line: &str) -> bool
    ensures { result ≡ blank_line line.now }
{
    LineReader::new(line).is_done()
}

// Whether the first word is `worst`.
pub fn is_worst_line(line: &str) -> bool
    ensures { result ≡ worst_line line.now }
{
    let mut words = LineReader::new(line);
    words.skip("worst")
}

pub fn parse_worst(line: &str) -> Result<u8, Rejection>
    ensures { result ≡ worst_of line.now }
{
    let mut words = LineReader::new(line);
    words.keyword("worst")?;
    let distance = words.byte()?;
    words.end()?;
    Ok(distance)
}
