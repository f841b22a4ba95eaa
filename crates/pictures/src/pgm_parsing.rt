// Binary PGM pictures.
ghost use Rattle.std.specs.Prelude.{◌≡◌, ◌≤◌, false, length, IfOk};
ghost use Rattle.pictures.specs.Bytes.{blank};
ghost use Rattle.pictures.specs.Pgm.{comment_after, gap, in_gap, number_at, pgm_header_of, pgm_of};
ghost use Rattle.std.specs.Char.{is_ascii_digit};
ghost use Rattle.std.specs.List.{prefix_len};

use crate::error::{Fault, PictureError};
use crate::forms::{Pgm, Size};
use crate::number::parse_size;
use crate::steps::require;

// A number of the header, whose digits stand from `start` up to `end`.
#[derive(Clone, Copy)]
pub(crate) struct Number {
    pub(crate) value: u16,
    pub(crate) start: usize,
    pub(crate) end: usize,
}

fn is_blank(byte: u8) -> bool
    ensures { result ≡ blank byte }
{
    matches!(byte, b' ' | b'\t' | b'\n' | b'\r')
}

// Whether whitespace and comments go on with a byte.
fn is_in_gap(comment: bool, byte: u8) -> bool
    ensures { result ≡ in_gap comment byte }
{
    comment || is_blank(byte) || byte == b'#'
}

// Whether a comment goes on after a byte of a gap: it ends with its line.
fn is_comment_after(comment: bool, byte: u8) -> bool
    ensures { result ≡ comment_after comment byte }
{
    if comment {
        byte != b'\n' && byte != b'\r'
    } else {
        byte == b'#'
    }
}

// How many bytes of whitespace and comments come first.
fn gap_length(bytes: &[u8]) -> usize
    ensures value { result ≡ gap false bytes.now }
    ensures within { result ≤ length bytes.now }
{
    let mut comment = false;
    for (length, byte) in bytes.iter().enumerate() {
        if !is_in_gap(comment, *byte) {
            return length;
        }
        comment = is_comment_after(comment, *byte);
    }
    bytes.len()
}

// How many digits come first.
fn digit_count(bytes: &[u8]) -> usize
    ensures value { result ≡ prefix_len is_ascii_digit bytes.now }
    ensures within { result ≤ length bytes.now }
{
    bytes
        .iter()
        .take_while(|byte| byte.is_ascii_digit())
        .count()
}

// The number after the gap that begins at `offset`.
fn read_number(bytes: &[u8], offset: usize) -> Result<Number, PictureError>
    requires { offset ≤ length bytes.now }
    ensures value { result ≡ number_at bytes.now offset }
    ensures within { IfOk result (λ n. n.end ≤ length bytes.now) }
{
    let start = offset + gap_length(&bytes[offset..]);
    require(offset < start, Fault::BadNumber, offset)?;
    let end = start + digit_count(&bytes[start..]);
    let value = parse_size(&bytes[start..end]).ok_or(Fault::BadNumber.at(start))?;
    Ok(Number { value, start, end })
}

// Reads the header that the bytes begin with. The pixels need not be there yet.
pub(crate) fn parse_pgm_header(bytes: &[u8]) -> Result<Pgm, PictureError>
    ensures { result ≡ pgm_header_of bytes.now }
{
    require(bytes.starts_with(b"P5"), Fault::BadMagic, 0)?;
    let width = read_number(bytes, 2)?;
    let height = read_number(bytes, width.end)?;
    let max = read_number(bytes, height.end)?;
    require(max.value == 255, Fault::BadMaxValue, max.start)?;
    let delimited = bytes.get(max.end).is_some_and(|byte| is_blank(*byte));
    require(delimited, Fault::NoDelimiter, max.end)?;
    let size = Size {
        width: width.value,
        height: height.value,
    };
    Ok(Pgm::new(size, max.end + 1))
}

// Reads the picture that the bytes begin with.
pub fn parse_pgm(bytes: &[u8]) -> Result<Pgm, PictureError>
    ensures value { result ≡ pgm_of bytes.now }
    ensures within { IfOk result (λ p. p.end ≤ length bytes.now) }
{
    let picture = parse_pgm_header(bytes)?;
    require(picture.end <= bytes.len(), Fault::CutShort, bytes.len())?;
    Ok(picture)
}
