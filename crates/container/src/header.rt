// The header line, which comes before the packets.
ghost use Rattle.container.specs.HeaderLine.{HeaderRead, header_line, line_length};
ghost use Rattle.std.specs.Option.{SomeIff};
ghost use Rattle.std.specs.Prelude.{◌≡◌, ◌<◌, ◌++◌, length, is_ok, if◌then◌else◌};

use frame::{Rejection, VideoHeader};
use std::alloc::AllocError;
use std::str;

// Adds a header line to a file. Where that fails, `out` is as it was.
pub fn write_header(header: VideoHeader, out: &mut Vec<u8>) -> Result<(), AllocError>
    ensures { out.new.items ≡ (if is_ok result then out.old.items ++ header_line header else out.old.items) }
{
    let mut line = text::write_header(*out.allocator(), header)?;
    line.push('\n')?;
    out.extend_from_slice(line.as_bytes())
}

// The first newline's place.
fn newline(file: &[u8]) -> Option<usize>
    ensures { SomeIff result (line_length file.now < length file.now) (line_length file.now) }
{
    file.iter().position(|byte| *byte == b'\n')
}

// The header of a file, and the position of its first packet.
pub fn read_header(file: &[u8]) -> Result<(VideoHeader, usize), Rejection>
    ensures { HeaderRead file.now result }
{
    let end = newline(file).ok_or(Rejection::BadText(file.len() as u64))?;
    let line = str::from_utf8(&file[0..end]).map_err(|error| Rejection::BadText(
        error.valid_up_to() as u64,
    ))?;
    let header = text::parse_header(line)?;
    Ok((header, end + 1))
}
