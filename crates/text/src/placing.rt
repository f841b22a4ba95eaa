// What programs that read a text line by line need besides the lines.
ghost use Rattle.text.specs.Placing.{FormatLine, placed_at};
ghost use Rattle.text.specs.Text.{header_of};
ghost use Rattle.std.specs.Prelude.{◌≡◌};

use crate::parsing::parse_header;
use frame::{Format, Rejection};

// The format that a header line says.
pub fn parse_format(line: &str) -> Result<Format, Rejection>
    ensures { FormatLine (header_of line.now) result }
{
    Format::try_from(parse_header(line)?)
}

// A rejection whose position in a line is made one in the text, where the line begins at that offset.
pub fn placed(rejection: Rejection, offset: u64) -> Rejection
    ensures { result ≡ placed_at offset rejection }
{
    match rejection {
        Rejection::BadText(position) => Rejection::BadText(position.saturating_add(offset)),
        other => other,
    }
}
