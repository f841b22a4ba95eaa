// Where a byte stands, and a line's first word.
ghost use Rattle.std.specs.Prelude.{◌≡◌, ◌==◌, position};
ghost use Rattle.pictures.specs.Bytes.{cut};
ghost use Rattle.pictures.specs.Y4m.{first_word};

// Where a byte first stands.
pub(crate) fn find_byte(bytes: &[u8], wanted: u8) -> Option<usize>
    ensures { result ≡ position (λ c. c == wanted) bytes.now }
{
    bytes.iter().position(|byte| *byte == wanted)
}

// What stands before a line's first space, or the whole line where it has none.
pub(crate) fn first_word(line: &[u8]) -> &[u8]
    ensures { result.now ≡ first_word (cut line.now) }
{
    &line[..find_byte(line, b' ').unwrap_or(line.len())]
}
