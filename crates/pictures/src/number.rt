// Sizes in decimal digits.
ghost use Rattle.std.specs.Prelude.{◌≡◌};
ghost use Rattle.pictures.specs.Bytes.{size_of};

// The width or height that digits write, if it is 1 to 65535.
pub(crate) fn parse_size(digits: &[u8]) -> Option<u16>
    ensures { result ≡ size_of digits.now }
{
    match text::parse_number(digits, 65535)? {
        0 => None,
        size => Some(size as u16),
    }
}
