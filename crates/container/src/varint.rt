// Numbers in groups of seven bits, the lowest first.
ghost use Rattle.std.specs.Prelude.{◌≡◌, ◌+◌, ◌*◌, ◌%◌, ◌^◌, ◌<◌, ◌≤◌, ◌++◌, length, take, IfOk};
ghost use Rattle.container.specs.Container.{varint, varint_of};
ghost use Rattle.std.specs.Option.{SomeIff};

use crate::fault::Fault;

// A number that was read, and how many bytes it took.
#[derive(Clone, Copy)]
pub(crate) struct Varint {
    pub(crate) value: u64,
    pub(crate) size: usize,
}

// The value with the byte's group added, if it fits.
fn with_group(value: u64, byte: u8, place: u64) -> Option<u64>
    ensures { SomeIff result (value + byte % 128 * place < 2 ^ 64) (value + byte % 128 * place) }
{
    value.checked_add(u64::from(byte % 128).checked_mul(place)?)
}

pub(crate) fn read_varint(bytes: &[u8]) -> Result<Varint, Fault>
    ensures value { result ≡ varint_of bytes.now }
    ensures within { IfOk result (λ v. (0 < v.size) × (v.size ≤ length bytes.now)) }
{
    let mut value: u64 = 0;
    let mut place: u64 = 1;
    for (index, byte) in bytes.iter().enumerate() {
        value = with_group(value, *byte, place).ok_or(Fault::Malformed)?;
        if *byte < 128 {
            // A last group of zero says nothing: the form without it is the shortest.
            if *byte == 0 && place > 1 {
                return Err(Fault::Malformed);
            }
            return Ok(Varint {
                value,
                size: index + 1,
            });
        }
        place = place.checked_mul(128).ok_or(Fault::Malformed)?;
    }
    Err(Fault::Cut)
}

// Puts a number's bytes at this position, and says where they end.
pub(crate) fn put_varint(number: u64, bytes: &mut [u8], position: usize) -> usize
    requires { position + length (varint number) ≤ length bytes.old }
    ensures end { result ≡ position + length (varint number) }
    ensures bytes { take result bytes.new ≡ take position bytes.old ++ varint number }
{
    // How many bytes there are shows only at the last one, so no iterator ends this loop.
    let mut rest = number;
    let mut end = position;
    while rest >= 128 {
        bytes[end] = 128 + (rest % 128) as u8;
        end += 1;
        rest /= 128;
    }
    bytes[end] = rest as u8;
    end + 1
}
