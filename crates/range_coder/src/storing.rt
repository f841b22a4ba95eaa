// A store's bytes: room for more of them, and the bottom of the range, which they hold, raised.
ghost use Rattle.std.specs.Prelude.{◌≡◌, ℕ, ◌+◌, ◌*◌, ◌^◌, ◌<◌, ◌≤◌, false, length};
ghost use Rattle.std.specs.Fn.{FnOnceReturnsAtMut, FnOnceTakesAtMut};
ghost use Rattle.bits.specs.Bits.{bits_of};
ghost use Rattle.range_coder.specs.Code.{capacity};
ghost use Rattle.range_coder.specs.Store.{size_of, stored};

use crate::store::Store;

// The same bytes with zeros after them.
fn grown(few: &[u8; 1024]) -> [u8; 62728]
    ensures same { bits_of result ≡ bits_of few.now }
    ensures long { length result ≡ 62728 }
{
    let mut many = [0; 62728];
    many[..1024].copy_from_slice(few);
    many
}

impl Store {
    // All of the bytes.
    pub(crate) fn as_slice(&self) -> &[u8]
        ensures { result.now ≡ stored self.now }
    {
        match self {
            Store::Few(bytes) => bytes,
            Store::Many(bytes) => bytes,
        }
    }

    // The same bytes, with zeros after them, where a decision more might not find room.
    pub(crate) fn make_room(&mut self, bits: usize)
        requires few { bits < capacity }
        requires sized { length (stored self.old) ≡ size_of self.old }
        ensures sized { length (stored self.new) ≡ size_of self.new }
        ensures same { bits_of (stored self.new) ≡ bits_of (stored self.old) }
        ensures room { bits + 7 ≤ 8 * length (stored self.new) }
    {
        if let Store::Few(few) = self
            && bits + 7 > 8 * few.len()
        {
            *self = Store::Many(grown(few));
        }
    }

    // What f makes of all the bytes. They go to a closure, since a proof can't follow a `&mut [u8]` out of the match.
    pub(crate) fn with_bytes<R, F: FnOnce(&mut [u8]) -> R>(&mut self, f: F) -> R
        requires { FnOnceTakesAtMut F.FnOnce f (stored self.old) }
        ensures sized { length (stored self.old) ≡ size_of self.old → length (stored self.new) ≡ size_of self.new }
        ensures done { FnOnceReturnsAtMut F.FnOnce f (stored self.old) result (stored self.new) }
    {
        match self {
            Store::Few(bytes) => f(bytes),
            Store::Many(bytes) => f(bytes),
        }
    }
}
