ghost use Rattle.std.specs.Prelude.{◌≡◌};
ghost use Rattle.container.specs.Container.{rejected};

use frame::Rejection;

// Why bytes do not begin with a packet.
#[derive(Clone, Copy)]
pub(crate) enum Fault {
    // They end too early: with more bytes it may be one.
    Cut,
    // A number out of range or not in its shortest form: no more bytes make it one.
    Malformed,
}

impl Fault {
    pub(crate) fn rejection(self, position: u64) -> Rejection
        ensures { result ≡ rejected self position }
    {
        match self {
            Fault::Cut => Rejection::PacketCut(position),
            Fault::Malformed => Rejection::BadText(position),
        }
    }
}
