ghost use Rattle.std.specs.Prelude.{◌≡◌};
ghost use Rattle.camera.specs.Camera.{receiver_in};

use stream::Receiver;

// A receiver as C keeps it, beside the picture that it shows. All of its bits are numbers, so that none can be wrong.
#[repr(C)]
#[derive(Clone, Copy, PartialEq, Eq, Debug)]
pub struct CReceiver {
    // The sequence number that it expects next.
    pub next: u64,
    // Whether it is sure of its picture: 0 if it is not.
    pub sure: u64,
}

impl From<CReceiver> for Receiver {
    ghost from_gives = { λ kept receiver. receiver ≡ receiver_in kept };

    fn from(kept: CReceiver) -> Receiver {
        Receiver {
            sure: kept.sure > 0,
            next: kept.next,
        }
    }
}

impl From<Receiver> for CReceiver {
    ghost from_gives = { λ receiver kept. receiver_in kept ≡ receiver };

    fn from(receiver: Receiver) -> CReceiver {
        CReceiver {
            next: receiver.next,
            sure: u64::from(receiver.sure),
        }
    }
}
