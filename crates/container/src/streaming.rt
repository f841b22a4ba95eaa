// A file read in pieces: feed a piece, take the packets that are whole, and so on; then see that the file ends well.
ghost use Rattle.std.specs.Prelude.{◌≡◌, [], is_ok, IfOk, if◌then◌else◌};
ghost use Rattle.container.specs.Reader.{FrameKept, TookAny, answered, ending, fed, frame_of, next_packet, state_after, state_of};

use crate::fault::Fault;
use crate::packet::PacketHead;
use crate::reader::PacketReader;
use crate::reading::locate;
use frame::Rejection;
use std::alloc::{AllocError, Global};

impl PacketReader {
    // A reader of a file from this position on, which has been fed nothing.
    pub fn new(heap: Global, position: u64) -> PacketReader
        ensures state { state_of result ≡ record { pending = []; position = position } }
        ensures frame { frame_of result ≡ [] }
    {
        PacketReader {
            held: Vec::new(heap),
            frame: 0,
            taken: 0,
            position,
        }
    }

    // Adds the file's next bytes. The last packet's frame is let go.
    pub fn feed(&mut self, piece: &[u8]) -> Result<(), AllocError>
        ensures state { state_of self.new ≡ (if is_ok result then fed (state_of self.old) piece.now else state_of self.old) }
        ensures frame { frame_of self.new ≡ [] }
    {
        let pending = self.held.len() - self.taken;
        self.held.copy_within(self.taken.., 0);
        self.held.truncate(pending);
        self.frame = 0;
        self.taken = 0;
        self.held.extend_from_slice(piece)
    }

    // Takes the next packet, or none until more is fed.
    pub fn next(&mut self) -> Result<Option<PacketHead>, Rejection>
        ensures packet { answered result (frame_of self.new) ≡ next_packet (state_of self.old) }
        ensures state { state_of self.new ≡ state_after (state_of self.old) }
        ensures took { IfOk result (TookAny (state_of self.old) (state_of self.new) (frame_of self.new)) }
        ensures frame { FrameKept result (frame_of self.old) (frame_of self.new) }
    {
        match locate(&self.held[self.taken..]) {
            Ok(found) => {
                self.frame = self.taken + found.start;
                self.taken += found.end;
                self.position = self.position.saturating_add(found.end as u64);
                Ok(Some(found.head))
            }
            Err(Fault::Cut) => Ok(None),
            Err(Fault::Malformed) => Err(Rejection::BadText(self.position)),
        }
    }

    // The frame of the packet that was taken last, until more is fed.
    pub fn frame(&self) -> &[u8]
        ensures { result.now ≡ frame_of self.now }
    {
        &self.held[self.frame..self.taken]
    }

    // What a file that ends here is rejected for, once no whole packet is left.
    pub fn end(&self) -> Result<(), Rejection>
        ensures { result ≡ ending (state_of self.now) }
    {
        if self.taken < self.held.len() {
            return Err(Rejection::PacketCut(self.position));
        }
        Ok(())
    }
}
