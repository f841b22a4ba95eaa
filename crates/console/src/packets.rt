// A video file read packet by packet.
ghost use Rattle.std.specs.Prelude.{◌≡◌, ◌<◌, None, Ok, IfOk, OnOk, true};
ghost use Rattle.container.specs.Reader.{ending, frame_of, state_of};
ghost use Rattle.console.specs.Packets.{pending_length};

use crate::refusal::Refusal;
use crate::source::Source;
use container::{PacketHead, PacketReader};
use frame::VideoHeader;
use std::alloc::Global;

// No header line that says a format is longer, unless it has needless zeros or spaces.
const LONGEST_HEADER: usize = 16384;

#[derive(Drop)]
pub struct PacketSource {
    source: Source,
    reader: PacketReader,
    // How many packets may still come. Nothing says that an input ends.
    left: u64,
}

impl PacketSource {
    // Reads the header line of a file.
    pub fn open(heap: Global, mut source: Source) -> Result<(VideoHeader, PacketSource), Refusal> {
        source.read_to_line_end(LONGEST_HEADER)?;
        let (header, start) = container::read_header(source.front())?;
        source.take(start);
        let reader = PacketReader::new(heap, source.position());
        Ok((
            header,
            PacketSource {
                source,
                reader,
                left: u64::MAX,
            },
        ))
    }

    // Hands on to the reader what is held or else read next, and says whether there was something.
    fn feed(&mut self) -> Result<bool, Refusal>
        ensures left { self.new.left ≡ self.old.left }
        ensures grown { IfOk result (λ fed. fed ≡ true → pending_length self.old < pending_length self.new) }
    {
        if self.source.front().is_empty() && !self.source.read_more()? {
            return Ok(false);
        }
        self.reader.feed(self.source.front())?;
        self.source.take(usize::MAX);
        Ok(true)
    }

    // Takes the next packet, or none at the end. A packet that is cut is refused.
    // It gives the head and no packet that borrows the source, since `whole` says what the source is afterwards.
    pub fn next(&mut self) -> Result<Option<PacketHead>, Refusal>
        ensures fewer { OnOk result (self.new.left < self.old.left) }
        ensures whole { result ≡ Ok None → ending (state_of self.new.reader) ≡ Ok tt }
    {
        self.left = self
            .left
            .checked_sub(1)
            .ok_or("there are too many packets")?;
        loop {
            if let Some(head) = self.reader.next()? {
                return Ok(Some(head));
            }
            if !self.feed()? {
                self.reader.end()?;
                return Ok(None);
            }
        }
    }

    // The frame of the packet that was taken last.
    pub fn frame(&self) -> &[u8]
        ensures { result.now ≡ frame_of self.now.reader }
    {
        self.reader.frame()
    }
}
