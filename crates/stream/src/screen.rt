// A receiver with a picture of its own.
ghost use Rattle.std.specs.Prelude.{◌≡◌, ℕ, suc, true, List, []};
ghost use Rattle.frame.specs.Frame.{Packet as Sent};
ghost use Rattle.frame.specs.Rejection.{number_rejection};
ghost use Rattle.frame.specs.Show.{packet_of};
ghost use Rattle.stream.specs.Screen.{FollowsSource, Received, ScreenSays, ShowsVideo, number_shown, picture_shown, screen_format, screen_pixels};
ghost use Rattle.frame.specs.Video.{picture_after};

use crate::receiver::Receiver;
use crate::receiving::receive;
use frame::{Format, MAX_PIXELS, Packet, Rejection};

#[derive(Drop)]
pub struct Screen {
    format: Format,
    receiver: Receiver,
    // The first of them are the picture: there is room for one of any format, since a camera has no heap.
    pixels: [u8; MAX_PIXELS],
}

impl Screen {
    // A black screen that has received nothing.
    pub fn new(format: Format) -> Screen
        ensures format { result.format ≡ format }
        ensures received { Received result [] }
    {
        Screen {
            format,
            receiver: Receiver::new(),
            pixels: [0; MAX_PIXELS],
        }
    }

    // Receives a packet.
    pub fn receive(&mut self, packet: Packet<'_>) -> Result<(), Rejection>
        ensures { ScreenSays (number_rejection packet.entry.number) self.old (packet_of packet.entry) result self.new }
    {
        let pixels = self.format.pixel_count();
        self.receiver = receive(
            self.format,
            self.receiver,
            packet,
            &mut self.pixels[..pixels],
        )?;
        Ok(())
    }

    // Whether it is sure of its picture: it is then the video's before the expected number, and it has shown some.
    pub fn sure(&self) -> bool
        ensures mark { result ≡ self.now.receiver.sure }
        ensures video { result ≡ true → ShowsVideo self.now (λ video. picture_after (screen_format self.now) video self.now.receiver.next) }
        ensures source { result ≡ true → FollowsSource self.now }
        ensures some { result ≡ true → (ps : List Sent) → Received self.now ps → (n : ℕ) × (self.now.receiver.next ≡ suc n) }
    {
        self.receiver.sure
    }

    // The number of the packet that it shows, sure or not, if it has shown any.
    pub fn shown(&self) -> Option<u64>
        ensures number { result ≡ number_shown self.now.receiver.next }
        ensures video { ShowsVideo self.now (λ video. picture_shown (screen_format self.now) video result) }
    {
        self.receiver.next.checked_sub(1)
    }

    // The picture, row by row.
    pub fn picture(&self) -> &[u8]
        ensures { result.now ≡ screen_pixels self.now }
    {
        &self.pixels[..self.format.pixel_count()]
    }
}
