// An encoder that keeps its own reference picture and sequence number.
ghost use Rattle.std.specs.Prelude.{◌≡◌, ℕ, ◌||◌, length, take, ◌==◌};
ghost use Rattle.block.specs.Picture.{Picture};
ghost use Rattle.encoder.specs.Session.{Made, PushSays, ShowsLast, encoder_format, encoder_pixels, push_rejection};
ghost use Rattle.frame.specs.Frame.{Holds};
ghost use Rattle.frame.specs.Video.{Video, picture_after};

use crate::coding::code_frame;
use crate::input::FrameInput;
use frame::{Format, Frame, FrameHeader, MAX_PIXELS, Packet, Rejection};

#[derive(Drop)]
pub struct Encoder {
    format: Format,
    // The sequence number of the next frame.
    next: u64,
    // The first of them are the reference picture. There is no heap in a camera, so there is room for one of any format.
    pixels: [u8; MAX_PIXELS],
}

// A frame in the buffer: its sequence number, whether it is a key frame, and how many bytes it has.
#[derive(Clone, Copy, PartialEq, Eq, Debug)]
pub struct Pushed {
    pub number: u64,
    pub key: bool,
    pub length: usize,
}

impl Pushed {
    // The frame's packet, out of the buffer that it was pushed into.
    pub fn packet(self, buffer: &[u8]) -> Packet<'_>
        ensures number { result.number ≡ self.number }
        ensures header { result.frame.header.key ≡ self.key }
        ensures bytes { result.frame.bytes.now ≡ take self.length buffer.now }
    {
        let end = self.length.min(buffer.len());
        Packet {
            number: self.number,
            frame: Frame {
                header: FrameHeader { key: self.key },
                bytes: &buffer[..end],
            },
        }
    }
}

impl Encoder {
    // An encoder that has made nothing, and goes on from black.
    pub fn new(format: Format) -> Encoder
        ensures format { result.format ≡ format }
        ensures made { (video : Video) (sources : ℕ → Picture) → Made result video sources 0 }
    {
        Encoder {
            format,
            next: 0,
            pixels: [0; MAX_PIXELS],
        }
    }

    // The sequence number that the next frame will have, which is how many were made.
    pub fn next_number(&self) -> u64
        ensures number { result ≡ self.now.next }
        ensures made { (video : Video) (sources : ℕ → Picture) (n : ℕ) → Made self.now video sources n → result ≡ n }
    {
        self.next
    }

    // The picture that the last frame's bytes mean, row by row; black at first.
    pub fn picture(&self) -> &[u8]
        ensures pixels { result.now ≡ encoder_pixels self.now }
        ensures made { (video : Video) (sources : ℕ → Picture) (n : ℕ) → Made self.now video sources n → Holds (encoder_format self.now) (picture_after (encoder_format self.now) video n) result.now }
        ensures last { ShowsLast self.now result.now }
    {
        &self.pixels[..self.format.pixel_count()]
    }

    // Whether the next frame is a key frame: if it is asked for, or if there is no picture to go on from.
    fn next_is_key(&self, asked: bool) -> bool
        ensures { result ≡ (asked || self.now.next == 0) }
    {
        asked || self.next == 0
    }

    // Codes a source as the next frame, a key frame if asked for or the first, into the buffer.
    // The encoder then goes on from the picture that the frame shows. What is rejected changes nothing.
    pub fn push(&mut self, source: &[u8], key: bool, buffer: &mut [u8]) -> Result<Pushed, Rejection>
        ensures { PushSays (push_rejection self.old source.now) self.old source.now key buffer.old result self.new buffer.new }
    {
        frame::check_number(self.next)?;
        let header = FrameHeader {
            key: self.next_is_key(key),
        };
        let pixels = self.format.pixel_count();
        let input = FrameInput {
            format: self.format,
            header,
            source,
            reference: &self.pixels[..pixels],
        };
        // There is no heap: the scratch picture has room for one of any format.
        let mut scratch = [0; MAX_PIXELS];
        let picture = &mut scratch[..pixels];
        let length = code_frame(input, buffer, picture)?;
        self.pixels[..pixels].copy_from_slice(picture);
        let number = self.next;
        self.next += 1;
        Ok(Pushed {
            number,
            key: header.key,
            length,
        })
    }
}
