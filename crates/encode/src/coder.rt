// Pictures are coded one by one, and their packets written at once.
use crate::packets::Packets;
use crate::wish::Wish;
use console::Refusal;
use encoder::Encoder;
use frame::{Format, VideoHeader};
use pictures::KeyInterval;

#[derive(Drop)]
pub struct Coder {
    format: Format,
    encoder: Encoder,
    packets: Packets,
    interval: Option<KeyInterval>,
    // Room for a frame.
    buffer: Vec<u8>,
}

impl Coder {
    // Begins a video of that format.
    pub fn new(rt: &HostRuntime, header: VideoHeader, wish: &Wish) -> Result<Coder, Refusal> {
        let format = Format::try_from(header)?;
        let buffer = vec![in rt.alloc(); 0u8; encoder::worst_case_size(format)]?;
        Ok(Coder {
            format,
            encoder: Encoder::new(format),
            packets: Packets::create(rt, wish.out.as_deref(), header)?,
            interval: wish.key,
            buffer,
        })
    }

    // How many pixels stand in a row.
    pub fn width(&self) -> usize {
        4 * self.format.across()
    }

    pub fn pixel_count(&self) -> usize {
        self.format.pixel_count()
    }

    // Whether the next picture falls on the key interval.
    fn is_due(&self) -> bool {
        let number = self.encoder.next_number();
        self.interval
            .is_some_and(|interval| interval.is_key(number))
    }

    // Codes a picture, as a key frame if that is asked for, and writes its packet.
    pub fn code(&mut self, rt: &HostRuntime, source: &[u8], key: bool) -> Result<(), Refusal> {
        let key = key || self.is_due();
        let pushed = self.encoder.push(source, key, &mut self.buffer)?;
        let worst = encoder::worst_distance(self.encoder.picture(), source);
        self.packets.write(rt, pushed.packet(&self.buffer), worst)
    }
}
