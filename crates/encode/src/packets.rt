// Where packets go: as text to standard output, or in binary to a video file.
use console::{Output, Refusal};
use frame::{Packet, VideoHeader};
use std::io::Write;

#[derive(Drop)]
pub enum Packets {
    Text,
    Binary(Output),
}

impl Packets {
    // Begins with the header line, in a file of that name if there is one.
    pub fn create(
        rt: &HostRuntime,
        name: Option<&str>,
        header: VideoHeader,
    ) -> Result<Packets, Refusal> {
        let heap = rt.alloc();
        match name {
            Some(name) => {
                let mut bytes = Vec::new(heap);
                container::write_header(header, &mut bytes)?;
                let mut output = Output::create(rt, name)?;
                output.write_all(bytes.as_slice())?;
                Ok(Packets::Binary(output))
            }
            None => {
                rt.println(text::write_header(heap, header)?)?;
                Ok(Packets::Text)
            }
        }
    }

    // Writes a packet, and where packets are text how far its picture's worst pixel is off.
    pub fn write(
        &mut self,
        rt: &HostRuntime,
        packet: Packet<'_>,
        worst: u8,
    ) -> Result<(), Refusal> {
        let heap = rt.alloc();
        match self {
            Packets::Text => {
                rt.println(text::write_packet(heap, packet)?)?;
                rt.println(text::write_worst(heap, worst)?)?;
            }
            Packets::Binary(output) => {
                let mut bytes = Vec::new(heap);
                container::write_packet(packet, &mut bytes)?;
                output.write_all(bytes.as_slice())?;
            }
        }
        Ok(())
    }
}
