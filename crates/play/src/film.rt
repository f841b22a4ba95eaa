// What a screen shows, as a Y4M stream.
use console::{Output, Refusal};
use frame::Format;
use pictures::{FrameRate, MARK_ROWS, Mark, Size};
use std::alloc::Global;
use std::io::Write;
use stream::Screen;

const USUAL_RATE: FrameRate = FrameRate {
    frames: 10,
    seconds: 1,
};

#[derive(Drop)]
pub struct Film {
    output: Output,
    width: u16,
}

impl Film {
    // Begins a stream whose pictures have a strip below.
    pub fn create(
        rt: &HostRuntime,
        name: &str,
        format: Format,
        rate: Option<FrameRate>,
    ) -> Result<Film, Refusal> {
        let heap = rt.alloc();
        let size = Size {
            width: 4 * format.across() as u16,
            height: 4 * format.down() as u16 + MARK_ROWS as u16,
        };
        let rate = rate.unwrap_or(USUAL_RATE);
        let mut line = pictures::write_y4m_header(heap, size, rate)?;
        line.push('\n')?;
        let mut output = Output::create(rt, name)?;
        output.write_all(line.as_bytes())?;
        Ok(Film {
            output,
            width: size.width,
        })
    }

    // Adds what the screen shows.
    pub fn add(&mut self, heap: Global, screen: &Screen) -> Result<(), Refusal> {
        let mark = Mark::of(screen.shown().is_some(), screen.sure());
        let frame = pictures::write_y4m_frame(heap, self.width, screen.picture(), mark)?;
        self.output.write_all(frame.as_slice())?;
        Ok(())
    }
}
