// Pictures that are rows of numbers in a text.
use crate::coder::Coder;
use crate::wish::Wish;
use console::{Refusal, Source};
use frame::{Rejection, VideoHeader};
use std::alloc::Global;

// The rows of a picture that are read, and whether it is to be a key frame.
#[derive(Drop)]
struct Gathered {
    pixels: Vec<u8>,
    key: bool,
}

impl Gathered {
    // Takes a line that says a row of that width, or that the picture is to be a key frame, or nothing.
    fn take_line(&mut self, text: &str, width: usize) -> Result<(), Refusal> {
        let start = self.pixels.len();
        if text::is_key_line(text) && start == 0 {
            self.key = true;
        } else if !text::is_blank_line(text) {
            self.pixels.resize(start.saturating_add(width), 0)?;
            text::parse_row(text, &mut self.pixels[start..])?;
        }
        Ok(())
    }

    // Codes the picture if it is whole.
    fn code(&mut self, rt: &HostRuntime, coder: &mut Coder) -> Result<(), Refusal> {
        if self.pixels.len() >= coder.pixel_count() {
            coder.code(rt, self.pixels.as_slice(), self.key)?;
            self.pixels.clear();
            self.key = false;
        }
        Ok(())
    }
}

// The header line. Where there is none, the input may not have been meant as a text.
fn read_header(heap: Global, source: &mut Source) -> Result<VideoHeader, Refusal> {
    source.header_line(heap).map_err(|refusal| match refusal {
        Refusal::Rejected(rejection) => Refusal::sentence(format!(in heap;
            "no Y4M stream and no binary PGM (P5), and as a text: {rejection}"
        )),
        _ => refusal,
    })
}

pub fn code(rt: &HostRuntime, source: &mut Source, wish: &Wish) -> Result<(), Refusal> {
    let heap = rt.alloc();
    let header = read_header(heap, source)?;
    let mut coder = Coder::new(rt, header, wish)?;
    let width = coder.width();
    let mut gathered = Gathered {
        pixels: Vec::new(heap),
        key: false,
    };
    for line in source.lines(heap) {
        let line = line?;
        gathered
            .take_line(line.text.as_str(), width)
            .map_err(|refusal| line.placed(refusal))?;
        gathered.code(rt, &mut coder)?;
    }
    if gathered.pixels.is_empty() {
        return Ok(());
    }
    Err(Refusal::Rejected(Rejection::BadText(source.position())))
}
