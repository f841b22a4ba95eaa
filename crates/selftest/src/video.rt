// Videos with motion, sent as packets of which some are lost, doubled or late.
use crate::failure::Failure;
use crate::group::{Group, run};
use crate::pictures::{change, is_near, shift};
use crate::random::Random;
use encoder::{Encoder, Pushed};
use frame::{Format, Packet, VideoHeader};
use std::alloc::Global;
use std::io;
use stream::Screen;

// How many frames a video has.
const FRAMES: usize = 60;

// How many bytes there is room for in a frame.
const MOST_BYTES: usize = 8192;

// A frame, its source, and the picture that its encoder says it shows.
#[derive(Drop)]
struct Recorded {
    pushed: Pushed,
    buffer: Vec<u8>,
    source: Vec<u8>,
    picture: Vec<u8>,
}

impl Recorded {
    // Codes a source as the encoder's next frame, and as a key frame if asked for.
    fn new(
        heap: Global,
        encoder: &mut Encoder,
        source: &[u8],
        key: bool,
    ) -> Result<Recorded, Failure> {
        let mut buffer = vec![in heap; 0; MOST_BYTES]?;
        let pushed = encoder.push(source, key, &mut buffer)?;
        Ok(Recorded {
            pushed,
            buffer,
            source: Vec::from_slice(heap, source)?,
            picture: Vec::from_slice(heap, encoder.picture())?,
        })
    }

    fn packet(&self) -> Packet<'_> {
        self.pushed.packet(&self.buffer)
    }
}

#[derive(Drop)]
struct Video {
    format: Format,
    frames: Vec<Recorded>,
}

impl Video {
    // A scene that moves to the left and up by a pixel from frame to frame, while some of its pixels change.
    fn record(heap: Global, random: &mut Random, format: Format) -> Result<Video, Failure> {
        let by = usize::from(format.plane_size().width) + 1;
        let mut scene = vec![in heap; 0; format.pixel_count()]?;
        random.fill(&mut scene);
        let mut encoder = Encoder::new(format);
        let mut frames = Vec::with_capacity(heap, FRAMES)?;
        for _ in 0..FRAMES {
            shift(&mut scene, by);
            change(random, &mut scene, 50);
            let key = random.below(8) == 0;
            frames.push(Recorded::new(heap, &mut encoder, &scene, key)?)?;
        }
        Ok(Video { format, frames })
    }

    // A screen that is sure is to show the picture of the encoder, which is within half a step of its source.
    fn check_shown(&self, screen: &Screen) -> Result<(), Failure> {
        let number = screen.shown().ok_or(Failure::NothingShown)?;
        let frame = self
            .frames
            .iter()
            .find(|frame| frame.pushed.number == number)
            .ok_or(Failure::NoSuchFrame)?;
        if screen.picture() != frame.picture.as_slice() {
            return Err(Failure::OtherPicture);
        }
        if !is_near(screen.picture(), &frame.source, self.format.step().half()) {
            return Err(Failure::FarFromSource);
        }
        Ok(())
    }

    // Sends a frame to a screen, which counts as a case if the screen is sure then.
    fn send(
        &self,
        group: &mut Group,
        screen: &mut Screen,
        frame: &Recorded,
    ) -> Result<(), Failure> {
        screen.receive(frame.packet())?;
        if screen.sure() {
            group.passes(frame.pushed.number, self.check_shown(screen));
        }
        Ok(())
    }

    // Sends the frames: some are lost, some come twice, and some come after a later one.
    fn send_all(&self, group: &mut Group, random: &mut Random) -> Result<(), Failure> {
        let mut screen = Screen::new(self.format);
        let mut held = self.frames.first();
        for frame in &self.frames {
            match random.below(10) {
                0 => {}
                1 => held = Some(frame),
                2 => {
                    self.send(group, &mut screen, frame)?;
                    self.send(group, &mut screen, frame)?;
                }
                _ => self.send(group, &mut screen, frame)?,
            }
            if random.below(6) == 0
                && let Some(late) = held
            {
                self.send(group, &mut screen, late)?;
            }
        }
        Ok(())
    }
}

static VIDEOS: [(&str, VideoHeader); 3] = [
    (
        "sure and right in a video of 1 by 1 blocks",
        VideoHeader {
            across: 1,
            down: 1,
            step: 16,
        },
    ),
    (
        "sure and right in a video of 9 by 5 blocks",
        VideoHeader {
            across: 9,
            down: 5,
            step: 1,
        },
    ),
    (
        "sure and right in a video of 14 by 16 blocks",
        VideoHeader {
            across: 14,
            down: 16,
            step: 8,
        },
    ),
];

fn check_video(group: &mut Group, random: &mut Random, header: VideoHeader) -> Result<(), Failure> {
    let format = Format::try_from(header)?;
    let video = Video::record(group.heap(), random, format)?;
    video.send_all(group, random)
}

pub fn check_videos(rt: &HostRuntime) -> io::Result<()> {
    let mut random = Random::new(9);
    for (name, header) in &VIDEOS {
        run(rt, *name, |group| check_video(group, &mut random, *header))?;
    }
    Ok(())
}
