//! Plays a video: reads packets as text from standard input or from a video file, and shows for each what the screen
//! shows, as text or as a Y4M stream.
#![tactic(auto)]

mod film;
mod view;
mod wish;

use console::{Input, PacketSource, Refusal, Source};
use frame::Format;
use std::alloc::Global;
use std::process::ExitCode;
use stream::Screen;
use view::View;
use wish::Wish;

const HELP: &str = "play [FILE] [show] [--y4m OUT] [--rate F[:S]]
Reads packets as text from standard input, or in binary from a video file, which is standard input if FILE is -.
Says for each what the screen shows: `sure 3`, `unsure, 3 shown` or `unsure, none shown`; with `show` the pictures too.
--y4m writes what is shown as a grey Y4M stream to a file, or to standard output instead of the text if OUT is -.
Below each picture stands a strip: white if it is sure, black and white squares if it is not, black if there is none.
--rate says how many frames a second the stream has, or how many in S seconds: 10 unless it is given.";

// Receives the packet that a line says.
fn receive(heap: Global, screen: &mut Screen, line: &str) -> Result<(), Refusal> {
    let packet = text::parse_packet(heap, line)?;
    screen.receive(packet.lend())?;
    Ok(())
}

// Plays packets that are lines of text.
fn play_text(rt: &HostRuntime, source: &mut Source, wish: &Wish) -> Result<(), Refusal> {
    let heap = rt.alloc();
    let format = Format::try_from(source.header_line(heap)?)?;
    let mut screen = Screen::new(format);
    let mut view = View::new(rt, format, wish)?;
    for line in source.lines(heap) {
        let line = line?;
        let text = line.text.as_str();
        if !text::is_blank_line(text) && !text::is_worst_line(text) {
            receive(heap, &mut screen, text).map_err(|refusal| line.placed(refusal))?;
            view.show(rt, &screen)?;
        }
    }
    Ok(())
}

// Plays the packets of a video file.
fn play_binary(rt: &HostRuntime, source: Source, wish: &Wish) -> Result<(), Refusal> {
    let (header, mut packets) = PacketSource::open(rt.alloc(), source)?;
    let format = Format::try_from(header)?;
    let mut screen = Screen::new(format);
    let mut view = View::new(rt, format, wish)?;
    while let Some(head) = packets.next()? {
        screen.receive(head.with_bytes(packets.frame()))?;
        view.show(rt, &screen)?;
    }
    Ok(())
}

fn run(rt: &HostRuntime) -> Result<(), Refusal> {
    let Some(wish) = console::read_named_wish(rt, "play", Wish::default())? else {
        rt.println(HELP)?;
        return Ok(());
    };
    let heap = rt.alloc();
    match &wish.file {
        Some(name) => {
            let input = Input::open(rt, name.as_str())?;
            play_binary(rt, Source::new(heap, input), &wish)
        }
        None => play_text(rt, &mut Source::new(heap, Input::standard(rt)), &wish),
    }
}

fn main(rt: HostRuntime) -> ExitCode {
    console::exit_code(&rt, "play", run(&rt))
}
