//! A radio to try the codec on: passes packets on from standard input, but loses, doubles and delays some.
//! The same seed does the same again.
#![tactic(auto)]

mod air;
mod chance;
mod wish;

use air::Air;
use console::{Input, PacketSource, Refusal, Source};
use std::alloc::Global;
use std::process::ExitCode;
use wish::Wish;

const HELP: &str = "radio [--binary] [SEED [LOST [DOUBLED [LATE]]]]
Passes packets on from standard input to standard output, but loses, doubles and delays so many in a hundred
(20, 10 and 10). The same seed does the same again. With --binary it reads and writes a video file instead of text.";

// A line of text as it was read.
fn line_bytes(heap: Global, line: &str) -> Result<Vec<u8>, Refusal> {
    let mut bytes = Vec::from_slice(heap, line.as_bytes())?;
    bytes.push(b'\n')?;
    Ok(bytes)
}

// Passes on packets that are lines of text.
fn pass_text(rt: &HostRuntime, source: &mut Source, air: &mut Air) -> Result<(), Refusal> {
    let heap = rt.alloc();
    let mut lines = source.lines(heap);
    let Some(first) = lines.next() else {
        return Ok(());
    };
    rt.println(first?.text)?;
    for line in lines {
        let line = line?;
        let text = line.text.as_str();
        if !text::is_worst_line(text) {
            air.pass(rt, line_bytes(heap, text)?)?;
        }
    }
    Ok(())
}

// Passes on the packets of a video file.
fn pass_binary(rt: &HostRuntime, source: Source, air: &mut Air) -> Result<(), Refusal> {
    let heap = rt.alloc();
    let (header, mut packets) = PacketSource::open(heap, source)?;
    rt.println(text::write_header(heap, header)?)?;
    while let Some(head) = packets.next()? {
        let mut bytes = Vec::new(heap);
        container::write_packet(head.with_bytes(packets.frame()), &mut bytes)?;
        air.pass(rt, bytes)?;
    }
    Ok(())
}

fn run(rt: &HostRuntime) -> Result<(), Refusal> {
    let heap = rt.alloc();
    let Some(wish) = console::read_named_wish(rt, "radio", Wish::new(heap))? else {
        rt.println(HELP)?;
        return Ok(());
    };
    let mut source = Source::new(heap, Input::standard(rt));
    let mut air = Air::new(heap, wish.weather());
    if wish.binary {
        pass_binary(rt, source, &mut air)?;
    } else {
        pass_text(rt, &mut source, &mut air)?;
    }
    air.end(rt)
}

fn main(rt: HostRuntime) -> ExitCode {
    console::exit_code(&rt, "radio", run(&rt))
}
