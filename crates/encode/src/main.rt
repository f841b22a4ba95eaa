//! Codes pictures into a video: reads a Y4M stream, PGM pictures or a text, and writes packets as text to standard output
//! or in binary to a video file.
#![tactic(auto)]

mod coder;
mod packets;
mod picture_file;
mod picture_text;
mod reading;
mod wish;

use console::{Input, Refusal, Source};
use pictures::Form;
use std::process::ExitCode;
use wish::Wish;

const HELP: &str = "encode [--step S] [--key N] [--out FILE] [FILE]
Reads pictures from a file, or from standard input if there is none or it is -, and writes packets as text; with --out
it writes a video file in binary instead, to standard output if its name is -. What it reads may be
- a Y4M stream: grey, or 420, 422 or 444 in eight bits, of which the luma is taken;
- binary PGM pictures (P5), one after another and all of one size;
- a text: `size A D step S`, then pictures as rows of numbers, with `key` on a line of its own before key frames.
Pictures are padded to multiples of four by repeating the last column and row: at most 60 blocks of four by four
across, 60 down and 224 in all.
--step is the quantiser step, 1 to 64 (8 unless it is given): no pixel is off by more than half of it. A text says its own.
--key makes every Nth picture a key frame (unless it is given, only the first).";

// How many bytes say what the input is.
const FIRST: usize = 9;

fn run(rt: &HostRuntime) -> Result<(), Refusal> {
    let Some(wish) = console::read_named_wish(rt, "encode", Wish::default())? else {
        rt.println(HELP)?;
        return Ok(());
    };
    let input = Input::open(rt, wish.file.as_deref().unwrap_or("-"))?;
    let mut source = Source::new(rt.alloc(), input);
    source.fill(FIRST)?;
    // Closures, since a function of another crate has no proof as a value.
    match pictures::recognise(source.front()) {
        Form::Y4m => picture_file::code(rt, &mut source, &wish, |bytes| {
            pictures::open_y4m(bytes)
        }),
        Form::Pgm => picture_file::code(rt, &mut source, &wish, |bytes| {
            pictures::open_pgm(bytes)
        }),
        Form::Text if wish.step.is_some() => Err(
            "--step is for Y4M and PGM: a text says its step in its first line".into(),
        ),
        Form::Text => picture_text::code(rt, &mut source, &wish),
    }
}

fn main(rt: HostRuntime) -> ExitCode {
    console::exit_code(&rt, "encode", run(&rt))
}
