//! Runs many cases through the codec's public functions, and prints for each group how many passed.
#![tactic(auto)]

mod blocks;
mod examples;
mod failure;
mod frames;
mod group;
mod pictures;
mod random;
mod rejections;
mod video;

use group::run;
use std::io;

fn main(rt: HostRuntime) -> io::Result<()> {
    run(&rt, "byte examples", examples::check_bytes)?;
    run(
        &rt,
        "blocks of byte examples read back",
        examples::check_bytes_read,
    )?;
    run(
        &rt,
        "invalid frame that leaves the picture as it was",
        examples::check_invalid,
    )?;
    run(&rt, "residual examples by level", examples::check_residuals)?;
    run(
        &rt,
        "residuals by butterflies and by the plain sum",
        examples::check_residual_sums,
    )?;
    run(
        &rt,
        "nearest levels and their pixels by step",
        examples::check_nearest_levels,
    )?;
    run(&rt, "random blocks read back", blocks::check_random_blocks)?;
    run(&rt, "random frames", frames::check_random_frames)?;
    run(
        &rt,
        "still frames of at most 40 bytes",
        frames::check_still_frames,
    )?;
    run(&rt, "rejections by the encoder", rejections::check_coding)?;
    run(&rt, "rejections by the decoder", rejections::check_showing)?;
    run(
        &rt,
        "rejections by the receiver",
        rejections::check_receiving,
    )?;
    run(
        &rt,
        "rejections by the encoder of a video",
        rejections::check_pushing,
    )?;
    video::check_videos(&rt)
}
