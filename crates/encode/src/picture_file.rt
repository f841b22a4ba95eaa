// Pictures of a Y4M stream or of a file of PGM pictures.
use crate::coder::Coder;
use crate::reading::read_whole;
use crate::wish::Wish;
use console::{Refusal, Source};
use frame::VideoHeader;
use pictures::{Layout, Opening, PictureError};
use std::alloc::Global;
use std::iter;

const USUAL_STEP: u64 = 8;

// The next picture, padded to so many pixels, or none at the end.
fn next_picture(
    heap: Global,
    source: &mut Source,
    layout: Layout,
    pixel_count: usize,
) -> Result<Option<Vec<u8>>, Refusal> {
    source.fill(1)?;
    if source.front().is_empty() {
        return Ok(None);
    }
    let mut picture = vec![in heap; 0u8; pixel_count]?;
    let room = picture.as_mut_slice();
    let next = read_whole(source, move |front| {
        let at = layout.locate(front)?;
        let pixels = &front[at.start..at.end];
        pictures::pad_picture(pixels, layout.size(), room);
        Ok(at.next)
    })?;
    source.take(next);
    Ok(Some(picture))
}

// Codes one picture after another. Nothing says that an input ends, so it counts them.
fn code_pictures(
    rt: &HostRuntime,
    source: &mut Source,
    layout: Layout,
    wish: &Wish,
) -> Result<(), Refusal> {
    let header = VideoHeader {
        across: pictures::block_count(layout.size().width),
        down: pictures::block_count(layout.size().height),
        step: wish.step.unwrap_or(USUAL_STEP),
    };
    let heap = rt.alloc();
    let mut coder = Coder::new(rt, header, wish)?;
    let pixel_count = coder.pixel_count();
    let pictures = iter::from_fn(|| next_picture(heap, source, layout, pixel_count).transpose());
    for picture in pictures.take(usize::MAX) {
        coder.code(rt, picture?.as_slice(), false)?;
    }
    Ok(())
}

// Codes the pictures of a file that begins as `read_opening` reads it.
pub(crate) fn code<F: Fn(&[u8]) -> Result<Opening, PictureError>>(
    rt: &HostRuntime,
    source: &mut Source,
    wish: &Wish,
    read_opening: F,
) -> Result<(), Refusal>
    requires { F.IsAlwaysCallable read_opening }
{
    let opening = read_whole(source, read_opening)?;
    source.take(opening.start);
    code_pictures(rt, source, opening.layout, wish)
}
