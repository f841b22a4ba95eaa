// Examples that were worked out by hand: the bytes of frames, residuals, and the levels nearest to a source.
use crate::blocks::{FrameBlocks, random_levels};
use crate::failure::Failure;
use crate::group::Group;
use crate::random::Random;
use block::{Block, MotionVector, Prediction, Step};
use frame::{Frame, FrameHeader, ShowError, VideoHeader};
use range_coder::Writer;
use std::array;

const BLACK: Block = Block {
    prediction: Prediction::Flat(0),
    levels: [0; 16],
};

const GREY: Block = Block {
    prediction: Prediction::Flat(128),
    levels: [0; 16],
};

const WHITE: Block = Block {
    prediction: Prediction::Flat(255),
    levels: [0; 16],
};

const BRIGHTER: Block = Block {
    prediction: Prediction::Flat(128),
    levels: [3, 0, 0, 0, 0, 0, 0, 0, 0, 0, 0, 0, 0, 0, 0, 0],
};

const STRIPES: Block = Block {
    prediction: Prediction::Flat(128),
    levels: [0, -2, 0, 0, 0, 0, 0, 0, 0, 0, 0, 0, 0, 0, 0, 0],
};

const STILL: Block = Block {
    prediction: Prediction::Motion(MotionVector { dx: 0, dy: 0 }),
    levels: [0; 16],
};

const MOVED: Block = Block {
    prediction: Prediction::Motion(MotionVector { dx: 1, dy: -2 }),
    levels: [0; 16],
};

const SIXTEEN_STILL: [u8; 6] = [136, 30, 167, 164, 227, 96];

// Frames by name: whether they are key frames, their blocks, and their bytes.
static BYTE_EXAMPLES: [(&str, bool, &[Block], &[u8]); 9] = [
    ("flat 0", true, &[BLACK], &[]),
    ("flat 128", true, &[GREY], &[128]),
    ("flat 255", true, &[WHITE], &[255]),
    ("flat 128 and level 0 of 3", true, &[BRIGHTER], &[128, 224]),
    ("flat 128 and level 1 of -2", true, &[STRIPES], &[128, 172]),
    ("4 times flat 128", true, &[GREY; 4], &[128, 64, 34, 19]),
    ("no motion", false, &[STILL], &[128]),
    ("1 right and 2 up", false, &[MOVED], &[197, 128]),
    ("16 times no motion", false, &[STILL; 16], &SIXTEEN_STILL),
];

pub fn check_bytes(group: &mut Group) -> Result<(), Failure> {
    for (name, key, blocks, bytes) in &BYTE_EXAMPLES {
        let frame = FrameBlocks {
            header: FrameHeader { key: *key },
            blocks: *blocks,
        };
        let mut writer = Writer::new();
        frame.write(&mut writer);
        group.equal(*name, writer.finish(), *bytes);
    }
    Ok(())
}

pub fn check_bytes_read(group: &mut Group) -> Result<(), Failure> {
    for (name, key, blocks, bytes) in &BYTE_EXAMPLES {
        let frame = FrameBlocks {
            header: FrameHeader { key: *key },
            blocks: *blocks,
        };
        frame.check_read(group, *name, *bytes);
    }
    Ok(())
}

// A frame whose block would be taken from over an edge is invalid, and changes nothing.
pub fn check_invalid(group: &mut Group) -> Result<(), Failure> {
    let header = VideoHeader {
        across: 1,
        down: 1,
        step: 8,
    };
    let frame = Frame {
        header: FrameHeader { key: false },
        bytes: &[197, 128],
    };
    let mut picture = [7; 16];
    let shown = frame::show(header, frame, &[0; 16], &mut picture);
    group.equal(
        "1 right and 2 up in one block",
        (shown, picture),
        (Err(ShowError::Invalid), [7; 16]),
    );
    Ok(())
}

// The sixteen values of four rows.
fn flattened<T: Copy>(rows: [[T; 4]; 4]) -> [T; 16] {
    array::from_fn(|i| rows[i / 4 % 4][i % 4])
}

// Which level is not 0 and what it is, a flat prediction, and the two rows of pixels that then take turns with step 8.
static RESIDUALS: [(usize, i32, u8, [u8; 4], [u8; 4]); 3] = [
    (1, -2, 128, [127, 129, 127, 129], [127, 129, 127, 129]),
    (4, 5, 128, [131, 131, 131, 131], [126, 126, 126, 126]),
    (5, 7, 250, [254, 247, 254, 247], [247, 254, 247, 254]),
];

pub fn check_residuals(group: &mut Group) -> Result<(), Failure> {
    let step = Step::new(8).unwrap();
    for (index, level, value, even, odd) in &RESIDUALS {
        let mut levels = [0; 16];
        levels[*index % 16] = *level;
        let found = block::reconstruct(step, levels, [*value; 16]);
        group.equal(*index, found, flattened([*even, *odd, *even, *odd]));
    }
    for value in 0..=255u8 {
        let found = block::reconstruct(step, BRIGHTER.levels, [value; 16]);
        group.equal(0, found, [value.saturating_add(2); 16]);
    }
    Ok(())
}

// The residuals of a block by the plain sum at each pixel.
fn plain_residuals(step: Step, levels: [i32; 16]) -> [i64; 16] {
    array::from_fn(|i| block::residual_at(step, levels, i % 4, i / 4))
}

pub fn check_residual_sums(group: &mut Group) -> Result<(), Failure> {
    let mut random = Random::new(2);
    for case in 0..200u8 {
        let levels = random_levels(&mut random);
        let step = Step::new(random.below(64) + 1).unwrap();
        let found = block::residuals(step, levels);
        group.equal(case, found, plain_residuals(step, levels));
    }
    Ok(())
}

const SOURCE: [[u8; 4]; 4] = [
    [10, 20, 30, 40],
    [10, 20, 30, 40],
    [10, 20, 30, 40],
    [10, 20, 30, 250],
];

// Steps, the levels nearest to the source from a flat prediction of 25, and the pixels that they make.
static NEAREST: [(u64, [[i32; 4]; 4], [[u8; 4]; 4]); 2] = [
    (
        16,
        [
            [13, -18, -23, 13],
            [-13, 13, 13, -13],
            [-13, 13, 13, -13],
            [13, -13, -13, 13],
        ],
        [
            [10, 20, 30, 40],
            [10, 20, 30, 40],
            [10, 20, 30, 40],
            [10, 20, 30, 248],
        ],
    ),
    (
        64,
        [
            [3, -5, -6, 3],
            [-3, 3, 3, -3],
            [-3, 3, 3, -3],
            [3, -3, -3, 3],
        ],
        [
            [5, 21, 29, 45],
            [5, 21, 29, 45],
            [5, 21, 29, 45],
            [5, 21, 29, 237],
        ],
    ),
];

pub fn check_nearest_levels(group: &mut Group) -> Result<(), Failure> {
    for (value, levels, pixels) in &NEAREST {
        let step = Step::new(*value).ok_or(Failure::NoStep)?;
        let found = block::nearest_levels(step, flattened(SOURCE), [25; 16]);
        group.equal(*value, found, flattened(*levels));
        let made = block::reconstruct(step, found, [25; 16]);
        group.equal(*value, made, flattened(*pixels));
    }
    Ok(())
}
