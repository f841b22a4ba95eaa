// The theorems about the picture formats, each as a contract.
ghost use Rattle.pictures.specs.Promise.{CutAtSpaces, Examples, PaddingKeeps, PadsToBlocks, PlainPicture, PlainPictureLocated, ReadsBack};

pub fn reads_back()
    ensures { ReadsBack }
{}

pub fn plain_picture()
    ensures { PlainPicture }
{}

pub fn plain_picture_located()
    ensures { PlainPictureLocated }
{}

pub fn cut_at_spaces()
    ensures { CutAtSpaces }
{}

pub fn pads_to_blocks()
    ensures { PadsToBlocks }
{}

pub fn padding_keeps()
    ensures { PaddingKeeps }
{}

#[tactic(auto, unfolding(crate::specs::Bytes::cut, crate::specs::Bytes::size_of, crate::specs::Pgm::gap, crate::specs::Y4m::with_tags))]
pub fn worked_examples()
    ensures { Examples }
{}
