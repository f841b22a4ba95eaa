// The theorems about encoders, each as a contract.
ghost use Rattle.encoder.specs.Promise.{Faithful, FramesKept, LosslessAtOne, PictureNear};

pub fn faithful()
    ensures { Faithful }
{}

pub fn lossless_at_one()
    ensures { LosslessAtOne }
{}

pub fn picture_near()
    ensures { PictureNear }
{}

pub fn frames_kept()
    ensures { FramesKept }
{}
