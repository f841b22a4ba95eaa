// The theorems about receivers, each as a contract.
ghost use Rattle.stream.specs.Promise.{AlwaysSome, GoesOn, LateIgnored, LensToEye, NextMoves, Recovers, ShownIsTrue, SureIsTrue, SureOfSome};
ghost use Rattle.stream.specs.Runs.{LensToEyeOverRuns};

pub fn sure_is_true()
    ensures sure { SureIsTrue }
    ensures number { SureOfSome }
    ensures shown { ShownIsTrue }
    ensures some { AlwaysSome }
{}

pub fn receiver_steps()
    ensures recovers { Recovers }
    ensures goes_on { GoesOn }
    ensures late { LateIgnored }
    ensures next { NextMoves }
{}

pub fn lens_to_eye()
    ensures definitions { LensToEye }
    ensures runs { LensToEyeOverRuns }
{}
