// The theorems about frames, each as a contract.
ghost use Rattle.frame.specs.Examples.{All, Drawn, drawn_examples, more_examples};
ghost use Rattle.frame.specs.Promise.{AllMean, KeyAlone, KeyValid, SaidInBits, WithinEdges, ZerosIgnored, examples};

pub fn said_in_bits()
    ensures { SaidInBits }
{}

pub fn zeros_ignored()
    ensures { ZerosIgnored }
{}

pub fn key_alone()
    ensures picture { KeyAlone }
    ensures valid { KeyValid }
{}

pub fn within_edges()
    ensures { WithinEdges }
{}

pub fn worked_examples()
    ensures read { AllMean examples }
    ensures more { AllMean more_examples }
    ensures drawn { All Drawn drawn_examples }
{}
