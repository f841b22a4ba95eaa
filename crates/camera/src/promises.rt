// The theorem about packed answers, as a contract.
ghost use Rattle.camera.specs.Packed.{Unpacks};

pub fn answers_unpack()
    ensures { Unpacks }
{}
