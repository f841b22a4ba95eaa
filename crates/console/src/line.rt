// A line without its newline, and where it begins in the input.
ghost use Rattle.std.specs.Prelude.{◌≡◌};
ghost use Rattle.console.specs.Refusals.{placed_from};

use crate::refusal::Refusal;

#[derive(Drop)]
pub struct Line {
    pub text: String,
    pub position: u64,
}

impl Line {
    // A refusal of this line, with the position in the input.
    pub fn placed(&self, refusal: Refusal) -> Refusal
        ensures { result ≡ placed_from self.now.position refusal }
    {
        match refusal {
            Refusal::Rejected(rejection) => {
                Refusal::Rejected(text::placed(rejection, self.position))
            }
            _ => refusal,
        }
    }
}
