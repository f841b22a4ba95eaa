// Contexts: looking one up, and learning from a decision.
ghost use Rattle.std.specs.Prelude.{◌≡◌, ◌%◌, ◌≤◌};
ghost use Rattle.range_coder.specs.Code.{contexts_in};
ghost use Rattle.range_coder.specs.Coding.{adapted};
ghost use Rattle.range_coder.specs.Decisions.{learned, start_contexts};

use crate::contexts::Contexts;

// The probability a sixteenth of the way nearer to what was decided.
#[tactic(auto, unfolding(crate::specs::Coding::adapted))]
fn adapted(p: u8, decision: bool) -> u8
    ensures { result ≡ adapted p decision }
{
    if decision {
        p - p / 16
    } else {
        p + ((256 - u16::from(p)) / 16) as u8
    }
}

impl Contexts {
    // Contexts that have seen nothing.
    pub(crate) fn new() -> Contexts
        ensures { contexts_in result.probability ≡ start_contexts }
    {
        Contexts {
            probability: [128; 64],
        }
    }

    // The probability of `false` in a context, one of 64.
    pub(crate) fn get(&self, context: usize) -> u8
        ensures is { result ≡ contexts_in self.now.probability (context % 64) }
        ensures some { 1 ≤ result }
    {
        self.probability[context % 64]
    }

    // Moves a context's probability towards what was decided.
    pub(crate) fn learn(&mut self, context: usize, decision: bool)
        ensures { contexts_in self.new.probability ≡ learned (contexts_in self.old.probability) (context % 64) decision }
    {
        let p = &mut self.probability[context % 64];
        *p = adapted(*p, decision);
    }
}
