// The words after a program's name. Other crates know them as `NamedArguments`, and as `Arguments` where the name lives for ever.
ghost use Rattle.std.specs.Prelude.{◌≡◌, ◌≤◌, IfOk};
ghost use Rattle.std.specs.Iterator.{at_most};
ghost use Rattle.console.specs.Arguments.{unknown_text, words_left};
ghost use Rattle.console.specs.Refusals.{Says};

use crate::refusal::Refusal;
use std::alloc::Global;
use std::env;
use std::env::Args;

#[derive(Drop)]
pub struct Arguments<'a> {
    // The program's name, for what is said of its words.
    program: &'a str,
    words: Args,
    heap: Global,
}

impl<'a> Arguments<'a> {
    pub fn new(rt: &HostRuntime, program: &'a str) -> Result<Arguments<'a>, Refusal>
        ensures { IfOk result (λ arguments. arguments.program.now ≡ program.now) }
    {
        let mut words = env::args(rt)?;
        let _ = words.next();
        Ok(Arguments {
            program,
            words,
            heap: rt.alloc(),
        })
    }

    // The word after an option.
    pub fn value(&mut self, option: &str) -> Result<String, Refusal>
        ensures { words_left self.new ≤ words_left self.old }
    {
        let heap = self.heap;
        self.words.next().ok_or_else(|| {
            Refusal::sentence(format!(in heap; "a word is missing after {option}"))
        })
    }

    // The number after an option.
    pub fn number(&mut self, option: &str) -> Result<u64, Refusal>
        ensures { words_left self.new ≤ words_left self.old }
    {
        let heap = self.heap;
        let word = self.value(option)?;
        word.as_str().parse::<u64>().map_err(|_| {
            Refusal::sentence(format!(in heap;
                "after {option} should stand a number, and not `{word}`"
            ))
        })
    }

    // What is said of a word that looks like an option and is none.
    pub fn unknown_option(&self, word: &str) -> Refusal
        ensures { Says (unknown_text self.now.program.now word.now) result }
    {
        let program = self.program;
        Refusal::sentence(format!(in self.heap;
            "there is no option `{word}`; see {program} --help"
        ))
    }
}

impl<'a> Iterator for Arguments<'a> {
    type Item = String;

    ghost remaining = { λ arguments. at_most (words_left arguments) };

    fn next(&mut self) -> Option<String> {
        self.words.next()
    }
}
