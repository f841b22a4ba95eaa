// What the words after the program's name ask for.
use crate::air::Weather;
use console::{NamedArguments, Refusal};
use std::alloc::Global;

#[derive(Drop)]
pub struct Wish {
    pub binary: bool,
    // The first of SEED, LOST, DOUBLED and LATE.
    numbers: Vec<u64>,
}

fn parse_number(word: &String) -> Result<u64, Refusal> {
    let heap = *word.allocator();
    word.as_str().parse::<u64>().map_err(|_| {
        Refusal::sentence(format!(in heap;
            "SEED, LOST, DOUBLED and LATE are numbers, and `{word}` is none; see radio --help"
        ))
    })
}

impl Wish {
    pub fn new(heap: Global) -> Wish {
        Wish {
            binary: false,
            numbers: Vec::new(heap),
        }
    }

    pub fn weather(&self) -> Weather {
        Weather::new(self.numbers.as_slice())
    }
}

impl console::NamedWish for Wish {
    fn take(&mut self, word: String, arguments: &mut NamedArguments<'_>) -> Result<(), Refusal> {
        match word.as_str() {
            "--binary" => self.binary = true,
            option if option.starts_with("--") => return Err(arguments.unknown_option(option)),
            _ if self.numbers.len() < Weather::NUMBERS => self.numbers.push(parse_number(&word)?)?,
            // What comes after the numbers is passed over.
            _ => {}
        }
        Ok(())
    }

    fn check(&self) -> Result<(), Refusal> {
        Ok(())
    }
}
