// What the words after the program's name ask for.
ghost use Rattle.std.specs.Prelude.{◌≤◌};
ghost use Rattle.console.specs.Arguments.{words_left};

use console::{NamedArguments, Refusal};
use pictures::KeyInterval;

#[derive(Default, Drop)]
pub struct Wish {
    pub step: Option<u64>,
    pub key: Option<KeyInterval>,
    // Where a video file goes.
    pub out: Option<String>,
    pub file: Option<String>,
}

fn read_interval(arguments: &mut NamedArguments<'_>) -> Result<KeyInterval, Refusal>
    ensures { words_left arguments.new ≤ words_left arguments.old }
{
    let interval = KeyInterval::new(arguments.number("--key")?);
    Ok(interval.ok_or("after --key should stand a number of at least 1")?)
}

impl console::NamedWish for Wish {
    fn take(&mut self, word: String, arguments: &mut NamedArguments<'_>) -> Result<(), Refusal> {
        match word.as_str() {
            "--step" => self.step = Some(arguments.number("--step")?),
            "--key" => self.key = Some(read_interval(arguments)?),
            "--out" => self.out = Some(arguments.value("--out")?),
            option if option.starts_with("--") => return Err(arguments.unknown_option(option)),
            _ if self.file.is_some() => {
                return Err("there is more than one file to read; see encode --help".into());
            }
            _ => self.file = Some(word),
        }
        Ok(())
    }

    fn check(&self) -> Result<(), Refusal> {
        Ok(())
    }
}
