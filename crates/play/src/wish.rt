// What the words after the program's name ask for.
ghost use Rattle.std.specs.Prelude.{◌≤◌, IsSome};
ghost use Rattle.console.specs.Arguments.{words_left};

use console::{NamedArguments, Refusal};
use pictures::FrameRate;

#[derive(Default, Drop)]
pub struct Wish {
    // Whether pictures are printed.
    pub show: bool,
    pub file: Option<String>,
    // Where a Y4M stream goes.
    pub y4m: Option<String>,
    pub rate: Option<FrameRate>,
}

fn read_rate(arguments: &mut NamedArguments<'_>) -> Result<FrameRate, Refusal>
    ensures { words_left arguments.new ≤ words_left arguments.old }
{
    let word = arguments.value("--rate")?;
    let heap = *word.allocator();
    pictures::parse_rate(word.as_bytes()).ok_or_else(|| {
        Refusal::sentence(format!(in heap;
            "after --rate should stand 25 or 30000:1001 or the like, and not `{word}`"
        ))
    })
}

impl Wish {
    // Whether the Y4M stream takes standard output.
    pub fn streams(&self) -> bool {
        self.y4m.as_deref().is_some_and(|name| name == "-")
    }
}

impl console::NamedWish for Wish {
    // A rate is one of a stream.
    ghost allowed = { λ wish. IsSome wish.rate → IsSome wish.y4m };

    fn take(&mut self, word: String, arguments: &mut NamedArguments<'_>) -> Result<(), Refusal> {
        match word.as_str() {
            "show" => self.show = true,
            "--y4m" => self.y4m = Some(arguments.value("--y4m")?),
            "--rate" => self.rate = Some(read_rate(arguments)?),
            option if option.starts_with("--") => return Err(arguments.unknown_option(option)),
            _ => self.file = Some(word),
        }
        Ok(())
    }

    fn check(&self) -> Result<(), Refusal> {
        if self.show && self.streams() {
            return Err("show prints to standard output, which --y4m - takes".into());
        }
        if self.rate.is_some() && self.y4m.is_none() {
            return Err("--rate is for --y4m, which is not asked for".into());
        }
        Ok(())
    }
}
