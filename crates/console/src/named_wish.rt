// What the words after a program's name ask for, however short the name lives.
ghost use Rattle.std.specs.Prelude.{◌≤◌, IfOk, IfSome, OnOk};
ghost use Rattle.console.specs.Arguments.{words_left};

use crate::NamedArguments;
use crate::refusal::Refusal;

pub trait NamedWish: Drop {
    // Holds of what can be asked for together.
    ghost allowed: { Self → Type 0 } = { λ _. Unit {0} };

    // Takes a word, and of the words after it what belongs to it.
    fn take(&mut self, word: String, arguments: &mut NamedArguments<'_>) -> Result<(), Refusal>
        ensures { words_left arguments.new ≤ words_left arguments.old };

    // Refuses what cannot be asked for together.
    fn check(&self) -> Result<(), Refusal>
        ensures { OnOk result (allowed self.now) };
}

// What the words ask for, or nothing if one of them asks for help.
pub fn read_named_wish<W: NamedWish>(
    rt: &HostRuntime,
    program: &str,
    mut wish: W,
) -> Result<Option<W>, Refusal>
    ensures { IfOk result (λ read. IfSome read W.allowed) }
{
    let mut arguments = NamedArguments::new(rt, program)?;
    // A flag, since the words after it are read and refused all the same.
    let mut help = false;
    while let Some(word) = arguments.next() {
        match word.as_str() {
            "--help" => help = true,
            _ => wish.take(word, &mut arguments)?,
        }
    }
    wish.check()?;
    Ok(if help { None } else { Some(wish) })
}
