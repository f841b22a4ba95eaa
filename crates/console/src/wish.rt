// What the words after a program's name ask for, where the name lives for ever, as a literal does.
ghost use Rattle.std.specs.Prelude.{◌≤◌, IfOk, IfSome, OnOk};
ghost use Rattle.console.specs.Arguments.{words_left};

use crate::NamedArguments;
use crate::refusal::Refusal;

// The words of such a program, which a wish may exchange for words that it holds.
pub type Arguments = NamedArguments<'static>;

pub trait Wish: Drop {
    // Holds of what can be asked for together.
    ghost allowed: { Self → Type 0 } = { λ _. Unit {0} };

    // Takes a word, and of the words after it what belongs to it.
    fn take(&mut self, word: String, arguments: &mut Arguments) -> Result<(), Refusal>
        ensures { words_left arguments.new ≤ words_left arguments.old };

    // Refuses what cannot be asked for together.
    fn check(&self) -> Result<(), Refusal>
        ensures { OnOk result (allowed self.now) };
}

// What the words ask for, or nothing if one of them asks for help.
// Not by way of `read_named_wish`, which lends words with a name of any lifetime, so that none could be held.
pub fn read_wish<W: Wish>(
    rt: &HostRuntime,
    program: &'static str,
    mut wish: W,
) -> Result<Option<W>, Refusal>
    ensures { IfOk result (λ read. IfSome read W.allowed) }
{
    let mut arguments = Arguments::new(rt, program)?;
    // A flag, since the words after it are read and refused all the same.
    let mut help = false;
    while let Some(word) = arguments.next() {
        match word.as_str() {
            "--help" => help = true,
            _ => wish.take(word, &mut arguments)?,
        }
    }
    wish.check()?;
    Ok(if help { None } else { Some(wish) })
}
