// Why a program ends with status 1.
ghost use Rattle.std.specs.Prelude.{◌≡◌, MatchResult, if◌then◌else◌, is_ok};
ghost use Rattle.std.specs.Process.{exit_status};

use frame::Rejection;
use pictures::PictureError;
use std::alloc::AllocError;
use std::process::ExitCode;
use std::{fmt, io};

#[derive(Debug, Drop)]
pub enum Refusal {
    // What was read is no text, packet or format.
    Rejected(Rejection),
    // What was read is no picture.
    Unpictured(PictureError),
    // What the words after the program's name ask for cannot be done.
    Words(&'static str),
    Sentence(String),
    // A file of this name cannot be opened.
    Unopened(String, io::Error),
    System(io::Error),
    OutOfMemory,
}

impl Refusal {
    // A sentence, if there was memory to make it.
    pub fn sentence(made: Result<String, AllocError>) -> Refusal
        ensures { MatchResult made (λ sentence. result ≡ Refusal.Sentence sentence) (λ _. result ≡ Refusal.OutOfMemory) }
    {
        match made {
            Ok(sentence) => Refusal::Sentence(sentence),
            Err(_) => Refusal::OutOfMemory,
        }
    }
}

impl fmt::Display for Refusal {
    fn fmt<W: fmt::Write>(&self, f: &mut fmt::Formatter<W>) -> fmt::Result {
        match self {
            Refusal::Rejected(rejection) => write!(f, "{rejection}"),
            Refusal::Unpictured(error) => write!(f, "{error}"),
            Refusal::Words(words) => write!(f, "{words}"),
            Refusal::Sentence(sentence) => write!(f, "{sentence}"),
            Refusal::Unopened(name, error) => write!(f, "{name}: {error}"),
            Refusal::System(error) => write!(f, "{error}"),
            Refusal::OutOfMemory => f.write_str("out of memory"),
        }
    }
}

// Says on standard error what a program refuses, and hands it on.
pub fn report(rt: &HostRuntime, program: &str, res: Result<(), Refusal>) -> Result<(), Refusal>
    ensures { result ≡ res }
{
    if let Err(refusal) = &res {
        let _ = eprintln!(rt; "{program}: {refusal}");
    }
    res
}

// The status that a program ends with, after it said on standard error what it refuses.
pub fn exit_code(rt: &HostRuntime, program: &str, res: Result<(), Refusal>) -> ExitCode
    ensures { exit_status result ≡ (if is_ok res then 0 else 1) }
{
    match report(rt, program, res) {
        Ok(()) => ExitCode::SUCCESS,
        Err(_) => ExitCode::FAILURE,
    }
}
