// A file, or else a standard stream of the program.
use crate::refusal::Refusal;
use std::alloc::Global;
use std::fs::File;
use std::io;
use std::io::{Read, Stdin, Stdout, Write};

#[derive(Drop)]
pub enum FileOr<S> {
    Standard(S),
    File(File),
}

pub type Input = FileOr<Stdin>;

pub type Output = FileOr<Stdout>;

impl<S: Drop> FileOr<S> {
    // What was opened under that name, or why nothing was.
    fn opened(heap: Global, name: &str, outcome: io::Result<File>) -> Result<FileOr<S>, Refusal> {
        match outcome {
            Ok(file) => Ok(FileOr::File(file)),
            Err(error) => Err(Refusal::Unopened(String::from_str(heap, name)?, error)),
        }
    }
}

impl FileOr<Stdin> {
    pub fn standard(rt: &HostRuntime) -> Input {
        FileOr::Standard(rt.stdin())
    }

    // The file of that name, or standard input if the name is `-`.
    pub fn open(rt: &HostRuntime, name: &str) -> Result<Input, Refusal> {
        match name {
            "-" => Ok(Input::standard(rt)),
            _ => Input::opened(rt.alloc(), name, File::open(rt, name)),
        }
    }
}

impl FileOr<Stdout> {
    // A new file of that name, or standard output if the name is `-`.
    pub fn create(rt: &HostRuntime, name: &str) -> Result<Output, Refusal> {
        match name {
            "-" => Ok(FileOr::Standard(rt.stdout())),
            _ => Output::opened(rt.alloc(), name, File::create(rt, name)),
        }
    }
}

impl<S: Read> Read for FileOr<S> {
    fn read(&mut self, buf: &mut [u8]) -> io::Result<usize> {
        match self {
            FileOr::Standard(stream) => stream.read(buf),
            FileOr::File(file) => file.read(buf),
        }
    }
}

impl<S: Write> Write for FileOr<S> {
    fn write(&mut self, buf: &[u8]) -> io::Result<usize> {
        match self {
            FileOr::Standard(stream) => stream.write(buf),
            FileOr::File(file) => file.write(buf),
        }
    }

    fn flush(&mut self) -> io::Result<()> {
        match self {
            FileOr::Standard(stream) => stream.flush(),
            FileOr::File(file) => file.flush(),
        }
    }
}
