// A source read line by line.
ghost use Rattle.std.specs.Prelude.{◌≡◌, ℕ, ◌<◌, ◌≤◌, length, IfOk, IfSome, None, Ok, [], ◌≢◌, slice_index, true, ◌-◌, ◌^◌, ◌==◌};
ghost use Rattle.std.specs.Iterator.{at_most};
ghost use Rattle.std.specs.List.{position};
ghost use Rattle.console.specs.Source.{Grown, LineEnd};

use crate::line::Line;
use crate::refusal::Refusal;
use crate::source::Source;
use frame::{Rejection, VideoHeader};
use std::alloc::Global;
use std::str;

// Where the first newline stands.
fn newline(bytes: &[u8]) -> Option<usize>
    ensures { result ≡ position (λ byte. byte == 10) bytes.now }
{
    bytes.iter().position(|byte| *byte == b'\n')
}

// The first newline from `start` on, or the end.
fn line_end(bytes: &[u8], start: usize) -> usize
    requires { start ≤ length bytes.now }
    ensures within { result ≤ length bytes.now }
    ensures before { (k : ℕ) → start ≤ k → k < result → slice_index bytes.now k ≢ 10 }
    ensures found { result < length bytes.now → slice_index bytes.now result ≡ 10 }
{
    match newline(&bytes[start..]) {
        Some(index) => start + index,
        None => bytes.len(),
    }
}

// A line as it is where lines end with a carriage return and a line feed.
fn without_return(line: &str) -> &str {
    line.strip_suffix('\r').unwrap_or(line)
}

impl Source {
    // Reads until a line is whole, the input ends or so many bytes are read, and says where the line ends.
    pub fn read_to_line_end(&mut self, limit: usize) -> Result<usize, Refusal>
        ensures grown { Grown self.old self.new }
        ensures line { IfOk result (λ end. LineEnd self.new limit end) }
    {
        let mut end = 0;
        loop {
            end = line_end(self.front(), end);
            let found = end < self.front().len();
            if found || end >= limit || !self.read_more()? {
                return Ok(end);
            }
        }
    }

    // The next line, or none at the end.
    pub fn next_line(&mut self, heap: Global) -> Result<Option<Line>, Refusal>
        ensures position { IfOk result (λ next. IfSome next (λ line. line.position ≡ self.old.position)) }
        ensures end { result ≡ Ok None → (self.new.held.items ≡ []) × (self.new.ended ≡ true) }
    {
        let end = self.read_to_line_end(usize::MAX)?;
        let position = self.position();
        let front = self.front();
        if front.is_empty() {
            return Ok(None);
        }
        let line = str::from_utf8(&front[..end])
            .map_err(|error| Rejection::BadText(error.valid_up_to() as u64))
            .map_err(|rejection| text::placed(rejection, position))?;
        let line = if end < front.len() {
            without_return(line)
        } else {
            line
        };
        let text = String::from_str(heap, line)?;
        self.take(end + 1);
        Ok(Some(Line { text, position }))
    }

    // The lines from here on.
    pub fn lines(&mut self, heap: Global) -> Lines<'_>
        ensures { result.left ≡ 2 ^ 64 - 1 }
    {
        Lines {
            source: self,
            heap,
            left: u64::MAX,
        }
    }

    // The header line of a text.
    pub fn header_line(&mut self, heap: Global) -> Result<VideoHeader, Refusal> {
        let line = self.next_line(heap)?.ok_or(
            "there is no input; its first line should be: size A D step S",
        )?;
        Ok(text::parse_header(line.text.as_str())?)
    }
}

// The lines of a source, one after another. Nothing says that an input ends, so it counts them.
#[derive(Drop)]
pub struct Lines<'a> {
    source: &'a mut Source,
    heap: Global,
    left: u64,
}

impl<'a> Iterator for Lines<'a> {
    type Item = Result<Line, Refusal>;

    ghost remaining = { λ lines. at_most lines.left };

    fn next(&mut self) -> Option<Result<Line, Refusal>> {
        self.left = self.left.checked_sub(1)?;
        self.source.next_line(self.heap).transpose()
    }
}
