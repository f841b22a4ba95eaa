// The steps of a reader: a number, a keyword, the end of the line. What is rejected is rejected at the word's position.
ghost use Rattle.std.specs.Prelude.{◌≡◌, ◌≤◌, ◌==◌, not, length, if◌then◌else◌};
ghost use Rattle.std.specs.List.{prefix_len};
ghost use Rattle.text.specs.Line.{answered, at_end, bytes_of, left, next_is, next_keyword, next_number, no_more, position, rest, words};

use crate::number::parse_number;
use crate::reader::{LineReader, Word};
use frame::Rejection;

// How many spaces come first.
fn space_count(bytes: &[u8]) -> usize
    ensures value { result ≡ prefix_len (λ c. c == 32) bytes.now }
    ensures within { result ≤ length bytes.now }
{
    bytes.iter().take_while(|byte| **byte == b' ').count()
}

// How many bytes come before the first space.
fn word_length(bytes: &[u8]) -> usize
    ensures value { result ≡ prefix_len (λ c. not (c == 32)) bytes.now }
    ensures within { result ≤ length bytes.now }
{
    bytes.iter().take_while(|byte| **byte != b' ').count()
}

impl<'a> LineReader<'a> {
    pub(crate) fn new(line: &'a str) -> LineReader<'a>
        ensures { left result ≡ words line.now }
    {
        LineReader {
            rest: line.as_bytes(),
            end: line.len(),
        }
    }

    // The next word, which is empty at the end of the line.
    fn next_word(&mut self) -> Word<'a>
        ensures position { result.position ≡ position (left self.old) }
        ensures bytes { result.text.now ≡ bytes_of (left self.old) }
        ensures rest { left self.new ≡ rest (left self.old) }
    {
        // Bytes, each looked at once: a search of the text, and a text made of each word, take twice as long.
        let (_, line) = self.rest.split_at(space_count(self.rest));
        let (text, rest) = line.split_at(word_length(line));
        self.rest = rest;
        Word {
            position: (self.end - line.len()) as u64,
            text,
        }
    }

    // The next word as a number of at most `limit`.
    pub(crate) fn number(&mut self, limit: u64) -> Result<u64, Rejection>
        ensures { next_number limit (left self.old) ≡ answered result (left self.new) }
    {
        let word = self.next_word();
        parse_number(word.text, limit).ok_or(Rejection::BadText(word.position))
    }

    // The next word as a pixel, or as one of a frame's bytes.
    pub(crate) fn byte(&mut self) -> Result<u8, Rejection>
        ensures { next_number 255 (left self.old) ≡ answered result (left self.new) }
    {
        let number = self.number(255)?;
        Ok(number as u8)
    }

    pub(crate) fn keyword(&mut self, keyword: &str) -> Result<(), Rejection>
        ensures { next_keyword keyword.now (left self.old) ≡ answered result (left self.new) }
    {
        let word = self.next_word();
        if word.text == keyword.as_bytes() {
            Ok(())
        } else {
            Err(Rejection::BadText(word.position))
        }
    }

    // Goes past the next word if it is `keyword`.
    pub(crate) fn skip(&mut self, keyword: &str) -> bool
        ensures value { result ≡ next_is keyword.now (left self.old) }
        ensures rest { left self.new ≡ (if result then rest (left self.old) else left self.old) }
    {
        let mut ahead = *self;
        let found = ahead.keyword(keyword).is_ok();
        if found {
            *self = ahead;
        }
        found
    }

    pub(crate) fn is_done(mut self) -> bool
        ensures { result ≡ at_end (left self.entry) }
    {
        self.next_word().text.is_empty()
    }

    // Rejects a word too many.
    pub(crate) fn end(mut self) -> Result<(), Rejection>
        ensures { result ≡ no_more (left self.entry) }
    {
        let word = self.next_word();
        if word.text.is_empty() {
            Ok(())
        } else {
            Err(Rejection::BadText(word.position))
        }
    }
}
