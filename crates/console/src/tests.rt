use crate::{
    Arguments, Input, Lines, NamedArguments, NamedWish, Output, Refusal, Source, Wish,
    read_named_wish, read_wish,
};
use std::io::Write;
use std::test::Fail;
use std::{fs, mem};

const FILE: &str = "/tmp/zukhtavo-console-lines";

// Takes any words.
#[derive(Drop)]
struct Anything;

impl NamedWish for Anything {
    fn take(&mut self, _word: String, _arguments: &mut NamedArguments<'_>) -> Result<(), Refusal> {
        Ok(())
    }

    fn check(&self) -> Result<(), Refusal> {
        Ok(())
    }
}

// Holds words of its own, and has these say what is said of a word.
#[derive(Drop)]
struct Exchanging {
    own: Arguments,
    said: Option<Refusal>,
}

// One that holds words named `own`.
fn holding_words(rt: &HostRuntime) -> Result<Exchanging, Refusal> {
    Ok(Exchanging {
        own: Arguments::new(rt, "own")?,
        said: None,
    })
}

impl Wish for Exchanging {
    fn take(&mut self, word: String, arguments: &mut Arguments) -> Result<(), Refusal> {
        mem::swap(&mut self.own, arguments);
        self.said = Some(arguments.unknown_option(word.as_str()));
        mem::swap(&mut self.own, arguments);
        Ok(())
    }

    fn check(&self) -> Result<(), Refusal> {
        Ok(())
    }
}

// The text of the next line.
fn next_text(lines: &mut Lines<'_>) -> Result<Option<String>, Refusal> {
    let line = lines.next().transpose()?;
    Ok(line.map(|line| line.text))
}

#[test]
fn reads_lines(rt: HostRuntime) -> Result<(), Fail> {
    let mut output = Output::create(&rt, FILE).map_err(Fail::new)?;
    output.write_all(b"one\r\ntwo")?;
    let input = Input::open(&rt, FILE).map_err(Fail::new)?;
    let mut source = Source::new(rt.alloc(), input);
    let mut lines = source.lines(rt.alloc());
    let one = next_text(&mut lines).map_err(Fail::new)?;
    let two = next_text(&mut lines).map_err(Fail::new)?;
    let none = next_text(&mut lines).map_err(Fail::new)?;
    fs::remove_file(&rt, FILE)?;
    assert_eq!(rt; one.as_deref(), Some("one"));
    assert_eq!(rt; two.as_deref(), Some("two"));
    assert_eq!(rt; none.as_deref(), None);
    Ok(())
}

#[test]
fn reads_wish(rt: HostRuntime) -> Result<(), Fail> {
    let _ = read_named_wish(&rt, "test", Anything).map_err(Fail::new)?;
    Ok(())
}

#[test]
fn reads_wish_with_words_of_its_own(rt: HostRuntime) -> Result<(), Fail> {
    let wish = holding_words(&rt).map_err(Fail::new)?;
    let Some(read) = read_wish(&rt, "test", wish).map_err(Fail::new)? else {
        return Err(Fail::new("help was asked for"));
    };
    // The same words once more: where there are any, the wish has taken them.
    let first = Arguments::new(&rt, "test").map_err(Fail::new)?.next();
    assert_eq!(rt; read.said.is_some(), first.is_some());
    Ok(())
}

#[test]
fn exchanges_words(rt: HostRuntime) -> Result<(), Fail> {
    let heap = rt.alloc();
    let mut wish = holding_words(&rt).map_err(Fail::new)?;
    let mut arguments = Arguments::new(&rt, "test").map_err(Fail::new)?;
    let word = format!(in heap; "--none")?;
    wish.take(word, &mut arguments).map_err(Fail::new)?;
    let Some(own) = &wish.said else {
        return Err(Fail::new("nothing was said of the word"));
    };
    let own = format!(in heap; "{own}")?;
    assert_eq!(rt; own.as_str(), "there is no option `--none`; see own --help");
    let lent = arguments.unknown_option("--none");
    let lent = format!(in heap; "{lent}")?;
    assert_eq!(rt;
        lent.as_str(),
        "there is no option `--none`; see test --help"
    );
    Ok(())
}
