//! The text of a case, which `scripts/check.py` writes: lines of words, of which the first says what the line is about. After a line of
//! a script stand the bytes of the script.

use crate::fault::Fault;
use crate::limits::Limits;
use std::alloc::Global;

/// Which engine a trial is made with.
#[derive(Clone, Copy)]
pub enum Kind {
    Plain,
    Delta,
}

/// Which growths are refused.
#[derive(Clone, Copy)]
pub enum Refusal {
    None,
    /// The nth alone, counted from 1.
    Alone(u64),
    /// The nth and each one after it.
    From(u64),
}

/// What is tried in turn.
#[derive(Clone, Copy)]
pub enum Each {
    /// The source fails after each number of bytes.
    SourceFails,
    /// The source ends after each number of bytes.
    SourceEnds,
    /// The sink fails after each number of bytes.
    SinkFails,
    /// Each growth is refused.
    Growth,
}

/// How an engine is asked.
#[derive(Clone, Copy)]
pub enum Way {
    /// By the script of a session.
    Session,
    /// By a list of calls of `run`.
    Run,
    /// By a list of entries that are compiled at once.
    AtOnce,
    /// By edits whose work is counted.
    Work,
}

/// The names by which members and counts are asked.
#[derive(Drop)]
pub struct Names<'a> {
    pub attributes: Vec<&'a str>,
    pub types: Vec<&'a str>,
    /// Classes with a permission of each.
    pub permissions: Vec<(&'a str, &'a str)>,
}

/// The peer of a dialogue.
#[derive(Drop)]
pub struct Peer {
    /// How many bytes of the script it sends whenever it is asked.
    pub parts: Vec<usize>,
}

/// What is tried.
#[derive(Drop)]
pub struct Case<'a> {
    pub kind: Kind,
    pub way: Way,
    pub limits: Limits,
    pub refusal: Refusal,
    pub each: Option<Each>,
    pub peer: Option<Peer>,
    /// After how many flushes the sink fails.
    pub flushes: Option<usize>,
    pub names: Names<'a>,
    /// The commands that make the store.
    pub before: &'a [u8],
    /// The script that is tried.
    pub script: &'a [u8],
    /// A script after it, over devices that give and take all.
    pub then: &'a [u8],
}

fn empty_case<'a>(alloc: Global) -> Case<'a> {
    Case {
        kind: Kind::Delta,
        way: Way::Session,
        limits: Limits::none(),
        refusal: Refusal::None,
        each: None,
        peer: None,
        flushes: None,
        names: Names {
            attributes: Vec::new(alloc),
            types: Vec::new(alloc),
            permissions: Vec::new(alloc),
        },
        before: b"",
        script: b"",
        then: b"",
    }
}

/// The first line of a text, and what follows its line feed.
pub fn first_line(text: &[u8]) -> (&[u8], &[u8]) {
    for (at, byte) in text.iter().enumerate() {
        if *byte == b'\n' {
            let line = text.get(..at).unwrap_or(text);
            let rest = text.get(at..).unwrap_or(b"");
            return (line, rest.get(1..).unwrap_or(b""));
        }
    }
    (text, b"")
}

/// Which growths are refused.
fn refusal_of(how: &str, nth: u64) -> Option<Refusal> {
    match how {
        "alone" => Some(Refusal::Alone(nth)),
        "from" => Some(Refusal::From(nth)),
        _ => None,
    }
}

fn each_of(what: &str) -> Option<Each> {
    match what {
        "source-fails" => Some(Each::SourceFails),
        "source-ends" => Some(Each::SourceEnds),
        "sink-fails" => Some(Each::SinkFails),
        "growth" => Some(Each::Growth),
        _ => None,
    }
}

fn kind_of(engine: &str) -> Option<Kind> {
    match engine {
        "plain" => Some(Kind::Plain),
        "delta" => Some(Kind::Delta),
        _ => None,
    }
}

fn way_of(way: &str) -> Option<Way> {
    match way {
        "session" => Some(Way::Session),
        "run" => Some(Way::Run),
        "once" => Some(Way::AtOnce),
        "work" => Some(Way::Work),
        _ => None,
    }
}

/// Puts what a word stands for in its place. A word that stands for nothing is no case.
fn put<T: Copy>(place: &mut T, value: Option<T>) -> Result<(), Fault> {
    match value {
        Some(value) => {
            *place = value;
            Ok(())
        }
        None => Err(Fault::Case),
    }
}

fn push<'a>(names: &mut Vec<&'a str>, name: &'a str) -> Result<(), Fault> {
    match names.push(name) {
        Ok(()) => Ok(()),
        Err(_) => Err(Fault::Memory),
    }
}

fn push_part(alloc: Global, peer: &mut Option<Peer>, size: usize) -> Result<(), Fault> {
    let peer = peer.get_or_insert(Peer {
        parts: Vec::new(alloc),
    });
    match peer.parts.push(size) {
        Ok(()) => Ok(()),
        Err(_) => Err(Fault::Memory),
    }
}

impl<'a> Case<'a> {
    /// Notes what a line of a word says.
    fn note(&mut self, alloc: Global, about: &str, word: &'a str) -> Result<(), Fault> {
        match about {
            "engine" => put(&mut self.kind, kind_of(word)),
            "way" => put(&mut self.way, way_of(word)),
            "each" => put(&mut self.each, Some(each_of(word))),
            "attribute" => push(&mut self.names.attributes, word),
            "type" => push(&mut self.names.types, word),
            _ => match word.parse::<usize>() {
                Ok(size) => self.note_size(alloc, about, size),
                Err(_) => Err(Fault::Case),
            },
        }
    }

    /// Notes what a line of a number says.
    fn note_size(&mut self, alloc: Global, about: &str, size: usize) -> Result<(), Fault> {
        match about {
            "part" => push_part(alloc, &mut self.peer, size),
            "flushes" => put(&mut self.flushes, Some(Some(size))),
            _ => self.limits.note(about, size),
        }
    }

    /// Notes what a line of two words says.
    fn note_pair(&mut self, about: &str, first: &'a str, second: &'a str) -> Result<(), Fault> {
        match (about, second.parse::<u64>()) {
            ("access", _) => match self.names.permissions.push((first, second)) {
                Ok(()) => Ok(()),
                Err(_) => Err(Fault::Memory),
            },
            ("refuse", Ok(nth)) => put(&mut self.refusal, refusal_of(first, nth)),
            _ => Err(Fault::Case),
        }
    }

    /// Notes a script.
    fn note_script(&mut self, about: &str, script: &'a [u8]) {
        match about {
            "before" => self.before = script,
            "script" => self.script = script,
            _ => self.then = script,
        }
    }

    /// Notes the script of so many bytes, and gives what follows it.
    fn take_script(
        &mut self,
        about: &str,
        length: &str,
        rest: &'a [u8],
    ) -> Result<&'a [u8], Fault> {
        let Ok(length) = length.parse::<usize>() else {
            return Err(Fault::Case);
        };
        match (rest.get(..length), rest.get(length..)) {
            (Some(script), Some(after)) => {
                self.note_script(about, script);
                Ok(after)
            }
            _ => Err(Fault::Case),
        }
    }

    /// Notes a line, and gives what follows it and its script.
    fn note_line(
        &mut self,
        alloc: Global,
        line: &'a str,
        rest: &'a [u8],
    ) -> Result<&'a [u8], Fault> {
        let mut words = line.split_whitespace();
        let (Some(about), Some(first)) = (words.next(), words.next()) else {
            return Err(Fault::Case);
        };
        if matches!(about, "before" | "script" | "then") {
            return self.take_script(about, first, rest);
        }
        match words.next() {
            Some(second) => self.note_pair(about, first, second)?,
            None => self.note(alloc, about, first)?,
        }
        Ok(rest)
    }

    /// Notes the lines of a text.
    fn note_lines(&mut self, alloc: Global, text: &'a [u8]) -> Result<(), Fault> {
        let mut rest = text;
        for _ in 0..text.len() {
            if rest.is_empty() {
                break;
            }
            let (line, after) = first_line(rest);
            let Ok(line) = str::from_utf8(line) else {
                return Err(Fault::Case);
            };
            rest = self.note_line(alloc, line, after)?;
        }
        Ok(())
    }
}

/// The case that a text describes.
pub fn read_case(alloc: Global, text: &[u8]) -> Result<Case<'_>, Fault> {
    let mut case = empty_case(alloc);
    match case.note_lines(alloc, text) {
        Ok(()) => Ok(case),
        Err(fault) => Err(fault),
    }
}

/// The text of an install, and what follows its line feed.
pub fn text_of(rest: &[u8], len: usize) -> Result<(&[u8], &[u8]), Fault> {
    let text = rest.get(..len).ok_or(Fault::Case)?;
    let after = rest.get(len..).ok_or(Fault::Case)?;
    Ok((text, after.get(1..).ok_or(Fault::Case)?))
}
