//! The commands on the lines of a script.

ghost use Rattle.std.specs.Prelude.{◌≡◌, ◌<◌, ◌↔◌, ◌∷◌, ◌++◌, ℕ, decimal, codes, IsTrue, Some, IfSome, IfNone};
ghost use Rattle.cil_session.specs.Common.{list_all, IsLine, IsNoCommandLine, IsNoQuestion, question_asked};
ghost use Rattle.cil_store_specs.specs.Script.{is_shown as shown_byte, IsGoodName, line_of};
ghost use Rattle.cil_store_specs.proofs.WordLemmas.{is_no_space};
ghost use Rattle.cil_session.specs.declared.command.ScriptLine.TheVariants.{Whole};

use cil_store::Edit;
use itoa::Buffer;
use std::str;

/// The numbers of a script have at most nine digits.
const NUMBER_LIMIT: u32 = 1_000_000_000;

/// A question for the store.
#[derive(Clone, Copy, Debug, PartialEq, Eq)]
pub enum Question {
    Rules,
    Violations,
    Dropped,
    Modules,
    Dump,
}

/// A command that is whole with its line: an edit but an install, the begin or the end of a batch, or a question.
#[derive(Clone, Copy, Debug)]
pub enum Command<'a> {
    Edit(Edit<'a>),
    Begin,
    Commit,
    Abort,
    Ask(Question),
}

/// The line of an install, behind which its text follows.
#[derive(Clone, Copy, Debug)]
pub struct InstallLine<'a> {
    pub name: &'a [u8],
    pub priority: u32,
    /// How many bytes its text has.
    pub len: u32,
}

/// What a line of a script asks for.
#[derive(Clone, Copy, Debug)]
pub enum ScriptLine<'a> {
    Install(InstallLine<'a>),
    Whole(Command<'a>),
}

/// What std reads as a number, leading zeros and a plus too.
fn read_number(word: &[u8]) -> Option<u32>
    ensures { (n : ℕ) → n < 1000000000 → word.now ≡ decimal n → result ≡ Some n }
{
    let Ok(text) = str::from_utf8(word) else {
        return None;
    };
    match text.parse() {
        Ok(n) => Some(n),
        Err(_) => None,
    }
}

/// A number in decimal digits, without a leading zero.
fn number(word: &[u8]) -> Option<u32>
    ensures small { IfSome result (λ n. n < 1000000000) }
    ensures some { IfSome result (λ n. word.now ≡ decimal n) }
    ensures none { IfNone result ((n : ℕ) → n < 1000000000 → word.now ≡ decimal n → ⊥) }
{
    let n = read_number(word)?;
    let mut buffer = Buffer::new();
    let same = buffer.format(n).as_bytes() == word;
    if n < NUMBER_LIMIT && same {
        Some(n)
    } else {
        None
    }
}

fn is_word(bytes: &[u8], word: &[u8]) -> bool
    ensures { IsTrue result ↔ (bytes.now ≡ word.now) }
{
    bytes == word
}

/// What stands before the first space, and behind it.
fn split_word(bytes: &[u8]) -> Option<(&[u8], &[u8])>
    ensures some { IfSome result (λ p. bytes.now ≡ p.0.now ++ 32 ∷ p.1.now) }
    ensures first { IfSome result (λ p. IsTrue (list_all is_no_space p.0.now)) }
    ensures none { IfNone result (IsTrue (list_all is_no_space bytes.now)) }
{
    for (i, b) in bytes.iter().enumerate() {
        if *b == b' ' {
            return Some((&bytes[..i], &bytes[i + 1..]));
        }
    }
    None
}

/// The bytes of names and numbers: no space, and none that can't be shown.
fn is_shown(b: u8) -> bool
    ensures { result ≡ shown_byte b }
{
    matches!(b, 0x21..=0x7E)
}

fn all_shown(word: &[u8]) -> bool
    ensures { result ≡ list_all shown_byte word.now }
{
    word.iter().all(|b| is_shown(*b))
}

/// Whether a word may be the name in a command.
fn is_name(word: &[u8]) -> bool
    ensures { IsTrue result ↔ IsGoodName word.now }
{
    !word.is_empty() && all_shown(word)
}

/// What the line of an install asks for, by what stands behind its first word.
fn install<'a>(rest: &'a [u8]) -> Option<ScriptLine<'a>>
    ensures some { IfSome result (λ asked. IsLine asked (codes "install" ++ 32 ∷ rest.now)) }
    ensures none { IfNone result (IsNoCommandLine (codes "install" ++ 32 ∷ rest.now)) }
{
    let Some((name, numbers)) = split_word(rest) else {
        return None;
    };
    let Some((first, second)) = split_word(numbers) else {
        return None;
    };
    if !is_name(name) {
        return None;
    }
    let Some(priority) = number(first) else {
        return None;
    };
    let Some(len) = number(second) else {
        return None;
    };
    Some(ScriptLine::Install(InstallLine {
        name,
        priority,
        len,
    }))
}

/// The same for a removal.
fn remove<'a>(rest: &'a [u8]) -> Option<ScriptLine<'a>>
    ensures some { IfSome result (λ asked. IsLine asked (codes "remove" ++ 32 ∷ rest.now)) }
    ensures none { IfNone result (IsNoCommandLine (codes "remove" ++ 32 ∷ rest.now)) }
{
    let Some((name, second)) = split_word(rest) else {
        return None;
    };
    if !is_name(name) {
        return None;
    }
    let Some(priority) = number(second) else {
        return None;
    };
    Some(ScriptLine::Whole(Command::Edit(Edit::Remove { name, priority })))
}

/// The same for the enabling of a name.
fn enable<'a>(rest: &'a [u8]) -> Option<ScriptLine<'a>>
    ensures some { IfSome result (λ asked. IsLine asked (codes "enable" ++ 32 ∷ rest.now)) }
    ensures none { IfNone result (IsNoCommandLine (codes "enable" ++ 32 ∷ rest.now)) }
{
    if !is_name(rest) {
        return None;
    }
    Some(ScriptLine::Whole(Command::Edit(Edit::Enable { name: rest })))
}

/// And for its disabling.
fn disable<'a>(rest: &'a [u8]) -> Option<ScriptLine<'a>>
    ensures some { IfSome result (λ asked. IsLine asked (codes "disable" ++ 32 ∷ rest.now)) }
    ensures none { IfNone result (IsNoCommandLine (codes "disable" ++ 32 ∷ rest.now)) }
{
    if !is_name(rest) {
        return None;
    }
    Some(ScriptLine::Whole(Command::Edit(Edit::Disable { name: rest })))
}

/// What a line of several words asks for.
fn edit<'a>(first: &'a [u8], rest: &'a [u8]) -> Option<ScriptLine<'a>>
    requires { IsTrue (list_all is_no_space first.now) }
    ensures some { IfSome result (λ asked. IsLine asked (first.now ++ 32 ∷ rest.now)) }
    ensures none { IfNone result (IsNoCommandLine (first.now ++ 32 ∷ rest.now)) }
{
    if is_word(first, b"install") {
        return install(rest);
    }
    if is_word(first, b"remove") {
        return remove(rest);
    }
    if is_word(first, b"enable") {
        return enable(rest);
    }
    if is_word(first, b"disable") {
        return disable(rest);
    }
    None
}

/// The question that a word asks.
fn word_question(word: &[u8]) -> Option<Question>
    ensures some { IfSome result (λ asked. word.now ≡ line_of (question_asked asked)) }
    ensures none { IfNone result (IsNoQuestion word.now) }
{
    if is_word(word, b"rules") {
        return Some(Question::Rules);
    }
    if is_word(word, b"violations") {
        return Some(Question::Violations);
    }
    if is_word(word, b"dropped") {
        return Some(Question::Dropped);
    }
    if is_word(word, b"modules") {
        return Some(Question::Modules);
    }
    if is_word(word, b"dump") {
        return Some(Question::Dump);
    }
    None
}

/// What a line of one word asks for.
fn word_command(word: &[u8]) -> Option<Command<'_>>
    requires { IsTrue (list_all is_no_space word.now) }
    ensures some { IfSome result (λ asked. IsLine (Whole asked) word.now) }
    ensures none { IfNone result (IsNoCommandLine word.now) }
{
    if is_word(word, b"begin") {
        return Some(Command::Begin);
    }
    if is_word(word, b"commit") {
        return Some(Command::Commit);
    }
    if is_word(word, b"abort") {
        return Some(Command::Abort);
    }
    Some(Command::Ask(word_question(word)?))
}

/// What a line asks for; none where it is no command.
pub fn script_line<'a>(line: &'a [u8]) -> Option<ScriptLine<'a>>
    ensures some { IfSome result (λ asked. IsLine asked line.now) }
    ensures none { IfNone result (IsNoCommandLine line.now) }
{
    match split_word(line) {
        Some((first, rest)) => edit(first, rest),
        None => Some(ScriptLine::Whole(word_command(line)?)),
    }
}
