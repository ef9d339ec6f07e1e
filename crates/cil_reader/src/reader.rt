//! The reader: over a text from its front, part by part.

ghost use Rattle.std.specs.Prelude.{◌≡◌, ◌+◌, ◌<◌, ◌^◌, ◌∷◌, ◌++◌, ℕ, List, length, slice_index, IsTrue, IfSome, IfNone, ◌≤◌, IfOk, IfErr};
ghost use Rattle.cil_reader.specs.Common.{prefix_len, list_all, place_of, Trees, Reads, IsReadingFault, FaultIs, IsMemory, forest_of};
ghost use Rattle.cil_specs.specs.Bytes.{is_white as white_byte, is_word_byte as word_byte, is_comment_byte as comment_byte, is_string_byte as string_byte};

use crate::byte_table::has_one;
use crate::fault::{ShownWord, TextFault, TextFaultKind};
use crate::forest::Forest;
use crate::node::Node;
use crate::place::Place;
use std::alloc::{AllocError, Allocator};

/// The greatest number of lists within one another.
const GREATEST_DEPTH: usize = 256;

fn is_white(b: u8) -> bool
    ensures { result ≡ white_byte b }
{
    matches!(b, b' ' | b'\t' | b'\n' | b'\r')
}

/// For each byte 1 where it may stand in a word: printable ASCII but for `"`, `(`, `)` and `;`.
const WORD_BYTES: [u8; 256] = [
    0, 0, 0, 0, 0, 0, 0, 0, 0, 0, 0, 0, 0, 0, 0, 0, 0, 0, 0, 0, 0, 0, 0, 0, 0, 0, 0, 0, 0, 0, 0, 0,
    0, 1, 0, 1, 1, 1, 1, 1, 0, 0, 1, 1, 1, 1, 1, 1, 1, 1, 1, 1, 1, 1, 1, 1, 1, 1, 1, 0, 1, 1, 1, 1,
    1, 1, 1, 1, 1, 1, 1, 1, 1, 1, 1, 1, 1, 1, 1, 1, 1, 1, 1, 1, 1, 1, 1, 1, 1, 1, 1, 1, 1, 1, 1, 1,
    1, 1, 1, 1, 1, 1, 1, 1, 1, 1, 1, 1, 1, 1, 1, 1, 1, 1, 1, 1, 1, 1, 1, 1, 1, 1, 1, 1, 1, 1, 1, 0,
    0, 0, 0, 0, 0, 0, 0, 0, 0, 0, 0, 0, 0, 0, 0, 0, 0, 0, 0, 0, 0, 0, 0, 0, 0, 0, 0, 0, 0, 0, 0, 0,
    0, 0, 0, 0, 0, 0, 0, 0, 0, 0, 0, 0, 0, 0, 0, 0, 0, 0, 0, 0, 0, 0, 0, 0, 0, 0, 0, 0, 0, 0, 0, 0,
    0, 0, 0, 0, 0, 0, 0, 0, 0, 0, 0, 0, 0, 0, 0, 0, 0, 0, 0, 0, 0, 0, 0, 0, 0, 0, 0, 0, 0, 0, 0, 0,
    0, 0, 0, 0, 0, 0, 0, 0, 0, 0, 0, 0, 0, 0, 0, 0, 0, 0, 0, 0, 0, 0, 0, 0, 0, 0, 0, 0, 0, 0, 0, 0,
];

fn is_word_byte(b: u8) -> bool
    ensures { result ≡ word_byte b }
{
    has_one(&WORD_BYTES, b)
}

/// How many word bytes stand at the front.
fn word_len(text: &[u8]) -> usize
    ensures { result ≡ prefix_len word_byte text.now }
{
    for (i, b) in text.iter().enumerate() {
        if !is_word_byte(*b) {
            return i;
        }
    }
    text.len()
}

/// How many bytes stand before the first line feed.
fn comment_len(text: &[u8]) -> usize
    ensures { result ≡ prefix_len comment_byte text.now }
{
    for (i, b) in text.iter().enumerate() {
        if *b == b'\n' {
            return i;
        }
    }
    text.len()
}

/// How many bytes stand before the first `"` or line feed.
fn string_len(text: &[u8]) -> usize
    ensures { result ≡ prefix_len string_byte text.now }
{
    for (i, b) in text.iter().enumerate() {
        if *b == b'"' || *b == b'\n' {
            return i;
        }
    }
    text.len()
}

/// How many bytes stand before the `"` that closes a string; none where no `"` stands on its line.
fn closed_len(inside: &[u8]) -> Option<usize>
    ensures some { IfSome result (λ n. (n ≡ prefix_len string_byte inside.now) × (n < length inside.now) × (slice_index inside.now n ≡ 34)) }
    ensures none { IfNone result ((text more : List ℕ) → IsTrue (list_all string_byte text) → inside.now ≡ text ++ 34 ∷ more → ⊥) }
{
    let len = string_len(inside);
    if len < inside.len() && inside[len] == b'"' {
        Some(len)
    } else {
        None
    }
}

/// A list that is open, and which of the nodes it is.
#[derive(Clone, Copy)]
struct Open {
    at: Place,
    node: usize,
}

/// What was read of a text so far. The nodes of open lists don't tell their ends yet.
#[derive(Drop)]
struct Reader<'a, A: Allocator> {
    text: &'a [u8],
    at: Place,
    outer: Vec<Open, A>,
    nodes: Vec<Node, A>,
}

ghost use Rattle.cil_specs.proofs.PlaceLemmas.{to_right as moved_right, next_line as moved_down};

/// The place further right on the same line.
fn to_right(at: Place, len: usize) -> Place
    requires offset { at.offset + len < 2 ^ 32 }
    requires column { at.column + len < 2 ^ 32 }
    ensures { place_of result ≡ moved_right (place_of at) len }
{
    Place {
        offset: at.offset + len as u32,
        line: at.line,
        column: at.column + len as u32,
    }
}

/// The front of the next line.
fn next_line(at: Place) -> Place
    requires offset { at.offset + 1 < 2 ^ 32 }
    requires line { at.line + 1 < 2 ^ 32 }
    ensures { place_of result ≡ moved_down (place_of at) }
{
    Place {
        offset: at.offset + 1,
        line: at.line + 1,
        column: 1,
    }
}

impl<'a, A: Allocator + Copy> Reader<'a, A> {
    ghost use Rattle.std.specs.Prelude.{◌≡◌, ◌+◌, ◌<◌, ◌≤◌, ◌∷◌, [], ℕ, Bool, true, false, IfOk, IfErr, OnOk, length, slice_index, take, drop};
    ghost use Rattle.std.specs.List.{prefix_len};
    ghost use Rattle.cil_specs.specs.Bytes.{is_white as white_byte, is_word_byte as word_byte, is_comment_byte as comment_byte, is_string_byte as string_byte};
    ghost use Rattle.cil_specs.specs.Parts.{Part, white};
    ghost use Rattle.cil_reader.specs.Image.{place_of, kind_of};
    ghost use Rattle.cil_reader.specs.Reader.{IsPlaced, GoesOver, IsStopped, open_lists};

    /// The bytes that stand so far behind the reader's place.
    fn rest(&self, skipped: usize) -> &'a [u8]
        requires { self.now.at.offset + skipped ≤ length self.now.text.now }
        ensures { result.now ≡ drop (self.now.at.offset + skipped) self.now.text.now }
    {
        &self.text[self.at.offset as usize + skipped..]
    }

    fn fault(&self, kind: TextFaultKind, word: ShownWord<'a>) -> TextFault<'a>
        ensures { result ≡ TextFault.Found kind self.now.at word.entry }
    {
        TextFault::Found {
            kind,
            at: self.at,
            word,
        }
    }

    /// Over a white byte.
    fn skip_white(&mut self)
        requires placed { IsPlaced self.old }
        requires within { self.old.at.offset < length self.old.text.now }
        requires white { white_byte (slice_index self.old.text.now self.old.at.offset) ≡ true }
        ensures { GoesOver self.old self.new (white (slice_index self.old.text.now self.old.at.offset)) }
    {
        if self.text[self.at.offset as usize] == b'\n' {
            self.at = next_line(self.at);
        } else {
            self.at = to_right(self.at, 1);
        }
    }

    /// Over a comment.
    fn skip_comment(&mut self)
        requires placed { IsPlaced self.old }
        requires within { self.old.at.offset < length self.old.text.now }
        requires byte { slice_index self.old.text.now self.old.at.offset ≡ 59 }
        ensures { (p : Part) × GoesOver self.old self.new p }
    {
        let len = comment_len(self.rest(1));
        self.at = to_right(self.at, 1 + len);
    }

    /// Over a word, if a list is open.
    fn take_word(&mut self) -> Result<(), TextFault<'a>>
        requires placed { IsPlaced self.old }
        requires within { self.old.at.offset < length self.old.text.now }
        requires byte { word_byte (slice_index self.old.text.now self.old.at.offset) ≡ true }
        ensures ok { OnOk result ((p : Part) × GoesOver self.old self.new p) }
        ensures err { IfErr result (IsStopped self.old) }
    {
        let rest = self.rest(0);
        let len = word_len(rest);
        let text = &rest[..len];
        if self.outer.is_empty() {
            return Err(self.fault(TextFaultKind::BareWord, ShownWord::Text(text)));
        }
        self.nodes.push(Node::Word {
            at: self.at,
            len: len as u32,
        })?;
        self.at = to_right(self.at, len);
        Ok(())
    }

    /// Over a string, if it ends on its line and a list is open.
    fn take_string(&mut self) -> Result<(), TextFault<'a>>
        requires placed { IsPlaced self.old }
        requires within { self.old.at.offset < length self.old.text.now }
        requires byte { slice_index self.old.text.now self.old.at.offset ≡ 34 }
        ensures ok { OnOk result ((p : Part) × GoesOver self.old self.new p) }
        ensures err { IfErr result (IsStopped self.old) }
    {
        let inside = self.rest(1);
        let Some(len) = closed_len(inside) else {
            return Err(self.fault(TextFaultKind::UnclosedString, ShownWord::Text(b"\"")));
        };
        if self.outer.is_empty() {
            return Err(self.fault(TextFaultKind::BareWord, ShownWord::Text(b"\"")));
        }
        self.nodes.push(Node::String {
            at: self.at,
            len: len as u32 + 2,
        })?;
        self.at = to_right(self.at, len + 2);
        Ok(())
    }

    /// Over a `(`, unless it is one too many within one another.
    fn open(&mut self) -> Result<(), TextFault<'a>>
        requires placed { IsPlaced self.old }
        requires within { self.old.at.offset < length self.old.text.now }
        requires byte { slice_index self.old.text.now self.old.at.offset ≡ 40 }
        ensures ok { OnOk result ((p : Part) × GoesOver self.old self.new p) }
        ensures err { IfErr result (IsStopped self.old) }
    {
        if self.outer.len() >= GREATEST_DEPTH {
            return Err(self.fault(TextFaultKind::TooDeep, ShownWord::Text(b"(")));
        }
        self.outer.push(Open {
            at: self.at,
            node: self.nodes.len(),
        })?;
        self.nodes.push(Node::List {
            at: self.at,
            end: 0,
            inner: 0,
        })?;
        self.at = to_right(self.at, 1);
        Ok(())
    }

    /// Over a `)`, if a list is open.
    fn close(&mut self) -> Result<(), TextFault<'a>>
        requires placed { IsPlaced self.old }
        requires within { self.old.at.offset < length self.old.text.now }
        requires byte { slice_index self.old.text.now self.old.at.offset ≡ 41 }
        ensures ok { OnOk result ((p : Part) × GoesOver self.old self.new p) }
        ensures err { IfErr result (IsStopped self.old) }
    {
        let Some(open) = self.outer.pop() else {
            return Err(self.fault(TextFaultKind::Unbalanced, ShownWord::Text(b")")));
        };
        let inner = self.nodes.len() - open.node - 1;
        self.at = to_right(self.at, 1);
        self.nodes[open.node] = Node::List {
            at: open.at,
            end: self.at.offset,
            inner: inner as u32,
        };
        Ok(())
    }

    /// Over one part, or the fault why none begins here.
    fn step(&mut self) -> Result<(), TextFault<'a>>
        requires placed { IsPlaced self.old }
        requires within { self.old.at.offset < length self.old.text.now }
        ensures ok { OnOk result ((p : Part) × GoesOver self.old self.new p) }
        ensures err { IfErr result (IsStopped self.old) }
    {
        let b = self.text[self.at.offset as usize];
        if is_word_byte(b) {
            return self.take_word();
        }
        if is_white(b) {
            self.skip_white();
            return Ok(());
        }
        match b {
            b'(' => self.open(),
            b')' => self.close(),
            b';' => {
                self.skip_comment();
                Ok(())
            }
            b'"' => self.take_string(),
            _ => Err(self.fault(TextFaultKind::BadByte, ShownWord::Byte(b))),
        }
    }
}

/// Goes over a text to its end.
fn read_parts<'a, A: Allocator + Copy>(
    alloc: A,
    text: &'a [u8],
) -> Result<Forest<'a, A>, TextFault<'a>>
    requires { length text.now ≤ 16777216 }
    ensures ok { IfOk result (λ forest. Reads text.now (forest_of forest)) }
    ensures err { IfErr result (λ fault. FaultIs fault (IsReadingFault text.now)) }
{
    let mut reader = Reader {
        text,
        at: Place {
            offset: 0,
            line: 1,
            column: 1,
        },
        outer: Vec::new(alloc),
        nodes: Vec::new(alloc),
    };
    while (reader.at.offset as usize) < text.len() {
        reader.step()?;
    }
    let Reader {
        text,
        mut outer,
        nodes,
        ..
    } = reader;
    match outer.pop() {
        Some(innermost) => Err(TextFault::Found {
            kind: TextFaultKind::Unclosed,
            at: innermost.at,
            word: ShownWord::Text(b"("),
        }),
        None => Ok(Forest { text, nodes }),
    }
}

/// The trees that a text spells, or the fault why it spells none: any bytes are read or refused. A bad byte, a `)` too
/// many, an unclosed string, a list too deep and a word outside all lists are faults at the first byte at which no part of
/// the text goes on; an unclosed list is one only where the text has no other. The CIL Reference Guide has s-expressions
/// of words and quoted strings with comments behind `;`; the limits, codes and places are this project's own.
pub fn read<'a, A: Allocator + Copy>(
    alloc: A,
    text: &'a [u8],
) -> Result<Forest<'a, A>, TextFault<'a>>
    requires { length text.now ≤ 16777216 }
    ensures ok { IfOk result (λ forest. Reads text.now (forest_of forest)) }
    ensures err { IfErr result (λ fault. FaultIs fault (IsReadingFault text.now)) }
    // What is spelt so is read, unless memory runs out; a text has one reading or one fault, as the laws say.
    ensures spelt { (trees : Trees) → Reads text.now trees → IfErr result IsMemory }
{
    read_parts(alloc, text)
}
