//! What a session reads from its source, and holds back until it reads on.

ghost use Rattle.std.specs.Prelude.{◌≡◌, ◌≢◌, ◌↔◌, ◌+◌, ◌<◌, ◌≤◌, ◌^◌, ◌∷◌, [], false, ℕ, List, length, count_by, IsTrue, IfOk, IfSome, IfNone, OnErr};
ghost use Rattle.cil_session.specs.Common.{list_all, HasFailed, HasEnded, Gives, HasStopped};
ghost use Rattle.cil_specs.specs.Place.{is_line_feed};

use crate::line::Line;
use cil_stream::{Source, SourceFault};
use std::alloc::Allocator;
use std::marker::Model;

/// How a line ended.
#[derive(Clone, Copy, Debug, PartialEq, Eq)]
pub enum LineEnd {
    /// By a line feed, which was read.
    LineFeed,
    /// By the end of the source, with no line feed.
    LastByte,
    /// It is longer than a line may be; a byte too many was read.
    TooLong,
}

impl LineEnd {
    ghost use Rattle.std.specs.Prelude.{◌≡◌, ◌↔◌, IsTrue};
    ghost use Rattle.cil_session.specs.declared.input.LineEnd.TheVariants.{LastByte as last_byte, TooLong as too_long};

    /// Whether the line is the last of its source.
    pub fn is_last(self) -> bool
        ensures { IsTrue result ↔ (self ≡ last_byte) }
    {
        matches!(self, LineEnd::LastByte)
    }

    pub fn is_too_long(self) -> bool
        ensures { IsTrue result ↔ (self ≡ too_long) }
    {
        matches!(self, LineEnd::TooLong)
    }
}

/// How many bytes are asked of the source at once.
const PIECE: usize = 8192;

/// Bytes that were taken from a source and not read yet, and how many line feeds were read. The source is asked only when
/// nothing is held back.
#[derive(Drop)]
pub struct Input {
    bytes: [u8; PIECE],
    start: usize,
    end: usize,
    line_feeds: u64,
}

impl Model for Input {
    ghost use Rattle.std.specs.Prelude.{◌≤◌, ◌<◌, ◌+◌, ◌-◌, ◌^◌, slice_range};
    ghost use Rattle.cil_session.specs.Input.{Held};

    ghost Value = { Held };

    ghost view = { λ i. record { bytes = slice_range i.bytes i.start i.end; line_feeds = i.line_feeds } };

    ghost invariant = { λ i. (i.start ≤ i.end) × (i.end ≤ 8192) × (i.line_feeds + (i.end - i.start) < 2 ^ 64) };
}

impl Input {
    pub fn new() -> Self
        ensures { result ≡ record { bytes = []; line_feeds = 0 } }
    {
        Input {
            bytes: [0; PIECE],
            start: 0,
            end: 0,
            line_feeds: 0,
        }
    }

    /// How many line feeds were read.
    pub fn line_feeds(&self) -> u64
        ensures { result ≡ self.now.line_feeds }
    {
        self.line_feeds
    }

    /// Whether nothing is held back.
    pub fn is_empty(&self) -> bool
        ensures { IsTrue result ↔ (self.now.bytes ≡ []) }
    {
        self.start == self.end
    }

    /// The first of the bytes.
    fn pop(&mut self) -> u8
        requires { self.old.bytes ≢ [] }
        ensures byte { self.old.bytes ≡ result ∷ self.new.bytes }
        ensures line_feeds { self.new.line_feeds ≡ self.old.line_feeds + count_by is_line_feed (result ∷ []) }
    {
        let b = self.bytes[self.start];
        self.start += 1;
        if b == b'\n' {
            self.line_feeds += 1;
        }
        b
    }

    /// Takes bytes from the source, and says whether there were any.
    fn fill<S: Source>(&mut self, source: &mut S) -> Result<bool, SourceFault>
        requires empty { self.old.bytes ≡ [] }
        requires counted { self.old.line_feeds ≤ (S.account source.old).count }
        ensures more { IfOk result (λ more. IsTrue more → self.new.bytes ≢ []) }
        ensures none { IfOk result (λ more. more ≡ false → (self.new.bytes ≡ [])
            × HasEnded (S.account source.old) (S.account source.new)) }
        ensures gives { IfOk result (λ _. Gives (S.account source.old) (S.account source.new) self.new.bytes) }
        ensures small { IfOk result (λ _. (S.account source.new).count < 2 ^ 64) }
        ensures line_feeds { self.new.line_feeds ≡ self.old.line_feeds }
        ensures failed { OnErr result (HasFailed (S.account source.old).failures (S.account source.new).failures) }
        ensures err { OnErr result (self.new ≡ self.old) }
        ensures stopped { OnErr result (HasStopped (S.account source.old) (S.account source.new)
            self.old self.new []) }
        ensures failures { (S.account source.old).failures ≤ (S.account source.new).failures }
    {
        let n = source.take(&mut self.bytes)?;
        self.start = 0;
        self.end = n;
        Ok(n > 0)
    }
}

impl Input {
    ghost use Rattle.std.specs.Prelude.{◌≡◌, ◌≢◌, ◌↔◌, ◌+◌, ◌<◌, ◌≤◌, ◌∷◌, ◌++◌, [], true, false, ℕ, List, length, min, take, drop, count_by, IsTrue, IfOk, IfSome, IfNone, OnErr, vec_len, vec_capacity};
    ghost use Rattle.std.specs.List.{list_all, list_any};
    ghost use Rattle.cil_stream.specs.Device.{HasFailed, HasEnded, has_ended};
    ghost use Rattle.cil_specs.specs.Place.{is_line_feed};
    ghost use Rattle.cil_session.specs.Input.{Fits, HasRead, HasStopped, EndsLine, IsText, IsOther, IsWholeText, stays};
    ghost use Rattle.cil_session.specs.declared.input.LineEnd.TheVariants.{LastByte};

    /// The next byte; none where the source told its end.
    fn next<S: Source>(&mut self, source: &mut S) -> Result<Option<u8>, SourceFault>
        requires { Fits (S.account source.old).count self.old }
        ensures byte { IfOk result (λ r. IfSome r (λ b.
            HasRead (S.account source.old) (S.account source.new) self.old self.new (b ∷ []))) }
        ensures end { IfOk result (λ r. IfNone r (
            HasRead (S.account source.old) (S.account source.new) self.old self.new []
            × HasEnded (S.account source.old) (S.account source.new) × (self.new.bytes ≡ []))) }
        ensures err { OnErr result (HasStopped (S.account source.old) (S.account source.new)
            self.old self.new []) }
        ensures failed { OnErr result (HasFailed (S.account source.old).failures (S.account source.new).failures) }
        ensures failures { (S.account source.old).failures ≤ (S.account source.new).failures }
    {
        if self.is_empty() && !self.fill(source)? {
            return Ok(None);
        }
        Ok(Some(self.pop()))
    }

    /// Reads a line: up to its line feed, to the end of the source, or until it is longer than a line may be. Says which.
    pub fn read_line<S: Source>(
        &mut self,
        source: &mut S,
        line: &mut Line,
    ) -> Result<LineEnd, SourceFault>
        requires counted { Fits (S.account source.old).count self.old }
        ensures read { IfOk result (λ end. (read : List ℕ)
            × HasRead (S.account source.old) (S.account source.new) self.old self.new read
            × EndsLine end line.new read (has_ended (S.account source.new)) self.new.bytes) }
        ensures stays { IsTrue (list_all stays line.new) }
        ensures ended { IfOk result (λ end. end ≡ LastByte → HasEnded (S.account source.old) (S.account source.new)) }
        ensures err { OnErr result (HasStopped (S.account source.old) (S.account source.new)
            self.old self.new line.new) }
        ensures failed { OnErr result (HasFailed (S.account source.old).failures (S.account source.new).failures) }
        ensures failures { (S.account source.old).failures ≤ (S.account source.new).failures }
    {
        line.clear();
        loop {
            let Some(b) = self.next(source)? else {
                return Ok(LineEnd::LastByte);
            };
            if b == b'\n' {
                return Ok(LineEnd::LineFeed);
            }
            if line.is_full() {
                return Ok(LineEnd::TooLong);
            }
            line.push(b);
        }
    }

    /// Whether there are bytes to read. Takes some from the source where none are held back.
    fn has_more<S: Source>(&mut self, source: &mut S) -> Result<bool, SourceFault>
        requires { Fits (S.account source.old).count self.old }
        ensures read { IfOk result (λ _. HasRead (S.account source.old) (S.account source.new) self.old self.new []) }
        ensures more { IfOk result (λ more. IsTrue more → self.new.bytes ≢ []) }
        ensures none { IfOk result (λ more. more ≡ false →
            IsTrue (has_ended (S.account source.new)) × (self.new.bytes ≡ [])) }
        ensures err { OnErr result (HasStopped (S.account source.old) (S.account source.new)
            self.old self.new []) }
        ensures failed { OnErr result (HasFailed (S.account source.old).failures (S.account source.new).failures) }
        ensures failures { (S.account source.old).failures ≤ (S.account source.new).failures }
    {
        if self.is_empty() {
            return self.fill(source);
        }
        Ok(true)
    }

    /// The bytes that are held back.
    fn held(&self) -> &[u8]
        ensures { result.now ≡ self.now.bytes }
    {
        &self.bytes[self.start..self.end]
    }

    /// Whether a line feed is held back, so that a line is read without a byte of the source.
    pub fn holds_line(&self) -> bool
        ensures { result ≡ list_any is_line_feed self.now.bytes }
    {
        self.held().contains(&b'\n')
    }

    /// Whether a text and the byte behind it are held back.
    pub fn holds_text(&self, len: usize) -> bool
        ensures { IsTrue result ↔ (len < length self.now.bytes) }
    {
        self.held().len() > len
    }

    /// Goes over some of the bytes that are held back.
    fn advance(&mut self, len: usize)
        requires { len ≤ length self.old.bytes }
        ensures bytes { self.new.bytes ≡ drop len self.old.bytes }
        ensures line_feeds { self.new.line_feeds ≡
            self.old.line_feeds + count_by is_line_feed (take len self.old.bytes) }
    {
        let from = self.start;
        let passed = &self.bytes[from..from + len];
        let line_feeds = passed.iter().filter(|b| **b == b'\n').count();
        self.line_feeds += line_feeds as u64;
        self.start = from + len;
    }

    /// Reads so many bytes to the end of a vector that has room for them. Says whether all were there.
    fn take_bytes<S: Source, A: Allocator>(
        &mut self,
        source: &mut S,
        len: usize,
        text: &mut Vec<u8, A>,
    ) -> Result<bool, SourceFault>
        requires counted { Fits (S.account source.old).count self.old }
        requires room { vec_len text.old + len ≤ vec_capacity text.old }
        ensures read { IfOk result (λ whole. (read : List ℕ)
            × HasRead (S.account source.old) (S.account source.new) self.old self.new read
            × (text.new.items ≡ text.old.items ++ read)
            × IsText whole len read (has_ended (S.account source.new)) self.new.bytes) }
        ensures err { OnErr result ((read : List ℕ) ×
            HasStopped (S.account source.old) (S.account source.new) self.old self.new read
            × (text.new.items ≡ text.old.items ++ read) × (length read < len)) }
        ensures failed { OnErr result (HasFailed (S.account source.old).failures (S.account source.new).failures) }
        ensures failures { (S.account source.old).failures ≤ (S.account source.new).failures }
    {
        let mut left = len;
        while left > 0 {
            if !self.has_more(source)? {
                return Ok(false);
            }
            let piece = self.held();
            let n = left.min(piece.len());
            text.extend_from_slice(&piece[..n]).unwrap();
            self.advance(n);
            left -= n;
        }
        Ok(true)
    }

    /// Reads so many bytes and leaves them aside. Says whether all were there.
    fn skip_bytes<S: Source>(&mut self, source: &mut S, len: usize) -> Result<bool, SourceFault>
        requires { Fits (S.account source.old).count self.old }
        ensures read { IfOk result (λ whole. (read : List ℕ)
            × HasRead (S.account source.old) (S.account source.new) self.old self.new read
            × IsText whole len read (has_ended (S.account source.new)) self.new.bytes) }
        ensures err { OnErr result ((read : List ℕ) ×
            HasStopped (S.account source.old) (S.account source.new) self.old self.new read
            × (length read < len)) }
        ensures failed { OnErr result (HasFailed (S.account source.old).failures (S.account source.new).failures) }
        ensures failures { (S.account source.old).failures ≤ (S.account source.new).failures }
    {
        let mut left = len;
        while left > 0 {
            if !self.has_more(source)? {
                return Ok(false);
            }
            let n = left.min(self.held().len());
            self.advance(n);
            left -= n;
        }
        Ok(true)
    }

    /// Reads a byte, and says whether it was a line feed.
    fn take_line_feed<S: Source>(&mut self, source: &mut S) -> Result<bool, SourceFault>
        requires { Fits (S.account source.old).count self.old }
        ensures yes { IfOk result (λ is. IsTrue is →
            HasRead (S.account source.old) (S.account source.new) self.old self.new (10 ∷ [])) }
        ensures no { IfOk result (λ is. is ≡ false → (read : List ℕ)
            × HasRead (S.account source.old) (S.account source.new) self.old self.new read
            × IsOther read (has_ended (S.account source.new)) self.new.bytes) }
        ensures err { OnErr result (HasStopped (S.account source.old) (S.account source.new)
            self.old self.new []) }
        ensures failed { OnErr result (HasFailed (S.account source.old).failures (S.account source.new).failures) }
        ensures failures { (S.account source.old).failures ≤ (S.account source.new).failures }
    {
        let Some(b) = self.next(source)? else {
            return Ok(false);
        };
        Ok(b == b'\n')
    }

    /// Reads the text of an install and its line feed, and no more than so many of its first bytes come to the end of a vector that has
    /// room for them. Says whether all were there.
    pub fn read_front<S: Source, A: Allocator>(
        &mut self,
        source: &mut S,
        len: usize,
        most: usize,
        text: &mut Vec<u8, A>,
    ) -> Result<bool, SourceFault>
        requires counted { Fits (S.account source.old).count self.old }
        requires room { vec_len text.old + min len most ≤ vec_capacity text.old }
        ensures read { IfOk result (λ whole. (read part : List ℕ)
            × HasRead (S.account source.old) (S.account source.new) self.old self.new read
            × IsWholeText whole len part read (has_ended (S.account source.new)) self.new.bytes
            × (whole ≡ true → text.new.items ≡ text.old.items ++ take most part)) }
        ensures err { OnErr result ((read : List ℕ) ×
            HasStopped (S.account source.old) (S.account source.new) self.old self.new read
            × (length read ≤ len) × (text.new.items ≡ text.old.items ++ take most read)) }
        ensures failed { OnErr result (HasFailed (S.account source.old).failures (S.account source.new).failures) }
        ensures failures { (S.account source.old).failures ≤ (S.account source.new).failures }
    {
        let front = len.min(most);
        if !self.take_bytes(source, front, text)? {
            return Ok(false);
        }
        self.skip_text(source, len - front)
    }

    /// Reads the text of an install and its line feed, and leaves them aside. Says whether all were there.
    pub fn skip_text<S: Source>(&mut self, source: &mut S, len: usize) -> Result<bool, SourceFault>
        requires { Fits (S.account source.old).count self.old }
        ensures read { IfOk result (λ whole. (read part : List ℕ)
            × HasRead (S.account source.old) (S.account source.new) self.old self.new read
            × IsWholeText whole len part read (has_ended (S.account source.new)) self.new.bytes) }
        ensures err { OnErr result ((read : List ℕ) ×
            HasStopped (S.account source.old) (S.account source.new) self.old self.new read
            × (length read ≤ len)) }
        ensures failed { OnErr result (HasFailed (S.account source.old).failures (S.account source.new).failures) }
        ensures failures { (S.account source.old).failures ≤ (S.account source.new).failures }
    {
        if !self.skip_bytes(source, len)? {
            return Ok(false);
        }
        self.take_line_feed(source)
    }
}
