//! A source over memory.

ghost use Rattle.std.specs.Prelude.{◌≡◌, ◌↔◌, ◌+◌, ◌<◌, ◌≤◌, ◌^◌, length, take, IsTrue, IfOk, OnErr, IsErr};
ghost use Rattle.cil_stream.specs.Device.{HasFailed, HasEnded, HasGiven, Gives, account_of, failed, has_ended, reel-sound};

use crate::source::{Source, SourceFault};
use std::marker::Model;

/// A source over memory, which gives so many bytes a call at the most, and fails after so many in all.
#[derive(Drop, Debug)]
pub struct MemorySource<'a> {
    text: &'a [u8],
    at: usize,
    greatest: usize,
    limit: usize,
    ends: u64,
    failures: u64,
}

impl<'a> Model for MemorySource<'a> {
    ghost use Rattle.std.specs.Prelude.{◌≡◌, ◌≤◌, ◌<◌, length};
    ghost use Rattle.cil_stream.specs.Device.{Reel};

    ghost Value = { Reel };

    ghost view = { λ s. record { text = s.text.now; at = s.at; greatest = s.greatest; limit = s.limit; ends = s.ends; failures = s.failures } };

    ghost invariant = { λ s. (s.at ≤ length s.text.now) × (0 < s.ends → s.at ≡ length s.text.now) };
}

impl<'a> MemorySource<'a> {
    ghost use Rattle.std.specs.Prelude.{◌≡◌, ◌-◌, ◌^◌};

    /// A source that gives the whole text and tells its end.
    pub fn new(text: &'a [u8]) -> Self
        ensures text { result.text ≡ text.now }
        ensures at { result.at ≡ 0 }
        ensures greatest { result.greatest ≡ 2 ^ 64 - 1 }
        ensures limit { result.limit ≡ 2 ^ 64 - 1 }
        ensures ends { result.ends ≡ 0 }
        ensures failures { result.failures ≡ 0 }
    {
        MemorySource::with_limits(text, usize::MAX, usize::MAX)
    }

    /// A source that gives `greatest` bytes a call at the most, and one at the least, and fails once it gave `limit` in all.
    pub fn with_limits(text: &'a [u8], greatest: usize, limit: usize) -> Self
        ensures { result ≡ record { text = text.now; at = 0; greatest = greatest; limit = limit; ends = 0; failures = 0 } }
    {
        MemorySource {
            text,
            at: 0,
            greatest,
            limit,
            ends: 0,
            failures: 0,
        }
    }

    /// How many bytes it gave.
    pub fn given(&self) -> usize
        ensures { result ≡ self.now.at }
    {
        self.at
    }
}

impl<'a> Source for MemorySource<'a> {
    ghost account = { account_of };

    // The first three clauses say exactly what a call does, and the others are those of every source.
    fn take(&mut self, buffer: &mut [u8]) -> Result<usize, SourceFault>
        ensures exact { IfOk result (λ n. HasGiven self.old self.new buffer.old buffer.new n) }
        ensures fault { IsErr result ↔ (self.old.limit ≤ self.old.at) }
        ensures exact_fault { OnErr result ((self.new ≡ failed self.old) × (buffer.new ≡ buffer.old)) }
        ensures within { IfOk result (λ n. n ≤ length buffer.old) }
        ensures given { IfOk result (λ n. Gives (account_of self.old) (account_of self.new) (take n buffer.new)) }
        ensures ended { IfOk result (λ n. 0 < length buffer.old → n ≡ 0 → HasEnded (account_of self.old) (account_of self.new)) }
        ensures same_end { IfOk result (λ n. 0 < n → (account_of self.new).ends ≡ (account_of self.old).ends) }
        ensures no_end { IfOk result (λ n. length buffer.old ≡ 0 → (account_of self.new).ends ≡ (account_of self.old).ends) }
        ensures over { IfOk result (λ n. IsTrue (has_ended (account_of self.old)) → n ≡ 0) }
        ensures err { OnErr result (account_of self.new ≡ record (account_of self.old) { failures = (account_of self.new).failures }) }
        ensures failed { OnErr result (HasFailed (account_of self.old).failures (account_of self.new).failures) }
        ensures counted { (account_of self.old).failures ≤ (account_of self.new).failures }
        ensures small { (account_of self.new).count < 2 ^ 64 }
    {
        if self.at >= self.limit {
            self.failures = self.failures.saturating_add(1);
            return Err(SourceFault);
        }
        let rest = &self.text[self.at..];
        let n = rest
            .len()
            .min(buffer.len())
            .min(self.greatest.max(1))
            .min(self.limit - self.at);
        buffer[..n].copy_from_slice(&rest[..n]);
        if n == 0 && !buffer.is_empty() {
            self.ends = self.ends.saturating_add(1);
        }
        self.at += n;
        Ok(n)
    }

    ghost sound = { reel-sound };
}
