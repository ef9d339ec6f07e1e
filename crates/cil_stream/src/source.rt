//! Sources, which give bytes.

ghost use Rattle.std.specs.Prelude.{◌≡◌, ◌≢◌, ◌+◌, ◌-◌, ◌<◌, ◌≤◌, ◌^◌, ◌⊎◌, Some, min, take, drop, length, IsTrue, OnErr, IfOk, IfErr, IfSome};
ghost use Rattle.cil_stream.specs.Device.{Account, HasFailed, HasEnded, Gives, IsSound, account_of_feed, has_ended, feed-sound};
ghost use Rattle.std.specs.IoError.{error_kind};
ghost use Rattle.std.specs.Io.KnownBytes.{Consumes, IsAtEnd, Keeps};

use crate::retrying::read_retrying;
use std::io;
use std::io::{ErrorKind, Read};
use std::marker::Model;
use std::snapshot::Snapshot;
use thiserror::Error;

/// A source didn't give what it was asked for.
#[derive(Clone, Copy, Debug, PartialEq, Eq, Error)]
#[error("the input failed")]
pub struct SourceFault;

/// Gives bytes, as many a call as it will.
pub trait Source {
    /// What it tells of itself.
    ghost account: { Self → Account };

    /// Gives bytes into a front of the buffer, and tells how many. None into a buffer that isn't empty tells the end, and such a
    /// call alone does; behind its end it gives none. It gives none past the greatest u64.
    fn take(&mut self, buffer: &mut [u8]) -> Result<usize, SourceFault>
        ensures within { IfOk result (λ n. n ≤ length buffer.old) }
        ensures given { IfOk result (λ n. Gives (account self.old) (account self.new) (take n buffer.new)) }
        ensures ended { IfOk result (λ n. 0 < length buffer.old → n ≡ 0 → HasEnded (account self.old) (account self.new)) }
        ensures same_end { IfOk result (λ n. 0 < n → (account self.new).ends ≡ (account self.old).ends) }
        ensures no_end { IfOk result (λ n. length buffer.old ≡ 0 → (account self.new).ends ≡ (account self.old).ends) }
        ensures over { IfOk result (λ n. IsTrue (has_ended (account self.old)) → n ≡ 0) }
        ensures err { OnErr result (account self.new ≡ record (account self.old) { failures = (account self.new).failures }) }
        ensures failed { OnErr result (HasFailed (account self.old).failures (account self.new).failures) }
        ensures counted { (account self.old).failures ≤ (account self.new).failures }
        ensures small { (account self.new).count < 2 ^ 64 };

    ghost sound: { (s : Self) → IsSound (account s) };
}

/// Reads, but not behind an end, and not past the greatest count.
fn read_on<R: Read>(reader: &mut R, buffer: &mut [u8], count: u64, ends: u64) -> io::Result<usize>
    ensures within { IfOk result (λ n. n ≤ length buffer.new) }
    ensures fits { IfOk result (λ n. count + n < 2 ^ 64) }
    ensures given { IfOk result (λ n. Consumes (R.remaining reader.old) (R.remaining reader.new) (take n buffer.new)) }
    ensures end { IfOk result (λ n. n ≡ 0 → 0 < length buffer.new → ends ≡ 0 → IsAtEnd (R.remaining reader.new)) }
    ensures over { IfOk result (λ n. 0 < ends → n ≡ 0) }
    ensures err { OnErr result (Keeps (R.remaining reader.old) (R.remaining reader.new)) }
    ensures retried { IfErr result (λ error. error_kind error ≢ ErrorKind.Interrupted) }
{
    if ends > 0 {
        return Ok(0);
    }
    if count.checked_add(buffer.len() as u64).is_none() {
        return Err(io::Error::from(ErrorKind::FileTooLarge));
    }
    read_retrying(reader, buffer)
}

/// How often an end was told, after so many bytes of so many that were wanted.
fn ends_after(ends: u64, n: usize, wanted: usize) -> u64
    ensures later { ends ≤ result }
    ensures some { 0 < n → result ≡ ends }
    ensures empty { wanted ≡ 0 → result ≡ ends }
    ensures none { n ≡ 0 → 0 < wanted → (ends < result) ⊎ (2 ^ 64 - 1 ≤ result) }
{
    if n == 0 && wanted > 0 {
        ends.saturating_add(1)
    } else {
        ends
    }
}

/// A source over a reader of std, of which it asks nothing behind its end. It tells its bytes where the reader knew them at first.
#[derive(Drop)]
pub struct ReaderSource<R: Read + Drop> {
    reader: R,
    first: Snapshot<R>,
    count: u64,
    ends: u64,
    failures: u64,
}

impl<R: Read + Drop> Model for ReaderSource<R> {
    ghost use Rattle.cil_stream.specs.Device.{Feed, IsFed};

    ghost Value = { Feed };

    ghost view = { λ s. record { whole = R.remaining s.first.value; count = s.count; ends = s.ends; failures = s.failures } };

    ghost invariant = { λ s. IsFed (R.remaining s.first.value) (R.remaining s.reader) s.count s.ends };
}

impl<R: Read + Drop> ReaderSource<R> {
    /// A source that gave nothing yet.
    pub fn new(reader: R) -> Self
        ensures whole { result.whole ≡ R.remaining reader }
        ensures count { result.count ≡ 0 }
        ensures ends { result.ends ≡ 0 }
        ensures failures { result.failures ≡ 0 }
    {
        let first = Snapshot::of(&reader);
        ReaderSource {
            reader,
            first,
            count: 0,
            ends: 0,
            failures: 0,
        }
    }

    /// The reader. Where it knew its bytes at first it has left those that were not given.
    pub fn into_reader(self) -> R
        ensures { IfSome self.whole (λ text. R.remaining result ≡ Some (drop self.count text)) }
    {
        self.reader
    }

    fn fail(&mut self) -> SourceFault
        ensures exact { self.new ≡ record self.old { failures = min (self.old.failures + 1) (2 ^ 64 - 1) } }
    {
        self.failures = self.failures.saturating_add(1);
        SourceFault
    }
}

impl<R: Read + Drop> Source for ReaderSource<R> {
    ghost account = { account_of_feed };

    fn take(&mut self, buffer: &mut [u8]) -> Result<usize, SourceFault> {
        let Ok(n) = read_on(&mut self.reader, buffer, self.count, self.ends) else {
            return Err(self.fail());
        };
        self.count += n as u64;
        self.ends = ends_after(self.ends, n, buffer.len());
        Ok(n)
    }

    ghost sound = { feed-sound };
}
