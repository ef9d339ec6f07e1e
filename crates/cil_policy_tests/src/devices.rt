//! A source over a reader that fails, and a sink over a writer that takes no more.

use crate::shown::shown;
use cil_stream::{ReaderSource, Sink, Source, WriterSink, write_all};
use std::alloc::Global;
use std::io;
use std::io::{ErrorKind, Read, Write};

// A reader of memory, which fails once it gave so many bytes.
#[derive(Drop)]
struct Tape<'a> {
    left: &'a [u8],
    limit: usize,
}

impl<'a> Read for Tape<'a> {
    fn read(&mut self, buffer: &mut [u8]) -> io::Result<usize> {
        if self.limit == 0 {
            return Err(io::Error::from(ErrorKind::ConnectionReset));
        }
        let n = self.left.len().min(buffer.len()).min(self.limit);
        buffer[..n].copy_from_slice(&self.left[..n]);
        self.left = &self.left[n..];
        self.limit -= n;
        Ok(n)
    }
}

// A writer that takes so many bytes, and then none.
#[derive(Drop)]
struct Page<'a> {
    written: &'a mut Vec<u8>,
    limit: usize,
}

impl<'a> Write for Page<'a> {
    fn write(&mut self, piece: &[u8]) -> io::Result<usize> {
        let n = piece.len().min(self.limit);
        if self.written.extend_from_slice(&piece[..n]).is_err() {
            return Err(io::Error::from(ErrorKind::OutOfMemory));
        }
        self.limit -= n;
        Ok(n)
    }

    fn flush(&mut self) -> io::Result<()> {
        Ok(())
    }
}

// How many bytes a source gives in three calls for three bytes, or nothing where it fails, over a reader of four bytes that fails after
// so many.
const TAKEN: &[(usize, &[Option<usize>])] = &[
    (9, &[Some(3), Some(1), Some(0)]),
    (4, &[Some(3), Some(1), None]),
    (2, &[Some(2), None, None]),
];

fn taken(limit: usize) -> [Option<usize>; 3] {
    let mut source = ReaderSource::new(Tape {
        left: b"abcd",
        limit,
    });
    let mut buffer = [0; 3];
    [
        source.take(&mut buffer).ok(),
        source.take(&mut buffer).ok(),
        source.take(&mut buffer).ok(),
    ]
}

// How many bytes a writer takes, whether it takes four, and what it has of them.
const PUT: &[(usize, bool, &str)] = &[(9, true, "abcd"), (4, true, "abcd"), (2, false, "ab")];

// Whether a writer is given four bytes so.
fn is_put(alloc: Global, limit: usize, all: bool, want: &str) -> bool {
    let mut written = Vec::new(alloc);
    let put = {
        let mut sink = WriterSink::new(Page {
            written: &mut written,
            limit,
        });
        write_all(&mut sink, b"abcd").is_ok() && sink.flush().is_ok()
    };
    put == all && shown(written.as_slice()) == want
}

#[test]
fn readers_and_writers_that_fail(rt: HostRuntime) {
    for (limit, want) in TAKEN {
        let same = taken(*limit).as_slice() == *want;
        assert!(rt; same);
    }
    for (limit, all, want) in PUT {
        let same = is_put(rt.alloc(), *limit, *all, want);
        assert!(rt; same);
    }
}
