//! `Counted`: wraps a reader or a writer, and counts its failed calls.
ghost use Rattle.std.specs.Prelude.{◌≡◌, false, length};
ghost use Rattle.std.specs.Io.{ReadsAtMost, WritesAtMost};
ghost use Rattle.std.specs.Io.KnownBytes.{Keeps, ReadConsumes, WriteAppends};
ghost use Rattle.cbor_view.specs.Counting.{inner_of, failures_of, moved_none, one_more};
ghost use Rattle.cbor_view.specs.Counting.{failures_after, moves_none};

use std::io::{Read, Result, Write};

/// A reader or a writer that counts its failed calls. For contracts it also records whether the
/// last read or write asked for at least one byte, did not fail, and moved none. Then a reader is
/// at the end of its input, and a writer takes no more bytes.
#[derive(Drop)]
pub struct Counted<T> {
    inner: T,
    failures: u64,
    moved_none: bool,
}

impl<T> Counted<T> {
    /// Wraps a reader or a writer, with no call made yet.
    pub fn new(inner: T) -> Counted<T>
        ensures inner { inner_of result ≡ inner }
        ensures failures { failures_of result ≡ 0 }
        ensures unmarked { moved_none result ≡ false }
    {
        Counted {
            inner,
            failures: 0,
            moved_none: false,
        }
    }

    /// Returns the reader or the writer.
    pub fn into_inner(self) -> T
        ensures { result ≡ inner_of self }
    {
        self.inner
    }

    /// Returns how many calls failed, including interrupted ones. The count stays at `u64::MAX`.
    pub fn failures(&self) -> u64
        ensures { result ≡ failures_of self.now }
    {
        self.failures
    }

    /// Counts a failure.
    fn fail(&mut self)
        ensures inner { inner_of self.new ≡ inner_of self.old }
        ensures failures { failures_of self.new ≡ one_more (failures_of self.old) }
        ensures mark { moved_none self.new ≡ moved_none self.old }
    {
        self.failures = self.failures.saturating_add(1);
    }

    /// Records a read or write of `asked` bytes.
    fn note(&mut self, asked: usize, answer: &Result<usize>)
        ensures inner { inner_of self.new ≡ inner_of self.old }
        ensures failures { failures_of self.new ≡ failures_after (failures_of self.old) answer.now }
        ensures mark { moved_none self.new ≡ moves_none asked answer.now }
    {
        match answer {
            Ok(moved) => self.moved_none = asked > 0 && *moved == 0,
            Err(_) => {
                self.moved_none = false;
                self.fail();
            }
        }
    }
}

impl<R: Read> Read for Counted<R> {
    ghost remaining = { λ counted. R.remaining (inner_of counted) };

    fn read(&mut self, buf: &mut [u8]) -> Result<usize>
        ensures bound { ReadsAtMost result buf.new }
        ensures bytes { ReadConsumes (R.remaining (inner_of self.old))
            (R.remaining (inner_of self.new)) result buf.new }
        ensures failures { failures_of self.new ≡ failures_after (failures_of self.old) result }
        ensures mark { moved_none self.new ≡ moves_none (length buf.old) result }
    {
        let answer = self.inner.read(buf);
        self.note(buf.len(), &answer);
        answer
    }
}

impl<W: Write> Write for Counted<W> {
    ghost contents = { λ counted. W.contents (inner_of counted) };

    fn write(&mut self, buf: &[u8]) -> Result<usize>
        ensures bound { WritesAtMost result buf.now }
        ensures bytes { WriteAppends (W.contents (inner_of self.old))
            (W.contents (inner_of self.new)) result buf.now }
        ensures failures { failures_of self.new ≡ failures_after (failures_of self.old) result }
        ensures mark { moved_none self.new ≡ moves_none (length buf.now) result }
    {
        let answer = self.inner.write(buf);
        self.note(buf.len(), &answer);
        answer
    }

    fn flush(&mut self) -> Result<()>
        ensures bytes { Keeps (W.contents (inner_of self.old)) (W.contents (inner_of self.new)) }
        ensures failures { failures_of self.new ≡ failures_after (failures_of self.old) result }
        ensures mark { moved_none self.new ≡ moved_none self.old }
    {
        let answer = self.inner.flush();
        if answer.is_err() {
            self.fail();
        }
        answer
    }
}
