// Reading ahead with no heap: the reader holds the places itself.
ghost use Rattle.std.specs.Prelude.{◌≡◌, ◌≤◌, OnOk};
ghost use Rattle.std.specs.Io.KnownBytes.{Keeps, IsAtEnd};

use std::io;
use std::io::Read;

// How much is asked for at once.
const PLACES: usize = 8192;

// `places[start..end]` is read and not yet given.
#[derive(Drop)]
pub struct Ahead<R> {
    inner: R,
    places: [u8; PLACES],
    start: usize,
    end: usize,
    ghost ordered: { start ≤ end },
    ghost within: { end ≤ 8192 },
}

impl<R: Read> Ahead<R> {
    ghost use Rattle.record.specs.Reading.{left};

    pub(crate) fn new(inner: R) -> Ahead<R>
        ensures { left R.remaining result ≡ R.remaining inner }
    {
        Ahead {
            inner,
            places: [0; PLACES],
            start: 0,
            end: 0,
        }
    }

    // Where nothing is left to give, reads once.
    fn fill(&mut self) -> io::Result<()>
        ensures bytes { Keeps (left R.remaining self.old) (left R.remaining self.new) }
        ensures end { OnOk result (self.new.end ≤ self.new.start → IsAtEnd (R.remaining self.new.inner)) }
    {
        if self.start < self.end {
            return Ok(());
        }
        self.start = 0;
        self.end = 0;
        let n = self.inner.read(&mut self.places)?;
        self.end = n;
        Ok(())
    }
}

impl<R: Read> Read for Ahead<R> {
    ghost use Rattle.record.specs.Reading.{left};

    ghost remaining = { left R.remaining };

    // One byte at a time is all that a record asks for.
    fn read(&mut self, buf: &mut [u8]) -> io::Result<usize> {
        if buf.is_empty() {
            return Ok(0);
        }
        self.fill()?;
        if self.start >= self.end {
            return Ok(0);
        }
        buf[0] = self.places[self.start];
        self.start += 1;
        Ok(1)
    }
}
