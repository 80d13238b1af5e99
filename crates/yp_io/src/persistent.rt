//! Readers and writers of std that a signal doesn't stop.
ghost use Rattle.std.specs.Prelude.{◌≡◌, ◌≢◌, IfErr};
ghost use Rattle.std.specs.Io.{ReadsAtMost, WritesAtMost};
ghost use Rattle.std.specs.Io.KnownBytes.{ReadConsumes, WriteAppends};
ghost use Rattle.std.specs.IoError.{error_kind};

use std::io::{Error, ErrorKind, Read, Result, Write};

/// A reader or writer whose calls are made again where a signal interrupted them.
#[derive(Drop)]
pub struct Persistent<T> {
    inner: T,
}

impl<R: Read> Persistent<R> {
    /// A reader over this one.
    pub fn reader(inner: R) -> Persistent<R>
        ensures { ⟦<Persistent<R> as Read>⟧.remaining result ≡ R.remaining inner }
    {
        Persistent { inner }
    }
}

impl<W: Write> Persistent<W> {
    /// A writer over this one.
    pub fn writer(inner: W) -> Persistent<W>
        ensures { ⟦<Persistent<W> as Write>⟧.contents result ≡ W.contents inner }
    {
        Persistent { inner }
    }
}

impl<R: Read> Read for Persistent<R> {
    ghost remaining = { λ s. R.remaining s.inner };

    fn read(&mut self, buf: &mut [u8]) -> Result<usize>
        ensures bound { ReadsAtMost result buf.new }
        ensures bytes { ReadConsumes (⟦<Persistent<R> as Read>⟧.remaining self.old)
            (⟦<Persistent<R> as Read>⟧.remaining self.new) result buf.new }
        ensures retried { IfErr result (λ e. error_kind e ≢ ErrorKind.Interrupted) }
    {
        for _ in 0..u64::MAX {
            match self.inner.read(buf) {
                Err(error) if error.kind() == ErrorKind::Interrupted => {}
                answer => return answer,
            }
        }
        Err(Error::from(ErrorKind::TimedOut))
    }
}

impl<W: Write> Write for Persistent<W> {
    ghost contents = { λ s. W.contents s.inner };

    fn write(&mut self, buf: &[u8]) -> Result<usize>
        ensures bound { WritesAtMost result buf.now }
        ensures bytes { WriteAppends (⟦<Persistent<W> as Write>⟧.contents self.old)
            (⟦<Persistent<W> as Write>⟧.contents self.new) result buf.now }
        ensures retried { IfErr result (λ e. error_kind e ≢ ErrorKind.Interrupted) }
    {
        for _ in 0..u64::MAX {
            match self.inner.write(buf) {
                Err(error) if error.kind() == ErrorKind::Interrupted => {}
                answer => return answer,
            }
        }
        Err(Error::from(ErrorKind::TimedOut))
    }

    fn flush(&mut self) -> Result<()> {
        self.inner.flush()
    }
}
