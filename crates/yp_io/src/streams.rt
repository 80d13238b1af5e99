//! The readers and writers of std as sources and sinks. Where std tells no bytes of one, as of a file
//! or a socket, no contract says more of it than that its faults are counted.
ghost use Rattle.std.specs.Prelude.{◌≡◌, ℕ, List};

use crate::sink::{Put, Sink};
use crate::source::{Got, Source};
use std::io::{Read, Write};

/// A reader of std. It tells the bytes that the reader tells, and counts each `Err`.
#[derive(Drop)]
pub struct StdSource<R> {
    inner: R,
    count: u64,
}

impl<R: Read> StdSource<R> {
    /// A source over this reader.
    pub fn new(inner: R) -> StdSource<R>
        ensures left { ⟦<StdSource<R> as Source>⟧.left result ≡ R.remaining inner }
        ensures faults { ⟦<StdSource<R> as Source>⟧.faults result ≡ 0 }
    {
        StdSource { inner, count: 0 }
    }
}

impl<R: Read> Source for StdSource<R> {
    ghost left = { λ s. R.remaining s.inner };

    ghost faults = { λ s. s.count };

    fn read(&mut self, into: &mut [u8]) -> Got {
        match self.inner.read(into) {
            Ok(0) => Got::End,
            Ok(count) => Got::Bytes(count),
            Err(_error) => {
                self.count = self.count.saturating_add(1);
                Got::Failed
            }
        }
    }
}

/// A writer of std. It tells the bytes that the writer tells, and counts each `Err` and each write that
/// takes nothing of a piece that isn't empty.
#[derive(Drop)]
pub struct StdSink<W> {
    inner: W,
    count: u64,
}

impl<W: Write> StdSink<W> {
    /// A sink over this writer.
    pub fn new(inner: W) -> StdSink<W>
        ensures written { ⟦<StdSink<W> as Sink>⟧.written result ≡ W.contents inner }
        ensures faults { ⟦<StdSink<W> as Sink>⟧.faults result ≡ 0 }
    {
        StdSink { inner, count: 0 }
    }
}

impl<W: Write> Sink for StdSink<W> {
    ghost written = { λ s. W.contents s.inner };

    ghost faults = { λ s. s.count };

    fn write(&mut self, piece: &[u8]) -> Put {
        match self.inner.write(piece) {
            Ok(count) if count > 0 || piece.is_empty() => Put::Took(count),
            _ => {
                self.count = self.count.saturating_add(1);
                Put::Failed
            }
        }
    }
}
