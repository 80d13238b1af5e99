//! Reading a source to its end, and writing a list of bytes.
ghost use Rattle.std.specs.Prelude.{◌≡◌, ℕ, ◌+◌, ◌<◌, ◌++◌, length, take, drop, Some, IfSome, IfOk, OnOk, OnErr};
ghost use Rattle.yp_io.specs.Whole.{ReadsWhole, IsLimited, LeavesRest, Appends, AppendsPrefix};
ghost use Rattle.yp_io.specs.Faults.{ReadCause, WriteCause};

use crate::sink::{Put, Sink};
use crate::source::{Got, Source};
use std::alloc::{AllocError, Global};
use yp_base::series::Series;

/// Bytes, in order.
pub type Bytes = Series<u8>;

/// What was read of a source: all its bytes, or one more than the limit where it had more.
#[derive(Drop)]
pub struct Whole {
    pub bytes: Bytes,
    /// Whether more bytes were left than the limit.
    pub over: bool,
}

/// Why a source wasn't read to its end.
#[derive(Debug, Drop, thiserror::Error)]
pub enum ReadError {
    /// A read failed: the source's count of faults rose.
    #[error("reading failed")]
    Fault,
    /// Memory ran out.
    #[error("no memory")]
    Memory,
}

impl From<AllocError> for ReadError {
    ghost use Rattle.std.specs.Prelude.{◌≡◌};
    ghost use Rattle.yp_io.specs.declared.whole.ReadError.TheVariants.{Memory};

    ghost from_gives = { λ _ e. e ≡ Memory };

    fn from(_error: AllocError) -> ReadError {
        ReadError::Memory
    }
}

/// A write failed: the sink's count of faults rose.
#[derive(Debug, Clone, Copy, PartialEq, Eq, Drop, thiserror::Error)]
#[error("writing failed")]
pub struct WriteFault;

/// Reads a source to its end, or one byte past the limit where more bytes were left; `over` is true
/// exactly there, so what was read tells it also of a source that doesn't tell its bytes. `Fault` comes only where the source's count of faults rose, and a rise always gives
/// it. After `Fault` and `Memory` some of the first bytes were taken and are gone.
pub fn read_whole<S: Source>(
    alloc: Global,
    source: &mut S,
    limit: usize,
) -> Result<Whole, ReadError>
    ensures whole { IfOk result (λ whole. IfSome (S.left source.old)
        (λ before. ReadsWhole limit before (S.left source.new) whole.bytes whole.over)) }
    ensures limited { IfOk result (λ whole. IsLimited limit whole.bytes whole.over) }
    ensures part { OnErr result (IfSome (S.left source.old)
        (λ before. LeavesRest before (S.left source.new))) }
    ensures cause { ReadCause (S.faults source.old) (S.faults source.new) result }
{
    let mut bytes = Vec::new(alloc);
    let mut piece = [0u8; 4096];
    while bytes.len() <= limit {
        let room = (limit - bytes.len()).saturating_add(1).min(4096);
        let into = &mut piece[..room];
        match source.read(into) {
            Got::Bytes(count) => bytes.extend_from_slice(&into[..count])?,
            Got::End => {
                return Ok(Whole {
                    bytes: Series::from_vec(bytes),
                    over: false,
                });
            }
            Got::Failed => return Err(ReadError::Fault),
        }
    }
    Ok(Whole {
        bytes: Series::from_vec(bytes),
        over: true,
    })
}

/// Writes all the bytes, and takes no memory. `WriteFault` comes only where the sink's count of faults
/// rose, and a rise always gives it; the first so many of the bytes were then written.
pub fn write_whole<K: Sink>(sink: &mut K, bytes: &[u8]) -> Result<(), WriteFault>
    ensures whole { OnOk result (IfSome (K.written sink.old)
        (λ before. Appends before (K.written sink.new) bytes.now)) }
    ensures prefix { OnErr result (IfSome (K.written sink.old)
        (λ before. AppendsPrefix before (K.written sink.new) bytes.now)) }
    ensures cause { WriteCause (K.faults sink.old) (K.faults sink.new) result }
{
    let mut done = 0;
    while done < bytes.len() {
        let (_, rest) = bytes.split_at(done);
        match sink.write(rest) {
            Put::Took(count) => done += count,
            Put::Failed => return Err(WriteFault),
        }
    }
    Ok(())
}
