//! Why a case gives no answer.
ghost use Rattle.std.specs.Prelude.{◌≡◌, IfOk, Ok};

use std::alloc::{AllocError, AllocFailed};
use std::str::Utf8Error;
use yp_base::memory::NoMemory;

/// Why a line, or a case, gives no answer.
#[derive(Debug, Drop, Clone, Copy, thiserror::Error)]
pub enum CaseFault {
    /// The line isn't JSON.
    #[error("no JSON")]
    NotJson,
    /// It has no call beside its answer.
    #[error("no call")]
    NoCall,
    /// It has no answer.
    #[error("no answer")]
    NoAnswer,
    /// It names a call that isn't there.
    #[error("no such call")]
    NoSuchCall,
    /// An argument is missing, or isn't what the call takes.
    #[error("a bad argument")]
    BadArgument,
    /// Memory ran out.
    #[error("out of memory")]
    Memory,
}

/// What a case gives, or why it gives nothing.
pub type OrFault<T> = Result<T, CaseFault>;

/// What a library gives. Its fault is that of an argument.
pub fn or_bad<T, E: Drop>(given: Result<T, E>) -> OrFault<T>
    ensures { IfOk result (λ value. given ≡ Ok value) }
{
    match given {
        Ok(value) => Ok(value),
        Err(_) => Err(CaseFault::BadArgument),
    }
}

impl From<NoMemory> for CaseFault {
    fn from(_error: NoMemory) -> CaseFault {
        CaseFault::Memory
    }
}

impl From<AllocError> for CaseFault {
    fn from(_error: AllocError) -> CaseFault {
        CaseFault::Memory
    }
}

impl<T: Drop> From<AllocFailed<T>> for CaseFault {
    fn from(_error: AllocFailed<T>) -> CaseFault {
        CaseFault::Memory
    }
}

impl From<serde_json::Error> for CaseFault {
    fn from(_error: serde_json::Error) -> CaseFault {
        CaseFault::NotJson
    }
}

impl From<Utf8Error> for CaseFault {
    fn from(_error: Utf8Error) -> CaseFault {
        CaseFault::BadArgument
    }
}
