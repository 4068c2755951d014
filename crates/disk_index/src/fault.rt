ghost use Rattle.std.specs.Prelude.{◌≡◌};
ghost use Rattle.disk_index.specs.declared.fault.ReadFault.TheVariants.{Memory};
ghost use Rattle.disk_index.specs.declared.fault.EncodeFault.TheVariants as encode_faults;

use std::alloc::{AllocError, AllocFailed};
use thiserror::Error;

/// Why bytes are no index file.
#[derive(Clone, Copy, Debug, PartialEq, Eq, Drop, Error)]
pub enum FileFault {
    /// The file begins as one of the older format.
    #[error("an index file of an older format")]
    Old,
    /// The place in bytes of the first faulty field.
    #[error("a bad index file")]
    BadFile(u64),
    #[error("out of memory")]
    NoMemory,
}

/// Why entries and rows have no index file.
#[derive(Clone, Copy, Debug, PartialEq, Eq, Drop, Error)]
pub enum EncodeFault {
    /// How many bytes the file would have: more than `MAX_IMAGE`.
    #[error("an index file that is too long")]
    TooLong(u64),
    #[error("out of memory")]
    NoMemory,
}

impl From<AllocError> for EncodeFault {
    ghost from_gives = { λ _ e. e ≡ encode_faults.NoMemory };

    fn from(_e: AllocError) -> EncodeFault {
        EncodeFault::NoMemory
    }
}

/// Why a field wasn't read.
#[derive(Debug, Drop)]
pub(crate) enum ReadFault {
    Memory,
    /// How many bytes were left at the faulty field: none where the end cuts it off.
    Left(usize),
}

impl From<AllocError> for ReadFault {
    ghost from_gives = { λ _ e. e ≡ Memory };

    fn from(_e: AllocError) -> ReadFault {
        ReadFault::Memory
    }
}

impl<T: Drop> From<AllocFailed<T>> for ReadFault {
    ghost from_gives = { λ _ e. e ≡ Memory };

    fn from(_e: AllocFailed<T>) -> ReadFault {
        ReadFault::Memory
    }
}
