ghost use Rattle.std.specs.Prelude.{◌≡◌};
ghost use Rattle.java_scan.specs.declared.fault.ScanFault.TheVariants.{NoMemory};

use std::alloc::{AllocError, AllocFailed};
use thiserror::Error;

/// Why a text was not scanned. A place is a byte of the text.
#[derive(Debug, Drop, Error)]
pub enum ScanFault {
    /// A Unicode escape (JLS 3.3) has no four hexadecimal digits.
    #[error("bad Unicode escape at byte {0}")]
    BadEscape(u32),
    /// A character begins no input element, or stands wrong in a literal.
    #[error("bad character at byte {0}")]
    BadChar(u32),
    /// The comment or literal that begins here doesn't end.
    #[error("unclosed at byte {0}")]
    Unclosed(u32),
    #[error("out of memory")]
    NoMemory,
}

impl From<AllocError> for ScanFault {
    ghost from_gives = { λ _ e. e ≡ NoMemory };

    fn from(_e: AllocError) -> ScanFault {
        ScanFault::NoMemory
    }
}

impl<T: Drop> From<AllocFailed<T>> for ScanFault {
    ghost from_gives = { λ _ e. e ≡ NoMemory };

    fn from(_e: AllocFailed<T>) -> ScanFault {
        ScanFault::NoMemory
    }
}
