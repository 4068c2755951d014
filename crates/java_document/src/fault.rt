ghost use Rattle.std.specs.Prelude.{◌≡◌};
ghost use Rattle.java_document.specs.declared.fault.DocFault.TheVariants.{NoMemory};

use std::alloc::AllocError;
use thiserror::Error;

/// Why there is no document.
#[derive(Debug, Drop, Error)]
pub enum DocFault {
    /// The path doesn't end in `.java`.
    #[error("not a Java source")]
    NotSource,
    /// The text has too many bytes.
    #[error("text too long")]
    TooLong,
    #[error("out of memory")]
    NoMemory,
}

impl From<AllocError> for DocFault {
    ghost from_gives = { λ _ e. e ≡ NoMemory };

    fn from(_e: AllocError) -> DocFault {
        DocFault::NoMemory
    }
}
