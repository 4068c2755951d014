ghost use Rattle.std.specs.Prelude.{◌≡◌};
ghost use Rattle.java_resolve.specs.declared.fault.AskFault.TheVariants.{NoMemory};

use java_tree::{Text, TypeId};
use std::alloc::{AllocError, AllocFailed};
use thiserror::Error;

/// Why a question got no answer.
#[derive(Debug, Drop, Error)]
pub enum AskFault {
    #[error("out of memory")]
    NoMemory,
    /// The member types of this name of a type aren't known yet.
    #[error("not known yet")]
    Unknown(TypeId, Text),
}

impl From<AllocError> for AskFault {
    ghost from_gives = { λ _ e. e ≡ NoMemory };

    fn from(_e: AllocError) -> AskFault {
        AskFault::NoMemory
    }
}

impl<T: Drop> From<AllocFailed<T>> for AskFault {
    ghost from_gives = { λ _ e. e ≡ NoMemory };

    fn from(_e: AllocFailed<T>) -> AskFault {
        AskFault::NoMemory
    }
}
