ghost use Rattle.std.specs.Prelude.{◌≡◌};
ghost use Rattle.java_expr_reading.specs.declared.fault.ExprFault.TheVariants.{NoMemory};

use std::alloc::{AllocError, AllocFailed};
use thiserror::Error;

/// Why no expression was read.
#[derive(Debug, Drop, Error)]
pub enum ExprFault {
    /// No expression stands there.
    #[error("no expression stands there")]
    NoExpr,
    #[error("out of memory")]
    NoMemory,
}

impl From<AllocError> for ExprFault {
    ghost from_gives = { λ _ e. e ≡ NoMemory };

    fn from(_e: AllocError) -> ExprFault {
        ExprFault::NoMemory
    }
}

impl<T: Drop> From<AllocFailed<T>> for ExprFault {
    ghost from_gives = { λ _ e. e ≡ NoMemory };

    fn from(_e: AllocFailed<T>) -> ExprFault {
        ExprFault::NoMemory
    }
}
