ghost use Rattle.std.specs.Prelude.{◌≡◌};
ghost use Rattle.java_expr_reading.specs.declared.fault.ExprFault.TheVariants as expr_faults;
ghost use Rattle.java_unit_reading.specs.Gives.{unit_fault};
ghost use Rattle.java_unit_reading.specs.declared.fault.UnitFault.TheVariants.{NoMemory};

use java_expr_reading::ExprFault;
use std::alloc::{AllocError, AllocFailed};
use thiserror::Error;

/// Why no tree was read.
#[derive(Debug, Drop, Error)]
pub enum UnitFault {
    /// No tree stands there.
    #[error("no tree stands there")]
    NoTree,
    #[error("out of memory")]
    NoMemory,
}

impl From<AllocError> for UnitFault {
    ghost from_gives = { λ _ e. e ≡ NoMemory };

    fn from(_e: AllocError) -> UnitFault {
        UnitFault::NoMemory
    }
}

impl<T: Drop> From<AllocFailed<T>> for UnitFault {
    ghost from_gives = { λ _ e. e ≡ NoMemory };

    fn from(_e: AllocFailed<T>) -> UnitFault {
        UnitFault::NoMemory
    }
}

impl From<ExprFault> for UnitFault {
    ghost from_gives = { λ f e. e ≡ unit_fault f };

    fn from(e: ExprFault) -> UnitFault {
        match e {
            ExprFault::NoExpr => UnitFault::NoTree,
            ExprFault::NoMemory => UnitFault::NoMemory,
        }
    }
}
