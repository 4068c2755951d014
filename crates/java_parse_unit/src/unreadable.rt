ghost use Rattle.std.specs.Prelude.{◌≡◌};
ghost use Rattle.java_parse_unit.specs.Parsed.{unreadable_by, unreadable_as};
ghost use Rattle.java_parse_unit.specs.declared.unreadable.Unreadable.TheVariants.{NoMemory};

use java_scan::ScanFault;
use java_unit_reading::UnitFault;
use std::alloc::AllocError;
use thiserror::Error;

/// Why a text has no tree.
#[derive(Debug, Drop, Error)]
pub enum Unreadable {
    /// The text has no tokens (JLS 3). Never `ScanFault::NoMemory`.
    #[error("{0}")]
    Scan(ScanFault),
    /// The tokens are no compilation unit (JLS 7.3).
    #[error("no compilation unit")]
    NoTree,
    #[error("out of memory")]
    NoMemory,
}

impl From<ScanFault> for Unreadable {
    ghost from_gives = { λ f u. u ≡ unreadable_by f };

    fn from(fault: ScanFault) -> Unreadable {
        match fault {
            ScanFault::NoMemory => Unreadable::NoMemory,
            fault => Unreadable::Scan(fault),
        }
    }
}

impl From<UnitFault> for Unreadable {
    ghost from_gives = { λ f u. u ≡ unreadable_as f };

    fn from(fault: UnitFault) -> Unreadable {
        match fault {
            UnitFault::NoTree => Unreadable::NoTree,
            UnitFault::NoMemory => Unreadable::NoMemory,
        }
    }
}

impl From<AllocError> for Unreadable {
    ghost from_gives = { λ _ u. u ≡ NoMemory };

    fn from(_e: AllocError) -> Unreadable {
        Unreadable::NoMemory
    }
}
