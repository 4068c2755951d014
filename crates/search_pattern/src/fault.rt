ghost use Rattle.std.specs.Prelude.{◌≡◌};
ghost use Rattle.search_pattern.specs.declared.fault.PatternFault.TheVariants.{NoMemory};

use std::alloc::AllocError;
use thiserror::Error;

/// Why a text is no pattern.
#[derive(Debug, Drop, Error)]
pub enum PatternFault {
    /// The limit isn't one of this kind of element: implementors are of types, reads and writes of fields.
    #[error("wrong limit")]
    WrongLimit,
    /// Parentheses stand wrong, as this byte of the text shows.
    #[error("bad parentheses at byte {0}")]
    BadParens(usize),
    /// The name is empty, a qualification that is given, or one of several parameters.
    #[error("empty part")]
    Empty,
    #[error("out of memory")]
    NoMemory,
}

impl From<AllocError> for PatternFault {
    ghost from_gives = { λ _ e. e ≡ NoMemory };

    fn from(_e: AllocError) -> PatternFault {
        PatternFault::NoMemory
    }
}
