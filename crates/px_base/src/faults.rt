use crate::sequences::Chars;
use std::alloc::{AllocError, AllocFailed};

/// The kind of a fault: those of Python first, then the two of this language.
#[derive(Clone, Copy, PartialEq, Eq)]
pub enum Kind {
    IndexError,
    ValueError,
    ZeroDivisionError,
    OverflowError,
    TypeError,
    KeyError,
    EOFError,
    NameError,
    UnboundLocalError,
    AttributeError,
    RuntimeError,
    RecursionError,
    OverlapError,
    LimitError,
}

/// What a fault says behind its kind.
#[derive(Drop)]
pub enum Said {
    /// The text of this row, 1 to 34, of the table of fault texts.
    Row(u8),
    /// The axis of a view, from 0, at which an index or a step is wrong.
    Axis(u8),
    /// A text of the module's own, or the key that a dict lacks.
    Own(Chars),
}

/// A fault that a running module raises.
#[derive(Drop)]
pub struct Fault {
    pub kind: Kind,
    pub said: Said,
}

/// Why a step of a running module gives no result.
#[derive(Drop)]
pub enum StepTrouble {
    Raised(Fault),
    NoMemory,
}

impl From<AllocError> for StepTrouble {
    ghost use Rattle.std.specs.Prelude.{◌≡◌};
    ghost use Rattle.px_base.specs.declared.faults.StepTrouble.TheVariants.{NoMemory};

    ghost from_gives = { λ _ e. e ≡ NoMemory };

    fn from(_: AllocError) -> StepTrouble {
        StepTrouble::NoMemory
    }
}

impl<T: Drop> From<AllocFailed<T>> for StepTrouble {
    ghost use Rattle.std.specs.Prelude.{◌≡◌};
    ghost use Rattle.px_base.specs.declared.faults.StepTrouble.TheVariants.{NoMemory};

    ghost from_gives = { λ _ e. e ≡ NoMemory };

    fn from(_: AllocFailed<T>) -> StepTrouble {
        StepTrouble::NoMemory
    }
}
