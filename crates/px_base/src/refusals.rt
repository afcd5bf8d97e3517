use std::alloc::{AllocError, AllocFailed};

/// A place in a text: its line and its column in characters, both from 1.
#[derive(Clone, Copy, PartialEq, Eq)]
pub struct Span {
    pub line: u32,
    pub column: u32,
}

/// A broken rule of the language: its number, E1 to E28, and its place.
#[derive(Clone, Copy, PartialEq, Eq)]
pub struct Refusal {
    pub number: u8,
    pub line: u32,
    pub column: u32,
}

/// There was no memory for the answer.
#[derive(Clone, Copy, PartialEq, Eq)]
pub struct NoMemory;

impl From<AllocError> for NoMemory {
    fn from(_: AllocError) -> NoMemory {
        NoMemory
    }
}

impl<T: Drop> From<AllocFailed<T>> for NoMemory {
    fn from(_: AllocFailed<T>) -> NoMemory {
        NoMemory
    }
}

/// A file or a stream of the outside failed.
#[derive(Clone, Copy, PartialEq, Eq)]
pub struct Failed;

/// Why a phase of the compiler gives no result.
#[derive(Clone, Copy, PartialEq, Eq)]
pub enum Trouble {
    /// The text breaks this rule, and none that comes before it.
    Refused(Refusal),
    NoMemory,
}

impl From<AllocError> for Trouble {
    ghost use Rattle.std.specs.Prelude.{◌≡◌};
    ghost use Rattle.px_base.specs.declared.refusals.Trouble.TheVariants.{NoMemory};

    ghost from_gives = { λ _ e. e ≡ NoMemory };

    fn from(_: AllocError) -> Trouble {
        Trouble::NoMemory
    }
}

impl<T: Drop> From<AllocFailed<T>> for Trouble {
    ghost use Rattle.std.specs.Prelude.{◌≡◌};
    ghost use Rattle.px_base.specs.declared.refusals.Trouble.TheVariants.{NoMemory};

    ghost from_gives = { λ _ e. e ≡ NoMemory };

    fn from(_: AllocFailed<T>) -> Trouble {
        Trouble::NoMemory
    }
}

impl From<NoMemory> for Trouble {
    ghost use Rattle.std.specs.Prelude.{◌≡◌};
    ghost use Rattle.px_base.specs.declared.refusals.Trouble.TheVariants.{NoMemory};

    ghost from_gives = { λ _ e. e ≡ NoMemory };

    fn from(_: NoMemory) -> Trouble {
        Trouble::NoMemory
    }
}
