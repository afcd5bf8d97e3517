ghost use Rattle.std.specs.Prelude.{◌≡◌, ℕ, ◌<◌, ◌≤◌, List, Option, length, IfOk, IfSome, OnErr, OnOk, IsErrOf};
ghost use Rattle.px_base.specs.Outside.{Rose, Hands, ModuleIsCalm, Reads, Takes, WriteIsCalm, handed_limit};

use crate::refusals::Failed;
use crate::sequences::Bytes;
use std::alloc::{AllocError, AllocFailed, Global};
use std::marker::Sync;
use thiserror::Error;

/// The greatest number of bytes of one module that a library hands over.
pub(crate) const HANDED_LIMIT: usize = 1_048_577;

/// Where modules are found by their names.
pub trait Library {
    /// The bytes that each name stands for, or `None` where the library doesn't tell.
    ghost holds: { Self → Option (List ℕ → Option (List ℕ)) };

    /// How often the library has failed: the count rises at calls that fail alone, and stands still at 2^64 - 1.
    ghost faults: { Self → ℕ };

    /// The bytes of the module of this name, at most its first 1,048,577, or `None` where the name isn't held.
    ///
    /// # Errors
    /// `Failed` where the module can't be read, `NoMemory` where there is no memory for it.
    fn module(&mut self, alloc: Global, name: &str) -> Result<Option<Bytes>, LibraryTrouble>
        ensures given { Hands (holds self.old) name.now result }
        ensures short { IfOk result (λ given. IfSome given (λ bytes. length bytes ≤ handed_limit)) }
        ensures map { holds self.new ≡ holds self.old }
        ensures later { faults self.old ≤ faults self.new }
        ensures cause { IsErrOf result LibraryTrouble.Failed → Rose (faults self.old) (faults self.new) }
        ensures calm { ModuleIsCalm (faults self.old) (faults self.new) result };
}

/// A stream of bytes that is read.
pub trait Source {
    /// The bytes that are left, or `None` where the source doesn't tell.
    ghost left: { Self → Option (List ℕ) };

    /// How often the source has failed: the count rises at calls that fail alone, and stands still at 2^64 - 1.
    ghost faults: { Self → ℕ };

    /// Puts the next bytes at the buffer's start and returns how many: 0 for a buffer with room only at the end.
    ///
    /// # Errors
    /// `Failed` where the source fails.
    fn read(&mut self, into: &mut [u8]) -> Result<usize, Failed>
        ensures bound { IfOk result (λ n. n ≤ length into.old) }
        ensures bytes { Reads (left self.old) (left self.new) result into.new }
        ensures later { faults self.old ≤ faults self.new }
        ensures cause { OnErr result (Rose (faults self.old) (faults self.new)) }
        ensures calm { OnOk result (faults self.new ≡ faults self.old) };
}

/// A stream of bytes that is written.
pub trait Sink {
    /// The bytes that the sink has taken, or `None` where it doesn't tell.
    ghost taken: { Self → Option (List ℕ) };

    /// How often the sink has failed: the count rises at calls that fail alone, and stands still at 2^64 - 1.
    ghost faults: { Self → ℕ };

    /// Takes the first bytes of the piece and returns how many. To take none of a piece that has some is a fault.
    ///
    /// # Errors
    /// `Failed` where the sink fails, `NoMemory` where it has no memory; some front of the piece may be taken.
    fn write(&mut self, piece: &[u8]) -> Result<usize, SinkTrouble>
        ensures bound { IfOk result (λ n. n ≤ length piece.now) }
        ensures bytes { Takes (taken self.old) (taken self.new) result piece.now }
        ensures later { faults self.old ≤ faults self.new }
        ensures cause { IsErrOf result SinkTrouble.Failed → Rose (faults self.old) (faults self.new) }
        ensures stall { result ≡ Ok 0 → 0 < length piece.now → Rose (faults self.old) (faults self.new) }
        ensures calm { WriteIsCalm (faults self.old) (faults self.new) piece.now result };
}

/// Where a test may hold a member of a team for a while. The program's own gate is always open.
pub trait Gate: Sync {
    /// Is called by each member of a team at each of these points, with the member's number.
    fn at(&self, member: u32, point: Point);
}

/// A point in the work of a member of a team.
#[derive(Clone, Copy, PartialEq, Eq)]
pub enum Point {
    /// Before its first instruction.
    Begins,
    /// After it took a chunk of iterations.
    Claimed,
    /// After it got the interpreter lock.
    Enters,
    /// Before it gives the interpreter lock back.
    Leaves,
    /// After its last instruction.
    Ends,
}

/// Why a library gives no answer.
#[derive(Clone, Copy, Debug, PartialEq, Eq, Error)]
pub enum LibraryTrouble {
    #[error("the module can't be read")]
    Failed,
    #[error("out of memory")]
    NoMemory,
}

impl From<AllocError> for LibraryTrouble {
    ghost use Rattle.std.specs.Prelude.{◌≡◌};
    ghost use Rattle.px_base.specs.declared.outside.LibraryTrouble.TheVariants.{NoMemory};

    ghost from_gives = { λ _ e. e ≡ NoMemory };

    fn from(_: AllocError) -> LibraryTrouble {
        LibraryTrouble::NoMemory
    }
}

/// Why a sink didn't take a piece whole.
#[derive(Clone, Copy, Debug, PartialEq, Eq, Error)]
pub enum SinkTrouble {
    #[error("the bytes can't be written")]
    Failed,
    #[error("out of memory")]
    NoMemory,
}

impl From<AllocError> for SinkTrouble {
    ghost use Rattle.std.specs.Prelude.{◌≡◌};
    ghost use Rattle.px_base.specs.declared.outside.SinkTrouble.TheVariants.{NoMemory};

    ghost from_gives = { λ _ e. e ≡ NoMemory };

    fn from(_: AllocError) -> SinkTrouble {
        SinkTrouble::NoMemory
    }
}

impl<T: Drop> From<AllocFailed<T>> for SinkTrouble {
    ghost use Rattle.std.specs.Prelude.{◌≡◌};
    ghost use Rattle.px_base.specs.declared.outside.SinkTrouble.TheVariants.{NoMemory};

    ghost from_gives = { λ _ e. e ≡ NoMemory };

    fn from(_: AllocFailed<T>) -> SinkTrouble {
        SinkTrouble::NoMemory
    }
}
