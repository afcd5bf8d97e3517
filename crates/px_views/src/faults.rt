ghost use Rattle.std.specs.Prelude.{◌≡◌};
ghost use Rattle.px_model.specs.Views.{index_fault, step_fault};

use px_base::{Fault, Kind, Said};

/// The fault of an index that is out of range on an axis.
pub fn index_error(axis: u8) -> Fault
    ensures { result ≡ index_fault axis }
{
    Fault {
        kind: Kind::IndexError,
        said: Said::Axis(axis),
    }
}

/// The fault of a step of 0 on an axis.
pub fn step_error(axis: u8) -> Fault
    ensures { result ≡ step_fault axis }
{
    Fault {
        kind: Kind::ValueError,
        said: Said::Axis(axis),
    }
}
