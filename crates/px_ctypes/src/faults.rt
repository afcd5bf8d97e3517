ghost use Rattle.std.specs.Prelude.{◌≡◌};
ghost use Rattle.px_ctypes.specs.Operators.{fault_of};

use px_base::{Fault, Kind, Said};

/// The fault with the text of this row.
pub(crate) fn fault(kind: Kind, row: u8) -> Fault
    ensures { result ≡ fault_of kind row }
{
    Fault {
        kind,
        said: Said::Row(row),
    }
}
