ghost use Rattle.std.specs.Prelude.{◌≡◌, [], IfOk};

use sqlite_items::Items;
use std::alloc::{AllocError, Global};

/// An empty list with room for one element, for the lists that seldom hold more. (An `Items::new` takes room for four with its first.)
///
/// # Errors
/// `AllocError` where there is no memory for it.
pub fn room_for_one<T>(alloc: Global) -> Result<Items<T>, AllocError>
    ensures { IfOk result (λ list. list ≡ []) }
{
    Ok(Items::from_vec(Vec::with_capacity(alloc, 1)?))
}
