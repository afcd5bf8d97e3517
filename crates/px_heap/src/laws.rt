//! That the calls of a heap are steps of the store that it stands for, and which references are held after them, each as the contract
//! of a function that does nothing.
ghost use Rattle.std.specs.Prelude.{◌≡◌, ℕ, ◌+◌, ◌++◌, ◌∷◌, option_map};
ghost use Rattle.px_heap.specs.Answers.{HasNow, IsDropped, IsNew, holding, shared};
ghost use Rattle.px_heap.specs.Heaps.{AreHeld, AreLive, IsLive, inner_count, object_of};
ghost use Rattle.px_heap.specs.References.{references, times};
ghost use Rattle.px_heap.specs.Stores.{StandsFor, with_object, with_value_at};

use crate::heap::Heap;
use crate::values::{Serial, Serials, Value};
use px_model::Store;

/// To make an object is to put one behind the store's objects.
pub fn made_in_store(old: &Heap, new: &Heap, value: &Value, of: Serial, store: &Store)
    requires stands { StandsFor old.now store.now }
    requires made { IsNew old.now new.now value.now of }
    ensures { StandsFor new.now (with_object value.now store.now) }
{}

/// To count a reference more changes nothing in the store.
pub fn shared_in_store(old: &Heap, new: &Heap, of: Serial, store: &Store)
    requires stands { StandsFor old.now store.now }
    requires shared { HasNow old.now new.now of.number (option_map shared (object_of old.now of.number)) }
    ensures { StandsFor new.now store.now }
{}

/// To count a reference less, and to free objects by it, changes nothing in the store.
pub fn dropped_in_store(old: &Heap, new: &Heap, of: Serial, store: &Store)
    requires stands { StandsFor old.now store.now }
    requires dropped { IsDropped old.now new.now of.number }
    ensures { StandsFor new.now store.now }
{}

/// To give a live object another value is to do so in the store.
pub fn written_in_store(old: &Heap, new: &Heap, of: Serial, value: &Value, store: &Store)
    requires stands { StandsFor old.now store.now }
    requires written { HasNow old.now new.now of.number (option_map (holding value.now) (object_of old.now of.number)) }
    ensures { StandsFor new.now (with_value_at of.number value.now store.now) }
{}

/// The references that are held with the new object are the one that `make` gives, in place of those in its value.
pub fn held_once_made(old: &Heap, new: &Heap, value: &Value, of: Serial, rest: &Serials)
    requires held { AreHeld old.now (references value.now ++ rest.now) }
    requires made { IsNew old.now new.now value.now of }
    ensures { AreHeld new.now (of ∷ rest.now) }
{}

/// After `share` one reference more is held.
pub fn held_once_shared(old: &Heap, new: &Heap, of: Serial, rest: &Serials)
    requires live { IsLive old.now of }
    requires held { AreHeld old.now rest.now }
    requires shared { HasNow old.now new.now of.number (option_map shared (object_of old.now of.number)) }
    requires inner { (number : ℕ) → inner_count new.now number ≡ inner_count old.now number }
    ensures { AreHeld new.now (of ∷ rest.now) }
{}

/// After `drop_one` all references are held that were held beside the one that went.
pub fn held_once_dropped(old: &Heap, new: &Heap, of: Serial, rest: &Serials)
    requires held { AreHeld old.now (of ∷ rest.now) }
    requires dropped { IsDropped old.now new.now of.number }
    ensures { AreHeld new.now rest.now }
{}

/// After `write` the references in the old value are held in place of those in the new one.
pub fn held_once_written(
    old: &Heap,
    new: &Heap,
    of: Serial,
    value: &Value,
    was: &Value,
    rest: &Serials,
)
    requires held { AreHeld old.now (references value.now ++ rest.now) }
    requires written { HasNow old.now new.now of.number (option_map (holding value.now) (object_of old.now of.number)) }
    requires live { AreLive new.now (references was.now) }
    requires inner { (number : ℕ) → inner_count new.now number + times number (references was.now) ≡ inner_count old.now number + times number (references value.now) }
    ensures { AreHeld new.now (references was.now ++ rest.now) }
{}
