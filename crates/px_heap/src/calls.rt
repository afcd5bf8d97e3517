//! What holds of all calls of heaps, over heaps and stores as plain data, each as the contract of a function that does nothing.
ghost use Rattle.std.specs.Prelude.{◌≡◌, ℕ, List, ◌+◌, ◌++◌, ◌∷◌, option_map};
ghost use Rattle.px_model.specs.declared.stores.Store.{Store};
ghost use Rattle.px_heap.specs.declared.values.Serial.{Serial};
ghost use Rattle.px_heap.specs.declared.values.Value.{Value};
ghost use Rattle.px_heap.specs.Answers.{HasNow, IsDropped, IsNew, holding, shared};
ghost use Rattle.px_heap.specs.Heaps.{AreHeld, AreLive, Heap, IsLive, inner_count, object_of};
ghost use Rattle.px_heap.specs.References.{references, times};
ghost use Rattle.px_heap.specs.Stores.{StandsFor, with_object, with_value_at};

/// The calls are steps of the store that a heap stands for: one object more, none, none, one value.
pub fn store_laws()
    ensures made { (old new : Heap) (value : Value) (of : Serial) (store : Store) → StandsFor old store → IsNew old new value of → StandsFor new (with_object value store) }
    ensures shared { (old new : Heap) (number : ℕ) (store : Store) → StandsFor old store → HasNow old new number (option_map shared (object_of old number)) → StandsFor new store }
    ensures dropped { (old new : Heap) (number : ℕ) (store : Store) → StandsFor old store → IsDropped old new number → StandsFor new store }
    ensures written { (old new : Heap) (number : ℕ) (value : Value) (store : Store) → StandsFor old store → HasNow old new number (option_map (holding value) (object_of old number)) → StandsFor new (with_value_at number value store) }
{}

/// Which references are held after each call: the new one in place of those in its value; one more; one less; and those in the value that
/// came out in place of those in the one that went in.
pub fn held_laws()
    ensures made { (old new : Heap) (value : Value) (of : Serial) (rest : List Serial) → AreHeld old (references value ++ rest) → IsNew old new value of → AreHeld new (of ∷ rest) }
    ensures shared { (old new : Heap) (of : Serial) (rest : List Serial) → IsLive old of → AreHeld old rest → HasNow old new of.number (option_map shared (object_of old of.number))
        → ((number : ℕ) → inner_count new number ≡ inner_count old number) → AreHeld new (of ∷ rest) }
    ensures dropped { (old new : Heap) (of : Serial) (rest : List Serial) → AreHeld old (of ∷ rest) → IsDropped old new of.number → AreHeld new rest }
    ensures written { (old new : Heap) (of : Serial) (value was : Value) (rest : List Serial) → AreHeld old (references value ++ rest) → HasNow old new of.number (option_map (holding value) (object_of old of.number))
        → AreLive new (references was) → ((number : ℕ) → inner_count new number + times number (references was) ≡ inner_count old number + times number (references value)) → AreHeld new (references was ++ rest) }
{}
