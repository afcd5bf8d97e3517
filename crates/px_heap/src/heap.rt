ghost use Rattle.std.specs.Prelude.{◌≡◌, ◌<◌, ℕ, ◌+◌, [], ◌∷◌, Some, None, option_map};
ghost use Rattle.px_heap.specs.Heaps.{AreHeld, AreLive, IsLive, Live, count_of, inner_count, object_of, value_of};
ghost use Rattle.px_heap.specs.References.{references, times};
ghost use Rattle.px_heap.specs.Answers.{HasNow, IsDropped, IsMade, holding, shared};

use crate::freeing::release;
use crate::slots::{Object, count_at, set_count, set_value};
use crate::values::{Serial, Value};
use px_base::{Fault, Kind, Said, StepTrouble};
use slab::Slab;
use std::alloc::Global;
use std::marker::Model;

/// The objects that are live, each with the number of references to it. A count that reached 2^64 - 1 stays there, and its object
/// is never freed.
pub struct Heap {
    objects: Slab<Object>,
    made: u64,
}

impl Model for Heap {
    ghost use Rattle.px_heap.specs.Heaps.{Heap as Objects, IsHeap};

    ghost Value = { Objects };

    ghost view = { λ h. record { slots = h.objects.slots; made = h.made } };

    ghost invariant = { λ h. IsHeap h.objects.slots h.made };
}

impl Drop for Heap {
    fn drop(self) {
        let Heap { objects, made } = self;
    }
}

impl Heap {
    /// A heap without objects; it takes no memory.
    pub fn new(alloc: Global) -> Heap
        ensures objects { result.slots ≡ [] }
        ensures made { result.made ≡ 0 }
    {
        Heap {
            objects: Slab::new(alloc),
            made: 0,
        }
    }

    /// Makes an object, to which the answer is the one reference.
    ///
    /// # Errors
    /// The value comes back, with row 34 exactly where 2^64 - 1 objects have been made, and else for want of memory. Then all is as
    /// before.
    pub fn make(&mut self, value: Value) -> Result<Serial, (Value, StepTrouble)>
        requires { AreHeld self.old (references value) }
        ensures { IsMade self.old self.new value result }
    {
        if self.made == u64::MAX {
            return Err((
                value,
                StepTrouble::Raised(Fault {
                    kind: Kind::LimitError,
                    said: Said::Row(34),
                }),
            ));
        }
        if self.objects.reserve(1).is_err() {
            return Err((value, StepTrouble::NoMemory));
        }
        let number = self.made;
        self.made = number + 1;
        let key = self.objects.insert_reserved(Object {
            number,
            count: 1,
            value,
            next: None,
        });
        Ok(Serial { number, key })
    }

    /// Counts one reference more to a live object. A count of 2^64 - 1 stays.
    pub fn share(&mut self, of: Serial)
        requires { IsLive self.old of }
        ensures objects { HasNow self.old self.new of.number (option_map shared (object_of self.old of.number)) }
        ensures inner { (number : ℕ) → inner_count self.new number ≡ inner_count self.old number }
    {
        let count = count_at(&self.objects, of.key);
        if count < u64::MAX {
            set_count(&mut self.objects, of.key, count + 1);
        }
    }

    /// Counts one reference less to a live object, which is held. An object whose count reaches 0 by it is freed, and so the references
    /// in it are no more. A count of 2^64 - 1 stays. It takes no memory.
    pub fn drop_one(&mut self, of: Serial)
        requires { AreHeld self.old (of ∷ []) }
        ensures { IsDropped self.old self.new of.number }
    {
        release(&mut self.objects, of.key);
    }

    /// How many references to a live object are counted.
    pub fn count(&self, of: Serial) -> u64
        requires { IsLive self.now of }
        ensures { count_of self.now of.number ≡ Some result }
    {
        count_at(&self.objects, of.key)
    }

    /// What a live object is. The references in it are to live objects.
    pub fn read(&self, of: Serial) -> &Value
        requires { IsLive self.now of }
        ensures value { value_of self.now of.number ≡ Some result.now }
        ensures live { AreLive self.now (references result.now) }
    {
        match self.objects.get(of.key) {
            Some(object) => &object.value,
            None => unreachable!(),
        }
    }

    /// Gives a live object another value, whose references it takes over, and answers the one that it had, with its references. Its
    /// count stays.
    pub fn write(&mut self, of: Serial, value: Value) -> Value
        requires live { IsLive self.old of }
        requires held { AreHeld self.old (references value) }
        ensures value { value_of self.old of.number ≡ Some result }
        ensures objects { HasNow self.old self.new of.number (option_map (holding value) (object_of self.old of.number)) }
        ensures live { AreLive self.new (references result) }
        ensures inner { (number : ℕ) → inner_count self.new number + times number (references result) ≡ inner_count self.old number + times number (references value) }
    {
        set_value(&mut self.objects, of.key, value)
    }
}

/// What holds of each heap: objects have numbers that were given out and at least one reference; references in them are to live
/// objects, and counted.
pub fn heap_laws(heap: &Heap)
    ensures numbers { (number : ℕ) (o : Live) → object_of heap.now number ≡ Some o → number < heap.now.made }
    ensures counts { (number : ℕ) (o : Live) → object_of heap.now number ≡ Some o → 0 < o.count }
    ensures references { (number : ℕ) (o : Live) → object_of heap.now number ≡ Some o → AreLive heap.now (references o.value) }
    ensures held { AreHeld heap.now [] }
{
    let _objects = &heap.objects;
}
