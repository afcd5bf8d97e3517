ghost use Rattle.std.specs.Prelude.{◌≡◌, Some, option_map};
ghost use Rattle.slab.specs.Slab.{ContainsKey, Updates, get};
ghost use Rattle.px_heap.specs.Heaps.{with_count, with_content};

use crate::values::Value;
use slab::Slab;
use std::mem;

/// An object with its number and the number of references to it.
#[derive(Drop)]
pub struct Object {
    pub number: u64,
    pub count: u64,
    pub value: Value,
    /// The key of the next object in the list of those that are still to be freed.
    pub next: Option<usize>,
}

/// The count of the object with this key.
pub fn count_at(objects: &Slab<Object>, key: usize) -> u64
    requires { ContainsKey objects.now key }
    ensures { option_map (λ o. o.count) (get objects.now key) ≡ Some result }
{
    match objects.get(key) {
        Some(object) => object.count,
        None => unreachable!(),
    }
}

/// Gives the object with this key another count.
pub fn set_count(objects: &mut Slab<Object>, key: usize, count: u64)
    requires { ContainsKey objects.old key }
    ensures { Updates objects.old objects.new key (option_map (with_count count) (get objects.old key)) }
{
    match objects.get_mut(key) {
        Some(object) => object.count = count,
        None => unreachable!(),
    }
}

/// Gives the object with this key another value, and answers the one that it had.
pub fn set_value(objects: &mut Slab<Object>, key: usize, value: Value) -> Value
    requires { ContainsKey objects.old key }
    ensures value { option_map (λ o. o.value) (get objects.old key) ≡ Some result }
    ensures objects { Updates objects.old objects.new key (option_map (with_content value) (get objects.old key)) }
{
    match objects.get_mut(key) {
        Some(object) => mem::replace(&mut object.value, value),
        None => unreachable!(),
    }
}

/// Lets a value go.
pub fn let_go<T: Drop>(_value: T) {}
