ghost use Rattle.std.specs.Prelude.{◌≡◌, None};
ghost use Rattle.slab.specs.Slab.{slab_len};
ghost use Rattle.px_heap.specs.References.{of_pairs, references};
ghost use Rattle.px_heap.specs.Freeing.{IsReleased, dead_after, lowered, lowered_each, lowered_object, work};

use crate::slots::{Object, let_go};
use crate::values::{Serial, Value};
use slab::Slab;

/// Takes a reference off an object, and answers the list of the objects that are still to be freed, which it joins where that was its
/// last.
fn lower_object(object: &mut Object, key: usize, dead: Option<usize>) -> Option<usize>
    ensures object { object.new ≡ lowered_object object.old dead }
    ensures dead { result ≡ dead_after object.old key dead }
{
    if object.count == 0 || object.count == u64::MAX {
        return dead;
    }
    object.count -= 1;
    if object.count > 0 {
        return dead;
    }
    object.next = dead;
    Some(key)
}

fn lower(objects: &mut Slab<Object>, key: usize, dead: Option<usize>) -> Option<usize>
    ensures work { work objects.new.slots result ≡ lowered key (work objects.old.slots dead) }
    ensures len { slab_len objects.new ≡ slab_len objects.old }
{
    match objects.get_mut(key) {
        Some(object) => lower_object(object, key, dead),
        None => dead,
    }
}

fn lower_each(
    objects: &mut Slab<Object>,
    references: &[Serial],
    dead: Option<usize>,
) -> Option<usize>
    ensures work { work objects.new.slots result ≡ lowered_each references.now (work objects.old.slots dead) }
    ensures len { slab_len objects.new ≡ slab_len objects.old }
{
    let mut dead = dead;
    for reference in references {
        dead = lower(objects, reference.key, dead);
    }
    dead
}

fn lower_pairs(
    objects: &mut Slab<Object>,
    pairs: &[(Serial, Serial)],
    dead: Option<usize>,
) -> Option<usize>
    ensures work { work objects.new.slots result ≡ lowered_each (of_pairs pairs.now) (work objects.old.slots dead) }
    ensures len { slab_len objects.new ≡ slab_len objects.old }
{
    let mut dead = dead;
    for pair in pairs {
        let key = lower(objects, pair.0.key, dead);
        dead = lower(objects, pair.1.key, key);
    }
    dead
}

fn lower_all(objects: &mut Slab<Object>, value: &Value, dead: Option<usize>) -> Option<usize>
    ensures work { work objects.new.slots result ≡ lowered_each (references value.now) (work objects.old.slots dead) }
    ensures len { slab_len objects.new ≡ slab_len objects.old }
{
    match value {
        Value::Int(_) => dead,
        Value::Bool(_) => dead,
        Value::None => dead,
        Value::Str(_) => dead,
        Value::List(items) => lower_each(objects, items.as_slice(), dead),
        Value::Tuple(items) => lower_each(objects, items.as_slice(), dead),
        Value::Dict(pairs) => lower_pairs(objects, pairs.as_slice(), dead),
        Value::Array(_) => dead,
    }
}

/// Takes a reference off the object with this key, and frees the objects that have none left.
pub fn release(objects: &mut Slab<Object>, key: usize)
    ensures { IsReleased (work objects.old.slots None) key objects.new.slots }
{
    let mut dead = lower(objects, key, None);
    while let Some(first) = dead {
        let Some(object) = objects.try_remove(first) else {
            return;
        };
        dead = lower_all(objects, &object.value, object.next);
        let_go(object);
    }
}
