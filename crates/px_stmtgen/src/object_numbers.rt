//! How many registers for objects trees take.

ghost use Rattle.std.specs.Prelude.{◌≡◌};
ghost use Rattle.px_typed_walk.specs.TypedView.{rose_of_typed};
ghost use Rattle.px_exprgen.specs.Places.{capped};
ghost use Rattle.px_stmtgen.specs.Sizes.{result_objects, objects_by, objects};

use px_base::Builtin;
use px_tree::{TypedHead, TypedTree, ValueType};
use px_typed_walk::TypedNode;
use px_walk::Node;

pub(crate) fn result_objects(t: ValueType) -> u64
    ensures { result ≡ result_objects t }
{
    match t {
        ValueType::Object => 1,
        _ => 0,
    }
}

fn objects_by(head: TypedHead, count: usize) -> u64
    ensures { result ≡ capped (objects_by head count) }
{
    match head {
        TypedHead::Builtin(Builtin::Print) => count.min(4_294_967_296) as u64,
        TypedHead::Call(_, t) => result_objects(t),
        _ => 0,
    }
}

/// How many registers for objects a tree takes, or 2^32 where it takes more.
#[cycle(objects)]
pub fn objects(tree: &TypedTree) -> u64
    ensures { result ≡ capped (objects (rose_of_typed tree.now)) }
{
    let node = TypedNode { tree };
    let mut most = objects_by(node.head(), node.count());
    for k in 0..node.count() {
        most = objects(node.part(k).tree).max(most);
    }
    most
}
