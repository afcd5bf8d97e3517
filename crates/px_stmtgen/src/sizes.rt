//! How many registers statements and functions take.

ghost use Rattle.std.specs.Prelude.{◌≡◌, ◌+◌, map};
ghost use Rattle.px_walk.specs.Roses.{gathered, parts_of};
ghost use Rattle.px_typed_walk.specs.TypedView.{rose_of_typed};
ghost use Rattle.px_exprgen.specs.Places.{capped, places};
ghost use Rattle.px_stmtgen.specs.Sizes.{greatest, objects, registers, body_objects};
ghost use Rattle.px_stmtgen.specs.StatementCode.{result_width, alone_width, alone_widths, statement_width, statement_widths};

use crate::layouts::Layout;
use crate::object_numbers::{objects, result_objects};
use px_base::Builtin;
use px_exprgen::{places, widest, width};
use px_tree::{TypedHead, TypedTree, ValueType};
use px_typed_walk::TypedNode;
use px_walk::Node;

fn result_width(t: ValueType) -> u64
    ensures { result ≡ result_width t }
{
    match t {
        ValueType::C(_) => 1,
        _ => 0,
    }
}

/// How many registers an expression takes that stands for its own.
fn alone_width(tree: &TypedTree) -> u64
    ensures { result ≡ capped (alone_width (rose_of_typed tree.now)) }
{
    let node = TypedNode { tree };
    match node.head() {
        TypedHead::Builtin(builtin) => match builtin {
            Builtin::Print => widest(tree),
            _ => width(tree),
        },
        TypedHead::Call(_, t) => result_width(t),
        _ => width(tree),
    }
}

/// How many the parts of a node take that stand for their own.
fn alone_widths(node: TypedNode<'_>) -> u64
    ensures { result ≡ capped (alone_widths (gathered (parts_of (rose_of_typed node.entry.tree.now)))) }
{
    let mut most = 0;
    for k in 0..node.count() {
        most = alone_width(node.part(k).tree).max(most);
    }
    most
}

/// How many registers a statement takes behind those of its layout, or 2^32 where it takes more.
#[cycle(statement_width)]
fn statement_width(tree: &TypedTree) -> u64
    ensures { result ≡ capped (statement_width (rose_of_typed tree.now)) }
{
    let node = TypedNode { tree };
    match node.head() {
        TypedHead::Expression => alone_widths(node),
        TypedHead::Assign => widest(tree),
        TypedHead::Augment(_) => widest(tree),
        TypedHead::Declare => statement_widths(node),
        TypedHead::Declarator(_, _) => widest(tree),
        TypedHead::Return => widest(tree),
        _ => 0,
    }
}

/// How many the parts of a node take, which are statements.
#[cycle(statement_width)]
fn statement_widths(node: TypedNode<'_>) -> u64
    ensures { result ≡ capped (statement_widths (gathered (parts_of (rose_of_typed node.entry.tree.now)))) }
{
    let mut most = 0;
    for k in 0..node.count() {
        most = statement_width(node.part(k).tree).max(most);
    }
    most
}

fn body_width(body: &[TypedTree]) -> u64
    ensures { result ≡ capped (greatest statement_width (map rose_of_typed body.now)) }
{
    let mut most = 0;
    for tree in body {
        most = statement_width(tree).max(most);
    }
    most
}

/// How many registers a function takes with this layout and these statements, or 2^32 where it takes more.
pub fn registers(layout: Layout, body: &[TypedTree]) -> u64
    ensures { result ≡ capped (registers layout (map rose_of_typed body.now)) }
{
    let behind = result_width(layout.gives).max(body_width(body));
    (u64::from(layout.variables) + u64::from(layout.objects) + behind).min(4_294_967_296)
}

fn statements_objects(body: &[TypedTree]) -> u64
    ensures { result ≡ capped (greatest objects (map rose_of_typed body.now)) }
{
    let mut most = 0;
    for tree in body {
        most = objects(tree).max(most);
    }
    most
}

/// How many registers for objects a function takes that gives this type, for its statements and for its end, or 2^32 where it takes
/// more.
pub fn body_objects(gives: ValueType, body: &[TypedTree]) -> u64
    ensures { result ≡ capped (body_objects gives (map rose_of_typed body.now)) }
{
    result_objects(gives).max(statements_objects(body))
}

/// One more than the greatest place of a variable or of a function that statements name, or 2^32 where it is more; 0 where they name
/// none.
pub fn body_places(body: &[TypedTree]) -> u64
    ensures { result ≡ capped (greatest places (map rose_of_typed body.now)) }
{
    let mut most = 0;
    for tree in body {
        most = places(tree).max(most);
    }
    most
}
