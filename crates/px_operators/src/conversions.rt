//! Conversions of values into the types that are asked for.

ghost use Rattle.std.specs.Prelude.{◌≡◌, IfOk};
ghost use Rattle.px_typed_walk.specs.TypedView.{rose_of_typed};
ghost use Rattle.px_operators.specs.Outcomes.{Gives, followed};
ghost use Rattle.px_operators.specs.Conversions.{c_type_number, is_same_c, layout_number, is_same_layout, has_same_elements, keeps_const, is_same_view, view_fitting, c_fitting, object_fitting, fitting_of, converted, fitted, tested, fitted_each, as_objects, valued, in_c};
ghost use Rattle.px_operators.specs.Kept.{part_kept, parts_kept, trees_kept, operand_kept};

use crate::fittings::Fitting;
use crate::gathering::{Gathered, Part, one, outcome_of, refused};
use crate::operands::Operand;
use px_base::{CType, NoMemory, Trouble};
use px_tree::{Conversion, Layout, TypedHead, TypedTree, ValueType, ViewType};
use px_typed_walk::{at_of, number_of, tree_of, type_of};
use std::alloc::Global;

fn c_type_number(t: CType) -> u8
    ensures { result ≡ c_type_number t }
{
    match t {
        CType::SChar => 0,
        CType::UChar => 1,
        CType::Char => 2,
        CType::Short => 3,
        CType::UShort => 4,
        CType::Int => 5,
        CType::UInt => 6,
        CType::Long => 7,
        CType::ULong => 8,
        CType::LongLong => 9,
        CType::ULongLong => 10,
        CType::SsizeT => 11,
        CType::SizeT => 12,
        CType::Bint => 13,
    }
}

fn is_same_c(a: CType, b: CType) -> bool
    ensures { result ≡ is_same_c a b }
{
    c_type_number(a) == c_type_number(b)
}

fn layout_number(layout: Layout) -> u8
    ensures { result ≡ layout_number layout }
{
    match layout {
        Layout::Strided => 0,
        Layout::RowMajor => 1,
        Layout::ColumnMajor => 2,
    }
}

fn is_same_layout(a: Layout, b: Layout) -> bool
    ensures { result ≡ is_same_layout a b }
{
    layout_number(a) == layout_number(b)
}

fn has_same_elements(from: ViewType, to: ViewType) -> bool
    ensures { result ≡ has_same_elements from to }
{
    is_same_c(from.element, to.element) && from.rank == to.rank
}

fn keeps_const(from: ViewType, to: ViewType) -> bool
    ensures { result ≡ keeps_const from to }
{
    to.is_const || !from.is_const
}

fn is_same_view(from: ViewType, to: ViewType) -> bool
    ensures { result ≡ is_same_view from to }
{
    keeps_const(to, from) && is_same_layout(from.layout, to.layout)
}

fn view_fitting(from: ViewType, to: ViewType) -> Fitting
    ensures { result ≡ view_fitting from to }
{
    if !has_same_elements(from, to) || !keeps_const(from, to) {
        return Fitting::Never;
    }
    if is_same_view(from, to) {
        Fitting::Equal
    } else {
        Fitting::By(Conversion::ViewOfView(to))
    }
}

fn c_fitting(from: CType, to: CType) -> Fitting
    ensures { result ≡ c_fitting from to }
{
    if is_same_c(from, to) {
        Fitting::Equal
    } else {
        Fitting::By(Conversion::ToC(to))
    }
}

fn object_fitting(to: CType) -> Fitting
    ensures { result ≡ object_fitting to }
{
    match to {
        CType::Bint => Fitting::By(Conversion::Truth),
        t => Fitting::By(Conversion::FromObject(t)),
    }
}

/// What makes a value of the first type one of the second.
fn fitting_of(from: ValueType, to: ValueType) -> Fitting
    ensures { result ≡ fitting_of from to }
{
    match (from, to) {
        (ValueType::C(from), ValueType::C(to)) => c_fitting(from, to),
        (ValueType::C(from), ValueType::Object) => Fitting::By(Conversion::ToObject(from)),
        (ValueType::Object, ValueType::C(to)) => object_fitting(to),
        (ValueType::Object, ValueType::Object) => Fitting::Equal,
        (ValueType::Object, ValueType::View(to)) => Fitting::By(Conversion::ViewOfObject(to)),
        (ValueType::View(from), ValueType::View(to)) => view_fitting(from, to),
        _ => Fitting::Never,
    }
}

/// A conversion of a value.
fn converted(alloc: Global, how: Conversion, tree: TypedTree) -> Result<TypedTree, NoMemory>
    ensures { IfOk result (λ made. rose_of_typed made ≡ converted how (rose_of_typed tree)) }
{
    let number = number_of(&tree);
    let at = at_of(&tree);
    let parts = one(alloc, tree)?;
    Ok(tree_of(TypedHead::Converted(how), number, at, parts))
}

/// A value as one of this type.
pub fn fitted(alloc: Global, t: ValueType, tree: TypedTree) -> Result<TypedTree, Trouble>
    ensures { Gives rose_of_typed result (fitted t (rose_of_typed tree)) }
{
    match fitting_of(type_of(&tree), t) {
        Fitting::Equal => Ok(tree),
        Fitting::By(how) => Ok(converted(alloc, how, tree)?),
        Fitting::Never => Err(refused(at_of(&tree))),
    }
}

/// A value as a test.
pub fn tested(alloc: Global, tree: TypedTree) -> Result<TypedTree, Trouble>
    ensures { Gives rose_of_typed result (tested (rose_of_typed tree)) }
{
    fitted(alloc, ValueType::C(CType::Bint), tree)
}

/// A part as a value of this type.
fn fitted_part(alloc: Global, t: ValueType, part: Part) -> Result<TypedTree, Trouble>
    ensures { Gives rose_of_typed result (followed (part_kept part) (fitted t)) }
{
    let tree = outcome_of(part)?;
    fitted(alloc, t, tree)
}

/// Values as those of these types, one by one.
pub fn fitted_each(
    alloc: Global,
    types: &[ValueType],
    parts: Vec<Part>,
) -> Result<Vec<TypedTree>, Trouble>
    ensures { Gives (λ all. trees_kept all.items) result (fitted_each types.now (parts_kept parts.items)) }
{
    let mut all = Gathered::new(alloc);
    let mut others = parts.into_iter();
    for t in types {
        let Some(part) = others.next() else {
            break;
        };
        all.take(fitted_part(alloc, *t, part))?;
    }
    all.all()
}

/// Values as objects.
pub fn as_objects(alloc: Global, parts: Vec<Part>) -> Result<Vec<TypedTree>, Trouble>
    ensures { Gives (λ all. trees_kept all.items) result (as_objects (parts_kept parts.items)) }
{
    let mut all = Gathered::new(alloc);
    for part in parts {
        all.take(fitted_part(alloc, ValueType::Object, part))?;
    }
    all.all()
}

/// A value, and no void call.
pub fn valued(tree: TypedTree) -> Result<TypedTree, Trouble>
    ensures { Gives rose_of_typed result (valued (rose_of_typed tree)) }
{
    match type_of(&tree) {
        ValueType::Void => Err(refused(at_of(&tree))),
        _ => Ok(tree),
    }
}

/// An operand in a C type.
pub fn in_c(alloc: Global, to: CType, operand: Operand) -> Result<TypedTree, NoMemory>
    ensures { IfOk result (λ made. rose_of_typed made ≡ in_c to (operand_kept operand)) }
{
    let Operand { tree, c_type } = operand;
    if is_same_c(c_type, to) {
        Ok(tree)
    } else {
        converted(alloc, Conversion::ToC(to), tree)
    }
}
