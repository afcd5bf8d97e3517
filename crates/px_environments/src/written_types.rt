//! What types as they are written stand for.

ghost use Rattle.std.specs.Prelude.{◌≡◌, option_map};
ghost use Rattle.px_walk.specs.HeadForms.{form_of};
ghost use Rattle.px_walk.specs.Nodes.{rose_of};
ghost use Rattle.px_walk.specs.Roses.{parts_of};
ghost use Rattle.px_environments.specs.WrittenTypes.{plain_type, is_strided, are_strided, is_row_major, is_column_major, layout_of, view_type, written_type, type_of_typing, type_at, type_of_part, first_type};

use px_base::CType;
use px_tree::{Axis, BaseType, Layout, Type, ValueType, ViewType};
use px_walk::{Head, TreeNode};

fn plain_type(base: BaseType) -> ValueType
    ensures { result ≡ plain_type base }
{
    match base {
        BaseType::C(t) => ValueType::C(t),
        BaseType::Object => ValueType::Object,
        BaseType::List => ValueType::Object,
        BaseType::Dict => ValueType::Object,
        BaseType::Tuple => ValueType::Object,
        BaseType::Str => ValueType::Object,
    }
}

fn is_strided(axis: Axis) -> bool
    ensures { result ≡ is_strided axis }
{
    match axis {
        Axis::Strided => true,
        Axis::Contiguous => false,
    }
}

fn are_strided(mut axes: &[Axis]) -> bool
    ensures { result ≡ are_strided axes.entry.now }
{
    while let [axis, others @ ..] = axes {
        if !is_strided(*axis) {
            return false;
        }
        axes = others;
    }
    true
}

/// Whether `::1` stands on the last axis alone.
fn is_row_major(mut axes: &[Axis]) -> bool
    ensures { result ≡ is_row_major axes.entry.now }
{
    while let [axis, others @ ..] = axes {
        if !is_strided(*axis) {
            return others.is_empty();
        }
        axes = others;
    }
    false
}

/// Whether `::1` stands on the first axis alone.
fn is_column_major(axes: &[Axis]) -> bool
    ensures { result ≡ is_column_major axes.now }
{
    match axes {
        [] => false,
        [first, others @ ..] => !is_strided(*first) && are_strided(others),
    }
}

fn layout_of(axes: &[Axis]) -> Option<Layout>
    ensures { result ≡ layout_of axes.now }
{
    if are_strided(axes) {
        Some(Layout::Strided)
    } else if is_row_major(axes) {
        Some(Layout::RowMajor)
    } else if is_column_major(axes) {
        Some(Layout::ColumnMajor)
    } else {
        None
    }
}

/// The type of a view with up to three axes.
fn view_type(is_const: bool, element: CType, axes: &[Axis]) -> Option<ValueType>
    ensures { result ≡ view_type is_const element axes.now }
{
    let rank = match u8::try_from(axes.len()) {
        Ok(rank) if rank <= 3 => rank,
        _ => return None,
    };
    match layout_of(axes) {
        Some(layout) => Some(ValueType::View(ViewType {
            element,
            rank,
            is_const,
            layout,
        })),
        None => None,
    }
}

/// The type that a written type stands for; none where there is none.
fn written_type(is_const: bool, base: BaseType, axes: &[Axis]) -> Option<ValueType>
    ensures { result ≡ written_type is_const base axes.now }
{
    if axes.is_empty() {
        return Some(plain_type(base));
    }
    match base {
        BaseType::C(t) => view_type(is_const, t, axes),
        _ => None,
    }
}

/// The type that a written type stands for; none where there is none.
pub fn type_of_typing(typing: &Type) -> Option<ValueType>
    ensures { result ≡ type_of_typing typing.now }
{
    written_type(typing.is_const, typing.base, typing.axes.as_slice())
}

/// The type that a node stands for; none where it stands for none.
fn type_at(head: Head<'_>) -> Option<ValueType>
    ensures { result ≡ type_at (form_of head.entry) }
{
    match head {
        Head::Type(is_const, base, axes) => written_type(is_const, base, axes),
        _ => None,
    }
}

/// The type that a part of a node stands for.
pub fn type_of_part(part: Option<TreeNode<'_>>) -> Option<ValueType>
    ensures { result ≡ type_of_part (option_map rose_of part.entry) }
{
    match part {
        Some(part) => type_at(part.head()),
        None => None,
    }
}

/// The type that the first part of a node stands for.
pub fn first_type(node: TreeNode<'_>) -> Option<ValueType>
    ensures { result ≡ first_type (parts_of (rose_of node.entry)) }
{
    type_of_part(node.get(0))
}
