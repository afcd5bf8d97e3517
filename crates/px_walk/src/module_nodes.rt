//! The heads and the parts of modules, imports and functions.

ghost use Rattle.std.specs.Prelude.{◌≡◌, ◌++◌, length, map, option_copied};
ghost use Rattle.std.specs.List.{slice_get};
ghost use Rattle.std.specs.Option.{option_map};
ghost use Rattle.px_walk.specs.StmtView.{rose_of_stmt};
ghost use Rattle.px_walk.specs.ModuleView.{rose_of_comment, rose_of_item, import_form, import_parts, result_kind_of, result_parts, exception_kind_of, exception_parts, form_of_function, function_parts, signature_parts};
ghost use Rattle.px_walk.specs.HeadForms.{form_of, function_form};
ghost use Rattle.px_walk.specs.Nodes.{rose_of};

use crate::heads::{ExceptionKind, FunctionHead, Head, ResultKind};
use crate::lists::{
    nth_comment, nth_decorator, nth_imported_name, nth_module_item, nth_param, nth_stmt, only,
};
use crate::tree_node::TreeNode;
use px_base::Chars;
use px_tree::{ExceptionForm, Function, Import, ImportForm, Module, ResultType};

/// The characters of a name that may be left out.
pub(crate) fn chars_of<'a>(name: &'a Option<Chars>) -> Option<&'a [char]>
    ensures { option_copied result ≡ name.now }
{
    match name {
        Some(name) => Some(name.as_slice()),
        None => None,
    }
}

/// What an import is without its parts.
pub(crate) fn import_head<'a>(import: &'a Import) -> Head<'a>
    ensures { form_of result ≡ import_form import.now.is_cimport import.now.form }
{
    match &import.form {
        ImportForm::Whole(names, alias) => {
            Head::Import(import.is_cimport, names.as_slice(), chars_of(alias))
        }
        ImportForm::Parts(names, _) => Head::ImportFrom(import.is_cimport, names.as_slice()),
    }
}

/// How many names an import brings in by `from`.
pub(crate) fn import_count(import: &Import) -> usize
    ensures { result ≡ length (import_parts import.now.form) }
{
    match &import.form {
        ImportForm::Whole(_, _) => 0,
        ImportForm::Parts(_, parts) => parts.len(),
    }
}

/// A name that an import brings in by `from`; none behind the last.
pub(crate) fn import_part<'a>(import: &'a Import, k: usize) -> Option<TreeNode<'a>>
    ensures { option_map rose_of result ≡ slice_get (import_parts import.now.form) k }
{
    match &import.form {
        ImportForm::Whole(_, _) => None,
        ImportForm::Parts(_, parts) => nth_imported_name(parts.as_slice(), k),
    }
}

/// How a function says what it gives.
fn result_kind(gives: &ResultType) -> ResultKind
    ensures { result ≡ result_kind_of gives.now }
{
    match gives {
        ResultType::Unwritten => ResultKind::Unwritten,
        ResultType::Void => ResultKind::Void,
        ResultType::Of(_) => ResultKind::Typed,
    }
}

/// The type that a function gives, where one is written; none behind it.
fn result_part<'a>(gives: &'a ResultType, k: usize) -> Option<TreeNode<'a>>
    ensures { option_map rose_of result ≡ slice_get (result_parts gives.now) k }
{
    match gives {
        ResultType::Unwritten => None,
        ResultType::Void => None,
        ResultType::Of(typing) => only(TreeNode::Type(typing), k),
    }
}

/// How many types of its result a function writes.
fn result_count(gives: &ResultType) -> usize
    ensures { result ≡ length (result_parts gives.now) }
{
    match gives {
        ResultType::Unwritten => 0,
        ResultType::Void => 0,
        ResultType::Of(_) => 1,
    }
}

/// What a function says of exceptions.
fn exception_kind(exception: &ExceptionForm) -> ExceptionKind
    ensures { result ≡ exception_kind_of exception.now }
{
    match exception {
        ExceptionForm::Unwritten => ExceptionKind::Unwritten,
        ExceptionForm::Noexcept => ExceptionKind::Noexcept,
        ExceptionForm::Except(_) => ExceptionKind::Except,
        ExceptionForm::Maybe(_) => ExceptionKind::Maybe,
        ExceptionForm::Any => ExceptionKind::Any,
    }
}

/// The value of a function's exception, where one is written; none behind it.
fn exception_part<'a>(exception: &'a ExceptionForm, k: usize) -> Option<TreeNode<'a>>
    ensures { option_map rose_of result ≡ slice_get (exception_parts exception.now) k }
{
    match exception {
        ExceptionForm::Unwritten => None,
        ExceptionForm::Noexcept => None,
        ExceptionForm::Except(value) => only(TreeNode::Expr(value), k),
        ExceptionForm::Maybe(value) => only(TreeNode::Expr(value), k),
        ExceptionForm::Any => None,
    }
}

/// How many values of exceptions a function writes.
fn exception_count(exception: &ExceptionForm) -> usize
    ensures { result ≡ length (exception_parts exception.now) }
{
    match exception {
        ExceptionForm::Unwritten => 0,
        ExceptionForm::Noexcept => 0,
        ExceptionForm::Except(_) => 1,
        ExceptionForm::Maybe(_) => 1,
        ExceptionForm::Any => 0,
    }
}

/// A function without its parts.
pub(crate) fn function_head<'a>(f: &'a Function) -> FunctionHead<'a>
    ensures { function_form result ≡ form_of_function f.now }
{
    FunctionHead {
        header_at: f.header_at,
        kind: f.kind,
        is_inline: f.is_inline,
        gives: result_kind(&f.gives),
        name: f.name.as_slice(),
        exception: exception_kind(&f.exception),
        lock: f.lock,
        decorators: f.decorators.len(),
        params: f.params.len(),
    }
}

/// How many parts a function has.
pub(crate) fn function_count(f: &Function) -> usize
    ensures { result ≡ length (function_parts f.now) }
{
    let header = f.decorators.as_slice().len()
        + result_count(&f.gives)
        + f.params.as_slice().len()
        + exception_count(&f.exception);
    header + f.body.as_slice().len()
}

/// A part of a function from the type of its result on; none behind the last.
fn signature_part<'a>(f: &'a Function, k: usize) -> Option<TreeNode<'a>>
    ensures { option_map rose_of result ≡ slice_get (signature_parts f.now) k }
{
    let results = result_count(&f.gives);
    if k < results {
        result_part(&f.gives, k)
    } else if k - results < f.params.as_slice().len() {
        nth_param(f.params.as_slice(), k - results)
    } else {
        ending_part(f, k - results - f.params.as_slice().len())
    }
}

/// A part of a function from the value of its exception on; none behind the last.
fn ending_part<'a>(f: &'a Function, k: usize) -> Option<TreeNode<'a>>
    ensures { option_map rose_of result ≡
        slice_get (exception_parts f.now.exception ++ map rose_of_stmt f.now.body) k }
{
    let exceptions = exception_count(&f.exception);
    if k < exceptions {
        exception_part(&f.exception, k)
    } else {
        nth_stmt(f.body.as_slice(), k - exceptions)
    }
}

/// A part of a function; none behind the last.
pub(crate) fn function_part<'a>(f: &'a Function, k: usize) -> Option<TreeNode<'a>>
    ensures { option_map rose_of result ≡ slice_get (function_parts f.now) k }
{
    let decorators = f.decorators.as_slice().len();
    if k < decorators {
        nth_decorator(f.decorators.as_slice(), k)
    } else {
        signature_part(f, k - decorators)
    }
}

/// How many parts a module has.
pub(crate) fn module_count(m: &Module) -> usize
    ensures { result ≡ length (map rose_of_comment m.now.comments ++ map rose_of_item m.now.items) }
{
    m.comments.as_slice().len() + m.items.as_slice().len()
}

/// A leading comment of a module, or behind them something that stands in it; none behind the last.
pub(crate) fn module_part<'a>(m: &'a Module, k: usize) -> Option<TreeNode<'a>>
    ensures { option_map rose_of result ≡
        slice_get (map rose_of_comment m.now.comments ++ map rose_of_item m.now.items) k }
{
    let comments = m.comments.as_slice().len();
    if k < comments {
        nth_comment(m.comments.as_slice(), k)
    } else {
        nth_module_item(m.items.as_slice(), k - comments)
    }
}
