//! Which modules have code.

ghost use Rattle.std.specs.Prelude.{◌≡◌, map};
ghost use Rattle.px_types.specs.TypedModule.{function_kept, module_kept};
ghost use Rattle.px_compile.specs.FitStatements.{callees_of, unfit_among};
ghost use Rattle.px_compile.specs.FitModules.{are_numbers, has_none, header_fits, is_c, is_none, is_unwritten, unbuilt_at, unbuilt_in_functions, unbuilt_of, unfit_in_function};

use crate::statements::{end_fits, unfit_among};
use px_base::{Constant, Refusal, Span, earlier};
use px_tree::{Local, Lock, Typed, TypedFunction, ValueType};

pub(crate) fn is_none(what: &Constant) -> bool
    ensures { result ≡ is_none what.now }
{
    match what {
        Constant::None => true,
        _ => false,
    }
}

/// Whether None stands among constants.
fn has_none(constants: &[Constant]) -> bool
    ensures { result ≡ has_none constants.now }
{
    for what in constants {
        if is_none(what) {
            return true;
        }
    }
    false
}

fn is_unwritten(lock: Lock) -> bool
    ensures { result ≡ is_unwritten lock }
{
    match lock {
        Lock::Unwritten => true,
        _ => false,
    }
}

fn is_c(t: ValueType) -> bool
    ensures { result ≡ is_c t }
{
    match t {
        ValueType::C(_) => true,
        _ => false,
    }
}

/// Whether all variables are numbers.
fn are_numbers(locals: &[Local]) -> bool
    ensures { result ≡ are_numbers locals.now }
{
    for local in locals {
        if !is_c(local.value_type) {
            return false;
        }
    }
    true
}

fn header_fits(none_there: bool, f: &TypedFunction) -> bool
    ensures { result ≡ header_fits none_there (function_kept f.now) }
{
    f.params == 0
        && is_unwritten(f.lock)
        && are_numbers(f.locals.as_slice())
        && end_fits(none_there, f.gives)
}

/// The first statement of a function that has no code, or the function where it can't have any.
fn unfit_in_function(
    none_there: bool,
    functions: &[TypedFunction],
    f: &TypedFunction,
) -> Option<Span>
    ensures { result ≡ unfit_in_function none_there (callees_of (map function_kept functions.now)) (function_kept f.now) }
{
    if header_fits(none_there, f) {
        unfit_among(
            f.locals.as_slice(),
            f.gives,
            none_there,
            functions,
            f.body.as_slice(),
        )
    } else {
        Some(f.at)
    }
}

fn unbuilt_at(found: Option<Span>) -> Option<Refusal>
    ensures { result ≡ unbuilt_at found }
{
    match found {
        Some(at) => Some(Refusal {
            number: 27,
            line: at.line,
            column: at.column,
        }),
        None => None,
    }
}

fn unbuilt_in_functions(
    none_there: bool,
    functions: &[TypedFunction],
    found: Option<Refusal>,
) -> Option<Refusal>
    ensures { result ≡ unbuilt_in_functions none_there (callees_of (map function_kept functions.now)) found (map function_kept functions.now) }
{
    let mut first = found;
    for f in functions {
        first = earlier(
            first,
            unbuilt_at(unfit_in_function(none_there, functions, f)),
        );
    }
    first
}

/// The first thing in a module that has no code, by place: a statement, or a function of another form than those that have code. It is
/// E27 there; none where the whole module has code. It takes no memory.
pub fn unbuilt(typed: &Typed) -> Option<Refusal>
    ensures { result ≡ unbuilt_of (module_kept typed.now) }
{
    let functions = typed.functions.as_slice();
    let none_there = has_none(typed.constants.as_slice());
    let found = unfit_among(
        &[],
        ValueType::Void,
        none_there,
        functions,
        typed.code.as_slice(),
    );
    unbuilt_in_functions(none_there, functions, unbuilt_at(found))
}
