//! The types of functions.

ghost use Rattle.std.specs.Prelude.{◌≡◌, List, map, IfOk};
ghost use Rattle.px_tree.specs.declared.modules.Function.{Function};
ghost use Rattle.px_operators.specs.Outcomes.{Gives, mapped, both, all_of};
ghost use Rattle.px_environments.specs.Signatures.{locals_of, function_in, function_environment};
ghost use Rattle.px_types.specs.TypedModule.{param_outcome, result_outcome, header_outcome, is_noexcept, function_with, block, function_types, function_kept};
ghost use Rattle.px_operators.specs.Kept.{trees_kept};
ghost use Rattle.px_environments.specs.Kept.{signatures_kept};
ghost use Rattle.px_types.specs.Typers.{environment_of};

use crate::typer::Typer;
use px_base::{NoMemory, Sequence, Trouble};
use px_environments::{
    Signatures, Variables, code_environment, gives_of, locals_of, param_type, result_type,
};
use px_names::NamedCode;
use px_operators::{Gathered, both, refused};
use px_tree::{
    ExceptionForm, Function, FunctionName, Local, Locals, Param, Stmt, TypedFunction, TypedTree,
    ValueType,
};
use px_walk::TreeNode;
use sqlite_items::Items;
use std::alloc::Global;

/// The type of a parameter.
///
/// # Errors
/// A refusal where it is none, or `not None` stands behind what isn't a view.
fn param_outcome(param: &Param) -> Result<ValueType, Trouble>
    ensures { Gives (λ t. t) result (param_outcome param.now) }
{
    match param_type(&param.typing) {
        None => Err(refused(param.at)),
        Some(ValueType::View(t)) => Ok(ValueType::View(t)),
        Some(t) => {
            if param.is_not_none {
                Err(refused(param.at))
            } else {
                Ok(t)
            }
        }
    }
}

/// The type of a function's result.
///
/// # Errors
/// A refusal where it is none.
fn result_outcome(function: &Function) -> Result<ValueType, Trouble>
    ensures { Gives (λ t. t) result (result_outcome function.now) }
{
    match result_type(&function.gives) {
        None => Err(refused(function.at)),
        Some(t) => Ok(t),
    }
}

/// The types of a function's parameters.
fn param_outcomes(alloc: Global, params: &[Param]) -> Result<Vec<ValueType>, Trouble>
    ensures { Gives (λ all. all.items) result (all_of (map param_outcome params.now)) }
{
    let mut all = Gathered::new(alloc);
    for param in params {
        all.take(param_outcome(param))?;
    }
    all.all()
}

/// The types of a function's parameters and of its result.
fn header_outcome(
    alloc: Global,
    function: &Function,
) -> Result<(Vec<ValueType>, ValueType), Trouble>
    ensures { Gives (λ parts. (parts.0.items, parts.1)) result (header_outcome function.now) }
{
    let params = param_outcomes(alloc, function.params.as_slice());
    both(params, result_outcome(function))
}

/// The statements of a block.
pub(crate) fn block(typer: &Typer<'_>, statements: &[Stmt]) -> Result<Vec<TypedTree>, Trouble>
    ensures { Gives (λ all. trees_kept all.items) result (block (environment_of typer.now) statements.now) }
{
    let mut all = Gathered::new(typer.alloc);
    for statement in statements {
        all.take(typer.statement(false, TreeNode::Stmt(statement)))?;
    }
    all.all()
}

fn is_noexcept(exception: &ExceptionForm) -> bool
    ensures { result ≡ is_noexcept exception.now }
{
    match exception {
        ExceptionForm::Noexcept => true,
        _ => false,
    }
}

/// A copy of a name.
fn name_of(alloc: Global, name: &FunctionName) -> Result<FunctionName, NoMemory>
    ensures { IfOk result (λ made. made ≡ name.now) }
{
    let chars = Sequence::from_slice(alloc, name.as_slice())?;
    match FunctionName::new(chars) {
        Some(name) => Ok(name),
        None => unreachable!(),
    }
}

/// The types of a function's body, where these are its variables.
fn body_types(
    alloc: Global,
    signatures: &Signatures,
    function: &Function,
    code: &NamedCode,
    locals: &[Local],
) -> Result<Vec<TypedTree>, Trouble>
    ensures { (functions : List Function) → signatures_kept signatures.now ≡ function_in 0 functions → locals.now ≡ locals_of function.now
        → Gives (λ all. trees_kept all.items) result (block (function_environment functions (function.now, code.now)) function.now.body) }
{
    let variables = Variables::new(alloc, locals)?;
    let gives = Some(gives_of(function));
    let typer = Typer {
        alloc,
        code: code_environment(signatures, &variables, code, gives),
    };
    block(&typer, function.body.as_slice())
}

/// A function with these variables and this body.
fn typed_function(
    alloc: Global,
    function: &Function,
    locals: Locals,
    body: Vec<TypedTree>,
) -> Result<TypedFunction, NoMemory>
    ensures { IfOk result (λ typed. locals ≡ locals_of function.now → function_kept typed ≡ function_with function.now (trees_kept body.items)) }
{
    let name = name_of(alloc, &function.name)?;
    Ok(TypedFunction {
        number: function.number,
        at: function.at,
        header_at: function.header_at,
        kind: function.kind,
        name,
        params: function.params.len(),
        locals,
        gives: gives_of(function),
        is_noexcept: is_noexcept(&function.exception),
        lock: function.lock,
        body: Items::from_vec(body),
    })
}

/// The types of a function's body, where its header has types.
fn checked_body(
    alloc: Global,
    signatures: &Signatures,
    function: &Function,
    code: &NamedCode,
    locals: &[Local],
) -> Result<Vec<TypedTree>, Trouble>
    ensures { (functions : List Function) → signatures_kept signatures.now ≡ function_in 0 functions → locals.now ≡ locals_of function.now
        → Gives (λ all. trees_kept all.items) result (mapped (λ parts. parts.1) (both (header_outcome function.now) (block (function_environment functions (function.now, code.now)) function.now.body))) }
{
    let header = header_outcome(alloc, function);
    let body = body_types(alloc, signatures, function, code, locals);
    let (_, body) = both(header, body)?;
    Ok(body)
}

/// The types of a function.
pub(crate) fn function_types(
    alloc: Global,
    signatures: &Signatures,
    function: &Function,
    code: &NamedCode,
) -> Result<TypedFunction, Trouble>
    ensures { (functions : List Function) → signatures_kept signatures.now ≡ function_in 0 functions
        → Gives function_kept result (function_types functions (function.now, code.now)) }
{
    let locals = locals_of(alloc, function)?;
    let body = checked_body(alloc, signatures, function, code, locals.as_slice())?;
    let typed = typed_function(alloc, function, locals, body)?;
    Ok(typed)
}
