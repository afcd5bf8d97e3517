//! Calls.

ghost use Rattle.std.specs.Prelude.{◌≡◌, option_copied};
ghost use Rattle.px_typed_walk.specs.TypedView.{rose_of_typed};
ghost use Rattle.px_operators.specs.Outcomes.{Gives};
ghost use Rattle.px_operators.specs.Operators.{of_common};
ghost use Rattle.px_typed_expressions.specs.Calls.{function_call, abs_of, builtin_call, named_call};
ghost use Rattle.px_operators.specs.Kept.{parts_kept, operands_kept};
ghost use Rattle.px_typed_expressions.specs.Typers.{environment_of};
ghost use Rattle.px_typed_expressions.specs.CallsKept.{head_of_extreme};

use crate::typer::ExpressionTyper;
use px_base::{Builtin, CType, Span, Trouble};
use px_ctypes::promoted;
use px_environments::Signature;
use px_names::Meaning;
use px_operators::{
    Operand, Part, as_objects, as_operands, common_of, fitted_each, in_c, in_common, made, one,
    only, unbuilt,
};
use px_tree::{TypedHead, TypedTree};
use px_typed_walk::tree_of;
use std::alloc::Global;

/// A call of a function with these arguments.
fn function_call(
    alloc: Global,
    function: Option<&Signature>,
    number: u32,
    at: Span,
    arguments: Vec<Part>,
) -> Result<TypedTree, Trouble>
    ensures { Gives rose_of_typed result (function_call (option_copied function.entry) number at (parts_kept arguments.items)) }
{
    let Some(function) = function else {
        return Err(unbuilt(at));
    };
    let head = TypedHead::Call(function.place, function.gives);
    let values = fitted_each(alloc, function.params.as_slice(), arguments);
    made(head, number, at, values)
}

fn abs_of(
    alloc: Global,
    number: u32,
    at: Span,
    operands: Vec<Operand>,
) -> Result<TypedTree, Trouble>
    ensures { Gives rose_of_typed result (abs_of number at (operands_kept operands.items)) }
{
    let operand = only(at, operands)?;
    let t = promoted(operand.c_type);
    let parts = one(alloc, in_c(alloc, t, operand)?)?;
    Ok(tree_of(TypedHead::Abs(t), number, at, parts))
}

/// `min` or `max`.
#[derive(Clone, Copy)]
enum Extreme {
    Min,
    Max,
}

fn head_of_extreme(extreme: Extreme, t: CType) -> TypedHead
    ensures { result ≡ head_of_extreme extreme t }
{
    match extreme {
        Extreme::Min => TypedHead::Min(t),
        Extreme::Max => TypedHead::Max(t),
    }
}

/// Two operands or more in their common type.
fn of_common(
    alloc: Global,
    extreme: Extreme,
    number: u32,
    at: Span,
    operands: Vec<Operand>,
) -> Result<TypedTree, Trouble>
    ensures { Gives rose_of_typed result (of_common (head_of_extreme extreme) number at (operands_kept operands.items)) }
{
    let Some(t) = common_of(operands.as_slice()) else {
        return Err(unbuilt(at));
    };
    let head = head_of_extreme(extreme, t);
    Ok(in_common(alloc, head, number, at, t, operands)?)
}

/// A call of a builtin with these arguments.
fn builtin_call(
    alloc: Global,
    builtin: Builtin,
    number: u32,
    at: Span,
    arguments: Vec<Part>,
) -> Result<TypedTree, Trouble>
    ensures { Gives rose_of_typed result (builtin_call builtin number at (parts_kept arguments.items)) }
{
    match builtin {
        Builtin::Print => {
            let head = TypedHead::Builtin(Builtin::Print);
            made(head, number, at, as_objects(alloc, arguments))
        }
        Builtin::Abs => abs_of(alloc, number, at, as_operands(alloc, arguments)?),
        Builtin::Min => {
            let operands = as_operands(alloc, arguments)?;
            of_common(alloc, Extreme::Min, number, at, operands)
        }
        Builtin::Max => {
            let operands = as_operands(alloc, arguments)?;
            of_common(alloc, Extreme::Max, number, at, operands)
        }
        _ => Err(unbuilt(at)),
    }
}

impl<'a> ExpressionTyper<'a> {
    /// A call of what a name stands for.
    pub(crate) fn named_call(
        &self,
        meaning: Meaning,
        number: u32,
        at: Span,
        arguments: Vec<Part>,
    ) -> Result<TypedTree, Trouble>
        ensures { Gives rose_of_typed result (named_call (environment_of self.now) meaning number at (parts_kept arguments.items)) }
    {
        match meaning {
            Meaning::Function(function, _) => {
                let signature = self.code.functions.get(function);
                function_call(self.alloc, signature, number, at, arguments)
            }
            Meaning::Builtin(builtin) => {
                builtin_call(self.alloc, builtin, number, at, arguments)
            }
            _ => Err(unbuilt(at)),
        }
    }
}
