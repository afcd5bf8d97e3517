//! What a statement of the form that is built does.

ghost use Rattle.std.specs.Prelude.{◌≡◌, ◌≢◌, ◌↔◌, [], ◌∷◌, ◌++◌, ℕ, ℤ, List, None, OnOk, IfSome, IsTrue, MatchOption, Contains, codes, map};
ghost use Rattle.std.specs.Fmt.{signed_decimal};
ghost use Rattle.px_base.specs.declared.refusals.Trouble.TheVariants.{Refused};
ghost use Rattle.px_base.specs.declared.c_types.CType.TheVariants.{Long};
ghost use Rattle.px_base.specs.Troubles.{IfRefused};
ghost use Rattle.px_ctypes.specs.Types.{IsInRange};
ghost use Rattle.px_tree.specs.declared.expressions.Argument.{Argument};
ghost use Rattle.px_tree.specs.declared.expressions.ExprForm.TheVariants as form;
ghost use Rattle.px_tree.specs.declared.statements.Declarator.{Declarator};
ghost use Rattle.px_tree.specs.declared.statements.StmtForm.TheVariants as stmt_form;
ghost use Rattle.px_cli.specs.FirstRefusals.{unbuilt_refusal};
ghost use Rattle.px_cli.specs.FirstMeaning.{DeclaresOne, Does, IsCall, IsLong, Values, reserved_names};
ghost use Rattle.px_cli.specs.LineEnds.{with_line_end};
ghost use Rattle.px_cli.specs.KeptValues.{AreLongs, BeginsAs, IsTried, values_of};

use crate::expressions::value_of_sum;
use crate::variables::Variables;
use itoa::Buffer;
use px_base::{Bytes, CType, NoMemory, Refusal, Span, Trouble};
use px_tree::{
    Argument, BaseType, Declaration, Declarator, Expr, ExprForm, Stmt, StmtForm, Trailer, Type,
};

pub(crate) const MAIN: &[char] = &['m', 'a', 'i', 'n'];

const PRINT: &[char] = &['p', 'r', 'i', 'n', 't'];

const RESERVED: [&[char]; 14] = [
    MAIN,
    PRINT,
    &['i', 'n', 'p', 'u', 't'],
    &['l', 'e', 'n'],
    &['i', 'n', 't'],
    &['s', 't', 'r'],
    &['r', 'e', 'p', 'r'],
    &['b', 'o', 'o', 'l'],
    &['l', 'i', 's', 't'],
    &['t', 'u', 'p', 'l', 'e'],
    &['a', 'b', 's'],
    &['m', 'i', 'n'],
    &['m', 'a', 'x'],
    &['r', 'a', 'n', 'g', 'e'],
];

/// Whether a name is one of these.
fn is_one_of(names: &[&[char]], name: &[char]) -> bool
    ensures { IsTrue result ↔ Contains (map (λ found. found.now) names.now) name.now }
{
    names.contains(&name)
}

/// Whether no variable may have the name.
fn is_reserved(name: &[char]) -> bool
    ensures { IsTrue result ↔ Contains reserved_names name.now }
{
    is_one_of(&RESERVED, name)
}

/// Whether it is the type `long`.
fn is_long(typing: &Type) -> bool
    ensures { IsTrue result ↔ IsLong typing.now }
{
    !typing.is_const && typing.base == BaseType::C(CType::Long) && typing.axes.is_empty()
}

/// The variable that a declaration declares, where it is one of type `long` that isn't declared yet.
fn declarator_of<'a>(
    variables: &Variables<'_>,
    statement: &Stmt,
    declaration: &'a Declaration,
) -> Option<&'a Declarator>
    requires { statement.now.form ≡ stmt_form.Declare declaration.now }
    ensures { MatchOption result
        ((declarator : Declarator) → DeclaresOne (values_of variables.now) statement.now declarator → ⊥)
        (λ declarator. DeclaresOne (values_of variables.now) statement.now declarator.now) }
{
    if !is_long(&declaration.typing) {
        return None;
    }
    let Some(declarator) = only(declaration.names.as_slice()) else {
        return None;
    };
    let name = declarator.name.as_slice();
    if is_reserved(name) || variables.value(name).is_some() {
        return None;
    }
    Some(declarator)
}

/// The element of a list of one.
fn only<T>(items: &[T]) -> Option<&T>
    ensures { MatchOption result ((x : T) → items.now ≡ x ∷ [] → ⊥) (λ x. items.now ≡ x.now ∷ []) }
{
    if items.len() == 1 {
        items.first()
    } else {
        None
    }
}

/// Whether it is this name.
fn is_named(expr: &Expr, name: &[char]) -> bool
    ensures { IsTrue result ↔ (expr.now.form ≡ form.Name name.now) }
{
    match &expr.form {
        ExprForm::Name(found) => found.as_slice() == name,
        _ => false,
    }
}

/// The arguments of a call of this name.
pub(crate) fn arguments_of<'a>(name: &[char], call: &'a Expr) -> Option<&'a [Argument]>
    ensures { MatchOption result
        ((arguments : List Argument) → IsCall name.now call.now arguments → ⊥)
        (λ arguments. IsCall name.now call.now arguments.now) }
{
    let ExprForm::Row(called, trailers) = &call.form else {
        return None;
    };
    let Some(Trailer::Call(arguments)) = only(trailers.as_slice()) else {
        return None;
    };
    if is_named(called.get(), name) {
        Some(arguments.as_slice())
    } else {
        None
    }
}

/// The value that a declared variable begins with.
fn first_value(variables: &Variables<'_>, declarator: &Declarator) -> Option<i128>
    requires { AreLongs (values_of variables.now) }
    ensures value { MatchOption result
        ((value : ℤ) → BeginsAs (values_of variables.now) declarator.now value → ⊥)
        (BeginsAs (values_of variables.now) declarator.now) }
    ensures long { IfSome result (IsInRange Long) }
{
    match &declarator.value {
        None => Some(0),
        Some(given) => value_of_sum(variables, given),
    }
}

/// Declares a variable, and gives it its value.
fn declare<'a>(
    variables: &mut Variables<'a>,
    statement: &Stmt,
    declaration: &'a Declaration,
) -> Result<bool, NoMemory>
    requires stands { statement.now.form ≡ stmt_form.Declare declaration.now }
    requires longs { AreLongs (values_of variables.old) }
    ensures tried { (output : List ℕ) →
        IsTried (values_of variables.old) statement.now (values_of variables.new) output output result }
    ensures longs { OnOk result (AreLongs (values_of variables.new)) }
{
    let Some(declarator) = declarator_of(variables, statement, declaration) else {
        return Ok(false);
    };
    let Some(value) = first_value(variables, declarator) else {
        return Ok(false);
    };
    variables.set(declarator.name.as_slice(), value)?;
    Ok(true)
}

/// Gives a variable another value.
fn assign<'a>(
    variables: &mut Variables<'a>,
    statement: &Stmt,
    targets: &'a [Expr],
    given: &Expr,
) -> Result<bool, NoMemory>
    requires stands { statement.now.form ≡ stmt_form.Assign targets.now given.now }
    requires some { targets.now ≢ [] }
    requires longs { AreLongs (values_of variables.old) }
    ensures tried { (output : List ℕ) →
        IsTried (values_of variables.old) statement.now (values_of variables.new) output output result }
    ensures longs { OnOk result (AreLongs (values_of variables.new)) }
{
    let Some(target) = only(targets) else {
        return Ok(false);
    };
    let ExprForm::Name(name) = &target.form else {
        return Ok(false);
    };
    if variables.value(name.as_slice()).is_none() {
        return Ok(false);
    }
    let Some(value) = value_of_sum(variables, given) else {
        return Ok(false);
    };
    variables.set(name.as_slice(), value)?;
    Ok(true)
}

/// A decimal number and a line end, behind the output.
fn print_number(output: &mut Bytes, value: i128) -> Result<(), NoMemory>
    ensures { OnOk result (output.new ≡ output.old ++ with_line_end (signed_decimal value)) }
{
    let mut buffer = Buffer::new();
    output.extend_from_slice(buffer.format(value).as_bytes())?;
    output.push(b'\n')?;
    Ok(())
}

/// The argument of a call of `print`, where it has one without a name.
fn print_argument(call: &Expr) -> Option<&Argument>
    ensures { MatchOption result
        ((argument : Argument) → IsCall (codes "print") call.now (argument ∷ []) → argument.name ≡ None → ⊥)
        (λ argument. IsCall (codes "print") call.now (argument.now ∷ []) × (argument.now.name ≡ None)) }
{
    let Some(arguments) = arguments_of(PRINT, call) else {
        return None;
    };
    let Some(argument) = only(arguments) else {
        return None;
    };
    if argument.name.is_some() {
        None
    } else {
        Some(argument)
    }
}

/// Prints the value of a sum.
fn print(
    variables: &Variables<'_>,
    statement: &Stmt,
    call: &Expr,
    output: &mut Bytes,
) -> Result<bool, NoMemory>
    requires stands { statement.now.form ≡ stmt_form.Assign [] call.now }
    requires longs { AreLongs (values_of variables.now) }
    ensures { IsTried (values_of variables.now) statement.now (values_of variables.now) output.old output.new result }
{
    let Some(argument) = print_argument(call) else {
        return Ok(false);
    };
    let Some(value) = value_of_sum(variables, &argument.value) else {
        return Ok(false);
    };
    print_number(output, value)?;
    Ok(true)
}

/// Does a statement, if it is of the form that is built.
fn try_statement<'a>(
    variables: &mut Variables<'a>,
    statement: &'a Stmt,
    output: &mut Bytes,
) -> Result<bool, NoMemory>
    requires { AreLongs (values_of variables.old) }
    ensures tried { IsTried (values_of variables.old) statement.now (values_of variables.new) output.old output.new result }
    ensures longs { OnOk result (AreLongs (values_of variables.new)) }
{
    match &statement.form {
        StmtForm::Declare(declaration) => declare(variables, statement, declaration),
        StmtForm::Assign(targets, given) => {
            if targets.is_empty() {
                print(variables, statement, given, output)
            } else {
                assign(variables, statement, targets.as_slice(), given)
            }
        }
        _ => Ok(false),
    }
}

/// The refusal of what isn't built.
pub(crate) fn unbuilt_at(at: Span) -> Trouble
    ensures { result ≡ Refused (unbuilt_refusal at) }
{
    Trouble::Refused(Refusal {
        number: 27,
        line: at.line,
        column: at.column,
    })
}

/// Does a statement.
///
/// # Errors
/// E27 at its first token where it isn't of the form that is built; `NoMemory` where there is no memory for a variable or
/// the output.
pub(crate) fn run_statement<'a>(
    variables: &mut Variables<'a>,
    statement: &'a Stmt,
    output: &mut Bytes,
) -> Result<(), Trouble>
    requires { AreLongs (values_of variables.old) }
    ensures done { OnOk result ((printed : List ℕ) ×
        Does (values_of variables.old) statement.now (values_of variables.new) printed ×
        (output.new ≡ output.old ++ printed)) }
    ensures refused { IfRefused result (λ refusal.
        ((after : Values) (printed : List ℕ) → Does (values_of variables.old) statement.now after printed → ⊥) ×
        (refusal ≡ unbuilt_refusal statement.now.at)) }
    ensures longs { OnOk result (AreLongs (values_of variables.new)) }
{
    if try_statement(variables, statement, output)? {
        Ok(())
    } else {
        Err(unbuilt_at(statement.at))
    }
}
