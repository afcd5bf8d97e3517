//! What the calls of a row break.

ghost use Rattle.std.specs.Prelude.{◌≡◌, drop, IfOk};
ghost use Rattle.std.specs.List.{concat};
ghost use Rattle.px_walk.specs.HeadForms.{form_of};
ghost use Rattle.px_walk.specs.Nodes.{rose_of};
ghost use Rattle.px_walk.specs.Roses.{at_of, parts_of};
ghost use Rattle.px_names.specs.Tables.{is_among};
ghost use Rattle.px_names.specs.Uses.{unless, is_call, called_behind, call_refusal, calls_refusal, schedules, is_truth_literal, is_schedule, is_literal_for, value_refusal, values_refusal};

use crate::arguments::{is_keyword_wrong, is_number_wrong, keyword_of};
use crate::callees::Callee;
use crate::texts::{is_joined, is_spelled};
use crate::words::method_named;
use px_base::{Chars, NoMemory, Refusal, Span, earlier};
use px_walk::{Head, Node, TreeNode};
use std::alloc::Global;

/// A broken rule at a place, unless what it asks for holds.
pub(crate) fn unless(holds: bool, number: u8, at: Span) -> Option<Refusal>
    ensures { result ≡ unless holds number at }
{
    if holds {
        return None;
    }
    Some(Refusal {
        number,
        line: at.line,
        column: at.column,
    })
}

/// What a call calls directly behind a trailer: a method by its name, and else a value.
fn called_behind(trailer: Head<'_>) -> Callee
    ensures { result ≡ called_behind (form_of trailer.entry) }
{
    match trailer {
        Head::Attribute(name) => Callee::Method(method_named(name)),
        _ => Callee::Value,
    }
}

/// Whether a trailer is a call.
pub fn is_call(trailer: Head<'_>) -> bool
    ensures { result ≡ is_call (form_of trailer.entry) }
{
    match trailer {
        Head::Call => true,
        _ => false,
    }
}

/// What a trailer breaks where it is a call.
fn call_refusal(
    alloc: Global,
    at: Span,
    callee: Callee,
    trailer: TreeNode<'_>,
) -> Result<Option<Refusal>, NoMemory>
    ensures { IfOk result (λ found. found ≡ call_refusal at callee (rose_of trailer.entry)) }
{
    if !is_call(trailer.head()) {
        return Ok(None);
    }
    let is_wrong = is_number_wrong(alloc, callee, trailer)?;
    let number = unless(!is_wrong, 13, at);
    Ok(earlier(number, unless(!is_keyword_wrong(callee, trailer), 27, at)))
}

/// What the calls of a row break from a part on, which calls this where it is a call.
///
/// # Errors
/// `NoMemory` where there is no memory for the keywords of a call.
pub(crate) fn calls_refusal(
    alloc: Global,
    callee: Callee,
    row: TreeNode<'_>,
    from: usize,
) -> Result<Option<Refusal>, NoMemory>
    ensures { IfOk result (λ found. found ≡
        calls_refusal (at_of (rose_of row.entry)) callee (drop from (parts_of (rose_of row.entry)))) }
{
    let at = row.at();
    let mut first = None;
    let mut callee = callee;
    for k in from..row.count() {
        let trailer = row.part(k);
        let found = call_refusal(alloc, at, callee, trailer)?;
        first = earlier(first, found);
        callee = called_behind(trailer.head());
    }
    Ok(first)
}

/// Whether adjacent strings are one of the schedules.
fn is_schedule_text(contents: &[Chars]) -> bool
    ensures { result ≡ is_among schedules (concat contents.now) }
{
    is_joined(contents, b"static")
        || is_joined(contents, b"dynamic")
        || is_joined(contents, b"guided")
}

/// Whether an expression is one of the schedules, or None.
fn is_schedule(value: Head<'_>) -> bool
    ensures { result ≡ is_schedule (form_of value.entry) }
{
    match value {
        Head::None => true,
        Head::Text(contents) => is_schedule_text(contents),
        _ => false,
    }
}

/// Whether an expression is True or False.
fn is_truth_literal(value: Head<'_>) -> bool
    ensures { result ≡ is_truth_literal (form_of value.entry) }
{
    match value {
        Head::True => true,
        Head::False => true,
        _ => false,
    }
}

/// Whether an argument of prange of that keyword may have the value.
fn is_literal_for(name: &[char], value: Head<'_>) -> bool
    ensures { result ≡ is_literal_for name.now (form_of value.entry) }
{
    if is_spelled(name, b"nogil") {
        is_truth_literal(value)
    } else if is_spelled(name, b"schedule") {
        is_schedule(value)
    } else {
        true
    }
}

/// What an argument of prange breaks, at its value.
fn value_refusal(argument: TreeNode<'_>) -> Option<Refusal>
    ensures { result ≡ value_refusal (rose_of argument.entry) }
{
    match (keyword_of(argument.head()), argument.get(0)) {
        (Some(name), Some(value)) => {
            unless(is_literal_for(name, value.head()), 27, argument.at())
        }
        _ => None,
    }
}

/// What the arguments of a call of prange break.
pub(crate) fn values_refusal(call: TreeNode<'_>) -> Option<Refusal>
    ensures { result ≡ values_refusal (parts_of (rose_of call.entry)) }
{
    let mut first = None;
    for k in 0..call.count() {
        first = earlier(first, value_refusal(call.part(k)));
    }
    first
}
