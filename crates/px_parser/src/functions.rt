//! Functions (Python Language Reference, 8.7 Function definitions; Cython user guide, Language Basics, and Cython and the GIL).

ghost use Rattle.std.specs.Prelude.{◌≡◌, ◌<◌, List, ℕ, length, MatchResult};
ghost use Rattle.px_base.specs.declared.refusals.Span.{Span};
ghost use Rattle.px_lexer.specs.declared.spelling.Operator.TheVariants as sign;
ghost use Rattle.px_lexer.specs.declared.token_list.TokenKind.TheVariants as kind;
ghost use Rattle.px_lexer.specs.Terminals.{terminals_of, IsAt, IsName};
ghost use Rattle.px_exprs.specs.Runs.{nesting_limit};
ghost use Rattle.px_exprs.specs.Words.{IsStuckAt};
ghost use Rattle.px_exprs.specs.declared.readings.Unread.TheVariants.{NoMemory};
ghost use Rattle.px_parser.specs.Ends.{EndsParameter, EndsDecorators, EndsException, EndsName, IsBefore};
ghost use Rattle.px_parser.specs.Listings.{IsListing};
ghost use Rattle.px_parser.specs.ModuleGrammar.{Truth, DecoratorLine, NotNone, Parameter, Parameters, Exception, LockForm, Tail, Rest, FunctionForm, function_of};
ghost use Rattle.px_parser.specs.Parts.{HeadRead, CHeadRead, Caught};
ghost use Rattle.px_parser.specs.Readings.{Reads, ReadsFlat, ReadsTokens, Anywhere};
ghost use Rattle.px_parser.specs.Shapes.{Many};

use crate::blocks::block;
use crate::exprs::{NESTING_LIMIT, expr};
use crate::names::names;
use crate::readings::Found;
use crate::typed::{maybe_typed_name, result_name};
use crate::words::{keyword, newline, operator, soft};
use px_base::Sequence;
use px_exprs::readings::Unread;
use px_exprs::words::{is_word, name};
use px_lexer::access::{is_keyword, is_name, is_operator, place};
use px_lexer::{Keyword, Operator, Tokens};
use px_tree::{
    Decorator, Decorators, ExceptionForm, Function, FunctionKind, FunctionName, Lock, Param,
    Params, ResultType, Stmt,
};
use sqlite_items::{Boxed, Items};
use std::alloc::Global;

/// The word that a function begins with, whether it is inline, what it gives, and the index of its name.
pub(crate) type Head = (FunctionKind, (bool, (ResultType, usize)));

/// The parameters of a function, what it says of exceptions and the lock, and its body.
pub(crate) type FunctionRest = (Params, ((Boxed<ExceptionForm>, Lock), Items<Stmt>));

/// `True` or `False`.
///
/// # Errors
/// `Stuck` where neither stands there.
fn truth(tokens: &Tokens, from: usize) -> Result<Found<bool>, Unread>
    requires input { IsListing tokens.now }
    requires inside { from < length tokens.now.list }
    ensures { ReadsTokens Truth Anywhere (terminals_of tokens.now) from result }
{
    if is_keyword(tokens, from, Keyword::True) {
        Ok(Found {
            tree: true,
            to: from + 1,
        })
    } else if is_keyword(tokens, from, Keyword::False) {
        Ok(Found {
            tree: false,
            to: from + 1,
        })
    } else {
        Err(Unread::Stuck(from))
    }
}

/// The decorator from an index on.
///
/// # Errors
/// `Stuck` at the first token with which none begins; `NoMemory` where there is no memory for it.
fn decorator(alloc: Global, tokens: &Tokens, from: usize) -> Result<Found<Decorator>, Unread>
    requires input { IsListing tokens.now }
    requires inside { from < length tokens.now.list }
    ensures { ReadsFlat DecoratorLine Anywhere (terminals_of tokens.now) from result }
{
    let sign = operator(tokens, from, Operator::At)?;
    let name = names(alloc, tokens, sign.to, Operator::Point)?;
    let opening = operator(tokens, name.to, Operator::OpenParenthesis)?;
    let value = truth(tokens, opening.to)?;
    let closing = operator(tokens, value.to, Operator::CloseParenthesis)?;
    let end = newline(tokens, closing.to)?;
    Ok(Found {
        tree: Decorator {
            number: from as u32,
            at: place(tokens, from),
            name: name.tree,
            name_at: place(tokens, sign.to),
            value: value.tree,
        },
        to: end.to,
    })
}

/// The decorators from an index on, perhaps none.
///
/// # Errors
/// As `decorator`.
fn decorators(alloc: Global, tokens: &Tokens, from: usize) -> Result<Found<Decorators>, Unread>
    requires input { IsListing tokens.now }
    requires inside { from < length tokens.now.list }
    ensures { ReadsFlat (Many DecoratorLine) EndsDecorators (terminals_of tokens.now) from result }
{
    let mut tree = Sequence::new(alloc);
    let mut to = from;
    while is_operator(tokens, to, Operator::At) {
        let next = decorator(alloc, tokens, to)?;
        tree.push(next.tree)?;
        to = next.to;
    }
    Ok(Found { tree, to })
}

/// Whether `not None` stands at an index, where a parameter ends behind it.
///
/// # Errors
/// `Stuck` where neither it nor the end of a parameter stands there.
fn not_none(tokens: &Tokens, from: usize) -> Result<Found<bool>, Unread>
    requires input { IsListing tokens.now }
    requires inside { from < length tokens.now.list }
    ensures { ReadsTokens NotNone EndsParameter (terminals_of tokens.now) from result }
{
    if !is_keyword(tokens, from, Keyword::Not) {
        return keep_before_end(tokens, false, from);
    }
    let word = keyword(tokens, from + 1, Keyword::None)?;
    keep_before_end(tokens, true, word.to)
}

/// What was read of a parameter, where it ends.
///
/// # Errors
/// `Stuck` where it doesn't.
fn keep_before_end(tokens: &Tokens, tree: bool, to: usize) -> Result<Found<bool>, Unread>
    ensures { MatchResult result
        (λ found. (found.tree ≡ tree) × (found.to ≡ to) × EndsParameter (terminals_of tokens.now) to)
        (λ unread. IsStuckAt to unread × (EndsParameter (terminals_of tokens.now) to → ⊥)) }
{
    if is_operator(tokens, to, Operator::Comma)
        || is_operator(tokens, to, Operator::CloseParenthesis)
    {
        Ok(Found { tree, to })
    } else {
        Err(Unread::Stuck(to))
    }
}

/// The parameter from an index on.
///
/// # Errors
/// `Stuck` at the first token with which none begins; `NoMemory` where there is no memory for it.
fn parameter(alloc: Global, tokens: &Tokens, from: usize) -> Result<Found<Param>, Unread>
    requires input { IsListing tokens.now }
    requires inside { from < length tokens.now.list }
    ensures { ReadsFlat Parameter EndsParameter (terminals_of tokens.now) from result }
{
    let head = maybe_typed_name(alloc, tokens, from)?;
    let behind = not_none(tokens, head.to)?;
    let number = head.tree.1;
    Ok(Found {
        tree: Param {
            number: number as u32,
            at: place(tokens, from),
            typing: head.tree.0,
            name: name(alloc, tokens, number)?,
            is_not_none: behind.tree,
        },
        to: behind.to,
    })
}

/// The parameters from an index on, perhaps none, up to the closing bracket.
///
/// # Errors
/// As `parameter`.
fn parameters(alloc: Global, tokens: &Tokens, from: usize) -> Result<Found<Params>, Unread>
    requires input { IsListing tokens.now }
    requires inside { from < length tokens.now.list }
    ensures { ReadsFlat Parameters (IsBefore (kind.Operator sign.CloseParenthesis)) (terminals_of tokens.now) from result }
{
    let mut tree = Sequence::new(alloc);
    let mut to = from;
    while !is_operator(tokens, to, Operator::CloseParenthesis) {
        let next = parameter(alloc, tokens, to)?;
        tree.push(next.tree)?;
        if is_operator(tokens, next.to, Operator::CloseParenthesis) {
            return Ok(Found { tree, to: next.to });
        }
        to = next.to + 1;
    }
    Ok(Found { tree, to })
}

/// What stands behind `except`.
///
/// # Errors
/// As `rest`.
fn exception_form(
    alloc: Global,
    tokens: &Tokens,
    from: usize,
) -> Result<Found<ExceptionForm>, Unread>
    requires input { IsListing tokens.now }
    requires inside { from < length tokens.now.list }
    ensures { ReadsFlat Caught EndsException (terminals_of tokens.now) from result }
{
    if is_operator(tokens, from, Operator::Star) {
        return says(tokens, ExceptionForm::Any, from + 1);
    }
    if is_operator(tokens, from, Operator::Question) {
        let value = expr(alloc, tokens, from + 1)?;
        return says(tokens, ExceptionForm::Maybe(value.tree), value.to);
    }
    let value = expr(alloc, tokens, from)?;
    says(tokens, ExceptionForm::Except(value.tree), value.to)
}

/// What was read of exceptions, where what a function says of the lock may stand behind it.
///
/// # Errors
/// `Stuck` where neither that nor a `:` stands there.
fn says<T: Drop>(tokens: &Tokens, tree: T, to: usize) -> Result<Found<T>, Unread>
    requires { IsListing tokens.now }
    ensures { MatchResult result
        (λ found. (found.tree ≡ tree) × (found.to ≡ to) × EndsException (terminals_of tokens.now) to)
        (λ unread. IsStuckAt to unread × (EndsException (terminals_of tokens.now) to → ⊥)) }
{
    if is_word(tokens, to, b"nogil")
        || is_keyword(tokens, to, Keyword::With)
        || is_operator(tokens, to, Operator::Colon)
    {
        Ok(Found { tree, to })
    } else {
        Err(Unread::Stuck(to))
    }
}

/// What a function says of exceptions.
///
/// # Errors
/// As `rest`.
fn exception(alloc: Global, tokens: &Tokens, from: usize) -> Result<Found<ExceptionForm>, Unread>
    requires input { IsListing tokens.now }
    requires inside { from < length tokens.now.list }
    ensures { ReadsFlat Exception EndsException (terminals_of tokens.now) from result }
{
    if is_keyword(tokens, from, Keyword::Except) {
        return exception_form(alloc, tokens, from + 1);
    }
    if is_word(tokens, from, b"noexcept") {
        return says(tokens, ExceptionForm::Noexcept, from + 1);
    }
    says(tokens, ExceptionForm::Unwritten, from)
}

/// What a function says of the lock, up to its `:`.
///
/// # Errors
/// `Stuck` at the first token with which nothing of it begins.
fn lock_form(tokens: &Tokens, from: usize) -> Result<Found<Lock>, Unread>
    requires input { IsListing tokens.now }
    requires inside { from < length tokens.now.list }
    ensures { ReadsTokens LockForm (IsBefore (kind.Operator sign.Colon)) (terminals_of tokens.now) from result }
{
    let (tree, to) = if is_word(tokens, from, b"nogil") {
        (Lock::Nogil, from + 1)
    } else if is_keyword(tokens, from, Keyword::With) {
        let word = soft(tokens, from + 1, b"gil")?;
        (Lock::WithGil, word.to)
    } else {
        (Lock::Unwritten, from)
    };
    if is_operator(tokens, to, Operator::Colon) {
        Ok(Found { tree, to })
    } else {
        Err(Unread::Stuck(to))
    }
}

/// What stands between the parameters of a function and its `:`.
///
/// # Errors
/// As `rest`.
fn tail(
    alloc: Global,
    tokens: &Tokens,
    from: usize,
    which: FunctionKind,
) -> Result<Found<(Boxed<ExceptionForm>, Lock)>, Unread>
    requires input { IsListing tokens.now }
    requires inside { from < length tokens.now.list }
    ensures { ReadsFlat (Tail which) (IsBefore (kind.Operator sign.Colon)) (terminals_of tokens.now) from result }
{
    if which == FunctionKind::Def {
        if is_operator(tokens, from, Operator::Colon) {
            let unwritten = Boxed::new(alloc, ExceptionForm::Unwritten)?;
            return Ok(Found {
                tree: (unwritten, Lock::Unwritten),
                to: from,
            });
        }
        return Err(Unread::Stuck(from));
    }
    let exception = exception(alloc, tokens, from)?;
    let exception_to = exception.to;
    let exception_tree = Boxed::new(alloc, exception.tree)?;
    let lock = lock_form(tokens, exception_to)?;
    Ok(Found {
        tree: (exception_tree, lock.tree),
        to: lock.to,
    })
}

/// What stands behind the name of a function.
///
/// # Errors
/// `Stuck` or `TooDeep` at the first such token; `NoMemory` where there is no memory for the tree.
pub(crate) fn rest(
    alloc: Global,
    tokens: &Tokens,
    from: usize,
    kind: FunctionKind,
) -> Result<Found<FunctionRest>, Unread>
    requires input { IsListing tokens.now }
    requires inside { from < length tokens.now.list }
    ensures { Reads (Rest kind) Anywhere (terminals_of tokens.now) from nesting_limit result }
{
    let opening = operator(tokens, from, Operator::OpenParenthesis)?;
    let params = parameters(alloc, tokens, opening.to)?;
    let closing = operator(tokens, params.to, Operator::CloseParenthesis)?;
    let tail = tail(alloc, tokens, closing.to, kind)?;
    let colon = operator(tokens, tail.to, Operator::Colon)?;
    let body = block(alloc, tokens, NESTING_LIMIT, colon.to)?;
    Ok(Found {
        tree: (params.tree, (tail.tree, body.tree)),
        to: body.to,
    })
}

/// The head of a function from its `def`, `cdef` or `cpdef` on, up to its opening bracket.
///
/// # Errors
/// `Stuck` at the first token with which none begins; `NoMemory` where there is no memory for it.
fn head(alloc: Global, tokens: &Tokens, from: usize) -> Result<Found<Head>, Unread>
    requires input { IsListing tokens.now }
    requires inside { from < length tokens.now.list }
    ensures { ReadsFlat HeadRead (IsBefore (kind.Operator sign.OpenParenthesis)) (terminals_of tokens.now) from result }
{
    let (tree, to) = if is_keyword(tokens, from, Keyword::Def) {
        if !is_name(tokens, from + 1) {
            return Err(Unread::Stuck(from + 1));
        }
        let gives = (ResultType::Unwritten, from + 1);
        ((FunctionKind::Def, (false, gives)), from + 2)
    } else {
        let found = c_head(alloc, tokens, from)?;
        (found.tree, found.to)
    };
    if is_operator(tokens, to, Operator::OpenParenthesis) {
        Ok(Found { tree, to })
    } else {
        Err(Unread::Stuck(to))
    }
}

/// The head of a function from its `cdef` or `cpdef` on.
///
/// # Errors
/// As `head`.
fn c_head(alloc: Global, tokens: &Tokens, from: usize) -> Result<Found<Head>, Unread>
    requires input { IsListing tokens.now }
    requires inside { from < length tokens.now.list }
    ensures { ReadsFlat CHeadRead EndsName (terminals_of tokens.now) from result }
{
    let kind = if is_keyword(tokens, from, Keyword::Cdef) {
        FunctionKind::Cdef
    } else if is_keyword(tokens, from, Keyword::Cpdef) {
        FunctionKind::Cpdef
    } else {
        return Err(Unread::Stuck(from));
    };
    let is_inline = is_keyword(tokens, from + 1, Keyword::Inline);
    let gives_from = if is_inline { from + 2 } else { from + 1 };
    let gives = result_name(alloc, tokens, gives_from)?;
    Ok(Found {
        tree: (kind, (is_inline, gives.tree)),
        to: gives.to,
    })
}

/// The function with these parts: its first token, its decorators, its head, and the rest.
///
/// # Errors
/// `NoMemory` where there is no memory for its name.
pub(crate) fn function_with(
    alloc: Global,
    tokens: &Tokens,
    at: usize,
    decorators: Decorators,
    header: usize,
    head: Head,
    rest: FunctionRest,
) -> Result<Function, Unread>
    requires input { IsListing tokens.now }
    requires inside { at < length tokens.now.list }
    requires headed { header < length tokens.now.list }
    requires named { (spelled : List ℕ) × IsName (terminals_of tokens.now) head.1.1.1 spelled }
    ensures { MatchResult result
        (λ made. (span : Span) × (header_span : Span) × (spelled : List ℕ) × IsAt (terminals_of tokens.now) at span × IsAt (terminals_of tokens.now) header header_span
        × IsName (terminals_of tokens.now) head.1.1.1 spelled × (made ≡ function_of span decorators header_span (head.0, (head.1.0, (head.1.1.0, (head.1.1.1, spelled)))) rest))
        (λ unread. unread ≡ NoMemory) }
{
    let (kind, (is_inline, (gives, number))) = head;
    let (params, ((exception, lock), body)) = rest;
    let Some(name) = FunctionName::new(name(alloc, tokens, number)?) else {
        unreachable!()
    };
    Ok(Function {
        number: number as u32,
        at: place(tokens, at),
        header_at: place(tokens, header),
        decorators,
        kind,
        is_inline,
        gives,
        name,
        params,
        exception: exception.into_inner(),
        lock,
        body,
    })
}

/// The function from an index on, its decorators included.
///
/// # Errors
/// As `rest`.
pub(crate) fn function(
    alloc: Global,
    tokens: &Tokens,
    from: usize,
) -> Result<Found<Function>, Unread>
    requires input { IsListing tokens.now }
    requires inside { from < length tokens.now.list }
    ensures { Reads FunctionForm Anywhere (terminals_of tokens.now) from nesting_limit result }
{
    let decorators = decorators(alloc, tokens, from)?;
    let head = head(alloc, tokens, decorators.to)?;
    let rest = rest(alloc, tokens, head.to, head.tree.0)?;
    let tree = function_with(
        alloc,
        tokens,
        from,
        decorators.tree,
        decorators.to,
        head.tree,
        rest.tree,
    )?;
    Ok(Found { tree, to: rest.to })
}
