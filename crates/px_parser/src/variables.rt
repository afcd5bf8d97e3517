//! Declarations of variables (Cython user guide, Language Basics).

ghost use Rattle.std.specs.Prelude.{◌≡◌, ◌<◌, ◌∷◌, List, ℕ, length, IfOk, MatchResult};
ghost use Rattle.px_base.specs.declared.refusals.Span.{Span};
ghost use Rattle.px_lexer.specs.declared.token_list.TokenKind.TheVariants as kind;
ghost use Rattle.px_lexer.specs.Terminals.{terminals_of, IsAt, IsName};
ghost use Rattle.px_exprs.specs.Words.{IsStuckAt};
ghost use Rattle.px_parser.specs.Ends.{EndsDecl, IsBefore};
ghost use Rattle.px_parser.specs.Listings.{IsListing};
ghost use Rattle.px_parser.specs.Parts.{DeclRest};
ghost use Rattle.px_parser.specs.Readings.{ReadsFlat, Anywhere};
ghost use Rattle.px_parser.specs.Shapes.{After, Maybe, Several};
ghost use Rattle.px_parser.specs.StatementGrammar.{IsWithinLimit, Decl, Declared, DeclareLine, GroupLine, DeclareGroup, Declare, declaration_of, statement_node};
ghost use Rattle.px_tree.specs.declared.statements.StmtForm.TheVariants as statement;
ghost use Rattle.px_exprs.specs.declared.readings.Unread.TheVariants.{NoMemory};
ghost use Rattle.px_lexer.specs.declared.spelling.Operator.TheVariants as sign;

use crate::exprs::expr;
use crate::readings::Found;
use crate::typed::typed_name;
use crate::words::{dedent, identifier, indent, is_dedent, is_newline, keyword, newline, operator};
use px_exprs::readings::Unread;
use px_exprs::words::name;
use px_lexer::access::{is_operator, place};
use px_lexer::{Keyword, Operator, Tokens};
use px_tree::{Declaration, Declarator, Expr, Stmt, StmtForm, Type, room_for_one};
use sqlite_items::{Boxed, Items};
use std::alloc::Global;

/// A type, the variables that are declared with it, and the index of the NEWLINE behind them.
pub(crate) type Variables = (Type, (Items<Declarator>, usize));

/// The value that a declared variable is given, if there is one, where another variable or the end of the line stands behind it.
///
/// # Errors
/// `Stuck` or `TooDeep` at the first such token; `NoMemory` where there is no memory for the value.
fn initial_value(
    alloc: Global,
    tokens: &Tokens,
    from: usize,
) -> Result<Found<Option<Boxed<Expr>>>, Unread>
    requires input { IsListing tokens.now }
    requires inside { from < length tokens.now.list }
    ensures { ReadsFlat (Maybe (After (kind.Operator sign.Equal) IsWithinLimit)) EndsDecl (terminals_of tokens.now) from result }
{
    if !is_operator(tokens, from, Operator::Equal) {
        return keep_before_end(tokens, None, from);
    }
    let value = expr(alloc, tokens, from + 1)?;
    let value_to = value.to;
    let value_tree = Boxed::new(alloc, value.tree)?;
    keep_before_end(tokens, Some(value_tree), value_to)
}

/// A value that was read, where another variable or the end of the line stands behind it.
///
/// # Errors
/// `Stuck` where neither does.
fn keep_before_end(
    tokens: &Tokens,
    tree: Option<Boxed<Expr>>,
    to: usize,
) -> Result<Found<Option<Boxed<Expr>>>, Unread>
    ensures { MatchResult result
        (λ found. (found.tree ≡ tree) × (found.to ≡ to) × EndsDecl (terminals_of tokens.now) to)
        (λ unread. IsStuckAt to unread × (EndsDecl (terminals_of tokens.now) to → ⊥)) }
{
    if is_operator(tokens, to, Operator::Comma) || is_newline(tokens, to) {
        Ok(Found { tree, to })
    } else {
        Err(Unread::Stuck(to))
    }
}

/// A value without the box in which it was held while what stands behind it was read.
fn unbox(value: Option<Boxed<Expr>>) -> Option<Expr>
    ensures { result ≡ value }
{
    match value {
        Some(value) => Some(value.into_inner()),
        None => None,
    }
}

/// The declared variable from an index on.
///
/// # Errors
/// As `declared`.
fn decl(alloc: Global, tokens: &Tokens, from: usize) -> Result<Found<Declarator>, Unread>
    requires input { IsListing tokens.now }
    requires inside { from < length tokens.now.list }
    ensures { ReadsFlat Decl EndsDecl (terminals_of tokens.now) from result }
{
    let name = identifier(alloc, tokens, from)?;
    let value = initial_value(alloc, tokens, name.to)?;
    Ok(Found {
        tree: Declarator {
            number: from as u32,
            at: place(tokens, from),
            name: name.tree,
            value: unbox(value.tree),
        },
        to: value.to,
    })
}

/// What stands behind the first name of a declaration: its value, the other variables, and the index of the NEWLINE.
///
/// # Errors
/// As `declared`.
pub(crate) fn decl_rest(
    alloc: Global,
    tokens: &Tokens,
    from: usize,
) -> Result<Found<(Option<Boxed<Expr>>, (Items<Declarator>, usize))>, Unread>
    requires input { IsListing tokens.now }
    requires inside { from < length tokens.now.list }
    ensures { ReadsFlat DeclRest Anywhere (terminals_of tokens.now) from result }
{
    let value = initial_value(alloc, tokens, from)?;
    let mut others = Items::new(alloc);
    let mut to = value.to;
    while is_operator(tokens, to, Operator::Comma) {
        let next = decl(alloc, tokens, to + 1)?;
        others.push(next.tree)?;
        to = next.to;
    }
    let end = newline(tokens, to)?;
    Ok(Found {
        tree: (value.tree, (others, to)),
        to: end.to,
    })
}

/// The variables of a declaration: the one whose name has an index, with its value, and others.
///
/// # Errors
/// `NoMemory` where there is no memory for them.
pub(crate) fn variables(
    alloc: Global,
    tokens: &Tokens,
    number: usize,
    value: Option<Boxed<Expr>>,
    others: Items<Declarator>,
) -> Result<Items<Declarator>, Unread>
    requires input { IsListing tokens.now }
    requires named { (spelled : List ℕ) × IsName (terminals_of tokens.now) number spelled }
    ensures { MatchResult result
        (λ all. (at : Span) × (spelled : List ℕ) × IsAt (terminals_of tokens.now) number at × IsName (terminals_of tokens.now) number spelled
        × (all ≡ record { number = number; at = at; name = spelled; value = value } ∷ others))
        (λ unread. unread ≡ NoMemory) }
{
    let mut all = room_for_one(alloc)?;
    all.push(Declarator {
        number: number as u32,
        at: place(tokens, number),
        name: name(alloc, tokens, number)?,
        value: unbox(value),
    })?;
    all.append(others)?;
    Ok(all)
}

/// The declaration from its type on.
///
/// # Errors
/// `Stuck` at the first token with which none begins; `TooDeep` where an expression is nested too deep; `NoMemory` where there is
/// no memory for the tree.
fn declared_variables(
    alloc: Global,
    tokens: &Tokens,
    from: usize,
) -> Result<Found<Variables>, Unread>
    requires input { IsListing tokens.now }
    requires inside { from < length tokens.now.list }
    ensures { ReadsFlat Declared Anywhere (terminals_of tokens.now) from result }
{
    let Found {
        tree: (typing, number),
        to: behind,
    } = typed_name(alloc, tokens, from)?;
    let Found {
        tree: (value, (others, end)),
        to,
    } = decl_rest(alloc, tokens, behind)?;
    let names = variables(alloc, tokens, number, value, others)?;
    Ok(Found {
        tree: (typing, (names, end)),
        to,
    })
}

/// The declaration with this number, at an index.
pub(crate) fn declaration(
    tokens: &Tokens,
    number: usize,
    at: usize,
    found: Variables,
) -> Declaration
    requires input { IsListing tokens.now }
    requires inside { at < length tokens.now.list }
    requires small { number < 4294967296 }
    ensures { (span : Span) × IsAt (terminals_of tokens.now) at span × (result ≡ declaration_of number span found) }
{
    let (typing, (names, _)) = found;
    Declaration {
        number: number as u32,
        at: place(tokens, at),
        typing,
        names,
    }
}

/// The statement that declares these variables, at an index.
pub(crate) fn declare_node(tokens: &Tokens, at: usize, found: Variables) -> Stmt
    requires input { IsListing tokens.now }
    requires inside { at < length tokens.now.list }
    requires small { found.1.1 < 4294967296 }
    ensures { (span : Span) × IsAt (terminals_of tokens.now) at span × (result ≡ statement_node found.1.1 span (statement.Declare (declaration_of at span found))) }
{
    Stmt {
        number: found.1.1 as u32,
        at: place(tokens, at),
        form: StmtForm::Declare(declaration(tokens, at, at, found)),
    }
}

/// A `cdef` line.
///
/// # Errors
/// As `declared`.
fn declare_line(alloc: Global, tokens: &Tokens, from: usize) -> Result<Found<Stmt>, Unread>
    requires input { IsListing tokens.now }
    requires inside { from < length tokens.now.list }
    ensures { ReadsFlat DeclareLine Anywhere (terminals_of tokens.now) from result }
{
    let word = keyword(tokens, from, Keyword::Cdef)?;
    let found = declared_variables(alloc, tokens, word.to)?;
    Ok(Found {
        tree: declare_node(tokens, from, found.tree),
        to: found.to,
    })
}

/// The lines of a `cdef:` group, one or more.
///
/// # Errors
/// As `declared`.
fn group_lines(
    alloc: Global,
    tokens: &Tokens,
    from: usize,
) -> Result<Found<Items<Declaration>>, Unread>
    requires input { IsListing tokens.now }
    requires inside { from < length tokens.now.list }
    ensures { ReadsFlat (Several GroupLine) (IsBefore kind.Dedent) (terminals_of tokens.now) from result }
{
    let mut tree = Items::new(alloc);
    let first = declared_variables(alloc, tokens, from)?;
    tree.push(declaration(tokens, first.tree.1.1, from, first.tree))?;
    let mut to = first.to;
    while !is_dedent(tokens, to) {
        let next = declared_variables(alloc, tokens, to)?;
        tree.push(declaration(tokens, next.tree.1.1, to, next.tree))?;
        to = next.to;
    }
    Ok(Found { tree, to })
}

/// A `cdef:` group.
///
/// # Errors
/// As `declared`.
fn declare_group(alloc: Global, tokens: &Tokens, from: usize) -> Result<Found<Stmt>, Unread>
    requires input { IsListing tokens.now }
    requires inside { from < length tokens.now.list }
    ensures { ReadsFlat DeclareGroup Anywhere (terminals_of tokens.now) from result }
{
    let word = keyword(tokens, from, Keyword::Cdef)?;
    let colon = operator(tokens, word.to, Operator::Colon)?;
    let end = newline(tokens, colon.to)?;
    let deeper = indent(tokens, end.to)?;
    let lines = group_lines(alloc, tokens, deeper.to)?;
    let closing = dedent(tokens, lines.to)?;
    Ok(Found {
        tree: Stmt {
            number: word.to as u32,
            at: place(tokens, from),
            form: StmtForm::DeclareGroup(lines.tree),
        },
        to: closing.to,
    })
}

/// The `cdef` line or group from an index on.
///
/// # Errors
/// As `declared`.
pub(crate) fn declare(alloc: Global, tokens: &Tokens, from: usize) -> Result<Found<Stmt>, Unread>
    requires input { IsListing tokens.now }
    requires inside { from < length tokens.now.list }
    ensures { ReadsFlat Declare Anywhere (terminals_of tokens.now) from result }
{
    if is_operator(tokens, from + 1, Operator::Colon) {
        declare_group(alloc, tokens, from)
    } else {
        declare_line(alloc, tokens, from)
    }
}
