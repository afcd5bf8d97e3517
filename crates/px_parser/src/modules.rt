//! What stands in a module (Python Language Reference, 9.2 File input).

ghost use Rattle.std.specs.Prelude.{◌≡◌, ◌<◌, ◌⊎◌, ◌↔◌, [], ◌∷◌, ◌++◌, map, length, IsTrue, MatchResult};
ghost use Rattle.px_lexer.specs.declared.spelling.Keyword.TheVariants as word;
ghost use Rattle.px_lexer.specs.declared.spelling.Operator.TheVariants as sign;
ghost use Rattle.px_lexer.specs.declared.token_list.TokenKind.TheVariants as kind;
ghost use Rattle.px_lexer.specs.Terminals.{terminals_of, IsKeyword, IsOperator};
ghost use Rattle.px_exprs.specs.Runs.{nesting_limit};
ghost use Rattle.px_exprs.specs.declared.readings.Unread.TheVariants.{NoMemory};
ghost use Rattle.px_tree.specs.declared.modules.ModuleItem.TheVariants as module_item;
ghost use Rattle.px_parser.specs.Ends.{EndsArms, IsBefore};
ghost use Rattle.px_parser.specs.Listings.{IsListing};
ghost use Rattle.px_parser.specs.ModuleGrammar.{Item};
ghost use Rattle.px_parser.specs.Parts.{CItem, ItemsRead};
ghost use Rattle.px_parser.specs.Readings.{Reads, Anywhere};

use crate::blocks::{gone_on, statement};
use crate::functions::{function, function_with, rest};
use crate::imports::import_line;
use crate::readings::Found;
use crate::typed::result_name;
use crate::variables::{decl_rest, declare, declare_node, variables};
use crate::words::{is_end, is_newline};
use px_base::Sequence;
use px_exprs::readings::Unread;
use px_lexer::access::{is_keyword, is_operator};
use px_lexer::{Keyword, Operator, Tokens};
use px_tree::{Function, FunctionKind, ModuleItem, ModuleItems, ResultType, Stmt};
use sqlite_items::{Boxed, Items};
use std::alloc::Global;

/// One item.
fn one(alloc: Global, item: ModuleItem) -> Result<ModuleItems, Unread>
    ensures { MatchResult result (λ all. all ≡ item ∷ []) (λ unread. unread ≡ NoMemory) }
{
    let mut all = Sequence::new(alloc);
    all.push(item)?;
    Ok(all)
}

/// A function as the one item.
fn one_function(alloc: Global, function: Function) -> Result<ModuleItems, Unread>
    ensures { MatchResult result (λ all. all ≡ module_item.Function function ∷ []) (λ unread. unread ≡ NoMemory) }
{
    one(alloc, ModuleItem::Function(Boxed::new(alloc, function)?))
}

/// Items, and more behind them.
fn joint(all: ModuleItems, more: ModuleItems) -> Result<ModuleItems, Unread>
    ensures { MatchResult result (λ both. both ≡ all ++ more) (λ unread. unread ≡ NoMemory) }
{
    let mut both = all.into_vec();
    let mut rest = more.into_vec();
    both.append(&mut rest)?;
    Ok(Sequence::from_vec(both))
}

/// Statements as items.
fn of_statements(alloc: Global, mut statements: Items<Stmt>) -> Result<ModuleItems, Unread>
    ensures { MatchResult result (λ all. all ≡ map module_item.Statement statements) (λ unread. unread ≡ NoMemory) }
{
    let mut all = Sequence::new(alloc);
    while let Some(last) = statements.pop() {
        all.push(ModuleItem::Statement(last))?;
    }
    let mut turned = all.into_vec();
    turned.reverse();
    Ok(Sequence::from_vec(turned))
}

/// A `cdef` line or group, or a function without decorators that begins with `cdef`.
///
/// # Errors
/// As `items`.
fn c_item(alloc: Global, tokens: &Tokens, from: usize) -> Result<Found<ModuleItems>, Unread>
    requires input { IsListing tokens.now }
    requires inside { from < length tokens.now.list }
    requires begins { IsKeyword (terminals_of tokens.now) from word.Cdef }
    ensures { Reads CItem Anywhere (terminals_of tokens.now) from nesting_limit result }
{
    if is_operator(tokens, from + 1, Operator::Colon) {
        let group = declare(alloc, tokens, from)?;
        let tree = one(alloc, ModuleItem::Statement(group.tree))?;
        return Ok(Found { tree, to: group.to });
    }
    if is_keyword(tokens, from + 1, Keyword::Inline) {
        let found = function(alloc, tokens, from)?;
        let tree = one_function(alloc, found.tree)?;
        return Ok(Found { tree, to: found.to });
    }
    let Found {
        tree: (gives, number),
        to: behind,
    } = result_name(alloc, tokens, from + 1)?;
    if is_operator(tokens, behind, Operator::OpenParenthesis) {
        let found = rest(alloc, tokens, behind, FunctionKind::Cdef)?;
        let head = (FunctionKind::Cdef, (false, (gives, number)));
        let none = Sequence::new(alloc);
        let made = function_with(alloc, tokens, from, none, from, head, found.tree)?;
        let tree = one_function(alloc, made)?;
        return Ok(Found { tree, to: found.to });
    }
    let ResultType::Of(typing) = gives else {
        return Err(Unread::Stuck(behind));
    };
    let Found {
        tree: (value, (others, end)),
        to,
    } = decl_rest(alloc, tokens, behind)?;
    let names = variables(alloc, tokens, number, value, others)?;
    let line = declare_node(tokens, from, (typing, (names, end)));
    let tree = one(alloc, ModuleItem::Statement(line))?;
    Ok(Found { tree, to })
}

/// Whether a decorator stands at an index, or a word with which nothing but a function begins.
fn begins_function(tokens: &Tokens, at: usize) -> bool
    ensures { IsTrue result ↔ (IsOperator (terminals_of tokens.now) at sign.At ⊎ (IsKeyword (terminals_of tokens.now) at word.Def ⊎ IsKeyword (terminals_of tokens.now) at word.Cpdef)) }
{
    is_operator(tokens, at, Operator::At)
        || is_keyword(tokens, at, Keyword::Def)
        || is_keyword(tokens, at, Keyword::Cpdef)
}

/// Whether an import begins at an index.
fn begins_import(tokens: &Tokens, at: usize) -> bool
    ensures { IsTrue result ↔ ((IsKeyword (terminals_of tokens.now) at word.Import ⊎ IsKeyword (terminals_of tokens.now) at word.Cimport) ⊎ IsKeyword (terminals_of tokens.now) at word.From) }
{
    is_keyword(tokens, at, Keyword::Import)
        || is_keyword(tokens, at, Keyword::Cimport)
        || is_keyword(tokens, at, Keyword::From)
}

/// The import, function or statement from an index on, or the simple statements of a line.
///
/// # Errors
/// As `items`.
fn item(alloc: Global, tokens: &Tokens, from: usize) -> Result<Found<ModuleItems>, Unread>
    requires input { IsListing tokens.now }
    requires inside { from < length tokens.now.list }
    ensures { Reads Item EndsArms (terminals_of tokens.now) from nesting_limit result }
{
    if is_newline(tokens, from) {
        return gone_on(tokens, Sequence::new(alloc), from + 1);
    }
    if is_keyword(tokens, from, Keyword::Cdef) {
        let found = c_item(alloc, tokens, from)?;
        return gone_on(tokens, found.tree, found.to);
    }
    if begins_function(tokens, from) {
        let found = function(alloc, tokens, from)?;
        let tree = one_function(alloc, found.tree)?;
        return gone_on(tokens, tree, found.to);
    }
    if begins_import(tokens, from) {
        let found = import_line(alloc, tokens, from)?;
        let tree = one(alloc, ModuleItem::Import(found.tree))?;
        return gone_on(tokens, tree, found.to);
    }
    let found = statement(alloc, tokens, from)?;
    let tree = of_statements(alloc, found.tree)?;
    Ok(Found { tree, to: found.to })
}

/// What stands in the module, up to the end of the text.
///
/// # Errors
/// `Stuck` at the first token such that no module begins with the tokens up to it; `TooDeep` at the first with which a nesting is too
/// great; `NoMemory` where there is no memory for the tree.
pub(crate) fn items(alloc: Global, tokens: &Tokens) -> Result<Found<ModuleItems>, Unread>
    requires input { IsListing tokens.now }
    requires some { 0 < length tokens.now.list }
    ensures { Reads ItemsRead (IsBefore kind.End) (terminals_of tokens.now) 0 nesting_limit result }
{
    let mut tree = Sequence::new(alloc);
    let mut to = 0;
    while !is_end(tokens, to) {
        let next = item(alloc, tokens, to)?;
        tree = joint(tree, next.tree)?;
        to = next.to;
    }
    Ok(Found { tree, to })
}
