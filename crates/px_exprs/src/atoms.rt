//! Atoms: names, literals, displays and `sizeof`.

ghost use Rattle.std.specs.Prelude.{◌<◌, ◌+◌, length, IfOk, MatchOption, ℕ, List};
ghost use Rattle.px_lexer.specs.declared.spelling.Keyword.TheVariants as word;
ghost use Rattle.px_lexer.specs.declared.spelling.Operator.TheVariants as sign;
ghost use Rattle.px_lexer.specs.declared.token_list.TokenKind.TheVariants as kind;
ghost use Rattle.px_lexer.specs.Terminals.{IsKeyword, IsOperator, HasKind, terminals_of};
ghost use Rattle.px_exprs.specs.Codes.{EndsAtom};
ghost use Rattle.px_exprs.specs.Grammar.{AreTexts, IsAtom, node};
ghost use Rattle.px_exprs.specs.Inputs.{IsInput, Nests};
ghost use Rattle.px_exprs.specs.Parts.{IsTupleOf};
ghost use Rattle.px_exprs.specs.Readings.{Reads};

use crate::grammar::Grammar;
use crate::nodes::{node, read_node};
use crate::readings::{Read, Unread, room_within};
use crate::typings::typing;
use crate::words::{behind, name};
use px_base::{Chars, Sequence};
use px_lexer::access::kind_at;
use px_lexer::{Keyword, Operator, TokenKind, Tokens};
use px_tree::{Expr, ExprForm, Texts};
use sqlite_items::Items;
use std::alloc::{AllocError, Global};

/// The content of the string at an index, if one stands there.
fn text_at(tokens: &Tokens, at: usize) -> Option<&Chars>
    ensures { MatchOption result ((content : List ℕ) → HasKind (terminals_of tokens.now) at (kind.Text content) → ⊥) (λ content. HasKind (terminals_of tokens.now) at (kind.Text content.now)) }
{
    match kind_at(tokens, at) {
        Some(kind) => match kind {
            TokenKind::Text(content) => Some(content),
            _ => None,
        },
        None => None,
    }
}

/// The contents of the adjacent strings from an index on, where the first stands, and the index behind them.
///
/// # Errors
/// `AllocError` where there is no memory for them.
fn texts(alloc: Global, tokens: &Tokens, from: usize) -> Result<(Texts, usize), AllocError>
    requires input { IsInput tokens.now }
    requires begins { (content : List ℕ) × HasKind (terminals_of tokens.now) from (kind.Text content) }
    ensures read { IfOk result (λ found. AreTexts (terminals_of tokens.now) from found.0 found.1) }
    ensures ended { IfOk result (λ found. EndsAtom (terminals_of tokens.now) found.1) }
{
    let mut contents = Sequence::new(alloc);
    let mut to = from;
    while let Some(content) = text_at(tokens, to) {
        contents.push(Chars::from_slice(alloc, content.as_slice())?)?;
        to += 1;
    }
    Ok((contents, to))
}

/// The `sizeof` from an index on, where its word stands.
///
/// # Errors
/// `Stuck` or `TooDeep` at the first such token; `NoMemory` where there is no memory for the type.
fn sizeof(alloc: Global, tokens: &Tokens, room: usize, from: usize) -> Result<Read<Expr>, Unread>
    requires input { IsInput tokens.now }
    requires begins { IsKeyword (terminals_of tokens.now) from word.Sizeof }
    ensures { Reads IsAtom EndsAtom (terminals_of tokens.now) from room result }
{
    let type_from = behind(tokens, from + 1, Operator::OpenParenthesis)?;
    let room = room_within(room, 0, from + 1)?;
    let typing = typing(alloc, tokens, room, type_from, Operator::CloseParenthesis)?;
    let form = ExprForm::Sizeof(typing.tree);
    Ok(read_node(tokens, from, form, typing.depth + 1, typing.to + 1))
}

/// The atom from an index on, where this keyword stands.
///
/// # Errors
/// As `sizeof`.
fn keyword_atom(
    alloc: Global,
    tokens: &Tokens,
    room: usize,
    from: usize,
    word: Keyword,
) -> Result<Read<Expr>, Unread>
    requires input { IsInput tokens.now }
    requires begins { IsKeyword (terminals_of tokens.now) from word }
    ensures { Reads IsAtom EndsAtom (terminals_of tokens.now) from room result }
{
    match word {
        Keyword::True => Ok(read_node(tokens, from, ExprForm::True, 0, from + 1)),
        Keyword::False => Ok(read_node(tokens, from, ExprForm::False, 0, from + 1)),
        Keyword::None => Ok(read_node(tokens, from, ExprForm::None, 0, from + 1)),
        Keyword::Sizeof => sizeof(alloc, tokens, room, from),
        _ => Err(Unread::Stuck(from)),
    }
}

/// What parentheses round these elements are: the expression itself where they hold one without a comma, and else a tuple.
fn parenthesize(tokens: &Tokens, from: usize, mut items: Items<Expr>, has_comma: bool) -> Expr
    requires input { IsInput tokens.now }
    requires inside { from < length tokens.now.list }
    ensures { IsTupleOf (terminals_of tokens.now) from items has_comma result }
{
    if !has_comma && items.len() == 1 {
        if let Some(only) = items.pop() {
            return only;
        }
    }
    node(tokens, from, from, ExprForm::Tuple(items))
}

impl<F: Fn(Global, &Tokens, usize, usize) -> Result<Read<Expr>, Unread>> Grammar<F> {
    /// The tuple, or the expression in parentheses, from an index on, where the parenthesis stands.
    ///
    /// # Errors
    /// As `expr`.
    fn parentheses(&self, tokens: &Tokens, room: usize, from: usize) -> Result<Read<Expr>, Unread>
        requires input { IsInput tokens.now }
        requires inside { from < length tokens.now.list }
        requires nests { Nests room (F.pre self.now.nested) (F.post self.now.nested) }
        requires begins { IsOperator (terminals_of tokens.now) from sign.OpenParenthesis }
        ensures { Reads IsAtom EndsAtom (terminals_of tokens.now) from room result }
    {
        let room = room_within(room, 0, from)?;
        let found = self.exprs(tokens, room, from + 1, Operator::CloseParenthesis)?;
        let (items, has_comma) = found.tree;
        Ok(Read {
            tree: parenthesize(tokens, from, items, has_comma),
            depth: found.depth + 1,
            to: found.to + 1,
        })
    }

    /// The list from an index on, where its bracket stands.
    ///
    /// # Errors
    /// As `expr`.
    fn list(&self, tokens: &Tokens, room: usize, from: usize) -> Result<Read<Expr>, Unread>
        requires input { IsInput tokens.now }
        requires inside { from < length tokens.now.list }
        requires nests { Nests room (F.pre self.now.nested) (F.post self.now.nested) }
        requires begins { IsOperator (terminals_of tokens.now) from sign.OpenBracket }
        ensures { Reads IsAtom EndsAtom (terminals_of tokens.now) from room result }
    {
        let room = room_within(room, 0, from)?;
        let found = self.exprs(tokens, room, from + 1, Operator::CloseBracket)?;
        let form = ExprForm::List(found.tree.0);
        Ok(read_node(tokens, from, form, found.depth + 1, found.to + 1))
    }

    /// The dict from an index on, where its brace stands.
    ///
    /// # Errors
    /// As `expr`.
    fn dict(&self, tokens: &Tokens, room: usize, from: usize) -> Result<Read<Expr>, Unread>
        requires input { IsInput tokens.now }
        requires inside { from < length tokens.now.list }
        requires nests { Nests room (F.pre self.now.nested) (F.post self.now.nested) }
        requires begins { IsOperator (terminals_of tokens.now) from sign.OpenBrace }
        ensures { Reads IsAtom EndsAtom (terminals_of tokens.now) from room result }
    {
        let room = room_within(room, 0, from)?;
        let found = self.entries(tokens, room, from + 1)?;
        let form = ExprForm::Dict(found.tree.0);
        Ok(read_node(tokens, from, form, found.depth + 1, found.to + 1))
    }

    /// The atom from an index on, where this operator stands.
    ///
    /// # Errors
    /// As `expr`.
    fn operator_atom(
        &self,
        tokens: &Tokens,
        room: usize,
        from: usize,
        operator: Operator,
    ) -> Result<Read<Expr>, Unread>
        requires input { IsInput tokens.now }
        requires inside { from < length tokens.now.list }
        requires nests { Nests room (F.pre self.now.nested) (F.post self.now.nested) }
        requires begins { IsOperator (terminals_of tokens.now) from operator }
        ensures { Reads IsAtom EndsAtom (terminals_of tokens.now) from room result }
    {
        match operator {
            Operator::OpenParenthesis => self.parentheses(tokens, room, from),
            Operator::OpenBracket => self.list(tokens, room, from),
            Operator::OpenBrace => self.dict(tokens, room, from),
            _ => Err(Unread::Stuck(from)),
        }
    }

    /// The atom from an index on.
    ///
    /// # Errors
    /// As `expr`.
    pub(crate) fn atom(
        &self,
        tokens: &Tokens,
        room: usize,
        from: usize,
    ) -> Result<Read<Expr>, Unread>
        requires input { IsInput tokens.now }
        requires inside { from < length tokens.now.list }
        requires nests { Nests room (F.pre self.now.nested) (F.post self.now.nested) }
        ensures { Reads IsAtom EndsAtom (terminals_of tokens.now) from room result }
    {
        let Some(kind) = kind_at(tokens, from) else {
            return Err(Unread::Stuck(from));
        };
        match kind {
            TokenKind::Name => {
                let form = ExprForm::Name(name(self.alloc, tokens, from)?);
                Ok(read_node(tokens, from, form, 0, from + 1))
            }
            TokenKind::Number(value) => {
                let form = ExprForm::Number(*value);
                Ok(read_node(tokens, from, form, 0, from + 1))
            }
            TokenKind::Text(_) => {
                let (contents, to) = texts(self.alloc, tokens, from)?;
                Ok(read_node(tokens, from, ExprForm::Text(contents), 0, to))
            }
            TokenKind::Keyword(word) => keyword_atom(self.alloc, tokens, room, from, *word),
            TokenKind::Operator(operator) => self.operator_atom(tokens, room, from, *operator),
            _ => Err(Unread::Stuck(from)),
        }
    }
}
