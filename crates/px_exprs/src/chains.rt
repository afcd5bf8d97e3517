//! Operators and their operands.

ghost use Rattle.std.specs.Prelude.{◌<◌, ◌+◌, length};
ghost use Rattle.px_lexer.specs.declared.spelling.Keyword.TheVariants as word;
ghost use Rattle.px_lexer.specs.Terminals.{IsKeyword, terminals_of};
ghost use Rattle.px_exprs.specs.Codes.{EndsUnary, EndsBinary, EndsComparison, EndsAnd, EndsOr, EndsExpr};
ghost use Rattle.px_exprs.specs.Grammar.{IsExpr, IsOr, AreOrs, IsAnd, AreAnds, IsNot, IsCompare, AreComparisons, IsBinary, IsUnary};
ghost use Rattle.px_exprs.specs.Inputs.{IsInput, Nests};
ghost use Rattle.px_exprs.specs.Parts.{AreTighter, BeginsComparison, levels_of};
ghost use Rattle.px_exprs.specs.Readings.{Reads};

use crate::grammar::Grammar;
use crate::nodes::{choice, node, prepend, read_node};
use crate::operators::{
    BINARY_LEVELS, Level, begins_comparison, binary_operator, compare_operator, unary_operator,
};
use crate::readings::{Read, Unread, room_within};
use crate::typings::typing;
use px_lexer::access::{is_keyword, is_operator};
use px_lexer::{Keyword, Operator, Tokens};
use px_tree::{Comparison, Expr, ExprForm, Link, room_for_one};
use sqlite_items::{Boxed, Items};
use std::alloc::Global;

impl<F: Fn(Global, &Tokens, usize, usize) -> Result<Read<Expr>, Unread>> Grammar<F> {
    /// The sign or cast from an index on with its operand, or else the primary.
    ///
    /// # Errors
    /// As `expr`.
    fn unary(&self, tokens: &Tokens, room: usize, from: usize) -> Result<Read<Expr>, Unread>
        requires input { IsInput tokens.now }
        requires inside { from < length tokens.now.list }
        requires nests { Nests room (F.pre self.now.nested) (F.post self.now.nested) }
        ensures { Reads IsUnary EndsUnary (terminals_of tokens.now) from room result }
    {
        if is_operator(tokens, from, Operator::Less) {
            let room = room_within(room, 0, from)?;
            let typing = typing(self.alloc, tokens, room, from + 1, Operator::Greater)?;
            let operand = self.unary(tokens, room, typing.to + 1)?;
            let depth = typing.depth.max(operand.depth) + 1;
            let form = ExprForm::Cast(typing.tree, Boxed::new(self.alloc, operand.tree)?);
            return Ok(read_node(tokens, from, form, depth, operand.to));
        }
        let Some(op) = unary_operator(tokens, from) else {
            return self.primary(tokens, room, from);
        };
        let room = room_within(room, 0, from)?;
        let operand = self.unary(tokens, room, from + 1)?;
        let form = ExprForm::Unary(op, Boxed::new(self.alloc, operand.tree)?);
        Ok(read_node(tokens, from, form, operand.depth + 1, operand.to))
    }

    /// The chain of binary operators of the first of these levels from an index on, or its operand alone.
    ///
    /// # Errors
    /// As `expr`.
    fn binary(
        &self,
        tokens: &Tokens,
        levels: &[Level],
        room: usize,
        from: usize,
    ) -> Result<Read<Expr>, Unread>
        requires input { IsInput tokens.now }
        requires inside { from < length tokens.now.list }
        requires nests { Nests room (F.pre self.now.nested) (F.post self.now.nested) }
        requires known { AreTighter (levels_of levels.now) }
        ensures { Reads (λ ts. IsBinary ts (levels_of levels.now)) (EndsBinary (length (levels_of levels.now))) (terminals_of tokens.now) from room result }
    {
        let [level, tighter @ ..] = levels else {
            return self.unary(tokens, room, from);
        };
        let first = self.binary(tokens, tighter, room, from)?;
        let number = first.to;
        if binary_operator(level, tokens, number).is_none() {
            return Ok(first);
        }
        let first_depth = first.depth;
        let first_tree = Boxed::new(self.alloc, first.tree)?;
        let room = room_within(room, first_depth, number)?;
        let mut links = room_for_one(self.alloc)?;
        let mut depth = 0;
        let mut to = number;
        while let Some(op) = binary_operator(level, tokens, to) {
            let operand = self.binary(tokens, tighter, room, to + 1)?;
            links.push(Link {
                op,
                operand: operand.tree,
            })?;
            depth = depth.max(operand.depth);
            to = operand.to;
        }
        let depth = first_depth.max(depth) + 1;
        let form = ExprForm::Chain(first_tree, links);
        Ok(Read {
            tree: node(tokens, number, from, form),
            depth,
            to,
        })
    }

    /// The comparisons from an index on, where the first begins, with their right operands.
    ///
    /// # Errors
    /// As `expr`.
    fn comparisons(
        &self,
        tokens: &Tokens,
        room: usize,
        from: usize,
    ) -> Result<Read<Items<Comparison>>, Unread>
        requires input { IsInput tokens.now }
        requires inside { from < length tokens.now.list }
        requires nests { Nests room (F.pre self.now.nested) (F.post self.now.nested) }
        requires begins { BeginsComparison (terminals_of tokens.now) from }
        ensures { Reads AreComparisons EndsComparison (terminals_of tokens.now) from room result }
    {
        let mut found = room_for_one(self.alloc)?;
        let mut depth = 0;
        let mut to = from;
        while begins_comparison(tokens, to) {
            let (op, operand_from) = compare_operator(tokens, to)?;
            let operand = self.binary(tokens, &BINARY_LEVELS, room, operand_from)?;
            found.push(Comparison {
                op,
                operand: operand.tree,
            })?;
            depth = depth.max(operand.depth);
            to = operand.to;
        }
        Ok(Read {
            tree: found,
            depth,
            to,
        })
    }

    /// The chain of comparisons from an index on, or its operand alone.
    ///
    /// # Errors
    /// As `expr`.
    fn comparison(&self, tokens: &Tokens, room: usize, from: usize) -> Result<Read<Expr>, Unread>
        requires input { IsInput tokens.now }
        requires inside { from < length tokens.now.list }
        requires nests { Nests room (F.pre self.now.nested) (F.post self.now.nested) }
        ensures { Reads IsCompare EndsComparison (terminals_of tokens.now) from room result }
    {
        let first = self.binary(tokens, &BINARY_LEVELS, room, from)?;
        let number = first.to;
        if !begins_comparison(tokens, number) {
            return Ok(first);
        }
        let first_depth = first.depth;
        let first_tree = Boxed::new(self.alloc, first.tree)?;
        let room = room_within(room, first_depth, number)?;
        let others = self.comparisons(tokens, room, number)?;
        let depth = first_depth.max(others.depth) + 1;
        let form = ExprForm::Compare(first_tree, others.tree);
        Ok(Read {
            tree: node(tokens, number, from, form),
            depth,
            to: others.to,
        })
    }

    /// The `not` from an index on with its operand, or else the comparison.
    ///
    /// # Errors
    /// As `expr`.
    fn inversion(&self, tokens: &Tokens, room: usize, from: usize) -> Result<Read<Expr>, Unread>
        requires input { IsInput tokens.now }
        requires inside { from < length tokens.now.list }
        requires nests { Nests room (F.pre self.now.nested) (F.post self.now.nested) }
        ensures { Reads IsNot EndsComparison (terminals_of tokens.now) from room result }
    {
        if !is_keyword(tokens, from, Keyword::Not) {
            return self.comparison(tokens, room, from);
        }
        let room = room_within(room, 0, from)?;
        let operand = self.inversion(tokens, room, from + 1)?;
        let form = ExprForm::Not(Boxed::new(self.alloc, operand.tree)?);
        Ok(read_node(tokens, from, form, operand.depth + 1, operand.to))
    }

    /// The right operands of `and` from an index on, where the first `and` stands.
    ///
    /// # Errors
    /// As `expr`.
    fn ands(&self, tokens: &Tokens, room: usize, from: usize) -> Result<Read<Items<Expr>>, Unread>
        requires input { IsInput tokens.now }
        requires inside { from < length tokens.now.list }
        requires nests { Nests room (F.pre self.now.nested) (F.post self.now.nested) }
        requires begins { IsKeyword (terminals_of tokens.now) from word.And }
        ensures { Reads AreAnds EndsAnd (terminals_of tokens.now) from room result }
    {
        let mut operands = Items::new(self.alloc);
        let mut depth = 0;
        let mut to = from;
        while is_keyword(tokens, to, Keyword::And) {
            let operand = self.inversion(tokens, room, to + 1)?;
            operands.push(operand.tree)?;
            depth = depth.max(operand.depth);
            to = operand.to;
        }
        Ok(Read {
            tree: operands,
            depth,
            to,
        })
    }

    /// The chain of `and` from an index on, or its operand alone.
    ///
    /// # Errors
    /// As `expr`.
    fn conjunction(&self, tokens: &Tokens, room: usize, from: usize) -> Result<Read<Expr>, Unread>
        requires input { IsInput tokens.now }
        requires inside { from < length tokens.now.list }
        requires nests { Nests room (F.pre self.now.nested) (F.post self.now.nested) }
        ensures { Reads IsAnd EndsAnd (terminals_of tokens.now) from room result }
    {
        let first = self.inversion(tokens, room, from)?;
        let number = first.to;
        if !is_keyword(tokens, number, Keyword::And) {
            return Ok(first);
        }
        let first_depth = first.depth;
        let first_tree = Boxed::new(self.alloc, first.tree)?;
        let room = room_within(room, first_depth, number)?;
        let others = self.ands(tokens, room, number)?;
        let depth = first_depth.max(others.depth) + 1;
        let form = ExprForm::And(prepend(self.alloc, first_tree, others.tree)?);
        Ok(Read {
            tree: node(tokens, number, from, form),
            depth,
            to: others.to,
        })
    }

    /// The right operands of `or` from an index on, where the first `or` stands.
    ///
    /// # Errors
    /// As `expr`.
    fn ors(&self, tokens: &Tokens, room: usize, from: usize) -> Result<Read<Items<Expr>>, Unread>
        requires input { IsInput tokens.now }
        requires inside { from < length tokens.now.list }
        requires nests { Nests room (F.pre self.now.nested) (F.post self.now.nested) }
        requires begins { IsKeyword (terminals_of tokens.now) from word.Or }
        ensures { Reads AreOrs EndsOr (terminals_of tokens.now) from room result }
    {
        let mut operands = Items::new(self.alloc);
        let mut depth = 0;
        let mut to = from;
        while is_keyword(tokens, to, Keyword::Or) {
            let operand = self.conjunction(tokens, room, to + 1)?;
            operands.push(operand.tree)?;
            depth = depth.max(operand.depth);
            to = operand.to;
        }
        Ok(Read {
            tree: operands,
            depth,
            to,
        })
    }

    /// The chain of `or` from an index on, or its operand alone.
    ///
    /// # Errors
    /// As `expr`.
    fn disjunction(&self, tokens: &Tokens, room: usize, from: usize) -> Result<Read<Expr>, Unread>
        requires input { IsInput tokens.now }
        requires inside { from < length tokens.now.list }
        requires nests { Nests room (F.pre self.now.nested) (F.post self.now.nested) }
        ensures { Reads IsOr EndsOr (terminals_of tokens.now) from room result }
    {
        let first = self.conjunction(tokens, room, from)?;
        let number = first.to;
        if !is_keyword(tokens, number, Keyword::Or) {
            return Ok(first);
        }
        let first_depth = first.depth;
        let first_tree = Boxed::new(self.alloc, first.tree)?;
        let room = room_within(room, first_depth, number)?;
        let others = self.ors(tokens, room, number)?;
        let depth = first_depth.max(others.depth) + 1;
        let form = ExprForm::Or(prepend(self.alloc, first_tree, others.tree)?);
        Ok(Read {
            tree: node(tokens, number, from, form),
            depth,
            to: others.to,
        })
    }

    /// The expression from an index on: a conditional, or its value alone.
    ///
    /// # Errors
    /// As `expr`.
    pub(crate) fn conditional(
        &self,
        tokens: &Tokens,
        room: usize,
        from: usize,
    ) -> Result<Read<Expr>, Unread>
        requires input { IsInput tokens.now }
        requires inside { from < length tokens.now.list }
        requires nests { Nests room (F.pre self.now.nested) (F.post self.now.nested) }
        ensures { Reads IsExpr EndsExpr (terminals_of tokens.now) from room result }
    {
        let value = self.disjunction(tokens, room, from)?;
        let number = value.to;
        if !is_keyword(tokens, number, Keyword::If) {
            return Ok(value);
        }
        let value_depth = value.depth;
        let value_tree = Boxed::new(self.alloc, value.tree)?;
        let room = room_within(room, value_depth, number)?;
        let test = self.disjunction(tokens, room, number + 1)?;
        let (test_depth, test_to) = (test.depth, test.to);
        let test_tree = Boxed::new(self.alloc, test.tree)?;
        if !is_keyword(tokens, test_to, Keyword::Else) {
            return Err(Unread::Stuck(test_to));
        }
        let otherwise = self.conditional(tokens, room, test_to + 1)?;
        let depth = value_depth.max(test_depth.max(otherwise.depth)) + 1;
        let form = choice(self.alloc, value_tree, test_tree, otherwise.tree)?;
        Ok(Read {
            tree: node(tokens, number, from, form),
            depth,
            to: otherwise.to,
        })
    }
}
