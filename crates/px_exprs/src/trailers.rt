//! What stands behind an atom: names, calls and subscripts.

ghost use Rattle.std.specs.Prelude.{◌<◌, ◌≤◌, suc, length, true, false, IsTrue, ◌↔◌};
ghost use Rattle.px_lexer.specs.declared.spelling.Operator.TheVariants as sign;
ghost use Rattle.px_lexer.specs.Terminals.{IsOperator, terminals_of};
ghost use Rattle.px_exprs.specs.Codes.{EndsAtom, EndsUnary};
ghost use Rattle.px_exprs.specs.Grammar.{IsPrimary, AreTrailers, IsTrailer, AreArguments, IsArgument, AreItems, IsItem, MaybeExpr};
ghost use Rattle.px_exprs.specs.Inputs.{IsInput, Nests};
ghost use Rattle.px_exprs.specs.Lists.{Listed};
ghost use Rattle.px_exprs.specs.Parts.{BeginsTrailer};
ghost use Rattle.px_exprs.specs.Readings.{Reads, At, EndsElement, EndsBound};

use crate::grammar::Grammar;
use crate::lists::Listed;
use crate::nodes::node;
use crate::readings::{Read, Unread, room_within};
use crate::words::{begins_expr, ends_element, name};
use px_base::Chars;
use px_lexer::access::{is_name, is_operator, operator_at};
use px_lexer::{Operator, Tokens};
use px_tree::{Argument, Expr, ExprForm, Item, Trailer, room_for_one};
use sqlite_items::{Boxed, Items};
use std::alloc::{AllocError, Global};

/// Whether a trailer begins with the token at an index.
fn begins_trailer(tokens: &Tokens, at: usize) -> bool
    ensures { IsTrue result ↔ (BeginsTrailer (terminals_of tokens.now) at) }
{
    match operator_at(tokens, at) {
        Some(Operator::Point) => true,
        Some(Operator::OpenParenthesis) => true,
        Some(Operator::OpenBracket) => true,
        _ => false,
    }
}

/// The attribute from an index on, where its point stands.
///
/// # Errors
/// `Stuck` behind the point where no name stands there; `NoMemory` where there is no memory for it.
fn attribute(
    alloc: Global,
    tokens: &Tokens,
    room: usize,
    from: usize,
) -> Result<Read<Trailer>, Unread>
    requires input { IsInput tokens.now }
    requires begins { IsOperator (terminals_of tokens.now) from sign.Point }
    ensures { Reads IsTrailer EndsAtom (terminals_of tokens.now) from room result }
{
    let found = name(alloc, tokens, from + 1)?;
    Ok(Read {
        tree: Trailer::Attribute(found),
        depth: 0,
        to: from + 2,
    })
}

/// Whether a colon, a comma or the closing bracket of a subscript stands at an index.
fn ends_bound(tokens: &Tokens, at: usize) -> bool
    ensures { IsTrue result ↔ (EndsBound (terminals_of tokens.now) at) }
{
    is_operator(tokens, at, Operator::Colon) || ends_element(tokens, at, Operator::CloseBracket)
}

impl<F: Fn(Global, &Tokens, usize, usize) -> Result<Read<Expr>, Unread>> Grammar<F> {
    /// The argument of a call from an index on.
    ///
    /// # Errors
    /// As `element`.
    fn argument(&self, tokens: &Tokens, room: usize, from: usize) -> Result<Read<Argument>, Unread>
        requires input { IsInput tokens.now }
        requires inside { from < length tokens.now.list }
        requires nests { Nests (suc room) (F.pre self.now.nested) (F.post self.now.nested) }
        ensures { Reads IsArgument (EndsElement sign.CloseParenthesis) (terminals_of tokens.now) from room result }
    {
        if !is_name(tokens, from) || !is_operator(tokens, from + 1, Operator::Equal) {
            let value = self.element(tokens, room, from, Operator::CloseParenthesis)?;
            return Ok(Read {
                tree: Argument {
                    name: None,
                    value: value.tree,
                },
                depth: value.depth,
                to: value.to,
            });
        }
        let found = name(self.alloc, tokens, from)?;
        let value = self.element(tokens, room, from + 2, Operator::CloseParenthesis)?;
        Ok(Read {
            tree: Argument {
                name: Some(found),
                value: value.tree,
            },
            depth: value.depth,
            to: value.to,
        })
    }

    /// The arguments of a call from an index on, which stand before its closing parenthesis.
    ///
    /// # Errors
    /// As `argument`.
    fn arguments(
        &self,
        tokens: &Tokens,
        room: usize,
        from: usize,
    ) -> Result<Read<Listed<Argument>>, Unread>
        requires input { IsInput tokens.now }
        requires inside { from < length tokens.now.list }
        requires nests { Nests (suc room) (F.pre self.now.nested) (F.post self.now.nested) }
        ensures { Reads (Listed AreArguments true) (At sign.CloseParenthesis) (terminals_of tokens.now) from room result }
    {
        let mut items = Items::new(self.alloc);
        let mut depth: usize = 0;
        let mut to = from;
        while !is_operator(tokens, to, Operator::CloseParenthesis) {
            let next = self.argument(tokens, room, to)?;
            items.push(next.tree)?;
            depth = depth.max(next.depth);
            if is_operator(tokens, next.to, Operator::CloseParenthesis) {
                return Ok(Read {
                    tree: (items, false),
                    depth,
                    to: next.to,
                });
            }
            to = next.to + 1;
        }
        Ok(Read {
            tree: (items, from < to),
            depth,
            to,
        })
    }

    /// The bound of a slice, or the index, from an index on; none where no expression begins there.
    ///
    /// # Errors
    /// As `expr`; `Stuck` behind it too where neither a colon nor a comma nor the closing bracket stands there.
    fn bound(
        &self,
        tokens: &Tokens,
        room: usize,
        from: usize,
    ) -> Result<Read<Option<Boxed<Expr>>>, Unread>
        requires input { IsInput tokens.now }
        requires inside { from < length tokens.now.list }
        requires nests { Nests (suc room) (F.pre self.now.nested) (F.post self.now.nested) }
        ensures { Reads MaybeExpr EndsBound (terminals_of tokens.now) from room result }
    {
        if !begins_expr(tokens, from) {
            if !ends_bound(tokens, from) {
                return Err(Unread::Stuck(from));
            }
            return Ok(Read {
                tree: None,
                depth: 0,
                to: from,
            });
        }
        let found = (self.nested)(self.alloc, tokens, room, from)?;
        let (depth, to) = (found.depth, found.to);
        let tree = Boxed::new(self.alloc, found.tree)?;
        if !ends_bound(tokens, to) {
            return Err(Unread::Stuck(to));
        }
        Ok(Read {
            tree: Some(tree),
            depth,
            to,
        })
    }

    /// The slice from an index on, whose first bound was read, and behind which its `:` stands.
    ///
    /// # Errors
    /// As `bound`; `Stuck` at a third `:` too.
    fn slice(
        &self,
        tokens: &Tokens,
        room: usize,
        from: usize,
        first: Read<Option<Boxed<Expr>>>,
    ) -> Result<Read<Item>, Unread>
        requires input { IsInput tokens.now }
        requires inside { from < length tokens.now.list }
        requires nests { Nests (suc room) (F.pre self.now.nested) (F.post self.now.nested) }
        requires read { MaybeExpr (terminals_of tokens.now) from first.tree first.depth first.to }
        requires shallow { first.depth ≤ room }
        requires behind { IsOperator (terminals_of tokens.now) first.to sign.Colon }
        requires plain { IsOperator (terminals_of tokens.now) from sign.Ellipsis → ⊥ }
        ensures { Reads IsItem (EndsElement sign.CloseBracket) (terminals_of tokens.now) from room result }
    {
        let second = self.bound(tokens, room, first.to + 1)?;
        if !is_operator(tokens, second.to, Operator::Colon) {
            return Ok(Read {
                tree: Item::Slice(first.tree, second.tree, None),
                depth: first.depth.max(second.depth),
                to: second.to,
            });
        }
        let third = self.bound(tokens, room, second.to + 1)?;
        if is_operator(tokens, third.to, Operator::Colon) {
            return Err(Unread::Stuck(third.to));
        }
        Ok(Read {
            tree: Item::Slice(first.tree, second.tree, third.tree),
            depth: first.depth.max(second.depth.max(third.depth)),
            to: third.to,
        })
    }

    /// The item of a subscript from an index on.
    ///
    /// # Errors
    /// As `slice`.
    fn item(&self, tokens: &Tokens, room: usize, from: usize) -> Result<Read<Item>, Unread>
        requires input { IsInput tokens.now }
        requires inside { from < length tokens.now.list }
        requires nests { Nests (suc room) (F.pre self.now.nested) (F.post self.now.nested) }
        ensures { Reads IsItem (EndsElement sign.CloseBracket) (terminals_of tokens.now) from room result }
    {
        if is_operator(tokens, from, Operator::Ellipsis) {
            if !ends_element(tokens, from + 1, Operator::CloseBracket) {
                return Err(Unread::Stuck(from + 1));
            }
            return Ok(Read {
                tree: Item::Ellipsis,
                depth: 0,
                to: from + 1,
            });
        }
        let first = self.bound(tokens, room, from)?;
        if is_operator(tokens, first.to, Operator::Colon) {
            return self.slice(tokens, room, from, first);
        }
        let Read { tree, depth, to } = first;
        match tree {
            Some(index) => Ok(Read {
                tree: Item::Index(index.into_inner()),
                depth,
                to,
            }),
            None => Err(Unread::Stuck(from)),
        }
    }

    /// The items of a subscript from an index on, which stand before its closing bracket; there is one at least.
    ///
    /// # Errors
    /// As `item`.
    fn items(&self, tokens: &Tokens, room: usize, from: usize) -> Result<Read<Listed<Item>>, Unread>
        requires input { IsInput tokens.now }
        requires inside { from < length tokens.now.list }
        requires nests { Nests (suc room) (F.pre self.now.nested) (F.post self.now.nested) }
        ensures { Reads (Listed AreItems false) (At sign.CloseBracket) (terminals_of tokens.now) from room result }
    {
        let mut items = room_for_one(self.alloc)?;
        let mut depth: usize = 0;
        let mut to = from;
        while to == from || !is_operator(tokens, to, Operator::CloseBracket) {
            let next = self.item(tokens, room, to)?;
            items.push(next.tree)?;
            depth = depth.max(next.depth);
            if is_operator(tokens, next.to, Operator::CloseBracket) {
                return Ok(Read {
                    tree: (items, false),
                    depth,
                    to: next.to,
                });
            }
            to = next.to + 1;
        }
        Ok(Read {
            tree: (items, true),
            depth,
            to,
        })
    }

    /// The trailer from an index on.
    ///
    /// # Errors
    /// As `expr`.
    fn trailer(&self, tokens: &Tokens, room: usize, from: usize) -> Result<Read<Trailer>, Unread>
        requires input { IsInput tokens.now }
        requires inside { from < length tokens.now.list }
        requires nests { Nests room (F.pre self.now.nested) (F.post self.now.nested) }
        ensures { Reads IsTrailer EndsAtom (terminals_of tokens.now) from room result }
    {
        let Some(sign) = operator_at(tokens, from) else {
            return Err(Unread::Stuck(from));
        };
        match sign {
            Operator::Point => attribute(self.alloc, tokens, room, from),
            Operator::OpenParenthesis => {
                let room = room_within(room, 0, from)?;
                let found = self.arguments(tokens, room, from + 1)?;
                Ok(Read {
                    tree: Trailer::Call(found.tree.0),
                    depth: found.depth + 1,
                    to: found.to + 1,
                })
            }
            Operator::OpenBracket => {
                let room = room_within(room, 0, from)?;
                let found = self.items(tokens, room, from + 1)?;
                let (items, has_comma) = found.tree;
                Ok(Read {
                    tree: Trailer::Subscript(items, has_comma),
                    depth: found.depth + 1,
                    to: found.to + 1,
                })
            }
            _ => Err(Unread::Stuck(from)),
        }
    }

    /// The trailers from an index on, where the first begins.
    ///
    /// # Errors
    /// As `trailer`.
    fn trailers(
        &self,
        tokens: &Tokens,
        room: usize,
        from: usize,
    ) -> Result<Read<Items<Trailer>>, Unread>
        requires input { IsInput tokens.now }
        requires inside { from < length tokens.now.list }
        requires nests { Nests room (F.pre self.now.nested) (F.post self.now.nested) }
        requires begins { BeginsTrailer (terminals_of tokens.now) from }
        ensures { Reads AreTrailers EndsUnary (terminals_of tokens.now) from room result }
    {
        let mut found = room_for_one(self.alloc)?;
        let mut depth: usize = 0;
        let mut to = from;
        while begins_trailer(tokens, to) {
            let next = self.trailer(tokens, room, to)?;
            found.push(next.tree)?;
            depth = depth.max(next.depth);
            to = next.to;
        }
        Ok(Read {
            tree: found,
            depth,
            to,
        })
    }

    /// The atom from an index on with the trailers behind it.
    ///
    /// # Errors
    /// As `expr`.
    pub(crate) fn primary(
        &self,
        tokens: &Tokens,
        room: usize,
        from: usize,
    ) -> Result<Read<Expr>, Unread>
        requires input { IsInput tokens.now }
        requires inside { from < length tokens.now.list }
        requires nests { Nests room (F.pre self.now.nested) (F.post self.now.nested) }
        ensures { Reads IsPrimary EndsUnary (terminals_of tokens.now) from room result }
    {
        let first = self.atom(tokens, room, from)?;
        let number = first.to;
        if !begins_trailer(tokens, number) {
            return Ok(first);
        }
        let first_depth = first.depth;
        let first_tree = Boxed::new(self.alloc, first.tree)?;
        let others = self.trailers(tokens, room, number)?;
        let depth = first_depth.max(others.depth);
        let form = ExprForm::Row(first_tree, others.tree);
        Ok(Read {
            tree: node(tokens, number, from, form),
            depth,
            to: others.to,
        })
    }
}
