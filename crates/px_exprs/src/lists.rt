//! Elements between brackets, with commas between them.

ghost use Rattle.std.specs.Prelude.{◌<◌, suc, length, true};
ghost use Rattle.px_lexer.specs.declared.spelling.Operator.TheVariants as sign;
ghost use Rattle.px_exprs.specs.Codes.{IsClosing};
ghost use Rattle.px_exprs.specs.Grammar.{IsExpr, AreExprs, AreEntries};
ghost use Rattle.px_exprs.specs.Inputs.{IsInput, Nests};
ghost use Rattle.px_lexer.specs.Terminals.{terminals_of};
ghost use Rattle.px_exprs.specs.Lists.{Listed};
ghost use Rattle.px_exprs.specs.Parts.{IsEntry};
ghost use Rattle.px_exprs.specs.Readings.{Reads, At, EndsElement};

use crate::grammar::Grammar;
use crate::readings::{Read, Unread, keep_if};
use crate::words::{behind, ends_element};
use px_lexer::access::is_operator;
use px_lexer::{Operator, Tokens};
use px_tree::{Entry, Expr};
use sqlite_items::{Boxed, Items};
use std::alloc::Global;

/// Elements, and whether a comma stands behind the last.
pub(crate) type Listed<T> = (Items<T>, bool);

impl<F: Fn(Global, &Tokens, usize, usize) -> Result<Read<Expr>, Unread>> Grammar<F> {
    /// The expression from an index on, which is an element before this closing bracket.
    ///
    /// # Errors
    /// As `expr`; `Stuck` behind it too where neither a comma nor the bracket stands there.
    pub(crate) fn element(
        &self,
        tokens: &Tokens,
        room: usize,
        from: usize,
        closing: Operator,
    ) -> Result<Read<Expr>, Unread>
        requires input { IsInput tokens.now }
        requires inside { from < length tokens.now.list }
        requires nests { Nests (suc room) (F.pre self.now.nested) (F.post self.now.nested) }
        requires closes { IsClosing closing }
        ensures { Reads IsExpr (EndsElement closing) (terminals_of tokens.now) from room result }
    {
        let found = (self.nested)(self.alloc, tokens, room, from)?;
        let may_end = ends_element(tokens, found.to, closing);
        keep_if(found, may_end)
    }

    /// The expressions from an index on, which stand before this closing bracket.
    ///
    /// # Errors
    /// As `element`.
    pub(crate) fn exprs(
        &self,
        tokens: &Tokens,
        room: usize,
        from: usize,
        closing: Operator,
    ) -> Result<Read<Listed<Expr>>, Unread>
        requires input { IsInput tokens.now }
        requires inside { from < length tokens.now.list }
        requires nests { Nests (suc room) (F.pre self.now.nested) (F.post self.now.nested) }
        requires closes { IsClosing closing }
        ensures { Reads (Listed AreExprs true) (At closing) (terminals_of tokens.now) from room result }
    {
        let mut items = Items::new(self.alloc);
        let mut depth: usize = 0;
        let mut to = from;
        while !is_operator(tokens, to, closing) {
            let next = self.element(tokens, room, to, closing)?;
            items.push(next.tree)?;
            depth = depth.max(next.depth);
            if is_operator(tokens, next.to, closing) {
                return Ok(Read {
                    tree: (items, false),
                    depth,
                    to: next.to,
                });
            }
            to = next.to + 1;
        }
        Ok(Read {
            tree: (items, from < to),
            depth,
            to,
        })
    }

    /// The entry of a dict from an index on.
    ///
    /// # Errors
    /// As `element`; `Stuck` behind the key too where no `:` stands there.
    fn entry(&self, tokens: &Tokens, room: usize, from: usize) -> Result<Read<Entry>, Unread>
        requires input { IsInput tokens.now }
        requires inside { from < length tokens.now.list }
        requires nests { Nests (suc room) (F.pre self.now.nested) (F.post self.now.nested) }
        ensures { Reads IsEntry (EndsElement sign.CloseBrace) (terminals_of tokens.now) from room result }
    {
        let key = (self.nested)(self.alloc, tokens, room, from)?;
        let (key_depth, key_to) = (key.depth, key.to);
        let key_tree = Boxed::new(self.alloc, key.tree)?;
        let value_from = behind(tokens, key_to, Operator::Colon)?;
        let value = self.element(tokens, room, value_from, Operator::CloseBrace)?;
        Ok(Read {
            tree: Entry {
                key: key_tree.into_inner(),
                value: value.tree,
            },
            depth: key_depth.max(value.depth),
            to: value.to,
        })
    }

    /// The entries of a dict from an index on, which stand before its closing brace.
    ///
    /// # Errors
    /// As `entry`.
    pub(crate) fn entries(
        &self,
        tokens: &Tokens,
        room: usize,
        from: usize,
    ) -> Result<Read<Listed<Entry>>, Unread>
        requires input { IsInput tokens.now }
        requires inside { from < length tokens.now.list }
        requires nests { Nests (suc room) (F.pre self.now.nested) (F.post self.now.nested) }
        ensures { Reads (Listed AreEntries true) (At sign.CloseBrace) (terminals_of tokens.now) from room result }
    {
        let mut items = Items::new(self.alloc);
        let mut depth: usize = 0;
        let mut to = from;
        while !is_operator(tokens, to, Operator::CloseBrace) {
            let next = self.entry(tokens, room, to)?;
            items.push(next.tree)?;
            depth = depth.max(next.depth);
            if is_operator(tokens, next.to, Operator::CloseBrace) {
                return Ok(Read {
                    tree: (items, false),
                    depth,
                    to: next.to,
                });
            }
            to = next.to + 1;
        }
        Ok(Read {
            tree: (items, from < to),
            depth,
            to,
        })
    }
}
