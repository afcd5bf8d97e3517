//! Compound statements (Python Language Reference, 8 Compound statements; Cython user guide, Cython and the GIL).

ghost use Rattle.std.specs.Prelude.{◌≡◌, ◌<◌, length};
ghost use Rattle.px_base.specs.declared.refusals.Span.{Span};
ghost use Rattle.px_lexer.specs.Terminals.{IsAt, terminals_of};
ghost use Rattle.px_lexer.specs.declared.spelling.Keyword.TheVariants as word;
ghost use Rattle.px_lexer.specs.declared.spelling.Operator.TheVariants as sign;
ghost use Rattle.px_lexer.specs.declared.token_list.TokenKind.TheVariants as kind;
ghost use Rattle.px_parser.specs.Blocks.{NestsBlocks};
ghost use Rattle.px_parser.specs.Ends.{EndsArms, EndsElifs};
ghost use Rattle.px_parser.specs.Listings.{IsListing};
ghost use Rattle.px_parser.specs.Readings.{Reads, Anywhere};
ghost use Rattle.px_parser.specs.Shapes.{Of, After, Many, Maybe};
ghost use Rattle.px_parser.specs.StatementGrammar.{Block, Body, Guarded, Armed, If, While, For, With, arm_of, statement_node};

use crate::blocks::{Statements, gone_on};
use crate::exprs::{expr, values};
use crate::readings::Found;
use crate::targets::loop_targets;
use crate::words::{keyword, operator};
use px_base::Span;
use px_exprs::readings::Unread;
use px_exprs::words::is_word;
use px_lexer::access::{is_keyword, place};
use px_lexer::{Keyword, Operator, Tokens};
use px_tree::{Arm, Expr, Stmt, StmtForm, room_for_one};
use sqlite_items::{Boxed, Items};
use std::alloc::Global;

/// The index of a `:` and the block behind it.
type Body = (usize, Items<Stmt>);

/// The place of a keyword, the test behind it, and what stands behind that.
type Guarded = (Span, (Expr, Body));

/// The arm with this number, test and block.
fn arm(number: usize, found: Guarded) -> Arm
    requires { number < 4294967296 }
    ensures { result ≡ arm_of (number, found) }
{
    let (at, (test, (_, block))) = found;
    Arm {
        number: number as u32,
        at,
        test,
        block,
    }
}

/// A node with the number of a `:`, at an index.
fn compound(tokens: &Tokens, at: usize, number: usize, form: StmtForm) -> Stmt
    requires small { number < 4294967296 }
    requires inside { at < length tokens.now.list }
    ensures { (span : Span) × IsAt (terminals_of tokens.now) at span × (result ≡ statement_node number span form) }
{
    Stmt {
        number: number as u32,
        at: place(tokens, at),
        form,
    }
}

impl<F: Fn(Global, &Tokens, usize, usize) -> Result<Found<Items<Stmt>>, Unread>> Statements<F> {
    /// A `:` and a block.
    ///
    /// # Errors
    /// As `statement`.
    fn body(&self, tokens: &Tokens, room: usize, from: usize) -> Result<Found<Body>, Unread>
        requires input { IsListing tokens.now }
        requires inside { from < length tokens.now.list }
        requires nests { NestsBlocks room (F.pre self.now.block) (F.post self.now.block) }
        ensures { Reads (Body Block) Anywhere (terminals_of tokens.now) from room result }
    {
        let colon = operator(tokens, from, Operator::Colon)?;
        let found = (self.block)(self.alloc, tokens, room, colon.to)?;
        Ok(Found {
            tree: (from, found.tree),
            to: found.to,
        })
    }

    /// A keyword, a test and a block.
    ///
    /// # Errors
    /// As `statement`.
    fn guarded_block(
        &self,
        tokens: &Tokens,
        room: usize,
        from: usize,
        word: Keyword,
    ) -> Result<Found<Guarded>, Unread>
        requires input { IsListing tokens.now }
        requires inside { from < length tokens.now.list }
        requires nests { NestsBlocks room (F.pre self.now.block) (F.post self.now.block) }
        ensures { Reads (Guarded word Block) Anywhere (terminals_of tokens.now) from room result }
    {
        let word = keyword(tokens, from, word)?;
        let test = expr(self.alloc, tokens, word.to)?;
        let test_to = test.to;
        let test_tree = Boxed::new(self.alloc, test.tree)?;
        let body = self.body(tokens, room, test_to)?;
        Ok(Found {
            tree: (place(tokens, from), (test_tree.into_inner(), body.tree)),
            to: body.to,
        })
    }

    /// The `elif` parts from an index on, perhaps none.
    ///
    /// # Errors
    /// As `statement`.
    fn elifs(&self, tokens: &Tokens, room: usize, from: usize) -> Result<Found<Items<Arm>>, Unread>
        requires input { IsListing tokens.now }
        requires inside { from < length tokens.now.list }
        requires nests { NestsBlocks room (F.pre self.now.block) (F.post self.now.block) }
        ensures { Reads (Many (Of arm_of (Armed word.Elif Block))) EndsElifs (terminals_of tokens.now) from room result }
    {
        let mut tree = Items::new(self.alloc);
        let mut to = from;
        while is_keyword(tokens, to, Keyword::Elif) {
            let next = self.guarded_block(tokens, room, to, Keyword::Elif)?;
            tree.push(arm(to, next.tree))?;
            to = next.to;
        }
        Ok(Found { tree, to })
    }

    /// The `else` part at an index, if there is one.
    ///
    /// # Errors
    /// As `statement`; `Stuck` behind it too where an `elif` or `else` stands there.
    fn otherwise(
        &self,
        tokens: &Tokens,
        room: usize,
        from: usize,
    ) -> Result<Found<Option<Items<Stmt>>>, Unread>
        requires input { IsListing tokens.now }
        requires inside { from < length tokens.now.list }
        requires nests { NestsBlocks room (F.pre self.now.block) (F.post self.now.block) }
        ensures { Reads (Maybe (After (kind.Keyword word.Else) (After (kind.Operator sign.Colon) Block))) EndsArms (terminals_of tokens.now) from room result }
    {
        if !is_keyword(tokens, from, Keyword::Else) {
            return gone_on(tokens, None, from);
        }
        let body = self.body(tokens, room, from + 1)?;
        gone_on(tokens, Some(body.tree.1), body.to)
    }

    /// An `if` statement with all its parts.
    ///
    /// # Errors
    /// As `statement`.
    pub(crate) fn if_(
        &self,
        tokens: &Tokens,
        room: usize,
        from: usize,
    ) -> Result<Found<Stmt>, Unread>
        requires input { IsListing tokens.now }
        requires inside { from < length tokens.now.list }
        requires nests { NestsBlocks room (F.pre self.now.block) (F.post self.now.block) }
        ensures { Reads (If Block) EndsArms (terminals_of tokens.now) from room result }
    {
        let mut arms = room_for_one(self.alloc)?;
        let first = self.guarded_block(tokens, room, from, Keyword::If)?;
        let first_to = first.to;
        let number = first.tree.1.1.0;
        arms.push(arm(from, first.tree))?;
        let others = self.elifs(tokens, room, first_to)?;
        let otherwise = self.otherwise(tokens, room, others.to)?;
        let to = otherwise.to;
        arms.append(others.tree)?;
        let tree = compound(tokens, from, number, StmtForm::If(arms, otherwise.tree));
        Ok(Found { tree, to })
    }

    /// A `while` statement.
    ///
    /// # Errors
    /// As `statement`.
    pub(crate) fn while_(
        &self,
        tokens: &Tokens,
        room: usize,
        from: usize,
    ) -> Result<Found<Stmt>, Unread>
        requires input { IsListing tokens.now }
        requires inside { from < length tokens.now.list }
        requires nests { NestsBlocks room (F.pre self.now.block) (F.post self.now.block) }
        ensures { Reads (While Block) Anywhere (terminals_of tokens.now) from room result }
    {
        let found = self.guarded_block(tokens, room, from, Keyword::While)?;
        let to = found.to;
        let (_, (test, (number, block))) = found.tree;
        let tree = compound(tokens, from, number, StmtForm::While(test, block));
        Ok(Found { tree, to })
    }

    /// A `for` statement.
    ///
    /// # Errors
    /// As `statement`.
    pub(crate) fn for_(
        &self,
        tokens: &Tokens,
        room: usize,
        from: usize,
    ) -> Result<Found<Stmt>, Unread>
        requires input { IsListing tokens.now }
        requires inside { from < length tokens.now.list }
        requires nests { NestsBlocks room (F.pre self.now.block) (F.post self.now.block) }
        ensures { Reads (For Block) Anywhere (terminals_of tokens.now) from room result }
    {
        let word = keyword(tokens, from, Keyword::For)?;
        let target = loop_targets(self.alloc, tokens, word.to)?;
        let target_to = target.to;
        let target_tree = Boxed::new(self.alloc, target.tree)?;
        let behind = keyword(tokens, target_to, Keyword::In)?;
        let value = values(self.alloc, tokens, behind.to)?;
        let value_to = value.to;
        let value_tree = Boxed::new(self.alloc, value.tree)?;
        let body = self.body(tokens, room, value_to)?;
        let to = body.to;
        let (number, block) = body.tree;
        let form = StmtForm::For(target_tree.into_inner(), value_tree, block);
        let tree = compound(tokens, from, number, form);
        Ok(Found { tree, to })
    }

    /// A `with gil` or `with nogil` statement.
    ///
    /// # Errors
    /// As `statement`.
    pub(crate) fn with_(
        &self,
        tokens: &Tokens,
        room: usize,
        from: usize,
    ) -> Result<Found<Stmt>, Unread>
        requires input { IsListing tokens.now }
        requires inside { from < length tokens.now.list }
        requires nests { NestsBlocks room (F.pre self.now.block) (F.post self.now.block) }
        ensures { Reads (With Block) Anywhere (terminals_of tokens.now) from room result }
    {
        let word = keyword(tokens, from, Keyword::With)?;
        let takes = is_word(tokens, word.to, b"gil");
        if !takes && !is_word(tokens, word.to, b"nogil") {
            return Err(Unread::Stuck(word.to));
        }
        let body = self.body(tokens, room, word.to + 1)?;
        let to = body.to;
        let (number, block) = body.tree;
        let form = if takes {
            StmtForm::WithGil(block)
        } else {
            StmtForm::WithNogil(block)
        };
        let tree = compound(tokens, from, number, form);
        Ok(Found { tree, to })
    }
}
