//! Blocks. The functions that read compound statements take the reader of blocks as a parameter, so that each is proved by itself.

ghost use Rattle.std.specs.Prelude.{◌≡◌, ◌<◌, ◌≤◌, [], ◌∷◌, length, MatchOption, MatchResult, suc};
ghost use Rattle.px_exprs.specs.declared.readings.Unread.TheVariants.{NoMemory};
ghost use Rattle.px_lexer.specs.declared.token_list.TokenKind.TheVariants as kind;
ghost use Rattle.px_lexer.specs.Terminals.{terminals_of, HasKind};
ghost use Rattle.px_exprs.specs.Runs.{nesting_limit};
ghost use Rattle.px_exprs.specs.Words.{IsStuckAt};
ghost use Rattle.px_parser.specs.Blocks.{NestsBlocks};
ghost use Rattle.px_parser.specs.Ends.{EndsArms, EndsSimple, IsBefore};
ghost use Rattle.px_parser.specs.Listings.{IsListing};
ghost use Rattle.px_parser.specs.Readings.{HasWay, Reads, IsUnread, Anywhere};
ghost use Rattle.px_parser.specs.StatementGrammar.{Simple, Block, Statement, StatementsWith, IndentedWith};

use crate::exprs::NESTING_LIMIT;
use crate::readings::Found;
use crate::simple::{line, simple};
use crate::variables::declare;
use crate::words::{dedent, indent, is_dedent, is_indent, is_newline, newline};
use px_exprs::readings::Unread;
use px_lexer::access::{is_keyword, place};
use px_lexer::{Keyword, Tokens};
use px_tree::{Stmt, room_for_one};
use sqlite_items::Items;
use std::alloc::Global;

/// The readers of the parts of a compound statement. `room` is the number of blocks that may stand round a token.
#[derive(Clone, Copy)]
pub(crate) struct Statements<F> {
    pub(crate) alloc: Global,
    /// Reads a block.
    pub(crate) block: F,
}

/// One statement.
pub(crate) fn alone<T: Drop>(alloc: Global, statement: T) -> Result<Items<T>, Unread>
    ensures { MatchResult result (λ all. all ≡ statement ∷ []) (λ unread. unread ≡ NoMemory) }
{
    let mut all = room_for_one(alloc)?;
    all.push(statement)?;
    Ok(all)
}

/// What was read, where no `elif` or `else` stands behind it.
///
/// # Errors
/// `Stuck` where one does.
pub(crate) fn gone_on<T: Drop>(tokens: &Tokens, tree: T, to: usize) -> Result<Found<T>, Unread>
    ensures { MatchResult result
        (λ found. (found.tree ≡ tree) × (found.to ≡ to) × EndsArms (terminals_of tokens.now) to)
        (λ unread. IsStuckAt to unread × (EndsArms (terminals_of tokens.now) to → ⊥)) }
{
    if is_keyword(tokens, to, Keyword::Elif) || is_keyword(tokens, to, Keyword::Else) {
        Err(Unread::Stuck(to))
    } else {
        Ok(Found { tree, to })
    }
}

impl<F: Fn(Global, &Tokens, usize, usize) -> Result<Found<Items<Stmt>>, Unread>> Statements<F> {
    /// The statement from an index on, or the simple statements of a line.
    ///
    /// # Errors
    /// `Stuck` or `TooDeep` at the first such token; `NoMemory` where there is no memory for the tree.
    fn statement(
        &self,
        tokens: &Tokens,
        room: usize,
        from: usize,
    ) -> Result<Found<Items<Stmt>>, Unread>
        requires input { IsListing tokens.now }
        requires inside { from < length tokens.now.list }
        requires nests { NestsBlocks room (F.pre self.now.block) (F.post self.now.block) }
        ensures { Reads Statement EndsArms (terminals_of tokens.now) from room result }
    {
        let found = if is_keyword(tokens, from, Keyword::If) {
            self.if_(tokens, room, from)?
        } else if is_keyword(tokens, from, Keyword::While) {
            self.while_(tokens, room, from)?
        } else if is_keyword(tokens, from, Keyword::For) {
            self.for_(tokens, room, from)?
        } else if is_keyword(tokens, from, Keyword::With) {
            self.with_(tokens, room, from)?
        } else if is_keyword(tokens, from, Keyword::Cdef) {
            declare(self.alloc, tokens, from)?
        } else {
            let found = line(self.alloc, tokens, from)?;
            return gone_on(tokens, found.tree, found.to);
        };
        gone_on(tokens, alone(self.alloc, found.tree)?, found.to)
    }

    /// The statements from an index on, one or more, up to the end of their level of indentation.
    ///
    /// # Errors
    /// As `statement`.
    fn statements(
        &self,
        tokens: &Tokens,
        room: usize,
        from: usize,
    ) -> Result<Found<Items<Stmt>>, Unread>
        requires input { IsListing tokens.now }
        requires inside { from < length tokens.now.list }
        requires nests { NestsBlocks room (F.pre self.now.block) (F.post self.now.block) }
        ensures { Reads (StatementsWith Block) (IsBefore kind.Dedent) (terminals_of tokens.now) from room result }
    {
        let mut tree = Items::new(self.alloc);
        let first = self.statement(tokens, room, from)?;
        tree.append(first.tree)?;
        let mut to = first.to;
        while !is_dedent(tokens, to) {
            let next = self.statement(tokens, room, to)?;
            tree.append(next.tree)?;
            to = next.to;
        }
        Ok(Found { tree, to })
    }

    /// The block on lines of its own from the end of its header's line on.
    ///
    /// # Errors
    /// As `statement`.
    fn indented_block(
        &self,
        tokens: &Tokens,
        room: usize,
        from: usize,
    ) -> Result<Found<Items<Stmt>>, Unread>
        requires input { IsListing tokens.now }
        requires inside { from < length tokens.now.list }
        requires nests { NestsBlocks room (F.pre self.now.block) (F.post self.now.block) }
        ensures { Reads (IndentedWith Block) Anywhere (terminals_of tokens.now) from room result }
    {
        let end = newline(tokens, from)?;
        let deeper = indent(tokens, end.to)?;
        let found = self.statements(tokens, room, deeper.to)?;
        let closing = dedent(tokens, found.to)?;
        Ok(Found {
            tree: found.tree,
            to: closing.to,
        })
    }
}

/// Why no block is read where none may stand round a token and a line ends. At the end of a text the end of a line may stand at the
/// place of the next token, with which no block goes on: then it is that token.
fn no_room_behind_line(tokens: &Tokens, from: usize) -> Unread
    requires input { IsListing tokens.now }
    requires newline { HasKind (terminals_of tokens.now) from kind.Newline }
    ensures { IsUnread Block Anywhere (terminals_of tokens.now) from 0 result }
{
    if is_indent(tokens, from + 1) {
        return Unread::TooDeep(from);
    }
    if place(tokens, from) == place(tokens, from + 1) {
        Unread::Stuck(from + 1)
    } else {
        Unread::TooDeep(from)
    }
}

/// The token at which a simple statement isn't read, if it isn't.
fn block_refusal(alloc: Global, tokens: &Tokens, from: usize) -> Option<Unread>
    requires input { IsListing tokens.now }
    requires inside { from < length tokens.now.list }
    ensures { MatchOption result (HasWay Simple (terminals_of tokens.now) from (suc from)) (λ unread. IsUnread Simple EndsSimple (terminals_of tokens.now) from 0 unread) }
{
    simple(alloc, tokens, from).err()
}

/// Why no block is read where none may stand round a token.
fn no_room(alloc: Global, tokens: &Tokens, from: usize) -> Unread
    requires input { IsListing tokens.now }
    requires inside { from < length tokens.now.list }
    ensures { IsUnread Block Anywhere (terminals_of tokens.now) from 0 result }
{
    if is_newline(tokens, from) {
        return no_room_behind_line(tokens, from);
    }
    let Some(unread) = block_refusal(alloc, tokens, from) else {
        return Unread::TooDeep(from);
    };
    match unread {
        Unread::NoMemory => Unread::NoMemory,
        Unread::TooDeep(_) => Unread::TooDeep(from),
        Unread::Stuck(at) => {
            if at == from {
                Unread::Stuck(from)
            } else {
                Unread::TooDeep(from)
            }
        }
    }
}

/// The block from an index on, behind the `:` of its header.
///
/// # Errors
/// `Stuck` or `TooDeep` at the first such token; `NoMemory` where there is no memory for the tree.
pub(crate) fn block(
    alloc: Global,
    tokens: &Tokens,
    room: usize,
    from: usize,
) -> Result<Found<Items<Stmt>>, Unread>
    requires input { IsListing tokens.now }
    requires inside { from < length tokens.now.list }
    requires bounded { room ≤ nesting_limit }
    ensures { Reads Block Anywhere (terminals_of tokens.now) from room result }
{
    if room == 0 {
        return Err(no_room(alloc, tokens, from));
    }
    if is_newline(tokens, from) {
        let readers = Statements { alloc, block };
        readers.indented_block(tokens, room - 1, from)
    } else {
        line(alloc, tokens, from)
    }
}

/// The statement from an index on in a module, or the simple statements of a line.
///
/// # Errors
/// As `block`.
pub(crate) fn statement(
    alloc: Global,
    tokens: &Tokens,
    from: usize,
) -> Result<Found<Items<Stmt>>, Unread>
    requires input { IsListing tokens.now }
    requires inside { from < length tokens.now.list }
    ensures { Reads Statement EndsArms (terminals_of tokens.now) from nesting_limit result }
{
    let readers = Statements { alloc, block };
    readers.statement(tokens, NESTING_LIMIT, from)
}
