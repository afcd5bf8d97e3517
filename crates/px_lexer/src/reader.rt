ghost use Rattle.std.specs.Prelude.{◌≡◌, ◌<◌, ◌≤◌, ◌^◌, ◌++◌, ◌↔◌, List, [], ◌∷◌, ℕ, length, drop, filter, replicate, nat_lt, true, false, IsTrue, IsFalse, OnOk, Option, Some, None, if◌then◌else◌};
ghost use Rattle.px_base.specs.Troubles.{IfRefused};
ghost use Rattle.px_base.specs.Findings.{IsFirst};
ghost use Rattle.px_lexer.specs.declared.forms.Form.{Form};
ghost use Rattle.px_lexer.specs.declared.forms.Form.TheVariants as form;
ghost use Rattle.px_lexer.specs.declared.token_list.TokenKind.TheVariants as kind;
ghost use Rattle.px_lexer.specs.Signs.{is_opening, is_closing};
ghost use Rattle.px_lexer.specs.Pieces.{form_of, is_content, is_comment, is_line_end};
ghost use Rattle.px_lexer.specs.Lines.{last_level, open_levels, depth_behind, Lands};
ghost use Rattle.px_lexer.specs.Tokens.{IsTokens};
ghost use Rattle.px_lexer.specs.Readers.{Reads, EndsAt, IsReadAs};
ghost use Rattle.px_lexer.specs.Refusals.{BreaksCharacters};
ghost use Rattle.px_lexer.specs.Reached.{IsCutShort, IsEarlier, token_from, comment_from, IsStarted, IsPlace, IsNear, level_tokens, levels_behind, IsOnlyIndented, IsSource, IsReached, IsIndentationFinding};

use crate::characters::{Characters, UNREADABLE};
use crate::forms::{Form, form_at, gap_end};
use crate::numbers::number;
use crate::places::{Place, Source, indentation_from, place_at, refusal, span_of, text_start};
use crate::readings::{Breach, Found, Unread};
use crate::signs::sign;
use crate::strays::stray;
use crate::strings::string;
use crate::token_list::{Comment, Comments, Token, TokenKind, TokenList};
use crate::words::word;
use px_base::{Sequence, Trouble};
use std::alloc::{AllocError, Global};

/// How far a text is read, and what was found in it.
#[derive(Drop)]
pub struct Reader {
    /// Where the next piece stands.
    pub at: Place,
    /// Where the logical line begins.
    pub start: Place,
    /// How many brackets are open.
    pub depth: usize,
    /// Whether the line has a token.
    pub started: bool,
    /// Whether the text has a token.
    pub any_token: bool,
    /// The levels over 0 that are open.
    pub levels: Vec<usize>,
    /// The indentation of the last line that has one.
    pub last_level: usize,
    pub list: TokenList,
    pub comments: Comments,
}

/// Whether a character opens a bracket.
fn opens(code: u32) -> bool
    ensures { result ≡ is_opening (code ∷ []) }
{
    code == u32::from(b'(') || code == u32::from(b'[') || code == u32::from(b'{')
}

/// Whether a character closes a bracket.
fn closes(code: u32) -> bool
    ensures { result ≡ is_closing (code ∷ []) }
{
    code == u32::from(b')') || code == u32::from(b']') || code == u32::from(b'}')
}

/// How many brackets are open behind a piece, of so many before it.
fn depth_behind(cs: &Characters, depth: usize, from: usize, to: usize) -> usize
    requires forward { from < to }
    requires within { to ≤ length cs.now }
    requires small { depth < 2 ^ 32 }
    ensures { (form : Form) → result ≡ depth_behind cs.now depth (record { form = form; from = from; to = to }) }
{
    let code = cs.code(from);
    if to - from > 1 {
        depth
    } else if opens(code) {
        depth + 1
    } else if closes(code) {
        depth.saturating_sub(1)
    } else {
        depth
    }
}

/// The piece with content at an index.
///
/// # Errors
/// The first rule that it breaks; `NoMemory` where there is no memory for it.
fn content(alloc: Global, cs: &Characters, form: Form, from: usize) -> Result<Found, Unread>
    requires stands { form ≡ form_of (drop from cs.now) }
    requires content { IsTrue (is_content form) }
    requires inside { from < length cs.now }
    ensures { Reads form cs.now from result }
{
    match form {
        Form::Word => word(alloc, cs, from),
        Form::Number => Ok(number(cs, from)?),
        Form::Text => string(alloc, cs, from),
        Form::Sign => Ok(sign(cs, from)),
        _ => Err(Unread::Broken(stray(cs, from))),
    }
}

/// Whether a piece of this form is a token, or should be one.
fn is_content(form: Form) -> bool
    ensures { result ≡ is_content form }
{
    match form {
        Form::Blank => false,
        Form::LineEnd => false,
        Form::Join => false,
        Form::Comment => false,
        Form::Word => true,
        Form::Number => true,
        Form::Text => true,
        Form::Sign => true,
        Form::Stray => true,
    }
}

/// The one of two broken rules that comes first: by the place, and at one place by the number.
fn earlier_breach(a: Option<Breach>, b: Breach) -> Breach
    ensures { IsEarlier a b result }
{
    match a {
        Some(a) if a.at < b.at || a.at == b.at && a.rule <= b.rule => a,
        _ => b,
    }
}

/// A token of this kind from one place to before another.
fn token(kind: TokenKind, from: Place, to: Place) -> Token
    ensures { result ≡ token_from kind from to }
{
    Token {
        kind,
        at: span_of(from),
        from: from.byte,
        to: to.byte,
    }
}

/// Adds a DEDENT at a place for each of these levels that is deeper than a line of this indentation.
fn push_dedents(
    list: &mut TokenList,
    levels: &[usize],
    level: usize,
    at: Place,
) -> Result<(), AllocError>
    ensures { OnOk result (list.new
        ≡ list.old ++ replicate (length (filter (nat_lt level) levels.now)) (token_from kind.Dedent at at)) }
{
    for open in levels {
        if level < *open {
            list.push(token(TokenKind::Dedent, at, at))?;
        }
    }
    Ok(())
}

/// Whether the last character can't be read.
fn is_cut_short(cs: &Characters) -> bool
    ensures { IsTrue result ↔ (IsCutShort cs.now) }
{
    let len = cs.len();
    len > 0 && cs.code(len - 1) == UNREADABLE
}

/// Adds a comment to the leading ones, where no token stands before it.
fn keep_comment(
    comments: &mut Comments,
    any_token: bool,
    from: Place,
    to: Place,
) -> Result<(), AllocError>
    ensures { OnOk result (comments.new ≡ comments.old ++ (if any_token then [] else comment_from from to ∷ [])) }
{
    if !any_token {
        comments.push(Comment {
            at: span_of(from),
            from: from.byte,
            to: to.byte,
        })?;
    }
    Ok(())
}

/// Adds the NEWLINE of a line, where it has a token.
fn push_newline(
    list: &mut TokenList,
    started: bool,
    from: Place,
    to: Place,
) -> Result<(), AllocError>
    ensures { OnOk result (list.new ≡ list.old ++ (if started then token_from kind.Newline from to ∷ [] else [])) }
{
    if started {
        list.push(token(TokenKind::Newline, from, to))?;
    }
    Ok(())
}

impl Reader {
    /// A reader at the start of a text.
    pub(crate) fn new(alloc: Global, source: &Source) -> Reader
        requires { IsSource source.now }
        ensures reached { IsReached source.now.text.now result }
        ensures start { result.at.index ≡ 0 }
    {
        let start = text_start(source);
        Reader {
            at: start,
            start,
            depth: 0,
            started: false,
            any_token: false,
            levels: Vec::new(alloc),
            last_level: 0,
            list: Sequence::new(alloc),
            comments: Sequence::new(alloc),
        }
    }

    /// The rule that the indentation of the line breaks, if it does and no piece with content was read on the line.
    fn indentation_breach(&self, cs: &Characters) -> Option<Breach>
        requires { self.now.start.index ≤ length cs.now }
        ensures started { self.now.started ≡ true → result ≡ None }
        ensures finding { (levels : List ℕ) → self.now.levels.items ≡ open_levels levels
            → self.now.last_level ≡ last_level levels → self.now.started ≡ false
            → IsIndentationFinding cs.now levels self.now.start.index result }
    {
        if self.started {
            return None;
        }
        let indentation = indentation_from(cs, self.start.index);
        let at = indentation.end;
        let code = cs.code(at);
        if code == u32::from(b'\x0C') {
            Some(Breach { rule: 2, at })
        } else if code == u32::from(b'\t') || !self.lands(indentation.level) {
            Some(Breach { rule: 3, at })
        } else {
            None
        }
    }

    /// Whether the next line may have this indentation.
    fn lands(&self, level: usize) -> bool
        ensures { (levels : List ℕ) → self.now.levels.items ≡ open_levels levels
            → self.now.last_level ≡ last_level levels → IsTrue result ↔ (Lands levels level) }
    {
        self.last_level < level || level == 0 || self.levels.contains(&level)
    }

    /// Goes over a piece that gives nothing.
    fn skip(&mut self, source: &Source, form: Form, to: usize)
        requires whole { IsSource source.now }
        requires reached { IsReached source.now.text.now self.old }
        requires stands { form ≡ form_of (drop self.old.at.index source.now.characters) }
        requires ends { EndsAt form source.now.characters self.old.at.index to }
        requires gap { IsFalse (is_content form) }
        requires no_comment { IsFalse (is_comment form) }
        requires goes_on { IsTrue (is_line_end form) → 0 < self.old.depth }
        ensures reached { IsReached source.now.text.now self.new }
        ensures there { self.new.at.index ≡ to }
    {
        self.at = place_at(source, self.at, to);
    }

    /// Reads a comment, and keeps it where no token stands before it.
    fn read_comment(&mut self, source: &Source, to: usize) -> Result<(), AllocError>
        requires whole { IsSource source.now }
        requires reached { IsReached source.now.text.now self.old }
        requires stands { form.Comment ≡ form_of (drop self.old.at.index source.now.characters) }
        requires ends { EndsAt form.Comment source.now.characters self.old.at.index to }
        ensures reached { OnOk result (IsReached source.now.text.now self.new) }
        ensures there { OnOk result (self.new.at.index ≡ to) }
    {
        let end = place_at(source, self.at, to);
        keep_comment(&mut self.comments, self.any_token, self.at, end)?;
        self.at = end;
        Ok(())
    }

    /// Reads the line end that ends the logical line.
    fn end_line(&mut self, source: &Source, to: usize) -> Result<(), AllocError>
        requires whole { IsSource source.now }
        requires reached { IsReached source.now.text.now self.old }
        requires stands { form.LineEnd ≡ form_of (drop self.old.at.index source.now.characters) }
        requires ends { EndsAt form.LineEnd source.now.characters self.old.at.index to }
        requires outside { self.old.depth ≡ 0 }
        ensures reached { OnOk result (IsReached source.now.text.now self.new) }
        ensures there { OnOk result (self.new.at.index ≡ to) }
    {
        let end = place_at(source, self.at, to);
        push_newline(&mut self.list, self.started, self.at, end)?;
        self.at = end;
        self.start = end;
        self.started = false;
        Ok(())
    }

    /// Adds the tokens that tell of the indentation of a line, which is `level` and ends at a place.
    fn open_line(&mut self, level: usize, at: Place) -> Result<(), AllocError>
        ensures list { OnOk result (self.new.list
            ≡ self.old.list ++ level_tokens self.old.last_level self.old.levels.items level at) }
        ensures levels { OnOk result (self.new.levels.items ≡ levels_behind self.old.levels.items level) }
        ensures last { OnOk result (self.new.last_level ≡ level) }
        ensures rest { OnOk result (IsOnlyIndented self.old self.new) }
    {
        if level > self.last_level {
            self.list.push(token(TokenKind::Indent, at, at))?;
        }
        push_dedents(&mut self.list, &self.levels, level, at)?;
        self.levels.retain(|open| *open < level);
        if level > 0 {
            self.levels.push(level)?;
        }
        self.last_level = level;
        Ok(())
    }

    /// Adds the tokens that tell of the indentation of the line, where no piece with content was read on it.
    fn start_line(&mut self, source: &Source) -> Result<(), AllocError>
        requires whole { IsSource source.now }
        requires there { IsPlace source.now.text.now self.old.start }
        requires near { IsNear self.old.start }
        requires within { self.old.start.index ≤ length source.now.characters }
        ensures { OnOk result (IsStarted source.now.text.now self.old self.new) }
    {
        if self.started {
            return Ok(());
        }
        let indentation = indentation_from(&source.characters, self.start.index);
        let at = place_at(source, self.start, indentation.end);
        self.open_line(indentation.level, at)?;
        Ok(())
    }

    /// Adds a piece that is a token.
    fn add_token(&mut self, source: &Source, form: Form, found: Found) -> Result<(), AllocError>
        requires whole { IsSource source.now }
        requires reached { IsReached source.now.text.now self.old }
        requires inside { self.old.at.index < length source.now.characters }
        requires stands { form ≡ form_of (drop self.old.at.index source.now.characters) }
        requires content { IsTrue (is_content form) }
        requires found { IsReadAs form source.now.characters self.old.at.index found }
        requires indented { self.old.started ≡ false → (levels : List ℕ) → self.old.levels.items ≡ open_levels levels
            → self.old.last_level ≡ last_level levels
            → IsIndentationFinding source.now.characters levels self.old.start.index None }
        ensures reached { OnOk result (IsReached source.now.text.now self.new) }
        ensures there { OnOk result (self.new.at.index ≡ found.to) }
    {
        let at = self.at;
        let end = place_at(source, at, found.to);
        let depth = depth_behind(&source.characters, self.depth, at.index, end.index);
        self.start_line(source)?;
        self.list.push(token(found.kind, at, end))?;
        self.depth = depth;
        self.at = end;
        self.started = true;
        self.any_token = true;
        Ok(())
    }

    /// Reads a piece that is a token, or should be one.
    fn read_content(&mut self, alloc: Global, source: &Source, form: Form) -> Result<(), Trouble>
        requires whole { IsSource source.now }
        requires reached { IsReached source.now.text.now self.old }
        requires inside { self.old.at.index < length source.now.characters }
        requires stands { form ≡ form_of (drop self.old.at.index source.now.characters) }
        requires content { IsTrue (is_content form) }
        ensures read { OnOk result (IsReached source.now.text.now self.new) }
        ensures forward { OnOk result (self.old.at.index < self.new.at.index) }
        ensures refused { IfRefused result (λ refusal. IsFirst (BreaksCharacters source.now.characters) (Some refusal)) }
    {
        let misindented = self.indentation_breach(&source.characters);
        match content(alloc, &source.characters, form, self.at.index) {
            Ok(found) => match misindented {
                Some(breach) => Err(refusal(source, self.start, breach)),
                None => {
                    self.add_token(source, form, found)?;
                    Ok(())
                }
            },
            Err(Unread::Broken(breach)) => Err(refusal(
                source,
                self.start,
                earlier_breach(misindented, breach),
            )),
            Err(Unread::NoMemory) => Err(Trouble::NoMemory),
        }
    }

    /// Reads the next piece.
    ///
    /// # Errors
    /// The first rule that the text breaks, where it breaks one up to the end of the piece; `NoMemory` where there is no
    /// memory for what is found.
    pub(crate) fn read_piece(&mut self, alloc: Global, source: &Source) -> Result<(), Trouble>
        requires whole { IsSource source.now }
        requires reached { IsReached source.now.text.now self.old }
        requires inside { self.old.at.index < length source.now.characters }
        ensures read { OnOk result (IsReached source.now.text.now self.new) }
        ensures forward { OnOk result (self.old.at.index < self.new.at.index) }
        ensures refused { IfRefused result (λ refusal. IsFirst (BreaksCharacters source.now.characters) (Some refusal)) }
    {
        let from = self.at.index;
        let form = form_at(&source.characters, from);
        if is_content(form) {
            return self.read_content(alloc, source, form);
        }
        let to = gap_end(&source.characters, form, from);
        match form {
            Form::Comment => self.read_comment(source, to)?,
            Form::LineEnd if self.depth == 0 => self.end_line(source, to)?,
            _ => self.skip(source, form, to),
        }
        Ok(())
    }

    /// Ends the text, which is read.
    ///
    /// # Errors
    /// E1 where its end can't be read; `AllocError` where there is no memory for its last tokens.
    pub(crate) fn finish(&mut self, source: &Source) -> Result<(), Trouble>
        requires whole { IsSource source.now }
        requires reached { IsReached source.now.text.now self.old }
        requires all { self.old.at.index ≡ length source.now.characters }
        ensures accepted { OnOk result (IsTokens source.now.text.now self.new.list self.new.comments) }
        ensures clean { OnOk result (IsFirst (BreaksCharacters source.now.characters) None) }
        ensures refused { IfRefused result (λ refusal. IsFirst (BreaksCharacters source.now.characters) (Some refusal)) }
    {
        if is_cut_short(&source.characters) {
            let breach = Breach {
                rule: 1,
                at: source.characters.len() - 1,
            };
            return Err(refusal(source, text_start(source), breach));
        }
        push_newline(&mut self.list, self.started, self.at, self.at)?;
        push_dedents(&mut self.list, &self.levels, 0, self.at)?;
        self.list.push(token(TokenKind::End, self.at, self.at))?;
        Ok(())
    }
}
