ghost use Rattle.std.specs.Prelude.{◌≡◌, [], ◌∷◌, codes, drop};
ghost use Rattle.px_lexer.specs.declared.forms.Form.TheVariants as form;
ghost use Rattle.px_lexer.specs.Spellings.{meaning_in};
ghost use Rattle.px_lexer.specs.Signs.{operators, begins_sign, sign_kind};
ghost use Rattle.px_lexer.specs.SignSteps.{kind_if_sign};
ghost use Rattle.px_lexer.specs.Pieces.{form_of};
ghost use Rattle.px_lexer.specs.Readers.{IsReadAs};

use crate::characters::Characters;
use crate::readings::Found;
use crate::spelling::Operator;
use crate::token_list::TokenKind;

/// The operator of this one character.
fn single(c: u32) -> Option<Operator>
    ensures { result ≡ meaning_in operators (c ∷ []) }
{
    match char::from_u32(c)? {
        '+' => Some(Operator::Plus),
        '-' => Some(Operator::Minus),
        '*' => Some(Operator::Star),
        '%' => Some(Operator::Percent),
        '&' => Some(Operator::Ampersand),
        '|' => Some(Operator::Bar),
        '^' => Some(Operator::Caret),
        '~' => Some(Operator::Tilde),
        '<' => Some(Operator::Less),
        '>' => Some(Operator::Greater),
        '(' => Some(Operator::OpenParenthesis),
        ')' => Some(Operator::CloseParenthesis),
        '[' => Some(Operator::OpenBracket),
        ']' => Some(Operator::CloseBracket),
        '{' => Some(Operator::OpenBrace),
        '}' => Some(Operator::CloseBrace),
        ',' => Some(Operator::Comma),
        ':' => Some(Operator::Colon),
        '.' => Some(Operator::Point),
        ';' => Some(Operator::Semicolon),
        '@' => Some(Operator::At),
        '=' => Some(Operator::Equal),
        '?' => Some(Operator::Question),
        _ => None,
    }
}

/// The kind of the sign of this one character.
fn single_kind(c: u32) -> TokenKind
    ensures { result ≡ sign_kind (meaning_in operators (c ∷ [])) }
{
    match single(c) {
        Some(operator) => TokenKind::Operator(operator),
        None => TokenKind::Foreign,
    }
}

/// The kind of this character and `=` behind it, if they are a sign.
fn before_equal(c: u32) -> Option<TokenKind>
    ensures { result ≡ kind_if_sign (c ∷ codes "=") }
{
    match char::from_u32(c)? {
        '=' => Some(TokenKind::Operator(Operator::DoubleEqual)),
        '!' => Some(TokenKind::Operator(Operator::NotEqual)),
        '<' => Some(TokenKind::Operator(Operator::LessEqual)),
        '>' => Some(TokenKind::Operator(Operator::GreaterEqual)),
        '+' => Some(TokenKind::Operator(Operator::PlusEqual)),
        '-' => Some(TokenKind::Operator(Operator::MinusEqual)),
        '*' => Some(TokenKind::Operator(Operator::StarEqual)),
        '%' => Some(TokenKind::Operator(Operator::PercentEqual)),
        '&' => Some(TokenKind::Operator(Operator::AmpersandEqual)),
        '|' => Some(TokenKind::Operator(Operator::BarEqual)),
        '^' => Some(TokenKind::Operator(Operator::CaretEqual)),
        '/' => Some(TokenKind::Foreign),
        '@' => Some(TokenKind::Foreign),
        ':' => Some(TokenKind::Foreign),
        _ => None,
    }
}

/// The kind of this character twice, if that is a sign.
fn double(c: u32) -> Option<TokenKind>
    ensures { result ≡ kind_if_sign (c ∷ c ∷ []) }
{
    match char::from_u32(c)? {
        '=' => Some(TokenKind::Operator(Operator::DoubleEqual)),
        '/' => Some(TokenKind::Operator(Operator::DoubleSlash)),
        '<' => Some(TokenKind::Operator(Operator::LeftShift)),
        '>' => Some(TokenKind::Operator(Operator::RightShift)),
        '*' => Some(TokenKind::Foreign),
        _ => None,
    }
}

/// The kind of this character twice and `=` behind it, if they are a sign.
fn double_before_equal(c: u32) -> Option<TokenKind>
    ensures { result ≡ kind_if_sign (c ∷ c ∷ codes "=") }
{
    match char::from_u32(c)? {
        '/' => Some(TokenKind::Operator(Operator::DoubleSlashEqual)),
        '<' => Some(TokenKind::Operator(Operator::LeftShiftEqual)),
        '>' => Some(TokenKind::Operator(Operator::RightShiftEqual)),
        '*' => Some(TokenKind::Foreign),
        _ => None,
    }
}

/// The kind of these two characters, if they are a sign.
fn pair(first: u32, second: u32) -> Option<TokenKind>
    ensures { result ≡ kind_if_sign (first ∷ second ∷ []) }
{
    if second == u32::from(b'=') {
        return before_equal(first);
    }
    if second == first {
        return double(first);
    }
    if second == u32::from(b'>') && first == u32::from(b'-') {
        return Some(TokenKind::Foreign);
    }
    None
}

/// The kind of these three characters, if they are a sign.
fn triple(first: u32, second: u32, third: u32) -> Option<TokenKind>
    ensures { result ≡ kind_if_sign (first ∷ second ∷ third ∷ []) }
{
    if second != first {
        return None;
    }
    if third == u32::from(b'=') {
        return double_before_equal(first);
    }
    if third == u32::from(b'.') && first == u32::from(b'.') {
        return Some(TokenKind::Operator(Operator::Ellipsis));
    }
    None
}

/// Whether a sign stands at an index. Each but `!=` begins with a character that is a sign itself.
pub(crate) fn begins_sign(cs: &Characters, at: usize) -> bool
    ensures { result ≡ begins_sign (drop at cs.now) }
{
    let first = cs.code(at);
    if first == u32::from(b'!') {
        return cs.code_ahead(at, 1) == u32::from(b'=');
    }
    first == u32::from(b'/') || single(first).is_some()
}

/// The sign at an index, which is the longest that stands there. No sign breaks a rule.
pub(crate) fn sign(cs: &Characters, from: usize) -> Found
    requires { form_of (drop from cs.now) ≡ form.Sign }
    ensures { IsReadAs form.Sign cs.now from result }
{
    // The length bounds the sums.
    let _length = cs.len();
    let first = cs.code(from);
    let second = cs.code_ahead(from, 1);
    if let Some(kind) = triple(first, second, cs.code_ahead(from, 2)) {
        return Found { kind, to: from + 3 };
    }
    if let Some(kind) = pair(first, second) {
        return Found { kind, to: from + 2 };
    }
    Found {
        kind: single_kind(first),
        to: from + 1,
    }
}
