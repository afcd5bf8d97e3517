ghost use Rattle.std.specs.Prelude.{◌≡◌, IfOk, encode_utf8_all, string_bytes};
ghost use Rattle.px_base.specs.Lines.{rule_texts, row_texts, text_at, refusal_text, kind_name, axis_text, said_text, fault_text};

use crate::faults::{Fault, Kind, Said};
use crate::refusals::{NoMemory, Refusal};
use crate::sequences::{Bytes, Chars, Sequence};
use std::alloc::{AllocError, Global};

/// The line `FILE:LINE:COLUMN: ENUMBER TEXT` of a refusal, without a line end.
///
/// # Errors
/// `NoMemory` where there is no memory for the line.
pub fn refusal_line(alloc: Global, file: &str, refusal: &Refusal) -> Result<Chars, NoMemory>
    ensures { IfOk result (λ line. encode_utf8_all line ≡ refusal_text file.now refusal.now) }
{
    let text = text_of_rule(refusal.number);
    let space = if text.is_empty() { "" } else { " " };
    let Refusal {
        number,
        line,
        column,
    } = *refusal;
    let whole = format!(in alloc; "{file}:{line}:{column}: E{number}{space}{text}")?;
    Ok(characters(alloc, whole.as_str())?)
}

/// The line `KIND: TEXT` of a fault, or `KIND` alone where the text is empty, without a line end.
///
/// # Errors
/// `NoMemory` where there is no memory for the line.
pub fn fault_line(alloc: Global, fault: &Fault) -> Result<Chars, NoMemory>
    ensures { IfOk result (λ line. encode_utf8_all line ≡ fault_text fault.now) }
{
    let kind = name_of_kind(fault.kind);
    let said = text_of_said(alloc, fault.kind, &fault.said)?;
    let colon = if said.is_empty() { "" } else { ": " };
    let whole = format!(in alloc; "{kind}{colon}{said}")?;
    Ok(characters(alloc, whole.as_str())?)
}

/// The characters in UTF-8.
///
/// # Errors
/// `NoMemory` where there is no memory for the bytes.
pub fn utf8(alloc: Global, chars: &Chars) -> Result<Bytes, NoMemory>
    ensures { IfOk result (λ bytes. bytes ≡ encode_utf8_all chars.now) }
{
    let text = text_of(alloc, chars)?;
    Ok(Sequence::from_vec(text.into_bytes()))
}

fn text_of(alloc: Global, chars: &Chars) -> Result<String, AllocError>
    ensures { IfOk result (λ text. string_bytes text ≡ encode_utf8_all chars.now) }
{
    chars.as_slice().iter().copied().collect(alloc)
}

fn characters(alloc: Global, text: &str) -> Result<Chars, AllocError>
    ensures { IfOk result (λ chars. encode_utf8_all chars ≡ text.now) }
{
    let chars = text.chars().collect(alloc)?;
    Ok(Sequence::from_vec(chars))
}

fn text_of_said(alloc: Global, kind: Kind, said: &Said) -> Result<String, AllocError>
    ensures { IfOk result (λ text. string_bytes text ≡ said_text kind said.now) }
{
    match said {
        Said::Row(row) => String::from_str(alloc, text_of_row(*row)),
        Said::Axis(axis) => {
            let wrong = text_of_axis(kind);
            format!(in alloc; "{wrong} (axis {axis})")
        }
        Said::Own(text) => text_of(alloc, text),
    }
}

fn name_of_kind(kind: Kind) -> &'static str
    ensures { result.now ≡ kind_name kind }
{
    match kind {
        Kind::IndexError => "IndexError",
        Kind::ValueError => "ValueError",
        Kind::ZeroDivisionError => "ZeroDivisionError",
        Kind::OverflowError => "OverflowError",
        Kind::TypeError => "TypeError",
        Kind::KeyError => "KeyError",
        Kind::EOFError => "EOFError",
        Kind::NameError => "NameError",
        Kind::UnboundLocalError => "UnboundLocalError",
        Kind::AttributeError => "AttributeError",
        Kind::RuntimeError => "RuntimeError",
        Kind::RecursionError => "RecursionError",
        Kind::OverlapError => "OverlapError",
        Kind::LimitError => "LimitError",
    }
}

fn text_of_axis(kind: Kind) -> &'static str
    ensures { result.now ≡ axis_text kind }
{
    match kind {
        Kind::ValueError => "step of zero",
        _ => "index out of range",
    }
}

#[tactic(auto, unfolding(crate::specs::Lines::rule_texts))]
fn text_of_rule(number: u8) -> &'static str
    ensures { result.now ≡ text_at rule_texts number }
{
    match number {
        0 => "",
        1 => "not UTF-8",
        2 => "bad character, name or number",
        3 => "bad indentation",
        4 => "string not ended",
        5 => "syntax",
        6 => "nested too deep",
        7 => "text too large",
        8 => "float literal",
        9 => "literal too wide",
        10 => "unknown name",
        11 => "name defined twice",
        12 => "types do not fit",
        13 => "wrong number of arguments",
        14 => "object step without the lock",
        15 => "call without the lock",
        16 => "wrong lock change",
        17 => "parallel loop with the lock held",
        18 => "reduction variable read",
        19 => "mixed reduction operators",
        20 => "loop index assigned",
        21 => "private variable read before it is assigned",
        22 => "indeterminate variable read",
        23 => "writes may overlap",
        24 => "view or object assigned in a parallel loop",
        25 => "nested parallel loop",
        26 => "lock released in a section",
        27 => "not in this language",
        _ => "",
    }
}

#[tactic(auto, unfolding(crate::specs::Lines::row_texts))]
fn text_of_row(row: u8) -> &'static str
    ensures { result.now ≡ text_at row_texts row }
{
    match row {
        0 => "",
        1 => "division by zero",
        2 => "value too large",
        3 => "division overflows",
        4 => "int over 128 bits",
        5 => "shift count out of range",
        6 => "negative shift count",
        7 => "step of zero",
        8 => "team size out of range",
        9 => "chunk size below one",
        10 => "loop index does not fit",
        11 => "too many iterations",
        12 => "too many elements",
        13 => "output too long",
        14 => "index leaves its range",
        15 => "views of a parallel loop overlap",
        16 => "view shapes differ",
        17 => "view is not contiguous",
        18 => "buffer format differs",
        19 => "bad array arguments",
        20 => "an integer is required",
        21 => "operands do not fit",
        22 => "wrong kind of object",
        23 => "not hashable",
        24 => "index out of range",
        25 => "no such method",
        26 => "local variable not assigned",
        27 => "name not assigned",
        28 => "end of input",
        29 => "invalid literal for int()",
        30 => "input is not UTF-8",
        31 => "too many levels",
        32 => "wrong number of values to unpack",
        33 => "empty argument",
        34 => "too many objects",
        _ => "",
    }
}
