//! Rows of the lines that tell of refusals and faults.
use crate::rows::{Row, Unjudged};
use px_base::{Chars, Fault, Kind, NoMemory, Refusal, Said, fault_line, refusal_line, utf8};

/// A number that fits into 8 bits.
fn small(row: &mut Row, number: u64) -> u8 {
    match u8::try_from(number) {
        Ok(small) => small,
        Err(_) => {
            row.leave(Unjudged::NoRow);
            0
        }
    }
}

/// A number that fits into 32 bits.
fn middling(row: &mut Row, number: u64) -> u32 {
    match u32::try_from(number) {
        Ok(middling) => middling,
        Err(_) => {
            row.leave(Unjudged::NoRow);
            0
        }
    }
}

/// A refusal with this number at this line and column.
pub fn refusal_with(row: &mut Row, number: u64, line: u64, column: u64) -> Refusal {
    Refusal {
        number: small(row, number),
        line: middling(row, line),
        column: middling(row, column),
    }
}

/// Gives a line.
fn show(row: &mut Row, line: Result<Chars, NoMemory>) {
    match line {
        Ok(line) => row.line(utf8(row.alloc(), &line)),
        Err(NoMemory) => row.leave(Unjudged::NoMemory),
    }
}

/// A file, the number, line and column of a refusal, and its line.
pub fn refusal_row(row: &mut Row) {
    let file = row.field();
    let number = row.number();
    let line = row.number();
    let column = row.number();
    let refusal = refusal_with(row, number, line, column);
    show(row, refusal_line(row.alloc(), file, &refusal));
}

/// The words of the kinds of faults.
const KINDS: [(&str, Kind); 14] = [
    ("IndexError", Kind::IndexError),
    ("ValueError", Kind::ValueError),
    ("ZeroDivisionError", Kind::ZeroDivisionError),
    ("OverflowError", Kind::OverflowError),
    ("TypeError", Kind::TypeError),
    ("KeyError", Kind::KeyError),
    ("EOFError", Kind::EOFError),
    ("NameError", Kind::NameError),
    ("UnboundLocalError", Kind::UnboundLocalError),
    ("AttributeError", Kind::AttributeError),
    ("RuntimeError", Kind::RuntimeError),
    ("RecursionError", Kind::RecursionError),
    ("OverlapError", Kind::OverlapError),
    ("LimitError", Kind::LimitError),
];

/// Reads what a fault says: `row NUMBER`, `axis NUMBER` or `own TEXT`.
fn said(row: &mut Row) -> Said {
    let (form, text) = row.field().split_once(' ').unwrap_or(("", ""));
    match form {
        "own" => Said::Own(row.characters_of(text)),
        "axis" => {
            let number = row.number_of(text);
            Said::Axis(small(row, number))
        }
        _ => {
            let number = row.number_of(if form == "row" { text } else { "" });
            Said::Row(small(row, number))
        }
    }
}

/// The kind of a fault, what it says, and its line.
pub fn fault_row(row: &mut Row) {
    let kind = row.one_of(&KINDS, Kind::IndexError);
    let said = said(row);
    let fault = Fault { kind, said };
    show(row, fault_line(row.alloc(), &fault));
}
